//! The types of texts as descriptors of fields.

ghost use Rattle.std.specs.Prelude.{◌≡◌, ◌≢◌, ◌-◌, List, ℕ, IfOk, map, slice_get};
ghost use Rattle.std.specs.Option.{option_flatten};
ghost use Rattle.class_texts.specs.Texts.{ProgramTexts};
ghost use Rattle.text_numbers.specs.Numbers.{number_of};
ghost use Rattle.operand_table.specs.FieldTypes.{field_type, AreFieldTypes};

use class_texts::ClassTexts;
use link_types::ValueType;
use named_types::NamedTypes;
use std::alloc::{AllocError, Global};

/// For each text of a program the type of a field of that descriptor, where it is one (JVMS 4.3.2).
#[derive(Drop)]
pub struct FieldTypes {
    types: Vec<Option<ValueType>>,
}

fn type_at(types: &[Option<ValueType>], place: usize) -> Option<ValueType>
    ensures { result ≡ option_flatten (slice_get types.now place) }
{
    types.get(place).copied().flatten()
}

impl FieldTypes {
    /// Looks at each text once. It fails only when memory runs out.
    pub fn new(
        alloc: Global,
        texts: &ClassTexts<'_>,
        types: &NamedTypes<'_, '_>,
    ) -> Result<Self, AllocError>
        requires { types.now ≡ texts.now.units }
        ensures { IfOk result (λ types. AreFieldTypes texts.now types) }
    {
        let mut of_texts = Vec::new(alloc);
        for text in texts.all() {
            of_texts.push(types.field_type(text))?;
        }
        Ok(FieldTypes { types: of_texts })
    }

    /// The type of a field by the number of its descriptor's text; `None` of a float or a double, and where the text is
    /// no such descriptor. Takes no memory, and no time to speak of.
    pub fn of(&self, descriptor: u32) -> Option<ValueType>
        requires { descriptor ≢ 0 }
        ensures { (p : ProgramTexts) → AreFieldTypes p self.now → (text : List ℕ) → descriptor ≡ number_of p.texts text → result ≡ field_type p.units text }
    {
        type_at(&self.types, descriptor as usize - 1)
    }
}
