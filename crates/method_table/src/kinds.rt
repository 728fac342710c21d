//! The types of methods, one for each text.

ghost use Rattle.std.specs.Prelude.{◌≡◌, IfOk, map, option_map};
ghost use Rattle.link_rules.specs.Names.{program_names};
ghost use Rattle.named_types.specs.Methods.{method_type};
ghost use Rattle.method_table.specs.Called.{kind_in};

use class_texts::ClassTexts;
use link_types::MethodType;
use named_types::NamedTypes;
use std::alloc::{AllocError, Global};

/// For each text the type of the methods that have it as their descriptor, which takes memory for each parameter; a
/// text that is no such descriptor has a type without parameters and result.
pub fn method_types(
    alloc: Global,
    texts: &ClassTexts<'_>,
    types: &NamedTypes<'_, '_>,
) -> Result<Vec<MethodType>, AllocError>
    ensures { IfOk result (λ kinds. kinds.items ≡ map (method_type (program_names types.now)) texts.now.texts) }
{
    let mut kinds = Vec::new(alloc);
    for text in texts.all() {
        kinds.push(types.method_type(alloc, text)?)?;
    }
    Ok(kinds)
}

/// The type of the number of a text, from 1.
pub fn kind_at(kinds: &[MethodType], number: u32) -> Option<&MethodType>
    ensures { option_map (λ k. k.now) result ≡ kind_in kinds.now number }
{
    let place = number.checked_sub(1)?;
    kinds.get(place as usize)
}
