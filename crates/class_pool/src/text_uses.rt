//! What the texts of the pool may be used as: found once for each, however many classes and members name it.

ghost use Rattle.std.specs.Prelude.{◌≡◌, ◌<◌, ℕ, List, Some, IfOk, MatchOption, length, slice_get};
ghost use Rattle.class_walk.specs.declared.class.Constant.TheVariants.{Utf8};
ghost use Rattle.class_pool.specs.PoolRules.{IsText};
ghost use Rattle.class_pool.specs.TextUses.{IsUseOf, AreUsesOf, IsUseAt};

use crate::lookup::is_text_at;
use class_names::{
    ParameterSize, is_class_name, is_field_descriptor, is_member_name, is_method_name,
    parameter_size,
};
use class_walk::Constant;
use std::alloc::{AllocError, Global};
use std::marker::Model;

/// What a text may be used as.
#[derive(Clone, Copy)]
pub struct TextUse {
    pub is_class_name: bool,
    pub is_member_name: bool,
    pub is_method_name: bool,
    pub is_field_type: bool,
    /// The size of its parameters, where it is the descriptor of a method.
    pub parameters: Option<ParameterSize>,
}

/// A constant pool, with what its texts may be used as. Contracts see the pool.
#[derive(Drop)]
pub struct Pool<'a> {
    constants: &'a [Constant],
    uses: Vec<TextUse>,
}

impl<'a> Model for Pool<'a> {
    ghost use Rattle.std.specs.Prelude.{List};
    ghost use Rattle.class_walk.specs.declared.class.Constant.{Constant};
    ghost use Rattle.class_pool.specs.TextUses.{AreUsesOf};

    ghost Value = { List Constant };

    ghost view = { λ p. p.constants.now };

    ghost invariant = { λ p. AreUsesOf p.constants.now p.uses.items };
}

fn use_of(text: &[u8]) -> TextUse
    ensures { IsUseOf text.now result }
{
    TextUse {
        is_class_name: is_class_name(text),
        is_member_name: is_member_name(text),
        is_method_name: is_method_name(text),
        is_field_type: is_field_descriptor(text),
        parameters: parameter_size(text),
    }
}

/// What the text of an entry may be used as; an entry of another kind has none.
fn use_of_entry(constant: &Constant) -> TextUse
    ensures { (text : List ℕ) → constant.now ≡ Utf8 text → IsUseOf text result }
{
    match constant {
        Constant::Utf8(text) => use_of(text.as_slice()),
        _ => TextUse {
            is_class_name: false,
            is_member_name: false,
            is_method_name: false,
            is_field_type: false,
            parameters: None,
        },
    }
}

/// For each entry of the pool what its text may be used as.
fn all_uses(alloc: Global, pool: &[Constant]) -> Result<Vec<TextUse>, AllocError>
    ensures { IfOk result (λ uses. AreUsesOf pool.now uses.items) }
{
    let mut uses = Vec::new(alloc);
    for constant in pool {
        uses.push(use_of_entry(constant))?;
    }
    Ok(uses)
}

fn item(uses: &[TextUse], index: u16) -> TextUse
    requires { index < length uses.now }
    ensures { slice_get uses.now index ≡ Some result }
{
    uses[usize::from(index)]
}

/// What the text at an index may be used as.
fn use_in(pool: &[Constant], uses: &[TextUse], index: u16) -> Option<TextUse>
    requires { AreUsesOf pool.now uses.now }
    ensures { MatchOption result (¬ IsText pool.now index) (IsUseAt pool.now index) }
{
    if is_text_at(pool, index) {
        Some(item(uses, index))
    } else {
        None
    }
}

impl<'a> Pool<'a> {
    /// Looks at each text once. Fails only where memory runs out.
    pub fn new(alloc: Global, constants: &'a [Constant]) -> Result<Self, AllocError>
        ensures { IfOk result (λ pool. pool ≡ constants.now) }
    {
        let uses = all_uses(alloc, constants)?;
        Ok(Pool { constants, uses })
    }

    /// The entries, by index.
    pub fn constants(&self) -> &'a [Constant]
        ensures { result.now ≡ self.now }
    {
        self.constants
    }

    /// What the text at an index may be used as: `None` where there is no text. It takes the same time for any text.
    pub fn text_use(&self, index: u16) -> Option<TextUse>
        ensures { MatchOption result (¬ IsText self.now index) (IsUseAt self.now index) }
    {
        use_in(self.constants, self.uses.as_slice(), index)
    }
}
