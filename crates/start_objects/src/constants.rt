//! What static fields begin with (JVMS 4.7.2).

ghost use Rattle.std.specs.Prelude.{◌≡◌, ◌<◌, ◌^◌, ◌++◌, List, Some, OnOk, option_map, slice_get};
ghost use Rattle.code_decode.specs.declared.code.ClassUnit.{ClassUnit};
ghost use Rattle.link_rules.specs.Classes.{utf8_at};
ghost use Rattle.link_rules.specs.Names.{program_names};
ghost use Rattle.link_rules.specs.FixedObjects.{constant_word, constant_long, first_constant, first_words};
ghost use Rattle.start_objects.specs.Strings.{string_at};
ghost use Rattle.start_objects.specs.Constants.{AreConstantsOf};

use crate::stored::stored_word;
use class_pool::is_utf8_at;
use class_read::Member;
use class_walk::Constant;
use std::alloc::AllocError;
use string_literals::StringLiterals;

/// The constants of a file, and what its string literals stand for.
#[derive(Clone, Copy)]
pub struct FileConstants<'a> {
    pub literals: &'a StringLiterals,
    /// The reference of the first string.
    pub first_string: u32,
    /// The place of the file.
    pub file: u32,
    pub pool: &'a [Constant],
}

fn entry_at(pool: &[Constant], index: u16) -> Option<&Constant>
    ensures { option_map (λ c. c.now) result ≡ slice_get pool.now index }
{
    pool.get(usize::from(index))
}

/// The constant that a field begins with.
fn constant_of<'a>(pool: &'a [Constant], field: &Member) -> Option<&'a Constant>
    ensures { option_map (λ c. c.now) result ≡ first_constant pool.now field.now }
{
    let index = field.constant?;
    entry_at(pool, index)
}

/// The number that a long field begins with.
fn long_of(pool: &[Constant], field: &Member) -> u64
    ensures { result ≡ constant_long (first_constant pool.now field.now) }
{
    match constant_of(pool, field) {
        Some(Constant::Long(number)) => number.cast_unsigned(),
        _ => 0,
    }
}

impl FileConstants<'_> {
    /// The reference of the string at the index of a literal, 0 where there is no literal.
    fn string(&self, index: u16) -> u32
        requires { (us : List ClassUnit) × (u : ClassUnit) × AreConstantsOf us u self.now }
        ensures { (us : List ClassUnit) (u : ClassUnit) → AreConstantsOf us u self.now → result ≡ string_at (program_names us) u.file.pool (slice_get u.file.pool index) }
    {
        match self.literals.number(self.file, index) {
            Some(number) => self.first_string + 3 * number,
            None => 0,
        }
    }

    /// The word that a constant at an index is in a field of a type.
    fn constant_word(&self, constant: &Constant, descriptor: u16, index: u16) -> u32
        requires { (us : List ClassUnit) × (u : ClassUnit) × AreConstantsOf us u self.now }
        ensures { (us : List ClassUnit) (u : ClassUnit) → AreConstantsOf us u self.now → slice_get u.file.pool index ≡ Some constant.now →
            result ≡ constant_word (program_names us) u.file.pool (utf8_at u.file.pool descriptor) (Some constant.now) }
    {
        match constant {
            Constant::Integer(number) => {
                stored_word(self.pool, descriptor, number.cast_unsigned())
            }
            Constant::Str(_) => self.string(index),
            _ => 0,
        }
    }

    /// The word that a field of another type begins with.
    fn word(&self, field: &Member) -> u32
        requires { (us : List ClassUnit) × (u : ClassUnit) × AreConstantsOf us u self.now }
        ensures { (us : List ClassUnit) (u : ClassUnit) → AreConstantsOf us u self.now →
            result ≡ constant_word (program_names us) u.file.pool (utf8_at u.file.pool field.now.descriptor) (first_constant u.file.pool field.now) }
    {
        let Some(index) = field.constant else {
            return 0;
        };
        match entry_at(self.pool, index) {
            Some(constant) => self.constant_word(constant, field.descriptor, index),
            None => 0,
        }
    }

    /// Appends the words that a static field begins with to others.
    pub fn put_words(&self, words: &mut Vec<u32>, field: &Member) -> Result<(), AllocError>
        requires { (us : List ClassUnit) × (u : ClassUnit) × AreConstantsOf us u self.now }
        ensures { OnOk result ((us : List ClassUnit) (u : ClassUnit) → AreConstantsOf us u self.now →
            words.new.items ≡ words.old.items ++ first_words (program_names us) u.file.pool field.now) }
    {
        if is_utf8_at(self.pool, field.descriptor, b"J") {
            let number = long_of(self.pool, field);
            words.push((number % 0x1_0000_0000) as u32)?;
            words.push((number / 0x1_0000_0000) as u32)?;
        } else {
            words.push(self.word(field))?;
        }
        Ok(())
    }
}
