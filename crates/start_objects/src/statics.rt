//! The words of class objects as a program begins.

ghost use Rattle.std.specs.Prelude.{◌≡◌, ◌<◌, ◌≤◌, ◌^◌, ℕ, List, IfOk, length, map};
ghost use Rattle.code_decode.specs.declared.code.ClassUnit.{ClassUnit};
ghost use Rattle.link_rules.specs.Names.{program_names};
ghost use Rattle.link_rules.specs.FixedObjects.{class_words_of_unit, string_object};
ghost use Rattle.string_literals.specs.Literals.{IsLiteralsOf};
ghost use Rattle.start_objects.specs.Constants.{AreConstantsOf};

use crate::constants::FileConstants;
use access_flags::{STATIC, has};
use class_read::Member;
use code_decode::ClassUnit;
use rows::Rows;
use std::alloc::{AllocError, Global};
use string_literals::StringLiterals;

/// The words that the static fields of a file begin with.
fn file_words(
    alloc: Global,
    constants: &FileConstants<'_>,
    fields: &[Member],
) -> Result<Rows<u32>, AllocError>
    requires { (us : List ClassUnit) × (u : ClassUnit) × AreConstantsOf us u constants.now }
    ensures { IfOk result (λ words. (us : List ClassUnit) (u : ClassUnit) → AreConstantsOf us u constants.now → u.file.fields ≡ fields.now →
        words ≡ class_words_of_unit (program_names us) u) }
{
    let mut words = Vec::new(alloc);
    for field in fields {
        if has(field.flags, STATIC) {
            constants.put_words(&mut words, field)?;
        }
    }
    Ok(Rows::from_vec(words))
}

/// The words of the class objects of the files.
pub fn static_words(
    alloc: Global,
    units: &[ClassUnit],
    literals: &StringLiterals,
    first_string: u32,
) -> Result<Vec<Rows<u32>>, AllocError>
    requires few { length units.now ≤ 1024 }
    requires literals { IsLiteralsOf units.now literals.now }
    requires first { first_string ≡ string_object (program_names units.now) 0 }
    requires small { first_string < 2 ^ 31 }
    ensures { IfOk result (λ words. words.items ≡ map (class_words_of_unit (program_names units.now)) units.now) }
{
    let mut words = Vec::new(alloc);
    for (file, unit) in units.iter().enumerate() {
        let constants = FileConstants {
            literals,
            first_string,
            file: file as u32,
            pool: unit.file.pool.as_slice(),
        };
        words.push(file_words(alloc, &constants, unit.file.fields.as_slice())?)?;
    }
    Ok(words)
}
