//! The literals of a program.

ghost use Rattle.std.specs.Prelude.{◌≡◌, ◌≤◌, List, IfOk, length, slice_get, option_map};
ghost use Rattle.std.specs.Option.{option_flatten};
ghost use Rattle.code_decode.specs.declared.code.ClassUnit.{ClassUnit};
ghost use Rattle.link_rules.specs.Strings.{string_texts};
ghost use Rattle.link_rules.specs.Units.{AreUnits};
ghost use Rattle.string_literals.specs.Literals.{literal_number, kept_number, IsLiteralsOf};

use crate::file::file_numbers;
use crate::text_numbers::TextNumbers;
use code_decode::ClassUnit;
use rows::{Rows, Text};
use std::alloc::{AllocError, Global};

/// The string literals of a program: their texts by number, and their numbers by file and pool index. What it has the
/// literals of is said by `IsLiteralsOf`; the readers take no memory and no time to speak of.
#[derive(Drop)]
pub struct StringLiterals {
    texts: Vec<Text>,
    count: u32,
    numbers: Vec<Rows<Option<u32>>>,
}

fn number_in(numbers: &Rows<Option<u32>>, index: u16) -> Option<u32>
    ensures { result ≡ option_flatten (slice_get numbers.now index) }
{
    numbers.get(usize::from(index)).copied().flatten()
}

fn number_in_files(files: &[Rows<Option<u32>>], file: u32, index: u16) -> Option<u32>
    ensures { result ≡ kept_number files.now file index }
{
    let numbers = files.get(file as usize)?;
    number_in(numbers, index)
}

impl StringLiterals {
    /// The literals of the files of a program, used or not, in the order of files and indices; literals with the same
    /// text are the same. It fails only when memory runs out.
    pub fn new(alloc: Global, units: &[ClassUnit]) -> Result<Self, AllocError>
        requires decoded { AreUnits units.now }
        requires few { length units.now ≤ 1024 }
        ensures { IfOk result (λ literals. IsLiteralsOf units.now literals) }
    {
        let mut known = TextNumbers::new(alloc);
        let mut numbers = Vec::new(alloc);
        for unit in units {
            numbers.push(file_numbers(alloc, &mut known, unit.file.pool.as_slice())?)?;
        }
        let texts = known.into_texts();
        let count = texts.len() as u32;
        Ok(StringLiterals {
            texts,
            count,
            numbers,
        })
    }

    /// How many literals there are.
    pub fn count(&self) -> u32
        ensures { (us : List ClassUnit) → IsLiteralsOf us self.now → result ≡ length (string_texts us) }
    {
        self.count
    }

    /// The text of a literal, by its number from 0.
    pub fn text(&self, number: u32) -> Option<&str>
        ensures { (us : List ClassUnit) → IsLiteralsOf us self.now → option_map (λ text. text.now) result ≡ slice_get (string_texts us) number }
    {
        match self.texts.get(number as usize) {
            Some(text) => Some(text.as_str()),
            None => None,
        }
    }

    /// The number of the literal at an index of the pool of the file at a place, where there is a literal.
    pub fn number(&self, file: u32, index: u16) -> Option<u32>
        ensures { (us : List ClassUnit) → IsLiteralsOf us self.now → result ≡ literal_number us file index }
    {
        number_in_files(&self.numbers, file, index)
    }
}
