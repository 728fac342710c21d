//! The texts of the files of a program.

ghost use Rattle.std.specs.Prelude.{◌≡◌, ◌≢◌, ◌-◌, ℕ, [], Some, IfOk, map, length, slice_get, slice_index, slice_index_or, option_map, unwrap_or};
ghost use Rattle.builtin_world.specs.BuiltinClass.{rows};
ghost use Rattle.text_numbers.specs.Numbers.{number_of};
ghost use Rattle.code_decode.specs.declared.code.ClassUnit.{ClassUnit};
ghost use Rattle.class_pool.specs.Lookup.{utf8_of};
ghost use Rattle.class_texts.specs.Texts.{ProgramTexts, entry_number, pool_row, AreTexts, KnowsEntry, KnowsUnits, KnowsClasses};

use crate::adding::unit_numbers;
use class_walk::Constant;
use code_decode::ClassUnit;
use rows::Rows;
use std::alloc::{AllocError, Global};
use std::marker::Model;
use text_numbers::TextNumbers;

/// The texts of the files of a program and of the built-in methods by number, from 1. Contracts see the files, and the texts in the order of their
/// numbers.
#[derive(Drop)]
pub struct ClassTexts<'a> {
    units: &'a [ClassUnit],
    numbers: TextNumbers<'a>,
    pools: Vec<Rows<u32>>,
}

impl<'a> Model for ClassTexts<'a> {
    ghost use Rattle.class_texts.specs.Texts.{ProgramTexts, AreTexts};

    ghost Value = { ProgramTexts };

    ghost view = { λ t. record { units = t.units.now; texts = t.numbers } };

    ghost invariant = { λ t. AreTexts t.units.now t.numbers t.pools.items };
}

/// The number of the text of an entry, 0 where it has none.
fn entry_number(numbers: &TextNumbers<'_>, constant: &Constant) -> u32
    ensures { result ≡ entry_number numbers.now (Some constant.now) }
{
    match constant {
        Constant::Utf8(text) => numbers.number(text.as_slice()),
        _ => 0,
    }
}

/// For each entry of a pool the number of its text.
fn pool_row(
    alloc: Global,
    numbers: &TextNumbers<'_>,
    pool: &[Constant],
) -> Result<Vec<u32>, AllocError>
    ensures { IfOk result (λ row. row.items ≡ pool_row numbers.now pool.now) }
{
    let mut row = Vec::new(alloc);
    for constant in pool {
        row.push(entry_number(numbers, constant))?;
    }
    Ok(row)
}

/// The numbers of the texts of all pools.
fn pool_rows(
    alloc: Global,
    numbers: &TextNumbers<'_>,
    units: &[ClassUnit],
) -> Result<Vec<Rows<u32>>, AllocError>
    ensures { IfOk result (λ rows. rows.items ≡ map (λ u. pool_row numbers.now u.file.pool) units.now) }
{
    let mut rows = Vec::new(alloc);
    for unit in units {
        rows.push(Rows::from_vec(pool_row(alloc, numbers, unit.file.pool.as_slice())?))?;
    }
    Ok(rows)
}

/// The number at a place, 0 past the end.
fn number_at(row: &[u32], index: u16) -> u32
    ensures { result ≡ slice_index row.now index }
{
    row.get(index as usize).copied().unwrap_or(0)
}

/// The number at a place of a row.
fn number_in(rows: &[Rows<u32>], file: u32, index: u16) -> u32
    ensures { result ≡ slice_index (slice_index_or rows.now file []) index }
{
    match rows.get(file as usize) {
        Some(row) => number_at(row.as_slice(), index),
        None => 0,
    }
}

impl<'a> ClassTexts<'a> {
    /// Gives the texts of files numbers. Two searches for each Utf8 entry.
    ///
    /// # Errors
    /// Where there is no memory.
    pub fn new(alloc: Global, units: &'a [ClassUnit]) -> Result<Self, AllocError>
        ensures { IfOk result (λ texts. texts.units ≡ units.now) }
    {
        let numbers = unit_numbers(alloc, units)?;
        let pools = pool_rows(alloc, &numbers, units)?;
        Ok(ClassTexts {
            units,
            numbers,
            pools,
        })
    }

    /// The files.
    pub fn units(&self) -> &'a [ClassUnit]
        ensures { result.now ≡ self.now.units }
    {
        self.units
    }

    /// How many texts there are.
    pub fn len(&self) -> usize
        ensures { result ≡ length self.now.texts }
    {
        self.numbers.len()
    }

    /// The number of a text, 0 where no file has it and no built-in method. A search.
    pub fn number(&self, text: &[u8]) -> u32
        ensures { result ≡ number_of self.now.texts text.now }
    {
        self.numbers.number(text)
    }

    /// All texts of the files and those of the names and descriptors of the built-in methods have numbers.
    pub fn know_all(&self)
        ensures files { KnowsUnits self.now.texts self.now.units }
        ensures library { KnowsClasses self.now.texts rows }
    {
        let _texts = self.numbers.texts();
    }

    /// The texts in the order of their numbers, from 1.
    pub fn all(&self) -> &[&'a [u8]]
        ensures { map (λ t. t.now) result.now ≡ self.now.texts }
    {
        self.numbers.texts()
    }

    /// The text of a number.
    pub fn text(&self, number: u32) -> Option<&'a [u8]>
        ensures { number ≢ 0 → option_map (λ t. t.now) result ≡ slice_get self.now.texts (number - 1) }
    {
        self.numbers.text(number)
    }

    /// The number of the text of the Utf8 entry at an index of the pool of a file, which is never 0; 0 where there is
    /// none.
    pub fn at(&self, file: u32, index: u16) -> u32
        ensures number { (u : ClassUnit) → slice_get self.now.units file ≡ Some u → result ≡ entry_number self.now.texts (slice_get u.file.pool index) }
        ensures known { (u : ClassUnit) → slice_get self.now.units file ≡ Some u → KnowsEntry self.now.texts (slice_get u.file.pool index) }
    {
        number_in(&self.pools, file, index)
    }

    /// The number of the text of the Utf8 entry at an index of the pool of a file, and that of the empty text where
    /// there is no such entry; 0 where no file has the empty text.
    pub fn name_at(&self, file: u32, index: u16) -> u32
        ensures { (u : ClassUnit) → slice_get self.now.units file ≡ Some u → result ≡ number_of self.now.texts (unwrap_or (utf8_of (slice_get u.file.pool index)) []) }
    {
        let number = self.at(file, index);
        if number != 0 {
            number
        } else {
            self.number(b"")
        }
    }
}
