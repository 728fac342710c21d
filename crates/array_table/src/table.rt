//! The numbers of arrays.

ghost use Rattle.std.specs.Prelude.{◌≡◌, ◌<◌, ◌≤◌, ◌*◌, ◌^◌, ℕ, List, IfOk, length, slice_get};
ghost use Rattle.array_table.specs.Places.{places_in_order, number_in};
ghost use Rattle.array_table.specs.Row.{kept_in_row};
ghost use Rattle.array_table.specs.Table.{kept_number, IsTableOf};

use crate::place::ArrayPlace;
use crate::row::dimension_row;
use rows::Rows;
use std::alloc::{AllocError, Global};

/// Arrays by their numbers, and their numbers by dimensions and bases. What it is the table of is said by `IsTableOf`;
/// the readers take no memory and no time to speak of.
#[derive(Drop)]
pub struct ArrayTable {
    places: Vec<ArrayPlace>,
    numbers: Vec<Rows<Option<u32>>>,
    count: u32,
}

fn number_in_row(row: &Rows<Option<u32>>, base: u32) -> Option<u32>
    ensures { result ≡ kept_in_row row.now base }
{
    row.get(base as usize).copied().flatten()
}

fn number_in_rows(rows: &[Rows<Option<u32>>], dimensions: u8, base: u32) -> Option<u32>
    ensures { result ≡ kept_number rows.now dimensions base }
{
    let index = dimensions.checked_sub(1)?;
    let row = rows.get(usize::from(index))?;
    number_in_row(row, base)
}

impl ArrayTable {
    /// The arrays of bases by their places. `most` says for each base how many dimensions its arrays have at most; 0
    /// where it has no arrays. It fails only when memory runs out.
    pub fn new(alloc: Global, most: &[u8]) -> Result<Self, AllocError>
        requires { length most.now < 2 ^ 12 }
        ensures { IfOk result (λ table. IsTableOf most.now table) }
    {
        let mut places = Vec::new(alloc);
        let mut numbers = Vec::new(alloc);
        for index in 0..255u8 {
            numbers.push(dimension_row(alloc, &mut places, most, index + 1)?)?;
        }
        let count = places.len() as u32;
        Ok(ArrayTable {
            places,
            numbers,
            count,
        })
    }

    /// How many arrays there are.
    pub fn count(&self) -> u32
        ensures { (most : List ℕ) → IsTableOf most self.now → result ≡ length (places_in_order most) }
    {
        self.count
    }

    /// The array of a number, from 0.
    pub fn place(&self, number: u32) -> Option<ArrayPlace>
        ensures { (most : List ℕ) → IsTableOf most self.now → result ≡ slice_get (places_in_order most) number }
    {
        self.places.get(number as usize).copied()
    }

    /// The number of an array, where it is there.
    pub fn number(&self, dimensions: u8, base: u32) -> Option<u32>
        ensures { (most : List ℕ) → IsTableOf most self.now → result ≡ number_in (places_in_order most) dimensions base }
    {
        number_in_rows(&self.numbers, dimensions, base)
    }
}
