//! The arrays with a given number of dimensions.

ghost use Rattle.std.specs.Prelude.{◌≡◌, ◌<◌, ◌≤◌, ◌+◌, ◌^◌, ◌++◌, ℕ, OnOk, IfOk, length};
ghost use Rattle.array_table.specs.Places.{places_of_dimensions};
ghost use Rattle.array_table.specs.Row.{IsRowOf};

use crate::place::ArrayPlace;
use rows::Rows;
use std::alloc::{AllocError, Global};

/// Appends the arrays with `dimensions` dimensions to `places`, and gives their numbers by their bases.
pub fn dimension_row(
    alloc: Global,
    places: &mut Vec<ArrayPlace>,
    most: &[u8],
    dimensions: u8,
) -> Result<Rows<Option<u32>>, AllocError>
    requires room { length places.old.items < 2 ^ 30 }
    requires few { length most.now < 2 ^ 12 }
    ensures places { OnOk result (places.new.items ≡ places.old.items ++ places_of_dimensions 0 most.now dimensions) }
    ensures row { IfOk result (λ row. IsRowOf (length places.old.items) dimensions most.now row) }
{
    let mut row = Vec::new(alloc);
    for (base, limit) in most.iter().enumerate() {
        if *limit >= dimensions {
            row.push(Some(places.len() as u32))?;
            places.push(ArrayPlace {
                dimensions,
                base: base as u32,
            })?;
        } else {
            row.push(None)?;
        }
    }
    Ok(Rows::from_vec(row))
}
