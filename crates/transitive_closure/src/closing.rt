//! The transitive closure of a table, as Warshall's algorithm finds it.

ghost use Rattle.std.specs.Prelude.{◌≡◌, ◌<◌, ◌||◌, ◌&&◌, ℕ, false, OnOk, length, slice_index_or};
ghost use Rattle.transitive_closure.specs.Relation.{relates, row_of, IsTable, IsClosure};

use crate::row::Row;
use std::alloc::{AllocError, Global};

/// Relates each number that is related to `middle` to all that this one is related to.
fn extend(rows: &mut [Row], middle: usize, through: &Row)
    requires { (a : ℕ) → a < length rows.old → length (row_of rows.old a) ≡ length through.now }
    ensures widths { (a : ℕ) → a < length rows.old → length (row_of rows.new a) ≡ length through.now }
    ensures related { (a b : ℕ) → relates rows.new a b ≡ (relates rows.old a b || (relates rows.old a middle && slice_index_or through.now b false)) }
{
    for row in rows.iter_mut() {
        if row.is_marked(middle) {
            row.join(through);
        }
    }
}

/// Relates what is related by way of `middle`.
fn pass(alloc: Global, rows: &mut [Row], middle: usize) -> Result<(), AllocError>
    requires middle { middle < length rows.old }
    requires table { IsTable rows.old }
    ensures table { OnOk result (IsTable rows.new) }
    ensures related { OnOk result ((a b : ℕ) → relates rows.new a b ≡ (relates rows.old a b || (relates rows.old a middle && relates rows.old middle b))) }
{
    let through = rows[middle].copy(alloc)?;
    extend(rows, middle, &through);
    Ok(())
}

/// Relates each number to what ways lead to from it.
pub fn close(alloc: Global, rows: &mut [Row]) -> Result<(), AllocError>
    requires { IsTable rows.old }
    ensures table { OnOk result (IsTable rows.new) }
    ensures closed { OnOk result (IsClosure rows.old rows.new) }
{
    for middle in 0..rows.len() {
        pass(alloc, rows, middle)?;
    }
    Ok(())
}
