//! What one number is related to.

ghost use Rattle.std.specs.Prelude.{◌≡◌, ℕ, ◌<◌, ◌||◌, false, true, IfOk, length, count_by, slice_index_or, slice_set, replicate};

use std::alloc::{AllocError, Global};
use std::marker::Model;

/// For each number whether it is marked. Contracts see the marks.
#[derive(Drop)]
pub struct Row {
    marks: Vec<bool>,
}

impl Model for Row {
    ghost use Rattle.std.specs.Prelude.{List, Bool};

    ghost Value = { List Bool };

    ghost view = { λ r. r.marks.items };
}

impl Row {
    /// A row of `size` numbers, none of them marked.
    pub fn new(alloc: Global, size: usize) -> Result<Self, AllocError>
        ensures { IfOk result (λ row. row ≡ replicate size false) }
    {
        Ok(Row {
            marks: vec![in alloc; false; size]?,
        })
    }

    /// A row of the same marks.
    pub fn copy(&self, alloc: Global) -> Result<Self, AllocError>
        ensures { IfOk result (λ row. row ≡ self.now) }
    {
        Ok(Row {
            marks: Vec::from_slice(alloc, &self.marks)?,
        })
    }

    /// Whether a number is marked; one past the row isn't.
    pub fn is_marked(&self, number: usize) -> bool
        ensures { result ≡ slice_index_or self.now number false }
    {
        self.marks.get(number).copied().unwrap_or(false)
    }

    /// Marks a number of the row.
    pub fn mark(&mut self, number: usize)
        requires { number < length self.old }
        ensures { self.new ≡ slice_set self.old number true }
    {
        self.marks[number] = true;
    }

    /// Marks what another row marks too.
    pub fn join(&mut self, other: &Row)
        requires { length other.now ≡ length self.old }
        ensures length { length self.new ≡ length self.old }
        ensures marks { (i : ℕ) → slice_index_or self.new i false ≡ (slice_index_or self.old i false || slice_index_or other.now i false) }
    {
        join(&mut self.marks, &other.marks);
    }

    /// How many numbers are marked.
    pub fn count(&self) -> usize
        ensures { result ≡ count_by (λ mark. mark) self.now }
    {
        self.marks.iter().filter(|mark| **mark).count()
    }
}

fn join(marks: &mut [bool], others: &[bool])
    requires { length others.now ≡ length marks.old }
    ensures { (i : ℕ) → slice_index_or marks.new i false ≡ (slice_index_or marks.old i false || slice_index_or others.now i false) }
{
    for (i, other) in others.iter().enumerate() {
        if *other {
            marks[i] = true;
        }
    }
}
