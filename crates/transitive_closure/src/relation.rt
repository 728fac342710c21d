//! Relations as tables.

ghost use Rattle.std.specs.Prelude.{◌≡◌, ◌<◌, ◌≤◌, ◌-◌, ◌||◌, ◌&&◌, ◌==◌, ℕ, false, true, IfOk, length, replicate};
ghost use Rattle.transitive_closure.specs.Relation.{relates, row_of, IsClosure, IsStrictOrder, PutsRelatedFirst};

use crate::closing::close;
use crate::ordering::order;
use crate::row::Row;
use std::alloc::{AllocError, Global};
use std::marker::Model;

/// A relation between the numbers below its size, as a table. Contracts see it as rows of marks (`relates`).
#[derive(Drop)]
pub struct Relation {
    rows: Vec<Row>,
}

impl Model for Relation {
    ghost use Rattle.std.specs.Prelude.{List, Bool};
    ghost use Rattle.transitive_closure.specs.Relation.{IsTable};

    ghost Value = { List (List Bool) };

    ghost view = { λ r. r.rows.items };

    ghost invariant = { λ r. IsTable r.rows.items };
}

fn rows(alloc: Global, size: u32) -> Result<Vec<Row>, AllocError>
    ensures { IfOk result (λ rows. rows.items ≡ replicate size (replicate size false)) }
{
    let mut rows = Vec::new(alloc);
    for _ in 0..size {
        rows.push(Row::new(alloc, size as usize)?)?;
    }
    Ok(rows)
}

impl Relation {
    /// The relation that relates nothing.
    pub fn new(alloc: Global, size: u32) -> Result<Self, AllocError>
        ensures size { IfOk result (λ relation. length relation ≡ size) }
        ensures empty { IfOk result (λ relation. (a b : ℕ) → relates relation a b ≡ false) }
    {
        let rows = rows(alloc, size)?;
        Ok(Relation { rows })
    }

    /// Whether the first number is related to the second one; a number past the size is related to none.
    pub fn relates(&self, a: u32, b: u32) -> bool
        ensures { result ≡ relates self.now a b }
    {
        match self.rows.get(a as usize) {
            Some(row) => row.is_marked(b as usize),
            None => false,
        }
    }

    /// Relates the first number to the second one.
    pub fn relate(&mut self, a: u32, b: u32)
        requires a { a < length self.old }
        requires b { b < length self.old }
        ensures size { length self.new ≡ length self.old }
        ensures related { (c d : ℕ) → relates self.new c d ≡ (relates self.old c d || (c == a && d == b)) }
    {
        self.rows[a as usize].mark(b as usize);
    }

    /// The transitive closure: it relates a number to each one that a way leads to from it.
    pub fn closure(self, alloc: Global) -> Result<Self, AllocError>
        ensures size { IfOk result (λ closed. length closed ≡ length self) }
        ensures closure { IfOk result (λ closed. IsClosure self closed) }
    {
        let mut rows = self.rows;
        close(alloc, &mut rows)?;
        Ok(Relation { rows })
    }

    /// The numbers from `first` on, each after those of them that it is related to.
    pub fn order(&self, alloc: Global, first: u32) -> Result<Vec<u32>, AllocError>
        requires { IsStrictOrder self.now }
        ensures { IfOk result (λ order. PutsRelatedFirst self.now first order.items) }
    {
        order(alloc, &self.rows, first)
    }
}
