//! A row of units with room that was taken before.

ghost use Rattle.std.specs.Prelude.{◌≡◌, ◌≤◌, ◌<◌, ◌+◌, ◌++◌, [], ◌∷◌, IfOk, OnOk, OnErr, length, slice_get, Some};

use op_core::NoMemory;
use std::alloc::Global;
use std::marker::Model;

/// Units, and for how many more there is room.
#[derive(Drop)]
pub struct UnitRow {
    row: Vec<u16>,
}

impl Model for UnitRow {
    ghost use Rattle.std.specs.Prelude.{◌-◌, vec_len, vec_capacity};
    ghost use Rattle.interp_texts.specs.Rows.{UnitsWithRoom};

    ghost Value = { UnitsWithRoom };

    ghost view = { λ r. record { units = r.row.items; spare = vec_capacity r.row - vec_len r.row } };
}

impl UnitRow {
    /// No units, and no room. Takes no memory.
    pub fn empty(alloc: Global) -> Self
        ensures { result.units ≡ [] }
    {
        UnitRow {
            row: Vec::new(alloc),
        }
    }

    /// These units, without taking memory.
    pub fn of(row: Vec<u16>) -> Self
        ensures { result.units ≡ row.items }
    {
        UnitRow { row }
    }

    /// The units in order.
    pub fn units(&self) -> &[u16]
        ensures { result.now ≡ self.now.units }
    {
        self.row.as_slice()
    }

    /// Empties the row, and makes room for this many units. After an error the row is as before.
    pub fn begin(&mut self, count: u32) -> Result<(), NoMemory>
        ensures ok { OnOk result (self.new.units ≡ []) }
        ensures room { OnOk result (count ≤ self.new.spare) }
        ensures err { OnErr result (self.new ≡ self.old) }
    {
        let spare = self.row.capacity() - self.row.len();
        let wanted = count as usize;
        if spare < wanted {
            self.row.reserve_exact(wanted)?;
        }
        self.row.clear();
        Ok(())
    }

    /// Puts a unit at the end, for which there must be room. Takes no memory.
    pub fn push(&mut self, unit: u16)
        requires { 0 < self.old.spare }
        ensures units { self.new.units ≡ self.old.units ++ unit ∷ [] }
        ensures spare { self.new.spare + 1 ≡ self.old.spare }
    {
        self.row.push_reserved(unit);
    }

    /// Takes all units off.
    pub fn clear(&mut self)
        ensures { self.new.units ≡ [] }
    {
        self.row.clear();
    }

    /// The same units, with at least as much room.
    pub fn copy(&self, alloc: Global) -> Result<Self, NoMemory>
        ensures units { IfOk result (λ copy. copy.units ≡ self.now.units) }
        ensures room { IfOk result (λ copy. self.now.spare ≤ copy.spare) }
    {
        let mut row = Vec::from_slice(alloc, self.row.as_slice())?;
        row.reserve_exact(self.row.capacity() - self.row.len())?;
        Ok(UnitRow { row })
    }
}
