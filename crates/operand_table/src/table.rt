//! The operands of a program by file and index.

ghost use Rattle.std.specs.Prelude.{◌≡◌, ◌≤◌, ◌<◌, ◌^◌, ℕ, List, Some, IfOk, length, slice_get, slice_index_or};
ghost use Rattle.link_types.specs.declared.operands.Operand.TheVariants.{Nothing};
ghost use Rattle.link_rules.specs.Units.{AreUnits};
ghost use Rattle.code_decode.specs.declared.code.ClassUnit.{ClassUnit};
ghost use Rattle.link_rules.specs.Classes.{number_of_file};
ghost use Rattle.link_rules.specs.Names.{program_names};
ghost use Rattle.link_rules.specs.Operands.{operand_of, operand};
ghost use Rattle.operand_table.specs.Sources.{AreSourcesOf};
ghost use Rattle.operand_table.specs.Table.{kept_operand, AreOperands, AreOperandsOf};

use crate::entries::entry_operand;
use crate::sources::Sources;
use code_decode::ClassUnit;
use link_types::Operand;
use rows::Rows;
use std::alloc::{AllocError, Global};

/// What the indices of the pools of a program stand for. `AreOperandsOf` says of which program they are; the reader
/// takes no memory and no time to speak of.
#[derive(Drop)]
pub struct OperandTable {
    rows: Vec<Rows<Operand>>,
}

/// What the entries of the pool of the file at a place stand for.
fn file_operands(
    alloc: Global,
    sources: Sources<'_, '_>,
    file: u32,
    unit: &ClassUnit,
) -> Result<Vec<Operand>, AllocError>
    requires place { file ≤ 1024 }
    requires there { slice_get sources.lookup.now.units file ≡ Some unit.now }
    requires few { length unit.now.file.pool < 2 ^ 16 }
    ensures { IfOk result (λ row. (us : List ClassUnit) → AreSourcesOf us sources.entry →
        AreOperands (program_names us) (number_of_file file) unit.now.file.pool (length unit.now.file.pool) row.items) }
{
    let mut row = Vec::new(alloc);
    let pool = unit.file.pool.as_slice();
    for (index, entry) in pool.iter().enumerate() {
        row.push(entry_operand(sources, file, unit, index as u16, entry))?;
    }
    Ok(row)
}

fn operand_at(row: &[Operand], index: u16) -> Operand
    ensures { result ≡ slice_index_or row.now index Nothing }
{
    row.get(usize::from(index))
        .copied()
        .unwrap_or(Operand::Nothing)
}

fn operand_in(rows: &[Rows<Operand>], file: u32, index: u16) -> Operand
    ensures { result ≡ kept_operand rows.now file index }
{
    match rows.get(file as usize) {
        Some(row) => operand_at(row.as_slice(), index),
        None => Operand::Nothing,
    }
}

impl OperandTable {
    /// Looks at each entry of each pool once. It fails only when memory runs out.
    pub fn new(alloc: Global, sources: Sources<'_, '_>) -> Result<Self, AllocError>
        requires few { length sources.lookup.now.units ≤ 1024 }
        requires decoded { AreUnits sources.lookup.now.units }
        ensures { IfOk result (λ table. (us : List ClassUnit) → AreSourcesOf us sources.entry → AreOperandsOf us table) }
    {
        let mut rows = Vec::new(alloc);
        let units = sources.lookup.texts().units();
        for (file, unit) in units.iter().enumerate() {
            rows.push(Rows::from_vec(file_operands(alloc, sources, file as u32, unit)?))?;
        }
        Ok(OperandTable { rows })
    }

    /// What an index of the pool of the class of the file at a place stands for: `Nothing` where no instruction can use
    /// it, past the pool, and where there is no such file.
    pub fn operand(&self, file: u32, index: u16) -> Operand
        ensures { (us : List ClassUnit) → AreOperandsOf us self.now → result ≡ operand us (number_of_file file) index }
    {
        operand_in(&self.rows, file, index)
    }
}
