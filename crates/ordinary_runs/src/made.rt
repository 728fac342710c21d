//! The texts of the lines that a program made, read off the machine with which its run ends.

ghost use Rattle.std.specs.Prelude.{◌↔◌, ℕ, Contains, IfOk};
ghost use Rattle.std.specs.List.Sorted.{IsStrictlyIncreasing};
ghost use Rattle.op_core.specs.declared.Line.{Line};
ghost use Rattle.op_core.specs.MadeTexts.{AreMadeTexts};
ghost use Rattle.ordinary_machine.specs.Machine.{machine_of};

use op_core::{Line, MadeText, NoMemory, Rows, ThreadCode};
use ordinary_machine::Ordinary;
use std::alloc::{AllocError, Global};

// The arrays that lines name, as often as they are named.
fn named(alloc: Global, lines: &Rows<Line>) -> Result<Vec<u32>, AllocError>
    ensures { IfOk result (λ arrays. (r : ℕ) → Contains arrays.items r ↔ Contains lines.now (Line.Made r)) }
{
    let mut arrays = Vec::new(alloc);
    for line in lines.as_slice() {
        if let Line::Made(array) = *line {
            arrays.push(array)?;
        }
    }
    Ok(arrays)
}

// The arrays that lines name, each once, by rising reference.
fn named_once(alloc: Global, lines: &Rows<Line>) -> Result<Vec<u32>, AllocError>
    ensures rising { IfOk result (λ arrays. IsStrictlyIncreasing arrays.items) }
    ensures each { IfOk result (λ arrays. (r : ℕ) → Contains arrays.items r ↔ Contains lines.now (Line.Made r)) }
{
    let mut arrays = named(alloc, lines)?;
    arrays.sort()?;
    arrays.dedup();
    Ok(arrays)
}

/// The texts of the machine's lines that the program made, as the machine now has them.
pub fn made_texts<C: ThreadCode + Drop>(
    alloc: Global,
    machine: &Ordinary<C>,
) -> Result<Rows<MadeText>, NoMemory>
    ensures { IfOk result (AreMadeTexts (machine_of C.state machine.now).now (machine_of C.state machine.now).now.lines) }
{
    let arrays = named_once(alloc, machine.lines())?;
    let mut made = Rows::new(alloc);
    for array in &arrays {
        if let Some(units) = machine.units(*array)? {
            made.push(MadeText { at: *array, units })?;
        }
    }
    Ok(made)
}
