//! The arrays that printed lines name.

ghost use Rattle.std.specs.Prelude.{◌↔◌, ℕ, Contains, IfOk};
ghost use Rattle.std.specs.List.Sorted.{IsStrictlyIncreasing};
ghost use Rattle.op_core.specs.declared.Line.{Line};

use op_core::Line;
use std::alloc::{AllocError, Global};

// The arrays that lines name, as often as they are named.
fn named(alloc: Global, lines: &[Line]) -> Result<Vec<u32>, AllocError>
    ensures { IfOk result (λ arrays. (r : ℕ) → Contains arrays.items r ↔ Contains lines.now (Line.Made r)) }
{
    let mut arrays = Vec::new(alloc);
    for line in lines {
        if let Line::Made(array) = *line {
            arrays.push(array)?;
        }
    }
    Ok(arrays)
}

/// The arrays that lines name, each once, by rising reference.
pub(crate) fn named_once(alloc: Global, lines: &[Line]) -> Result<Vec<u32>, AllocError>
    ensures rising { IfOk result (λ arrays. IsStrictlyIncreasing arrays.items) }
    ensures each { IfOk result (λ arrays. (r : ℕ) → Contains arrays.items r ↔ Contains lines.now (Line.Made r)) }
{
    let mut arrays = named(alloc, lines)?;
    arrays.sort()?;
    arrays.dedup();
    Ok(arrays)
}
