//! Reading the standard input piece by piece, where the text isn't kept.

ghost use Rattle.std.specs.Prelude.{◌≡◌, ◌<◌, ◌++◌, List, ℕ, IfSome, OnOk, take};
ghost use Rattle.program_input.specs.Input.{TakesAtMost, TakesUpTo};
ghost use Rattle.program_input.specs.Feeding.{IsFed};

use crate::input::PIECE;
use jr_ports::{Source, SourceFault};
use op_core::NoMemory;
use std::alloc::Global;

/// What is given a text piece by piece, and finds something in it.
pub trait Feed {
    ghost use Rattle.std.specs.Prelude.{List, ℕ, ◌++◌, OnOk};

    /// What it finds.
    ghost Found: { Type 0 };

    /// Where these bytes come next and then the text ends, it finds this.
    ghost rest: { Self → List ℕ → Found → Type 0 };

    /// Takes a piece more. It fails only when memory runs out.
    fn feed(&mut self, piece: &[u8]) -> Result<(), NoMemory>
        ensures { OnOk result ((more : List ℕ) (found : Found) → rest self.new more found → rest self.old (piece.now ++ more) found) };
}

// Gives a reader a piece.
fn give<F: Feed>(reader: &mut F, piece: &[u8]) -> Result<(), SourceFault>
    ensures fed { OnOk result (IsFed F.rest reader.old reader.new piece.now) }
    ensures memory { result ≡ Err SourceFault.Failed → ⊥ }
{
    match reader.feed(piece) {
        Ok(()) => Ok(()),
        Err(_) => Err(SourceFault::NoMemory),
    }
}

/// Gives a reader the bytes of a source up to its end, or the first `most` of them, asked for piece by piece and no further,
/// also where that fails. No more than a piece is kept.
///
/// # Errors
/// `Failed` comes exactly where the source's count of faults rose in this call.
pub fn feed_up_to<I: Source, F: Feed>(
    alloc: Global,
    input: &mut I,
    most: usize,
    reader: &mut F,
) -> Result<(), SourceFault>
    ensures told { OnOk result ((text : List ℕ) × IfSome (I.left input.old) (λ left. text ≡ take most left) × IsFed F.rest reader.old reader.new text) }
    ensures taken { TakesAtMost most (I.left input.old) (I.left input.new) }
    ensures calls { TakesUpTo most (I.taken input.old) (I.taken input.new) }
    ensures cause { result ≡ Err SourceFault.Failed → I.faults input.old < I.faults input.new }
    ensures ok_faults { OnOk result (I.faults input.new ≡ I.faults input.old) }
    ensures memory_faults { result ≡ Err SourceFault.NoMemory → I.faults input.new ≡ I.faults input.old }
{
    let mut count: usize = 0;
    'pieces: while count < most {
        let asked = (most - count).min(PIECE) as u32;
        let piece = input.take(alloc, asked)?;
        if piece.is_empty() {
            return Ok(());
        }
        give(reader, &piece)?;
        count += piece.len();
    }
    Ok(())
}
