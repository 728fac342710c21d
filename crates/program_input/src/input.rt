//! Reading the standard input.

ghost use Rattle.std.specs.Prelude.{◌≡◌, ◌<◌, IfOk, IfSome, OnOk, take};
ghost use Rattle.program_input.specs.Input.{TakesAtMost, TakesUpTo};

use jr_ports::{Source, SourceFault};
use std::alloc::Global;

/// How many bytes are asked for at once.
pub(crate) const PIECE: usize = 65_536;

/// The bytes of a source up to its end, or the first `most` of them, asked for piece by piece and no further, also
/// where that fails. After an error nothing is said of the bytes.
pub fn read_up_to<I: Source>(
    alloc: Global,
    input: &mut I,
    most: usize,
) -> Result<Vec<u8>, SourceFault>
    ensures told { IfOk result (λ bytes. IfSome (I.left input.old) (λ left. bytes.items ≡ take most left)) }
    ensures taken { TakesAtMost most (I.left input.old) (I.left input.new) }
    ensures calls { TakesUpTo most (I.taken input.old) (I.taken input.new) }
    ensures cause { result ≡ Err SourceFault.Failed → I.faults input.old < I.faults input.new }
    ensures ok_faults { OnOk result (I.faults input.new ≡ I.faults input.old) }
    ensures memory_faults { result ≡ Err SourceFault.NoMemory → I.faults input.new ≡ I.faults input.old }
{
    let mut bytes = Vec::new(alloc);
    'pieces: while bytes.len() < most {
        let asked = (most - bytes.len()).min(PIECE) as u32;
        let piece = input.take(alloc, asked)?;
        if piece.is_empty() {
            return Ok(bytes);
        }
        bytes.extend_from_slice(&piece)?;
    }
    Ok(bytes)
}
