//! A journal in the newest version.

ghost use Rattle.std.specs.Prelude.{◌≡◌, IfOk, Ok, Err, List};
ghost use Rattle.trace_journal.specs.declared.item.JournalFault.{JournalFault};
ghost use Rattle.trace_journal.specs.declared.item.JournalItem.{JournalItem};
ghost use Rattle.trace_journal.specs.declared.item.JournalRefusal.{JournalRefusal};
ghost use Rattle.trace_journal.specs.declared.item.TheConstants.{LARGEST};
ghost use Rattle.trace_journal.specs.Text.{text_of};
ghost use Rattle.trace_journal.specs.Reading.{Read, IsRead};

use crate::state::JournalReader;
use crate::{JournalRefusal, LARGEST};
use std::alloc::Global;

// How many bytes are read before the items that they had are dropped.
const PIECE: usize = 65_536;

// Reads a text, and keeps none of its items. Gives its version.
fn read_through(alloc: Global, text: &[u8]) -> Result<u8, JournalRefusal>
    ensures ok { IfOk result (λ version. (items : List JournalItem) × IsRead LARGEST text.now (Ok (record { version = version; items = items }))) }
    ensures err { (fault : JournalFault) → result ≡ Err (JournalRefusal.Fault fault) → IsRead LARGEST text.now (Err fault) }
{
    let mut reader = JournalReader::new(alloc, LARGEST);
    let mut rest = text;
    while !rest.is_empty() {
        let (piece, after) = rest.split_at(rest.len().min(PIECE));
        let mut items = Vec::new(alloc);
        reader.feed(piece, &mut items)?;
        rest = after;
    }
    match reader.finish() {
        Ok(version) => Ok(version),
        Err(fault) => Err(JournalRefusal::Fault(fault)),
    }
}

/// The text of a journal of either version as that of version 2, which differs in one byte. It keeps no item.
///
/// # Errors
/// `Fault` exactly where the text is no journal of at most 4,194,304 events and undos and 268,435,456 bytes. `NoMemory` where
/// memory runs out.
pub fn as_newest(alloc: Global, mut text: Vec<u8>) -> Result<Vec<u8>, JournalRefusal>
    ensures ok { IfOk result (λ newest. (read : Read) × IsRead LARGEST text.items (Ok read) × (newest.items ≡ text_of 2 read.items)) }
    ensures err { (fault : JournalFault) → result ≡ Err (JournalRefusal.Fault fault) → IsRead LARGEST text.items (Err fault) }
{
    read_through(alloc, &text)?;
    text[11] = b'2';
    Ok(text)
}
