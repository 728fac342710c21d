//! A journal that is written as a whole.

ghost use Rattle.std.specs.Prelude.{◌≡◌, ◌≤◌, length, string_bytes, IfOk};
ghost use Rattle.trace_journal.specs.Text.{merged, text_of};

use crate::JournalLines;
use op_core::{Event, NoMemory, Undo};
use std::alloc::Global;

/// The text of version 2 of a journal of these events and undos: each undo is before the event whose number it has. The
/// undos must come in order, at most after all events, or some have no line. It fails only when memory runs out.
#[tactic(auto, using(crate::proofs::LinesLemmas::one_more_line, crate::proofs::LinesLemmas::all_written))]
pub fn write_journal(alloc: Global, events: &[Event], undos: &[Undo]) -> Result<String, NoMemory>
    requires { length events.now ≤ 4194304 }
    ensures { IfOk result (λ text. string_bytes text ≡ text_of 2 (merged 0 events.now undos.now)) }
{
    let mut text = String::new(alloc);
    let mut lines = JournalLines::new(events, undos);
    while lines.push_next(&mut text)? {}
    Ok(text)
}
