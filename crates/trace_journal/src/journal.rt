//! A journal that is read as a whole.

ghost use Rattle.std.specs.Prelude.{◌≡◌, ◌≤◌, length, Ok, Err, IfOk};
ghost use Rattle.std.specs.List.{AllByRecursion};
ghost use Rattle.trace_journal.specs.Spelling.{IsItem};
ghost use Rattle.trace_journal.specs.Text.{events_in, undos_in, places_in};
ghost use Rattle.trace_journal.specs.Reading.{IsRead, IsJournalOf, ComesTo};
ghost use Rattle.trace_journal.specs.declared.item.JournalFault.{JournalFault};
ghost use Rattle.trace_journal.specs.declared.item.JournalRefusal.{JournalRefusal};
ghost use Rattle.trace_journal.specs.declared.item.TheConstants.{LARGEST};

use crate::reader::add;
use crate::state::JournalReader;
use crate::{Journal, JournalItem, JournalRefusal, LARGEST};
use op_core::{Event, NoMemory, Rows, Undo};
use std::alloc::Global;

// The events of some items.
fn events_of(alloc: Global, items: &[JournalItem]) -> Result<Vec<Event>, NoMemory>
    ensures { IfOk result (λ events. events.items ≡ events_in items.now) }
{
    let mut events = Vec::new(alloc);
    for item in items {
        if let JournalItem::Event(event) = item {
            add(&mut events, *event)?;
        }
    }
    Ok(events)
}

// The undos of some items.
fn undos_of(alloc: Global, items: &[JournalItem]) -> Result<Vec<Undo>, NoMemory>
    requires { length items.now ≤ 4194304 }
    ensures { IfOk result (λ undos. undos.items ≡ undos_in 0 items.now) }
{
    let mut undos = Vec::new(alloc);
    let mut after = 0;
    for item in items {
        match item {
            JournalItem::Event(_) => after += 1,
            JournalItem::Undone {
                thread,
                level,
                words,
            } => {
                let undo = Undo {
                    after,
                    thread: *thread,
                    level: *level,
                    words: *words,
                };
                add(&mut undos, undo)?;
            }
        }
    }
    Ok(undos)
}

// The lines of the events of some items.
fn places_of(alloc: Global, items: &[JournalItem]) -> Result<Vec<u32>, NoMemory>
    requires { length items.now ≤ 4194304 }
    ensures { IfOk result (λ places. places.items ≡ places_in 2 items.now) }
{
    let mut places = Vec::new(alloc);
    let mut line: u32 = 2;
    for item in items {
        if let JournalItem::Event(_) = item {
            add(&mut places, line)?;
        }
        line += 1;
    }
    Ok(places)
}

// The version of a journal, and its items.
#[derive(Drop)]
struct ItemsRead {
    version: u8,
    items: Vec<JournalItem>,
}

// The version and the items of a text.
#[tactic(auto, using(crate::proofs::JournalLemmas::whole_is_read, crate::proofs::JournalLemmas::whole_fails))]
fn read_items(alloc: Global, text: &[u8]) -> Result<ItemsRead, JournalRefusal>
    ensures ok { IfOk result (λ read. IsRead LARGEST text.now (Ok (record { version = read.version; items = read.items.items }))) }
    ensures err { (fault : JournalFault) → result ≡ Err (JournalRefusal.Fault fault) → IsRead LARGEST text.now (Err fault) }
{
    let mut items = Vec::new(alloc);
    let mut reader = JournalReader::new(alloc, LARGEST);
    reader.feed(text, &mut items)?;
    let version = reader.finish()?;
    Ok(ItemsRead { version, items })
}

// The journal of these items.
fn journal_of(alloc: Global, version: u8, items: &[JournalItem]) -> Result<Journal, NoMemory>
    requires few { length items.now ≤ 4194304 }
    requires all { AllByRecursion (IsItem version) items.now }
    ensures { IfOk result (λ journal. IsJournalOf journal (record { version = version; items = items.now })) }
{
    let events = events_of(alloc, items)?;
    let undos = undos_of(alloc, items)?;
    let places = places_of(alloc, items)?;
    Ok(Journal {
        version,
        events: Rows::from_vec(events),
        undos: Rows::from_vec(undos),
        places: Rows::from_vec(places),
    })
}

/// Reads the text of a journal of version 1 or 2, of at most 4,194,304 events and undos and 268,435,456 bytes.
///
/// # Errors
///
/// `Fault` exactly where the text is no journal within these limits, with its first fault; `NoMemory` where memory runs out
/// alone.
pub fn read_journal(alloc: Global, text: &[u8]) -> Result<Journal, JournalRefusal>
    ensures { ComesTo text.now result }
{
    let read = read_items(alloc, text)?;
    Ok(journal_of(alloc, read.version, &read.items)?)
}
