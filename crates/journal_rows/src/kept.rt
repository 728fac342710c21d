//! What is left of rows when the run has ended.

ghost use Rattle.std.specs.Prelude.{◌≡◌, IfOk, OnOk, ◌∷◌, [], ◌++◌, length};
ghost use Rattle.trace_journal.specs.Text.{events_in, undos_in};
ghost use Rattle.journal_rows.specs.Rows.{AreRowsTold, flag_at};
ghost use Rattle.journal_rows.specs.Told.{RowsTold, items_left};

use crate::JournalRows;
use crate::telling::{add, number_of};
use op_core::{Event, NoMemory, Rows, Undo};
use std::alloc::Global;
use trace_journal::JournalItem;

/// The events and undoings of a journal.
#[derive(Drop)]
pub struct KeptJournal {
    /// The events, in order.
    pub events: Rows<Event>,
    /// The undoings, in order.
    pub undos: Rows<Undo>,
}

// Adds an item that is left.
fn add_kept(
    events: &mut Vec<Event>,
    undos: &mut Vec<Undo>,
    item: JournalItem,
) -> Result<(), NoMemory>
    ensures events { OnOk result (events.new.items ≡ events.old.items ++ events_in (item ∷ [])) }
    ensures undos { OnOk result (undos.new.items ≡ undos.old.items ++ undos_in (length events.old.items) (item ∷ [])) }
{
    match item {
        JournalItem::Event(event) => add(events, event),
        JournalItem::Undone {
            thread,
            level,
            words,
        } => {
            let after = number_of(events.len())?;
            let undo = Undo {
                after,
                thread,
                level,
                words,
            };
            add(undos, undo)
        }
    }
}

// Whether the item of a number is left.
fn is_left(left: &[bool], number: usize) -> bool
    ensures { result ≡ flag_at left.now number }
{
    match left.get(number) {
        Some(flag) => *flag,
        None => false,
    }
}

impl JournalRows {
    /// What is left, once the run has ended.
    ///
    /// # Errors
    /// `NoMemory` where memory runs out, also where 2^32 events are left.
    pub fn finish(self, alloc: Global) -> Result<KeptJournal, NoMemory>
        ensures events { IfOk result (λ kept. (s : RowsTold) → AreRowsTold self s → kept.events ≡ events_in (items_left s)) }
        ensures undos { IfOk result (λ kept. (s : RowsTold) → AreRowsTold self s → kept.undos ≡ undos_in 0 (items_left s)) }
    {
        let mut events = Vec::new(alloc);
        let mut undos = Vec::new(alloc);
        for number in 0..self.items.len() {
            if is_left(&self.left, number) {
                add_kept(&mut events, &mut undos, self.items[number])?;
            }
        }
        Ok(KeptJournal {
            events: Rows::from_vec(events),
            undos: Rows::from_vec(undos),
        })
    }
}
