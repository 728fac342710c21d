//! Where the lines of a journal are that are made one after another.

ghost use Rattle.std.specs.Prelude.{◌≡◌, ◌≤◌, length};
ghost use Rattle.trace_journal.specs.declared.place.Place.{Place};

use op_core::{Event, Undo};

/// Which line comes next.
#[derive(Clone, Copy)]
pub(crate) enum Place {
    /// The first.
    Head,
    /// That of an event or an undo, or the last.
    Inside,
    /// None.
    Over,
}

/// The lines of the journal of version 2 of some events and undos, of which the first ones were made. Each undo comes before
/// the event whose number it has.
#[derive(Clone, Copy)]
pub struct JournalLines<'a> {
    pub(crate) events: &'a [Event],
    pub(crate) undos: &'a [Undo],
    pub(crate) place: Place,
    // how many of the events, and how many of the undos, have their lines
    pub(crate) event: usize,
    pub(crate) undo: usize,
    ghost few: { length events.now ≤ 4194304 },
    ghost within: { event ≤ length events.now },
    ghost inside: { undo ≤ length undos.now },
    ghost fresh: { place ≡ Place.Head → (event ≡ 0) × (undo ≡ 0) },
}
