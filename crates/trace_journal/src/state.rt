//! Where a reader of a journal is.

ghost use Rattle.std.specs.Prelude.{◌≡◌, ◌≤◌, true};
ghost use Rattle.trace_journal.specs.Text.{is_inside};
ghost use Rattle.trace_journal.specs.declared.state.Stage.{Stage};

use crate::{JournalFault, JournalLimits};

/// What the next line of a text has to be.
#[derive(Clone, Copy)]
pub(crate) enum Stage {
    /// The first.
    Head,
    /// An event, an undo or the end of a journal of this version.
    Items(u8),
    /// None: the end of a journal of this version was read.
    Closed(u8),
    /// None: a fault was found.
    Failed(JournalFault),
}

/// Reads the text of a journal piece by piece. It keeps the line that it is in, and nothing else of the text.
#[derive(Drop)]
pub struct JournalReader {
    pub(crate) limits: JournalLimits,
    pub(crate) stage: Stage,
    pub(crate) count: u32,
    pub(crate) events: u32,
    pub(crate) part: Vec<u8>,
    pub(crate) left: u64,
    ghost counted: { count ≤ limits.items },
    ghost events_counted: { events ≤ count },
    ghost fresh: { stage ≡ Stage.Head → (count ≡ 0) × (events ≡ 0) },
    ghost few: { limits.items ≤ 4194304 },
    ghost inside: { is_inside part.items ≡ true },
}
