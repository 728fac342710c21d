//! What the lines of a journal say.

ghost use Rattle.std.specs.Prelude.{◌≡◌};
ghost use Rattle.trace_journal.specs.Reading.{line_of};

use op_core::{Event, NoMemory, Op, Reply, Rows, Undo};

/// What a line between the first and the last says.
#[derive(Clone, Copy)]
pub enum JournalItem {
    /// A thread made a step of the execution.
    Event(Event),
    /// A thread undid levels of its section, which are none of the execution.
    Undone {
        /// The thread's number, from 1.
        thread: u8,
        /// The outermost level that was undone, from 1, which is the section itself.
        level: u8,
        /// How many times a word was put back.
        words: u32,
    },
}

/// An operation with its reply.
#[derive(Clone, Copy)]
pub struct Answered {
    /// What the thread wanted.
    pub op: Op,
    /// What it was answered.
    pub reply: Reply,
}

/// Why a text is no journal, and the line that shows it, counted from 1.
#[derive(Clone, Copy)]
pub enum JournalFault {
    /// The line is wrong, missing, not ended, or after the last one.
    Line(u32),
    /// The first line names a version other than 1 and 2.
    Version,
    /// The line is one more than a journal may have, or has the byte that is one more.
    TooMany(u32),
}

impl JournalFault {
    /// The line that shows the fault.
    pub fn line(&self) -> u32
        ensures { result ≡ line_of self.now }
    {
        match self {
            JournalFault::Line(line) | JournalFault::TooMany(line) => *line,
            JournalFault::Version => 1,
        }
    }
}

/// How large a journal may be.
#[derive(Clone, Copy)]
pub struct JournalLimits {
    /// The events and undos, at most 4,194,304.
    pub items: u32,
    /// The bytes of its text, at most 268,435,456.
    pub bytes: u64,
}

/// The limits of a journal that `jrev` writes and reads.
pub const LARGEST: JournalLimits = JournalLimits {
    items: 4_194_304,
    bytes: 268_435_456,
};

/// A journal that was read.
#[derive(Drop)]
pub struct Journal {
    /// 1 or 2.
    pub version: u8,
    /// The steps of the execution, in order.
    pub events: Rows<Event>,
    /// What was undone, in order.
    pub undos: Rows<Undo>,
    /// The line of each event, counted from 1.
    pub places: Rows<u32>,
}

/// Why a text isn't read.
#[derive(Clone, Copy)]
pub enum JournalRefusal {
    /// It is no journal.
    Fault(JournalFault),
    /// Memory ran out.
    NoMemory,
}

impl From<JournalFault> for JournalRefusal {
    ghost use Rattle.std.specs.Prelude.{◌≡◌};
    ghost use Rattle.trace_journal.specs.declared.item.JournalRefusal.{JournalRefusal};

    ghost from_gives = { λ fault refusal. refusal ≡ JournalRefusal.Fault fault };

    fn from(fault: JournalFault) -> Self {
        JournalRefusal::Fault(fault)
    }
}

impl From<NoMemory> for JournalRefusal {
    ghost use Rattle.std.specs.Prelude.{◌≡◌};
    ghost use Rattle.trace_journal.specs.declared.item.JournalRefusal.{JournalRefusal};

    ghost from_gives = { λ _ refusal. refusal ≡ JournalRefusal.NoMemory };

    fn from(_error: NoMemory) -> Self {
        JournalRefusal::NoMemory
    }
}
