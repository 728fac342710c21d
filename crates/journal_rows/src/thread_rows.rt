//! What is kept of a thread while its section is open.

ghost use Rattle.std.specs.Prelude.{◌≡◌, ◌+◌, [], ◌∷◌, ◌++◌, OnOk, OnErr, take, if◌then◌else◌};
ghost use Rattle.journal_rows.specs.Leaving.{none_open, kept_while_open};

use crate::EventNumbers;
use op_core::NoMemory;
use std::alloc::Global;

/// The levels that a thread has open, and what it did since the outermost of them opened.
#[derive(Drop)]
pub(crate) struct ThreadRows {
    // how many items there were as each level opened, the outermost first
    pub(crate) opened: Vec<u32>,
    // the numbers of its events since, which are all left
    pub(crate) events: EventNumbers,
    // how many words it has put back since it last undid levels
    pub(crate) back: u32,
}

impl ThreadRows {
    /// No level is open.
    pub(crate) fn new(alloc: Global) -> Self
        ensures opened { result.opened.items ≡ [] }
        ensures events { result.events ≡ [] }
        ensures back { result.back ≡ 0 }
    {
        ThreadRows {
            opened: Vec::new(alloc),
            events: EventNumbers::new(alloc),
            back: 0,
        }
    }

    /// An event of the thread came, with this number.
    pub(crate) fn note(&mut self, number: u32) -> Result<(), NoMemory>
        ensures opened { self.new.opened.items ≡ self.old.opened.items }
        ensures back { self.new.back ≡ self.old.back }
        ensures ok { OnOk result (self.new.events ≡ (if none_open self.old.opened.items then self.old.events else number ∷ self.old.events)) }
        ensures err { OnErr result (self.new.events ≡ self.old.events) }
    {
        if self.opened.is_empty() {
            return Ok(());
        }
        self.events.push(number)
    }

    /// A level opens after this many items.
    pub(crate) fn open(&mut self, number: u32) -> Result<(), NoMemory>
        ensures events { self.new.events ≡ self.old.events }
        ensures back { self.new.back ≡ self.old.back }
        ensures ok { OnOk result (self.new.opened.items ≡ self.old.opened.items ++ number ∷ []) }
        ensures err { OnErr result (self.new.opened.items ≡ self.old.opened.items) }
    {
        match self.opened.push(number) {
            Ok(()) => Ok(()),
            Err(_) => Err(NoMemory),
        }
    }

    /// The levels inside of the outermost ones close.
    pub(crate) fn close_to(&mut self, outermost: usize)
        ensures opened { self.new.opened.items ≡ take outermost self.old.opened.items }
        ensures events { self.new.events ≡ kept_while_open (take outermost self.old.opened.items) self.old.events }
        ensures back { self.new.back ≡ self.old.back }
    {
        self.opened.truncate(outermost);
        if self.opened.is_empty() {
            self.events.clear();
        }
    }

    /// The thread puts a word back.
    pub(crate) fn put_back(&mut self) -> Result<(), NoMemory>
        ensures opened { self.new.opened.items ≡ self.old.opened.items }
        ensures events { self.new.events ≡ self.old.events }
        ensures ok { OnOk result (self.new.back ≡ self.old.back + 1) }
        ensures err { OnErr result (self.new.back ≡ self.old.back) }
    {
        match self.back.checked_add(1) {
            Some(more) => {
                self.back = more;
                Ok(())
            }
            None => Err(NoMemory),
        }
    }

    /// How many words the thread has put back since it last undid levels: it has undone levels now.
    pub(crate) fn take_words(&mut self) -> u32
        ensures result { result ≡ self.old.back }
        ensures back { self.new.back ≡ 0 }
        ensures opened { self.new.opened.items ≡ self.old.opened.items }
        ensures events { self.new.events ≡ self.old.events }
    {
        let words = self.back;
        self.back = 0;
        words
    }
}
