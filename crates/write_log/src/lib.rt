//! What a thread logs of the words that it overwrites inside a section, so that they can be put back.
//!
//! The log is a stack: what was logged last is put back first. Room is taken by [`WriteLog::reserve`] before a word
//! is overwritten, so that logging it, and putting words back, takes no memory.
#![tactic(auto)]

ghost use Rattle.std.specs.Prelude.{◌≡◌, ◌≢◌, ◌+◌, ◌<◌, ◌==◌, [], ◌∷◌, IsOk, OnOk, OnErr, drop, max, reverse, slice_get, length};

use op_core::NoMemory;
use std::alloc::Global;
use std::marker::Model;

/// The least number of words that a log makes room for, once it makes room.
pub const LEAST_ROOM: usize = 16;

/// A word as it was before it was overwritten.
#[derive(Clone, Copy)]
pub struct Noted {
    /// The place of the word among those of the objects.
    pub at: u32,
    /// The word that was there.
    pub old: u64,
}

/// The words that were logged. Contracts see them as a list, newest first, with the number of places that are spare.
#[derive(Drop)]
pub struct WriteLog {
    noted: Vec<Noted>,
}

impl Model for WriteLog {
    ghost use Rattle.std.specs.Prelude.{◌-◌, reverse, vec_len, vec_capacity};
    ghost use Rattle.write_log.specs.Log.{Log};

    ghost Value = { Log };

    ghost view = { λ log. record { noted = reverse log.noted.items; spare = vec_capacity log.noted - vec_len log.noted } };
}

impl WriteLog {
    /// A log in which nothing is logged. Takes no memory.
    pub fn empty(alloc: Global) -> Self
        ensures { result.noted ≡ [] }
    {
        WriteLog {
            noted: Vec::new(alloc),
        }
    }

    /// Makes room for as many more words as are logged, and for at least [`LEAST_ROOM`], where there is none: so a log
    /// of n words takes memory about as often as n can be halved. Where there is room nothing changes, and the call
    /// can't fail. What is logged stays, whatever the answer. No other call takes memory.
    pub fn reserve(&mut self) -> Result<(), NoMemory>
        ensures has_room { 0 < self.old.spare → IsOk result × (self.new ≡ self.old) }
        ensures grown { self.old.spare ≡ 0 → OnOk result (self.new.spare ≡ max LEAST_ROOM (length self.old.noted)) }
        ensures noted { self.new.noted ≡ self.old.noted }
        ensures err { OnErr result (self.new ≡ self.old) }
    {
        let count = self.noted.len();
        if count == self.noted.capacity() {
            self.noted.reserve_exact(count.max(LEAST_ROOM))?;
        }
        Ok(())
    }

    /// Logs a word. There must be room for it, as there is after [`reserve`](WriteLog::reserve).
    pub fn note(&mut self, noted: Noted)
        requires { 0 < self.old.spare }
        ensures noted { self.new.noted ≡ noted ∷ self.old.noted }
        ensures spare { self.new.spare + 1 ≡ self.old.spare }
    {
        self.noted.push_reserved(noted);
    }

    /// The word that was logged last, or `None` where the log is empty.
    pub fn last(&self) -> Option<Noted>
        ensures { result ≡ slice_get self.now.noted 0 }
    {
        self.noted.last().copied()
    }

    /// The words that are logged, oldest first.
    pub fn as_slice(&self) -> &[Noted]
        ensures { self.now.noted ≡ reverse result.now }
    {
        self.noted.as_slice()
    }

    /// Takes off the word that was logged last. The log must not be empty. The word's room becomes spare.
    pub fn drop_last(&mut self)
        requires { self.old.noted ≢ [] }
        ensures noted { self.new.noted ≡ drop 1 self.old.noted }
        ensures spare { self.new.spare ≡ self.old.spare + 1 }
    {
        let _last = self.noted.pop();
    }

    /// Takes all off. The room becomes spare.
    pub fn clear(&mut self)
        ensures noted { self.new.noted ≡ [] }
        ensures spare { self.new.spare ≡ self.old.spare + length self.old.noted }
    {
        self.noted.clear();
    }

    /// How many words are logged.
    pub fn len(&self) -> usize
        ensures { result ≡ length self.now.noted }
    {
        self.noted.len()
    }

    /// Whether nothing is logged.
    pub fn is_empty(&self) -> bool
        ensures { result ≡ (length self.now.noted == 0) }
    {
        self.noted.is_empty()
    }
}
