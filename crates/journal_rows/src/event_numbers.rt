//! The numbers of events, in the order in which they came.

ghost use Rattle.std.specs.Prelude.{◌≡◌, ◌≢◌, [], ◌∷◌, OnOk, OnErr, drop, slice_get, length};

use op_core::NoMemory;
use std::alloc::Global;
use std::marker::Model;

/// Numbers of events. Contracts see them as a list, the newest first.
#[derive(Drop)]
pub(crate) struct EventNumbers {
    numbers: Vec<u32>,
}

impl Model for EventNumbers {
    ghost use Rattle.std.specs.Prelude.{ℕ, List, reverse};

    ghost Value = { List ℕ };

    ghost view = { λ events. reverse events.numbers.items };
}

impl EventNumbers {
    /// No numbers.
    pub(crate) fn new(alloc: Global) -> Self
        ensures { result ≡ [] }
    {
        EventNumbers {
            numbers: Vec::new(alloc),
        }
    }

    /// Adds a number.
    pub(crate) fn push(&mut self, number: u32) -> Result<(), NoMemory>
        ensures ok { OnOk result (self.new ≡ number ∷ self.old) }
        ensures err { OnErr result (self.new ≡ self.old) }
    {
        match self.numbers.push(number) {
            Ok(()) => Ok(()),
            Err(_) => Err(NoMemory),
        }
    }

    /// The newest number, if there is one.
    pub(crate) fn newest(&self) -> Option<u32>
        ensures { result ≡ slice_get self.now 0 }
    {
        self.numbers.last().copied()
    }

    /// Takes off the newest number.
    pub(crate) fn drop_newest(&mut self)
        requires { self.old ≢ [] }
        ensures { self.new ≡ drop 1 self.old }
    {
        let _newest = self.numbers.pop();
    }

    /// Takes off all numbers.
    pub(crate) fn clear(&mut self)
        ensures { self.new ≡ [] }
    {
        self.numbers.clear();
    }

    /// How many numbers there are.
    pub(crate) fn len(&self) -> usize
        ensures { result ≡ length self.now }
    {
        self.numbers.len()
    }
}
