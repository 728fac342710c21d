//! The threads of a run, by their numbers.

ghost use Rattle.std.specs.Prelude.{◌≡◌, ◌+◌, ◌≤◌, ℕ, None, Some, IfOk, OnOk, length};
ghost use Rattle.std.specs.Option.{option_copied};
ghost use Rattle.op_core.specs.OrdinaryState.{set_at};
ghost use Rattle.word_machine.specs.Seats.{seat_in};

use op_core::{NoMemory, ThreadCode};
use rollback_core::ReadyThread;
use std::alloc::Global;

/// The threads that were handed out, by their numbers, which are below 256. Contracts see the thread of each number (`seat_in`).
#[derive(Drop)]
pub(crate) struct Seats<C: ThreadCode> {
    pub(crate) places: Vec<Option<ReadyThread<C>>>,
    // how many numbers there are up to the highest one that a thread has
    count: u16,
    ghost whole: { length places.items ≡ 256 },
    ghost most: { count ≤ 256 },
    ghost above: { (k : ℕ) → count ≤ k → seat_in places.items k ≡ None },
}

// Room for a thread of each number below 256.
fn empty_places<C: ThreadCode + Drop>(
    alloc: Global,
) -> Result<Vec<Option<ReadyThread<C>>>, NoMemory>
    ensures whole { IfOk result (λ places. length places.items ≡ 256) }
    ensures none { IfOk result (λ places. seat_in places.items ≡ (λ _. None)) }
{
    let mut places = Vec::new(alloc);
    for _ in 0..256u16 {
        add_place(&mut places)?;
    }
    Ok(places)
}

// Makes room for one thread more.
fn add_place<C: ThreadCode + Drop>(places: &mut Vec<Option<ReadyThread<C>>>) -> Result<(), NoMemory>
    ensures seats { OnOk result (seat_in places.new.items ≡ seat_in places.old.items) }
    ensures place { OnOk result (length places.new.items ≡ length places.old.items + 1) }
{
    match places.push(None) {
        Ok(()) => Ok(()),
        Err(_) => Err(NoMemory),
    }
}

impl<C: ThreadCode + Drop> Seats<C> {
    /// No thread is there.
    pub(crate) fn new(alloc: Global) -> Result<Self, NoMemory>
        ensures { IfOk result (λ seats. seat_in seats.places.items ≡ (λ _. None)) }
    {
        let places = empty_places(alloc)?;
        Ok(Seats { places, count: 0 })
    }

    /// The thread of a number, if there is one.
    pub(crate) fn get(&self, number: u8) -> Option<&ReadyThread<C>>
        ensures { option_copied result ≡ seat_in self.now.places.items number }
    {
        match self.places.get(number as usize) {
            Some(Some(thread)) => Some(thread),
            _ => None,
        }
    }

    /// How many numbers there are up to the highest one that a thread has: at most 256.
    pub(crate) fn count(&self) -> u16
        ensures most { result ≤ 256 }
        ensures above { (k : ℕ) → result ≤ k → seat_in self.now.places.items k ≡ None }
    {
        self.count
    }

    /// Seats a thread of this number, in place of the one that had it.
    pub(crate) fn put(&mut self, number: u8, thread: ReadyThread<C>)
        ensures { seat_in self.new.places.items ≡ set_at (seat_in self.old.places.items) number (Some thread) }
    {
        let place = number as usize;
        self.count = self.count.max(number as u16 + 1);
        self.places[place] = Some(thread);
    }
}
