//! Threads and the words that they share, in memory.

ghost use Rattle.std.specs.Prelude.{◌≡◌, ℕ, Some};
ghost use Rattle.thread_moves.specs.declared.thread.JThread.{JThread};
ghost use Rattle.word_machine.specs.Seats.{seat_in};

use crate::seats::Seats;
use op_core::ThreadCode;
use plain_words::PlainWords;
use thread_automaton::Bounds;

/// Threads and the words that they share. Contracts see of which core they are (`IsCoreOf`).
#[derive(Drop)]
pub struct WordMachine<C: ThreadCode> {
    pub(crate) words: PlainWords,
    pub(crate) seats: Seats<C>,
    pub(crate) bounds: Bounds,
    ghost bound: { (t : ℕ) (x : JThread C) → seat_in seats.places.items t ≡ Some x → x.own.bounds ≡ bounds },
}
