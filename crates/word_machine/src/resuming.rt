//! Threads and words that go on where they are.

ghost use Rattle.std.specs.Prelude.{◌≡◌, IfOk};
ghost use Rattle.std.specs.List.{All};
ghost use Rattle.core_runs.specs.Cores.{Core};
ghost use Rattle.plain_words.specs.Table.{words_in};
ghost use Rattle.thread_moves.specs.Thread.{thread_of};
ghost use Rattle.word_machine.specs.Seats.{seat_in};
ghost use Rattle.word_machine.specs.Machine.{IsCoreOf};
ghost use Rattle.word_machine.specs.Resumed.{seats_with, AreThreads};

use crate::WordMachine;
use crate::seats::Seats;
use op_core::{NoMemory, ThreadCode};
use plain_words::PlainWords;
use rollback_core::ReadyThread;
use std::alloc::Global;
use thread_automaton::Bounds;

// Seats each of these threads at its number.
fn seat_all<C: ThreadCode + Drop>(seats: &mut Seats<C>, threads: Vec<ReadyThread<C>>)
    ensures { seat_in seats.new.places.items ≡ seats_with (seat_in seats.old.places.items) threads.items }
{
    for thread in threads {
        let number = thread.thread().number();
        seats.put(number, thread);
    }
}

impl<C: ThreadCode + Drop> WordMachine<C> {
    /// These words, with these threads, which go on where they are: of each core that has these words and threads, the machine is it
    /// in memory. The threads must have these bounds.
    ///
    /// # Errors
    ///
    /// `NoMemory` where there was no memory.
    pub fn resume(
        alloc: Global,
        words: PlainWords,
        threads: Vec<ReadyThread<C>>,
        bounds: Bounds,
    ) -> Result<Self, NoMemory>
        requires { All (λ x. x.own.bounds ≡ bounds) threads.items }
        ensures bounds { IfOk result (λ m. m.bounds ≡ bounds) }
        ensures words { IfOk result (λ m. m.words ≡ words) }
        ensures core { IfOk result (λ m. (core : Core C.State) → core.words ≡ words_in words → AreThreads (thread_of C.state C.saved) threads.items core.threads
            → IsCoreOf (thread_of C.state C.saved) m.words m.seats.places.items core) }
    {
        let mut seats = Seats::new(alloc)?;
        seat_all(&mut seats, threads);
        Ok(WordMachine {
            words,
            seats,
            bounds,
        })
    }
}
