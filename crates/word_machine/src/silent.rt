//! Many silent turns of a thread at once.

ghost use Rattle.std.specs.Prelude.{◌≡◌, ◌≤◌};
ghost use Rattle.op_core.specs.OrdinaryState.{set_at};
ghost use Rattle.thread_moves.specs.Thread.{thread_of};
ghost use Rattle.word_machine.specs.Machine.{threads_in};
ghost use Rattle.word_machine.specs.Silent.{MakesQuiet, QuietAt};

use crate::WordMachine;
use op_core::ThreadCode;
use rollback_core::ReadyThread;

// Makes some of the silent turns of the thread at a place, at most `most`, and says how many: none where no thread is there.
fn run_silent_at<C: ThreadCode + Drop>(place: &mut Option<ReadyThread<C>>, most: u64) -> u64
    ensures most { result ≤ most }
    ensures made { QuietAt C.code (thread_of C.state C.saved) result place.old place.new }
{
    match place {
        Some(ready) => ready.run_silent(most),
        None => 0,
    }
}

impl<C: ThreadCode + Drop> WordMachine<C> {
    /// Makes some of the silent turns that the thread of a number has next, at most `most`, and says how many: none where no
    /// thread has the number. Where these are fewer, there may be more to make. Takes no memory but what the thread's code
    /// takes.
    pub fn run_silent(&mut self, number: u8, most: u64) -> u64
        ensures bounds { self.new.bounds ≡ self.old.bounds }
        ensures words { self.new.words ≡ self.old.words }
        ensures most { result ≤ most }
        ensures made { MakesQuiet C.code self.old.bounds result (threads_in (thread_of C.state C.saved) self.old.seats.places.items number)
            (threads_in (thread_of C.state C.saved) self.new.seats.places.items number) }
        ensures others { threads_in (thread_of C.state C.saved) self.new.seats.places.items
            ≡ set_at (threads_in (thread_of C.state C.saved) self.old.seats.places.items) number (threads_in (thread_of C.state C.saved) self.new.seats.places.items number) }
    {
        run_silent_at(&mut self.seats.places[number as usize], most)
    }
}
