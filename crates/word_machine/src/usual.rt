//! Many usual turns of a thread at once.

ghost use Rattle.std.specs.Prelude.{◌≡◌, ◌≤◌, Some};
ghost use Rattle.op_core.specs.OrdinaryState.{set_at};
ghost use Rattle.heap_words.specs.declared.areas.Area.{Area};
ghost use Rattle.plain_words.specs.Table.{words_in, MayStep, Stepped};
ghost use Rattle.thread_moves.specs.Thread.{thread_of};
ghost use Rattle.thread_moves.specs.declared.thread.JThread.{JThread};
ghost use Rattle.turn_runs.specs.Turns.{StaysReady};
ghost use Rattle.word_machine.specs.Seats.{seat_in};
ghost use Rattle.word_machine.specs.Machine.{threads_in};
ghost use Rattle.word_machine.specs.Usual.{UsualAt, MakesUsual};

use crate::WordMachine;
use crate::enabled::{object_word, word};
use heap_words::Area;
use op_core::ThreadCode;
use plain_words::PlainWords;
use quick_turns::{WordSight, run_usual};
use rollback_core::ReadyThread;

/// What sees the words of a block without a step.
#[derive(Clone, Copy)]
struct PlainSight;

impl WordSight<PlainWords> for PlainSight {
    ghost words = { words_in };

    fn object(&self, port: &PlainWords, at: u32) -> u64 {
        object_word(port, at as u64)
    }

    fn section(&self, port: &PlainWords, section: u32) -> u64 {
        word(port, Area::Section(section))
    }

    fn class(&self, port: &PlainWords, class: u32) -> u64 {
        word(port, Area::Class(class))
    }

    ghost on_words = { λ x step a y made. made.words };
}

// Gives the thread at a place usual turns, at most `most`, and says how many: none where no thread is there.
fn run_usual_at<C: ThreadCode + Drop>(
    place: &mut Option<ReadyThread<C>>,
    words: &mut PlainWords,
    most: u64,
) -> u64
    requires { (x : JThread C) → place.old ≡ Some x → StaysReady C.code x.own.bounds MayStep Stepped (thread_of C.state C.saved x) words.old }
    ensures most { result ≤ most }
    ensures usual { UsualAt C.code (thread_of C.state C.saved) words.old place.old result words.new place.new }
{
    match place {
        Some(ready) => run_usual(ready, words, &PlainSight, most),
        None => 0,
    }
}

impl<C: ThreadCode + Drop> WordMachine<C> {
    /// Gives the thread of a number turns, one after another, at most `most` and none after the first that isn't usual (`run_usual` of
    /// `quick_turns`), and says how many: none where no thread has the number. At each of them the thread can go on. Takes no memory but
    /// what the thread's code takes, and for the log of overwritten words.
    ///
    /// What a turn asks of the thread must be so wherever turns of this thread alone lead.
    pub fn run_usual(&mut self, number: u8, most: u64) -> u64
        requires { (x : JThread C) → seat_in self.old.seats.places.items number ≡ Some x
            → StaysReady C.code self.old.bounds MayStep Stepped (thread_of C.state C.saved x) self.old.words }
        ensures bounds { self.new.bounds ≡ self.old.bounds }
        ensures most { result ≤ most }
        ensures usual { MakesUsual C.code self.old.bounds result self.old.words (threads_in (thread_of C.state C.saved) self.old.seats.places.items number)
            self.new.words (threads_in (thread_of C.state C.saved) self.new.seats.places.items number) }
        ensures others { threads_in (thread_of C.state C.saved) self.new.seats.places.items
            ≡ set_at (threads_in (thread_of C.state C.saved) self.old.seats.places.items) number (threads_in (thread_of C.state C.saved) self.new.seats.places.items number) }
    {
        run_usual_at(
            &mut self.seats.places[number as usize],
            &mut self.words,
            most,
        )
    }
}
