//! The threads of a machine, and their turns.

ghost use Rattle.std.specs.Prelude.{◌≡◌, ◌≤◌, ℕ, None, Some, IfOk, IsSome, OnErr, OnOk};
ghost use Rattle.std.specs.Option.{option_copied};
ghost use Rattle.op_core.specs.OrdinaryState.{set_at};
ghost use Rattle.heap_words.specs.declared.areas.Area.{Area};
ghost use Rattle.plain_words.specs.Table.{words_in};
ghost use Rattle.thread_moves.specs.Thread.{thread_of};
ghost use Rattle.thread_moves.specs.declared.thread.JThread.{JThread};
ghost use Rattle.word_runs.specs.WordTurns.{is_live};
ghost use Rattle.word_machine.specs.Seats.{seat_in};
ghost use Rattle.word_machine.specs.Machine.{threads_in};
ghost use Rattle.word_machine.specs.Turns.{CanTurnOn, TurnsAt, HandsOutWithin, GivesTurn, seats_after};

use crate::WordMachine;
use crate::enabled::{object_word, word};
use crate::seats::Seats;
use crate::turning::{Came, end_of, turn_at};
use heap_words::Area;
use op_core::{NoMemory, ThreadCode};
use plain_words::PlainWords;
use rollback_core::{ReadyThread, Turn};
use schedules::{LiveThreads, TurnEnd};
use std::alloc::Global;
use thread_moves::JThread;

impl<C: ThreadCode + Drop> LiveThreads for WordMachine<C> {
    ghost live = { λ m t. is_live (threads_in (thread_of C.state C.saved) m.seats.places.items t) };

    fn is_live(&self, thread: u8) -> bool {
        match self.seats.get(thread) {
            Some(ready) => !ready.thread().is_over(),
            None => false,
        }
    }
}

impl<C: ThreadCode + Drop> WordMachine<C> {
    /// These words, with one thread that begins.
    ///
    /// # Errors
    ///
    /// `NoMemory` where there was no memory.
    pub fn begin(alloc: Global, words: PlainWords, main: ReadyThread<C>) -> Result<Self, NoMemory>
        ensures bounds { IfOk result (λ m. m.bounds ≡ main.own.bounds) }
        ensures words { IfOk result (λ m. m.words ≡ words) }
        ensures threads { IfOk result (λ m. threads_in (thread_of C.state C.saved) m.seats.places.items ≡ set_at (λ t. None) main.own.number (Some (thread_of C.state C.saved main))) }
    {
        let bounds = main.thread().bounds();
        let number = main.thread().number();
        let mut seats = Seats::new(alloc)?;
        seats.put(number, main);
        Ok(WordMachine {
            words,
            seats,
            bounds,
        })
    }

    /// The thread of a number, if one was handed out with it.
    pub fn thread(&self, number: u8) -> Option<&JThread<C>>
        ensures { option_copied result ≡ seat_in self.now.seats.places.items number }
    {
        match self.seats.get(number) {
            Some(ready) => Some(ready.thread()),
            None => None,
        }
    }

    /// The word of an area, 0 where it isn't there.
    pub fn word(&self, area: Area) -> u64
        ensures { result ≡ words_in self.now.words area }
    {
        word(&self.words, area)
    }

    /// The word at a place of the objects, 0 where it isn't there.
    pub fn object_word(&self, at: u64) -> u64
        ensures { result ≡ words_in self.now.words (Area.Object at) }
    {
        object_word(&self.words, at)
    }

    /// How many numbers there are up to the highest one that a thread has: at most 256.
    pub fn count(&self) -> u16
        ensures most { result ≤ 256 }
        ensures above { (t : ℕ) → result ≤ t → threads_in (thread_of C.state C.saved) self.now.seats.places.items t ≡ None }
    {
        self.seats.count()
    }

    // Gives the thread of a number a turn, and hands nothing out.
    pub(crate) fn turn_seated(&mut self, number: u8) -> Result<Option<Came<C>>, NoMemory>
        requires { (x : JThread C) → seat_in self.old.seats.places.items number ≡ Some x → CanTurnOn C.code self.old.bounds self.old.words (thread_of C.state C.saved x) }
        ensures bounds { self.new.bounds ≡ self.old.bounds }
        ensures areas { self.new.words.areas ≡ self.old.words.areas }
        ensures made { IfOk result (λ came. TurnsAt C.code (thread_of C.state C.saved) self.old.words (seat_in self.old.seats.places.items number) came
            self.new.words (seat_in self.new.seats.places.items number)) }
        ensures others { seat_in self.new.seats.places.items ≡ set_at (seat_in self.old.seats.places.items) number (seat_in self.new.seats.places.items number) }
        ensures err { OnErr result (threads_in (thread_of C.state C.saved) self.new.seats.places.items ≡ threads_in (thread_of C.state C.saved) self.old.seats.places.items) }
        ensures err_words { OnErr result (self.new.words ≡ self.old.words) }
    {
        turn_at(&mut self.seats.places[number as usize], &mut self.words)
    }

    // Seats the thread that a turn handed out, if it did so.
    pub(crate) fn seat(&mut self, turn: Turn<C, ()>)
        requires { HandsOutWithin self.old.bounds turn }
        ensures bounds { self.new.bounds ≡ self.old.bounds }
        ensures words { self.new.words ≡ self.old.words }
        ensures seats { seat_in self.new.seats.places.items ≡ seats_after turn (seat_in self.old.seats.places.items) }
    {
        if let Turn::Born(child, ()) = turn {
            let child = Box::into_inner(child);
            let number = child.thread().number();
            self.seats.put(number, child);
        }
    }

    /// Gives a thread a turn, and says what it came to for a schedule. What the thread wants must be in range, and the step
    /// that comes next one that can be made (`CanTurnOn`).
    ///
    /// # Errors
    ///
    /// `NoMemory` where there was no memory. The threads and the words are then as before.
    pub fn turn(&mut self, number: u8) -> Result<TurnEnd, NoMemory>
        requires there { IsSome (seat_in self.old.seats.places.items number) }
        requires ready { (x : JThread C) → seat_in self.old.seats.places.items number ≡ Some x → CanTurnOn C.code self.old.bounds self.old.words (thread_of C.state C.saved x) }
        ensures bounds { self.new.bounds ≡ self.old.bounds }
        ensures areas { self.new.words.areas ≡ self.old.words.areas }
        ensures gives { IfOk result (λ end. GivesTurn C.code (thread_of C.state C.saved) self.old.bounds self.old.words self.old.seats.places.items number end
            self.new.words self.new.seats.places.items) }
        ensures err { OnErr result (threads_in (thread_of C.state C.saved) self.new.seats.places.items ≡ threads_in (thread_of C.state C.saved) self.old.seats.places.items) }
        ensures err_words { OnErr result (self.new.words ≡ self.old.words) }
    {
        let Some(came) = self.turn_seated(number)? else {
            return Ok(TurnEnd::Blocked);
        };
        let end = end_of(&came);
        self.seat(came.turn);
        Ok(end)
    }
}
