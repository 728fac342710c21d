//! A turn with what it shows of its thread.

ghost use Rattle.std.specs.Prelude.{◌≡◌, Some, IfOk, IsSome};
ghost use Rattle.thread_moves.specs.Thread.{thread_of};
ghost use Rattle.thread_moves.specs.declared.thread.JThread.{JThread};
ghost use Rattle.word_machine.specs.Seats.{seat_in};
ghost use Rattle.word_machine.specs.ToldTurn.{event_said, TellsTurn};
ghost use Rattle.word_machine.specs.Turns.{CanTurnOn};

use crate::WordMachine;
use crate::turning::{Came, end_of};
use op_core::{Event, NoMemory, ThreadCode};
use rollback_core::Turn;
use schedules::TurnEnd;

/// A turn, and what it shows of its thread.
#[derive(Clone, Copy)]
pub struct ToldTurn {
    /// What the turn came to for a schedule.
    pub end: TurnEnd,
    /// The number of the kind of the step that it made, 0 where it made none.
    pub kind: u8,
    /// The event that others can see, if it made one.
    pub event: Option<Event>,
    /// How many levels of its section the thread had open before the turn.
    pub levels_before: u8,
    /// How many it has open after it.
    pub levels_after: u8,
}

// The event that a turn of the thread of a number says, if it says one.
fn event_said<C: ThreadCode>(came: &Came<C>, number: u8) -> Option<Event>
    ensures { result ≡ event_said number came.now.turn }
{
    match came.turn {
        Turn::Advanced(Some(event)) => Some(Event {
            thread: number,
            ..event
        }),
        _ => None,
    }
}

impl<C: ThreadCode + Drop> WordMachine<C> {
    // How many levels of its section the thread of a number has open.
    fn levels_of(&self, number: u8) -> u8
        ensures { (x : JThread C) → seat_in self.now.seats.places.items number ≡ Some x → result ≡ x.own.levels }
    {
        match self.seats.get(number) {
            Some(ready) => ready.thread().levels(),
            None => 0,
        }
    }

    /// Gives a thread a turn, and says what it came to for a schedule and what it shows of the thread: the event that others can
    /// see, and how many levels were open before and after it. It asks for what `turn` asks for.
    ///
    /// # Errors
    ///
    /// `NoMemory` where there was no memory.
    pub fn turn_told(&mut self, number: u8) -> Result<ToldTurn, NoMemory>
        requires there { IsSome (seat_in self.old.seats.places.items number) }
        requires ready { (x : JThread C) → seat_in self.old.seats.places.items number ≡ Some x → CanTurnOn C.code self.old.bounds self.old.words (thread_of C.state C.saved x) }
        ensures bounds { self.new.bounds ≡ self.old.bounds }
        ensures areas { self.new.words.areas ≡ self.old.words.areas }
        ensures tells { IfOk result (λ turn. TellsTurn C.code (thread_of C.state C.saved) self.old.bounds self.old.words self.old.seats.places.items number turn
            self.new.words self.new.seats.places.items) }
    {
        let levels_before = self.levels_of(number);
        let Some(came) = self.turn_seated(number)? else {
            return Err(NoMemory);
        };
        let levels_after = self.levels_of(number);
        let end = end_of(&came);
        let kind = came.kind;
        let event = event_said(&came, number);
        self.seat(came.turn);
        Ok(ToldTurn {
            end,
            kind,
            event,
            levels_before,
            levels_after,
        })
    }
}
