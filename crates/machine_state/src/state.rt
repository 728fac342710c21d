//! The state of an ordinary machine, and its parts.

ghost use Rattle.std.specs.Prelude.{◌≡◌, ◌↔◌, ◌<◌, ℕ, IfOk, IsTrue, MatchOption};
ghost use Rattle.op_core.specs.MadeTexts.{units_at};
ghost use Rattle.op_core.specs.OrdinaryState.{HasEnded, IsThere, unused, live, ended};
ghost use Rattle.op_core.specs.OrdinaryStep.{IsFreeNumber};
ghost use Rattle.machine_state.specs.Machine.{machine_in, HasBegun, IsLive};

use machine_tables::{Classes, Objects, Standing, Threads};
use op_core::{Line, NoMemory, Rows, ThreadCode, ThreadEnd, Units};
use std::alloc::Global;

/// What threads share, where each thread is, and what the next new object's reference follows from. What the parts mean
/// together is `machine_in`.
#[derive(Drop)]
pub struct MachineState<C> {
    /// Where memory for new objects comes from.
    pub alloc: Global,
    /// The objects by reference, with their monitors.
    pub objects: Objects,
    /// How far the initialization of each class is.
    pub classes: Classes,
    /// The threads that have begun.
    pub threads: Threads<C>,
    /// The lines that were printed, in order.
    pub lines: Rows<Line>,
    /// The first reference that a new object was given or will be.
    pub first: u32,
    /// How many words of memory the new objects have taken.
    pub taken: u64,
}

impl<C: ThreadCode + Drop> MachineState<C> {
    /// The lines that were printed so far, in order.
    pub fn lines(&self) -> &Rows<Line>
        ensures { result.now ≡ (machine_in C.state self.now).now.lines }
    {
        &self.lines
    }

    /// The lines that were printed, in order, in place of the machine.
    pub fn into_lines(self) -> Rows<Line>
        ensures { result ≡ (machine_in C.state self).now.lines }
    {
        let MachineState { lines, .. } = self;
        lines
    }

    /// The UTF-16 code units of the array of chars at a reference, `None` exactly where no object is there. The machine
    /// knows no classes: of any other object these are the low 16 bits of its words. It fails where memory runs out alone.
    pub fn units(&self, reference: u32) -> Result<Option<Units>, NoMemory>
        ensures { IfOk result (λ found. MatchOption found (IsThere (machine_in C.state self.now).now.objects reference → ⊥)
            (λ units. IsThere (machine_in C.state self.now).now.objects reference × (units ≡ units_at (machine_in C.state self.now).now reference))) }
    {
        match self.objects.get(reference) {
            Some(object) => Ok(Some(object.words.units(self.alloc)?)),
            None => Ok(None),
        }
    }

    /// The highest number with which a thread has begun.
    pub fn highest(&self) -> u8
        ensures above { (k : ℕ) → result < k → (machine_in C.state self.now).now.threads k ≡ unused }
        ensures begun { 0 < result → HasBegun ((machine_in C.state self.now).now.threads result) }
    {
        self.threads.highest()
    }

    /// Whether the thread has begun. It may have ended.
    pub fn has_begun(&self, thread: u8) -> bool
        ensures { IsTrue result ↔ HasBegun ((machine_in C.state self.now).now.threads thread) }
    {
        self.threads.get(thread).is_some()
    }

    /// How the thread ended, or `None` where it hasn't.
    pub fn end_of(&self, thread: u8) -> Option<ThreadEnd>
        ensures { MatchOption result (HasEnded ((machine_in C.state self.now).now.threads thread) → ⊥)
            (λ end. (end.thread ≡ thread) × ((machine_in C.state self.now).now.threads thread ≡ ended end.class)) }
    {
        match &self.threads.get(thread)?.standing {
            Standing::Ended(class) => Some(ThreadEnd {
                thread,
                class: *class,
            }),
            Standing::Live(_) => None,
        }
    }

    /// Whether the thread has ended.
    pub fn has_ended(&self, thread: u8) -> bool
        ensures { IsTrue result ↔ HasEnded ((machine_in C.state self.now).now.threads thread) }
    {
        self.threads.has_ended(thread)
    }

    /// Whether a new thread can have the number.
    pub fn is_free_number(&self, number: u8) -> bool
        ensures { IsTrue result ↔ IsFreeNumber (machine_in C.state self.now).now.threads number }
    {
        self.threads.is_free_number(number)
    }

    /// Whether there is a number that a new thread can have.
    pub fn has_free_number(&self) -> bool
        ensures { IsTrue result ↔ ((n : ℕ) × IsFreeNumber (machine_in C.state self.now).now.threads n) }
    {
        self.threads.free_number().is_some()
    }

    /// The code of a thread that has begun and has not ended, and else `None`.
    pub fn live(&self, thread: u8) -> Option<&C>
        ensures { MatchOption result (IsLive (machine_in C.state self.now).now thread → ⊥) (λ code. (machine_in C.state self.now).now.threads thread ≡ live (C.state code.now)) }
    {
        match &self.threads.get(thread)?.standing {
            Standing::Live(code) => Some(code),
            Standing::Ended(_) => None,
        }
    }

    /// How many silent steps a thread has made since its last event, 0 where it has not begun.
    #[inline(always)]
    pub fn silent_steps(&self, thread: u8) -> u64
        ensures { result ≡ (machine_in C.state self.now).silents thread }
    {
        match self.threads.get(thread) {
            Some(seat) => seat.silent,
            None => 0,
        }
    }

    /// How many words a new object of this class and length has that a thread makes, 0 where the thread is not live.
    pub fn words_of(&self, thread: u8, class: u32, length: u32) -> u64
        ensures { (l : C.State) → (machine_in C.state self.now).now.threads thread ≡ live l → result ≡ C.code.words l class length }
    {
        match self.live(thread) {
            Some(code) => code.words(class, length),
            None => 0,
        }
    }

    /// The first state of the thread that an object starts. It fails where memory runs out, and where the thread that starts
    /// it is not live.
    pub fn child_of(&self, thread: u8, reference: u32) -> Result<C, NoMemory>
        ensures { IfOk result (λ child. (l : C.State) → (machine_in C.state self.now).now.threads thread ≡ live l → C.state child ≡ C.code.child l reference) }
    {
        match self.live(thread) {
            Some(code) => code.child(reference),
            None => Err(NoMemory),
        }
    }
}
