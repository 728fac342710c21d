//! The ordinary machine: what there is of it, and what is asked of it.

ghost use Rattle.std.specs.Prelude.{◌≡◌, ◌≤◌, ◌↔◌, ◌<◌, ℕ, IfOk, IsTrue, MatchOption};
ghost use Rattle.op_core.specs.MadeTexts.{units_at};
ghost use Rattle.op_core.specs.OrdinaryState.{HasEnded, IsThere, unused, ended};
ghost use Rattle.op_core.specs.OrdinaryStep.{CanStep, MayAnswer};
ghost use Rattle.fixed_objects.specs.Opening.{LiesBelowFirst};
ghost use Rattle.ordinary_machine.specs.Machine.{machine_of, HasBegun, RunsSilently};
ghost use Rattle.ordinary_machine.specs.Start.{start_of};

use fixed_objects::Opening;
use machine_state::MachineState;
use op_core::{Line, NoMemory, Op, Reply, Rows, ThreadCode, ThreadEnd, Units};
use std::alloc::Global;

/// The ordinary machine: what threads share, and where each thread is.
#[derive(Drop)]
pub struct Ordinary<C> {
    pub(crate) state: MachineState<C>,
}

impl<C: ThreadCode + Drop> Ordinary<C> {
    /// A machine at the start of a program, with the first thread's code, at which thread 1 begins. The
    /// opening's first free reference is that of the first new object that `advance` makes: it must be above
    /// 0, and above the references of the fixed objects, which `Opening::lies_below_first` decides.
    pub fn start(alloc: Global, opening: &Opening, code: C) -> Result<Self, NoMemory>
        requires { LiesBelowFirst opening.now }
        ensures { IfOk result (λ machine. machine_of C.state machine ≡ start_of opening.now (C.state code)) }
    {
        let state = MachineState::start(alloc, opening, code)?;
        Ok(Ordinary { state })
    }

    /// The lines that were printed so far, in order.
    pub fn lines(&self) -> &Rows<Line>
        ensures { result.now ≡ (machine_of C.state self.now).now.lines }
    {
        self.state.lines()
    }

    /// The lines that were printed, in order, in place of the machine.
    pub fn into_lines(self) -> Rows<Line>
        ensures { result ≡ (machine_of C.state self).now.lines }
    {
        let Ordinary { state } = self;
        state.into_lines()
    }

    /// The UTF-16 code units of the array of chars at a reference, `None` exactly where no object is there. The machine
    /// knows no classes: of any other object these are the low 16 bits of its words. It fails where memory runs out alone.
    pub fn units(&self, reference: u32) -> Result<Option<Units>, NoMemory>
        ensures { IfOk result (λ found. MatchOption found (IsThere (machine_of C.state self.now).now.objects reference → ⊥)
            (λ units. IsThere (machine_of C.state self.now).now.objects reference × (units ≡ units_at (machine_of C.state self.now).now reference))) }
    {
        self.state.units(reference)
    }

    /// The highest number with which a thread has begun.
    pub fn highest(&self) -> u8
        ensures above { (k : ℕ) → result < k → (machine_of C.state self.now).now.threads k ≡ unused }
        ensures begun { 0 < result → HasBegun ((machine_of C.state self.now).now.threads result) }
    {
        self.state.highest()
    }

    /// Whether the thread has begun. It may have ended.
    pub fn has_begun(&self, thread: u8) -> bool
        ensures { IsTrue result ↔ HasBegun ((machine_of C.state self.now).now.threads thread) }
    {
        self.state.has_begun(thread)
    }

    /// How the thread ended, or `None` where it hasn't.
    pub fn end_of(&self, thread: u8) -> Option<ThreadEnd>
        ensures { MatchOption result (HasEnded ((machine_of C.state self.now).now.threads thread) → ⊥)
            (λ end. (end.thread ≡ thread) × ((machine_of C.state self.now).now.threads thread ≡ ended end.class)) }
    {
        self.state.end_of(thread)
    }

    /// Whether the thread has ended.
    pub fn has_ended(&self, thread: u8) -> bool
        ensures { IsTrue result ↔ HasEnded ((machine_of C.state self.now).now.threads thread) }
    {
        self.state.has_ended(thread)
    }

    /// Whether a thread's operation has a step now.
    pub fn can_step(&self, thread: u8, op: Op) -> bool
        ensures { IsTrue result ↔ CanStep (machine_of C.state self.now).now thread op }
    {
        self.state.can_step(thread, op)
    }

    /// Whether the step may answer this.
    pub fn may_answer(&self, thread: u8, op: Op, reply: Reply) -> bool
        ensures { IsTrue result ↔ MayAnswer (machine_of C.state self.now).now thread op reply }
    {
        self.state.may_answer(thread, op, reply)
    }

    /// Makes silent steps of a thread, at most `most`, and returns how many: none where the thread hasn't begun or has
    /// ended. Where it returns less than `most`, `advance` makes the next step, or says what is in its way. Takes no
    /// memory but what the thread's code takes.
    pub fn run_silent(&mut self, thread: u8, most: u64) -> u64
        ensures runs { RunsSilently C.code (machine_of C.state self.old) thread result (machine_of C.state self.new) }
        ensures most { result ≤ most }
    {
        self.state.run_silent(thread, most)
    }
}
