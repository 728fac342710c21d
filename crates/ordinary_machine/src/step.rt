//! The step of one event, and why an event is refused.

ghost use Rattle.std.specs.Prelude.{◌≡◌, ◌↔◌, ◌≤◌, ℕ, IfOk, IfErr, OnOk, OnErr, IsTrue};
ghost use Rattle.op_core.specs.declared.Op.{Op};
ghost use Rattle.op_core.specs.OrdinaryState.{live};
ghost use Rattle.op_core.specs.OrdinaryStep.{CanStep, MayAnswer};
ghost use Rattle.ordinary_machine.specs.Machine.{machine_of, RunsSilently};
ghost use Rattle.ordinary_machine.specs.Step.{without_line, IsNext, IsStepTo, Refuses};

use crate::Ordinary;
use op_core::{Event, Line, Next, NoMemory, Op, ThreadCode, after_silent_steps};

/// Why an event isn't the next step of an execution, the first cause in this order.
#[derive(Clone, Copy)]
pub enum StepRefusal {
    /// The thread hasn't begun, or has ended.
    NoThread,
    /// After exactly the event's number of silent steps the thread doesn't want the event's operation. A
    /// step that makes a 1,025th frame isn't one.
    NotNext,
    /// The operation has no step now.
    NotEnabled,
    /// It has a step, but none with this reply.
    WrongReply,
    /// There was no memory for the step.
    NoMemory,
}

impl From<NoMemory> for StepRefusal {
    ghost use Rattle.ordinary_machine.specs.declared.step.StepRefusal.{StepRefusal};

    ghost from_gives = { λ _ refusal. refusal ≡ StepRefusal.NoMemory };

    fn from(_error: NoMemory) -> Self {
        StepRefusal::NoMemory
    }
}

// The operation with no text in its line.
fn without_line(op: Op) -> Op
    ensures { result ≡ without_line op }
{
    match op {
        Op::Print(_) => Op::Print(Line::Empty),
        _ => op,
    }
}

// Whether two operations are the same but for a printed line.
fn is_same(wanted: Op, named: Op) -> bool
    ensures { IsTrue result ↔ (without_line wanted ≡ without_line named) }
{
    without_line(wanted) == without_line(named)
}

impl<C: ThreadCode + Drop> Ordinary<C> {
    // The code at the place where its thread wants the event's operation, and that operation.
    fn find(&self, event: &Event) -> Result<(C, Op), StepRefusal>
        ensures ok { IfOk result (λ found. IsNext C.code (machine_of C.state self.now).now event.now (C.state found.0) found.1) }
        ensures refused { IfErr result (Refuses C.code (machine_of C.state self.now).now event.now) }
    {
        let Some(from) = self.state.live(event.thread) else {
            return Err(StepRefusal::NoThread);
        };
        let Some(code) = after_silent_steps(from, event.silent)? else {
            return Err(StepRefusal::NotNext);
        };
        match code.next() {
            Next::Want(op) if is_same(op, event.op) => Ok((code, op)),
            _ => Err(StepRefusal::NotNext),
        }
    }

    // The same for an event with no silent steps: the operation that its thread wants from where it is.
    fn find_here(&self, event: &Event) -> Result<Op, StepRefusal>
        requires { event.now.silent ≡ 0 }
        ensures ok { IfOk result (λ op. (l : C.State) × IsNext C.code (machine_of C.state self.now).now event.now l op) }
        ensures refused { IfErr result (Refuses C.code (machine_of C.state self.now).now event.now) }
    {
        let Some(code) = self.state.live(event.thread) else {
            return Err(StepRefusal::NoThread);
        };
        match code.next() {
            Next::Want(op) if is_same(op, event.op) => Ok(op),
            _ => Err(StepRefusal::NotNext),
        }
    }

    // Whether the operation that was found has a step with the event's reply.
    fn admit(&self, event: &Event, op: Op) -> Result<(), StepRefusal>
        requires { (l : C.State) × IsNext C.code (machine_of C.state self.now).now event.now l op }
        ensures can { OnOk result (CanStep (machine_of C.state self.now).now event.now.thread op) }
        ensures answered { OnOk result (MayAnswer (machine_of C.state self.now).now event.now.thread op event.now.reply) }
        ensures refused { IfErr result (Refuses C.code (machine_of C.state self.now).now event.now) }
    {
        if !self.can_step(event.thread, op) {
            return Err(StepRefusal::NotEnabled);
        }
        if !self.may_answer(event.thread, op, event.reply) {
            return Err(StepRefusal::WrongReply);
        }
        Ok(())
    }

    // The step of an event with no silent steps, made in place.
    fn step_here(&mut self, event: &Event) -> Result<(), StepRefusal>
        requires { event.now.silent ≡ 0 }
        ensures ok { OnOk result (IsStepTo C.code (machine_of C.state self.old) event.now (machine_of C.state self.new)) }
        ensures refused { IfErr result (Refuses C.code (machine_of C.state self.old).now event.now) }
        ensures err { OnErr result (machine_of C.state self.new ≡ machine_of C.state self.old) }
    {
        let op = self.find_here(event)?;
        self.admit(event, op)?;
        self.make(event.thread, op, event.reply)?;
        Ok(())
    }

    // The step of any event: the silent steps are made on a copy, since the event may be refused after them.
    fn step_ahead(&mut self, event: &Event) -> Result<(), StepRefusal>
        ensures ok { OnOk result (IsStepTo C.code (machine_of C.state self.old) event.now (machine_of C.state self.new)) }
        ensures refused { IfErr result (Refuses C.code (machine_of C.state self.old).now event.now) }
        ensures err { OnErr result (machine_of C.state self.new ≡ machine_of C.state self.old) }
    {
        let (code, op) = self.find(event)?;
        self.admit(event, op)?;
        self.make_at(event.thread, code, op, event.reply)?;
        Ok(())
    }

    /// Makes one step of an execution, where the event is one. For Print the line is the thread's
    /// own, and the event's isn't compared. After a refusal the machine is as before.
    pub fn step(&mut self, event: &Event) -> Result<(), StepRefusal>
        ensures ok { OnOk result (IsStepTo C.code (machine_of C.state self.old) event.now (machine_of C.state self.new)) }
        ensures refused { IfErr result (Refuses C.code (machine_of C.state self.old).now event.now) }
        ensures err { OnErr result (machine_of C.state self.new ≡ machine_of C.state self.old) }
    {
        if event.silent == 0 {
            self.step_here(event)
        } else {
            self.step_ahead(event)
        }
    }

    /// Makes one step of an execution, where the event is one, with its silent steps made on the machine itself: no thread
    /// is copied. After a refusal the event's thread may have made some of these silent steps, and nothing else has changed.
    pub fn step_on(&mut self, event: &Event) -> Result<(), StepRefusal>
        ensures ok { OnOk result (IsStepTo C.code (machine_of C.state self.old) event.now (machine_of C.state self.new)) }
        ensures refused { IfErr result (Refuses C.code (machine_of C.state self.old).now event.now) }
        ensures err { IfErr result (λ _. (n : ℕ) × (n ≤ event.now.silent) × RunsSilently C.code (machine_of C.state self.old) event.now.thread n (machine_of C.state self.new)) }
    {
        let made = self.run_silent(event.thread, event.silent);
        let rest = Event {
            thread: event.thread,
            silent: event.silent - made,
            op: event.op,
            reply: event.reply,
        };
        match self.step(&rest) {
            Ok(()) => Ok(()),
            Err(refusal) => Err(refusal),
        }
    }
}
