//! One turn of a thread.

ghost use Rattle.std.specs.Prelude.{◌≡◌, ◌≢◌, ◌+◌, ◌≤◌, ◌<◌, ◌^◌, ℕ, None, IfOk, IsOk, OnOk, OnErr};
ghost use Rattle.op_core.specs.declared.Next.{Next};
ghost use Rattle.step_port.specs.declared.answer.StepAnswer.{StepAnswer};
ghost use Rattle.step_port.specs.declared.step.Step.{Step};
ghost use Rattle.step_port.specs.Steps.{kind_of};
ghost use Rattle.thread_automaton.specs.declared.Move.{Move};
ghost use Rattle.thread_automaton.specs.declared.Attempt.{Attempt};
ghost use Rattle.thread_automaton.specs.declared.Bounds.{Bounds};
ghost use Rattle.thread_automaton.specs.ThreadState.{ThreadState};
ghost use Rattle.thread_automaton.specs.Told.{born};
ghost use Rattle.thread_automaton.specs.NextMove.{next_move};
ghost use Rattle.automaton_rows.specs.Fits.{IsFit};
ghost use Rattle.thread_moves.specs.Thread.{thread_of, CanBeAsked, AreCounted};
ghost use Rattle.thread_moves.specs.Change.{NamesThread};
ghost use Rattle.thread_moves.specs.Told.{told_meant, TakesMemory};
ghost use Rattle.rollback_core.specs.Turn.{end_wanted, event_of, IsChild, MadeStep, SaysPlainly, Turned, MoveTakesMemory, kind_made};

use crate::quiet::quiet_turn;
use crate::{ReadyThread, Turn};
use op_core::{Event, Next, NoMemory, Op, ThreadCode};
use step_port::{Step, StepAnswer, StepPort, make_step};
use thread_automaton::Move;
use thread_changes::{absorb, prepare};
use thread_moves::{JThread, StepTold};

// The class of the exception by which a thread ended that had wanted this, if it did so.
fn end_wanted(next: Next) -> Option<u32>
    ensures { result ≡ end_wanted next }
{
    match next {
        Next::Want(Op::End(class)) => class,
        _ => None,
    }
}

// What a turn says when it reports this, except where a thread is handed out.
fn said<C: ThreadCode, S>(number: u8, silents: u64, next: Next, told: StepTold) -> Turn<C, S>
    requires { told_meant told ≢ born }
    ensures says { SaysPlainly number silents next result (told_meant told) }
{
    match (told, next) {
        (StepTold::Advanced(Some(reply)), Next::Want(op)) => Turn::Advanced(Some(Event {
            thread: number,
            silent: silents,
            op,
            reply,
        })),
        (StepTold::Advanced(_), _) => Turn::Advanced(None),
        (StepTold::Lost(found), _) => Turn::Lost(found),
        (StepTold::Blocked(why), _) => Turn::Blocked(why),
        (StepTold::Probed | StepTold::Born, _) => Turn::Probed,
    }
}

// The thread of this number and priority that the object starts.
fn child_of<C: ThreadCode + Drop>(
    thread: &JThread<C>,
    number: u8,
    object: u32,
    priority: u8,
) -> Result<Box<ReadyThread<C>>, NoMemory>
    requires { thread.now.own.bounds.first + thread.now.own.bounds.limits.heap ≤ 2 ^ 32 }
    ensures child { IfOk result (λ child. IsChild C.code (thread_of C.state C.saved thread.now) (Step.Split number object priority) (thread_of C.state C.saved child.value)) }
    ensures bounds { IfOk result (λ child. child.value.own.bounds ≡ thread.now.own.bounds) }
{
    let code = thread.code.child(object)?;
    let child = ReadyThread::first(thread.own.alloc, code, number, priority, thread.own.bounds);
    match Box::new(thread.own.alloc, child) {
        Ok(boxed) => Ok(boxed),
        Err(_) => Err(NoMemory),
    }
}

// A turn that makes a step, but that of a thread that is handed out.
fn step_turn<C: ThreadCode + Drop, P: StepPort>(
    thread: &mut JThread<C>,
    port: &mut P,
    next: Next,
    step: Step,
) -> Result<Turn<C, P::Pass>, NoMemory>
    requires fits { IsFit C.code (thread_of C.state C.saved thread.old) }
    requires settled { thread.old.own.opening ≡ None }
    requires next { next ≡ C.code.next (C.state thread.old.code) }
    requires asked { CanBeAsked C.code (C.state thread.old.code) next }
    requires bounds { thread.old.own.bounds.first + thread.old.own.bounds.limits.heap ≤ 2 ^ 32 }
    requires room { thread.old.own.counted + 1 < 2 ^ 64 }
    requires makes { next_move C.code thread.old.own.bounds (thread_of C.state C.saved thread.old) ≡ Move.Make step }
    requires apart { (n r p : ℕ) → step ≢ Step.Split n r p }
    requires allows { P.allows port.old step }
    requires names { (a : StepAnswer) (y : P) → P.stepped port.old step a y → NamesThread step a }
    ensures made { IfOk result (MadeStep (thread_of C.state C.saved) C.code thread.old.own.bounds (thread_of C.state C.saved thread.old)
        (thread_of C.state C.saved thread.new) step (λ a. P.stepped port.old step a port.new) (λ pass. P.handed port.old step port.new pass)) }
    ensures settled { thread.new.own.opening ≡ None }
    ensures bounds { thread.new.own.bounds ≡ thread.old.own.bounds }
    ensures last_kind { OnOk result (thread.new.own.last_kind ≡ kind_of step) }
    ensures err { OnErr result (thread_of C.state C.saved thread.new ≡ thread_of C.state C.saved thread.old) }
    ensures err_port { OnErr result (port.new ≡ port.old) }
    ensures memory { OnErr result (TakesMemory step) }
{
    prepare(thread, step)?;
    let number = thread.own.number;
    let silents = thread.own.silents;
    let answer = make_step(port, step);
    let told = absorb(thread, next, step, answer);
    thread.own.last_kind = step.kind();
    Ok(said(number, silents, next, told))
}

// A turn that hands out the thread that was started.
fn split_turn<C: ThreadCode + Drop, P: StepPort>(
    thread: &mut JThread<C>,
    port: &mut P,
    next: Next,
    number: u8,
    object: u32,
    priority: u8,
) -> Result<Turn<C, P::Pass>, NoMemory>
    requires fits { IsFit C.code (thread_of C.state C.saved thread.old) }
    requires settled { thread.old.own.opening ≡ None }
    requires next { next ≡ C.code.next (C.state thread.old.code) }
    requires asked { CanBeAsked C.code (C.state thread.old.code) next }
    requires bounds { thread.old.own.bounds.first + thread.old.own.bounds.limits.heap ≤ 2 ^ 32 }
    requires room { thread.old.own.counted + 1 < 2 ^ 64 }
    requires makes { next_move C.code thread.old.own.bounds (thread_of C.state C.saved thread.old) ≡ Move.Make (Step.Split number object priority) }
    requires allows { P.allows port.old (Step.Split number object priority) }
    ensures made { IfOk result (MadeStep (thread_of C.state C.saved) C.code thread.old.own.bounds (thread_of C.state C.saved thread.old)
        (thread_of C.state C.saved thread.new) (Step.Split number object priority)
        (λ a. P.stepped port.old (Step.Split number object priority) a port.new) (λ pass. P.handed port.old (Step.Split number object priority) port.new pass)) }
    ensures settled { thread.new.own.opening ≡ None }
    ensures bounds { thread.new.own.bounds ≡ thread.old.own.bounds }
    ensures last_kind { OnOk result (thread.new.own.last_kind ≡ 30) }
    ensures err { OnErr result (thread_of C.state C.saved thread.new ≡ thread_of C.state C.saved thread.old) }
    ensures err_port { OnErr result (port.new ≡ port.old) }
{
    let child = child_of(thread, number, object, priority)?;
    let pass = port.split(number, object, priority)?;
    let step = Step::Split(number, object, priority);
    let _told = absorb(thread, next, step, StepAnswer::Found(0));
    thread.own.last_kind = step.kind();
    Ok(Turn::Born(child, pass))
}

// A turn, but for what it keeps.
fn make_turn<C: ThreadCode + Drop, P: StepPort>(
    thread: &mut JThread<C>,
    next: Next,
    port: &mut P,
) -> Result<Turn<C, P::Pass>, NoMemory>
    requires next { next ≡ C.code.next (C.state thread.old.code) }
    requires fits { IsFit C.code (thread_of C.state C.saved thread.old) }
    requires settled { thread.old.own.opening ≡ None }
    requires counts { AreCounted (thread_of C.state C.saved thread.old) }
    requires asked { CanBeAsked C.code (C.state thread.old.code) (C.code.next (C.state thread.old.code)) }
    requires bounds { thread.old.own.bounds.first + thread.old.own.bounds.limits.heap ≤ 2 ^ 32 }
    requires allows { (step : Step) → next_move C.code thread.old.own.bounds (thread_of C.state C.saved thread.old) ≡ Move.Make step → P.allows port.old step }
    requires names { (step : Step) (a : StepAnswer) (y : P) → next_move C.code thread.old.own.bounds (thread_of C.state C.saved thread.old) ≡ Move.Make step
        → P.stepped port.old step a y → NamesThread step a }
    ensures turned { IfOk result (λ r. Turned (thread_of C.state C.saved) C.code thread.old.own.bounds (thread_of C.state C.saved thread.old)
        (thread_of C.state C.saved thread.new) (λ step a. P.stepped port.old step a port.new) (λ step pass. P.handed port.old step port.new pass)
        (port.new ≡ port.old) r (next_move C.code thread.old.own.bounds (thread_of C.state C.saved thread.old))) }
    ensures settled { thread.new.own.opening ≡ None }
    ensures bounds { thread.new.own.bounds ≡ thread.old.own.bounds }
    ensures last_kind { OnOk result (thread.new.own.last_kind ≡ kind_made (next_move C.code thread.old.own.bounds (thread_of C.state C.saved thread.old))) }
    ensures err { OnErr result (thread_of C.state C.saved thread.new ≡ thread_of C.state C.saved thread.old) }
    ensures err_port { OnErr result (port.new ≡ port.old) }
    ensures memory { OnErr result (MoveTakesMemory (next_move C.code thread.old.own.bounds (thread_of C.state C.saved thread.old))) }
{
    match thread.move_for(next) {
        Move::Over => {
            thread.own.last_kind = 0;
            Ok(Turn::Ended(end_wanted(next)))
        }
        Move::Stop(limit) => {
            thread.own.last_kind = 0;
            Ok(Turn::Spent(limit))
        }
        Move::Quiet => quiet_turn(thread),
        Move::Make(step) => match step {
            Step::Split(number, object, priority) => {
                split_turn(thread, port, next, number, object, priority)
            }
            _ => step_turn(thread, port, next, step),
        },
    }
}

// A turn of a thread that can be given one, where its code wants this next.
pub(crate) fn turn_of<C: ThreadCode + Drop, P: StepPort>(
    thread: &mut JThread<C>,
    next: Next,
    port: &mut P,
) -> Result<Turn<C, P::Pass>, NoMemory>
    requires next { next ≡ C.code.next (C.state thread.old.code) }
    requires fits { IsFit C.code (thread_of C.state C.saved thread.old) }
    requires settled { thread.old.own.opening ≡ None }
    requires counts { AreCounted (thread_of C.state C.saved thread.old) }
    requires range { CanBeAsked C.code (C.state thread.old.code) (C.code.next (C.state thread.old.code)) }
    requires bounds { thread.old.own.bounds.first + thread.old.own.bounds.limits.heap ≤ 2 ^ 32 }
    requires allows { (step : Step) → next_move C.code thread.old.own.bounds (thread_of C.state C.saved thread.old) ≡ Move.Make step → P.allows port.old step }
    requires names { (step : Step) (a : StepAnswer) (y : P) → next_move C.code thread.old.own.bounds (thread_of C.state C.saved thread.old) ≡ Move.Make step
        → P.stepped port.old step a y → NamesThread step a }
    ensures turned { IfOk result (λ r. Turned (thread_of C.state C.saved) C.code thread.old.own.bounds (thread_of C.state C.saved thread.old)
        (thread_of C.state C.saved thread.new) (λ step a. P.stepped port.old step a port.new) (λ step pass. P.handed port.old step port.new pass)
        (port.new ≡ port.old) r (next_move C.code thread.old.own.bounds (thread_of C.state C.saved thread.old))) }
    ensures fits { IsFit C.code (thread_of C.state C.saved thread.new) }
    ensures counts { AreCounted (thread_of C.state C.saved thread.new) }
    ensures settled { thread.new.own.opening ≡ None }
    ensures bounds { thread.new.own.bounds ≡ thread.old.own.bounds }
    ensures last_kind { OnOk result (thread.new.own.last_kind ≡ kind_made (next_move C.code thread.old.own.bounds (thread_of C.state C.saved thread.old))) }
    ensures err { OnErr result (thread_of C.state C.saved thread.new ≡ thread_of C.state C.saved thread.old) }
    ensures err_port { OnErr result (port.new ≡ port.old) }
    ensures memory { OnErr result (MoveTakesMemory (next_move C.code thread.old.own.bounds (thread_of C.state C.saved thread.old))) }
    ensures undo { (w : ℕ) → thread.old.own.attempt ≡ Attempt.Undoing w → IsOk result }
{
    make_turn(thread, next, port)
}
