//! What a thread makes ready before a step, and what it makes of the step's answer.

ghost use Rattle.std.specs.Prelude.{◌≡◌, ◌+◌, ◌≤◌, ◌<◌, ◌^◌, ℕ, None, IfSome, IsSome, OnOk, OnErr};
ghost use Rattle.op_core.specs.Replies.{FitsNext, IsEntry};
ghost use Rattle.step_port.specs.declared.step.Step.{Step};
ghost use Rattle.thread_automaton.specs.Answers.{change_of};
ghost use Rattle.thread_automaton.specs.Told.{told, counted_for, after_answer};
ghost use Rattle.automaton_rows.specs.Laws.{reply_of};
ghost use Rattle.thread_moves.specs.Thread.{thread_of, CanBeAsked, Saves, IsReady};
ghost use Rattle.thread_moves.specs.Change.{NamesThread, EntersWith};
ghost use Rattle.thread_moves.specs.Told.{told_meant, TakesMemory, HasRoomFor};

use crate::apply::apply;
use op_core::{Next, NoMemory, ThreadCode};
use step_port::{Step, StepAnswer};
use thread_moves::{JThread, SavedMark, StepTold};

// Saves the local state of the thread and keeps a mark, for a level that is about to open. After an error no level is.
fn prepare_level<C: ThreadCode>(thread: &mut JThread<C>) -> Result<(), NoMemory>
    requires saves { Saves C.saved thread.old }
    requires enters { IsEntry (C.code.next (C.state thread.old.code)) }
    ensures thread { thread_of C.state C.saved thread.new ≡ thread_of C.state C.saved thread.old }
    ensures ready { OnOk result (IsReady C.state C.saved thread.new) }
    ensures opening { OnOk result (IsSome thread.new.own.opening) }
    ensures err { OnErr result (thread.new.own.opening ≡ None) }
    ensures levels { thread.new.own.levels ≡ thread.old.own.levels }
    ensures bounds { thread.new.own.bounds ≡ thread.old.own.bounds }
{
    let mut held = Vec::new(thread.own.alloc);
    held.extend_from_slice(thread.own.held.as_slice())?;
    thread.own.marks.reserve(1)?;
    thread.code.save()?;
    thread.own.opening = Some(SavedMark {
        silents: thread.own.silents,
        noted: thread.own.log.len(),
        held,
    });
    Ok(())
}

/// Takes the memory that the step wants, before it is made. Nothing that is seen of the thread changes. No level of it may be
/// half opened; where a level opens with the step, that is so after this call until [`absorb`].
///
/// # Errors
///
/// `NoMemory` where there was no memory: for a step that opens a section or a level, overwrites a word, takes a monitor or
/// prints a line. No level is half opened then.
pub fn prepare<C: ThreadCode>(thread: &mut JThread<C>, step: Step) -> Result<(), NoMemory>
    requires saves { Saves C.saved thread.old }
    requires enters { EntersWith step (C.code.next (C.state thread.old.code)) }
    ensures thread { thread_of C.state C.saved thread.new ≡ thread_of C.state C.saved thread.old }
    ensures ready { OnOk result (IsReady C.state C.saved thread.new) }
    ensures room { OnOk result (HasRoomFor thread.new step) }
    ensures err { OnErr result (thread.new.own.opening ≡ None) }
    ensures bounds { thread.new.own.bounds ≡ thread.old.own.bounds }
    ensures memory { OnErr result (TakesMemory step) }
{
    match step {
        Step::OpenSection(_, _) | Step::OpenLevel(_, _) => prepare_level(thread),
        Step::SwapWord(_, _, _) => thread.own.log.reserve(),
        Step::TakeMonitor(_, _) => thread.own.held.reserve(),
        Step::Ticket => thread.own.lines.reserve(),
        _ => Ok(()),
    }
}

// Counts the turn, where it counts, and the silent moves anew after what others can see.
fn count_turn<C: ThreadCode>(thread: &mut JThread<C>, told: StepTold)
    requires { thread.old.own.counted + 1 < 2 ^ 64 }
    ensures thread { thread_of C.state C.saved thread.new ≡ counted_for (told_meant told) (thread_of C.state C.saved thread.old) }
    ensures opening { thread.new.own.opening ≡ thread.old.own.opening }
    ensures bounds { thread.new.own.bounds ≡ thread.old.own.bounds }
{
    match told {
        StepTold::Advanced(None) | StepTold::Born => thread.own.counted += 1,
        StepTold::Advanced(Some(_)) => {
            thread.own.counted += 1;
            thread.own.silents = 0;
        }
        StepTold::Probed | StepTold::Lost(_) | StepTold::Blocked(_) => {}
    }
}

/// Changes the thread as the answer to the step demands, and returns what the turn reports. `next` is what the thread's code
/// says, [`prepare`] has taken the memory for the step, and one more turn can be counted. No level is half opened afterwards.
#[tactic(auto, using(crate::proofs::ChangeLemmas::room_of))]
pub fn absorb<C: ThreadCode>(
    thread: &mut JThread<C>,
    next: Next,
    step: Step,
    answer: StepAnswer,
) -> StepTold
    requires next { next ≡ C.code.next (C.state thread.old.code) }
    requires asked { CanBeAsked C.code (C.state thread.old.code) next }
    requires bounds { thread.old.own.bounds.first + thread.old.own.bounds.limits.heap ≤ 2 ^ 32 }
    requires names { NamesThread step answer }
    requires levels { (s w : ℕ) → step ≡ Step.OpenLevel s w → thread.old.own.levels < 255 }
    requires counts { thread.old.own.counted + 1 < 2 ^ 64 }
    requires fits { IfSome (reply_of (change_of C.code thread.old.own.bounds (thread_of C.state C.saved thread.old) next step answer)) (FitsNext next) }
    requires ready { IsReady C.state C.saved thread.old }
    requires room { HasRoomFor thread.old step }
    ensures thread { thread_of C.state C.saved thread.new ≡ after_answer C.code thread.old.own.bounds (thread_of C.state C.saved thread.old) step answer }
    ensures told { told_meant result ≡ told C.code thread.old.own.bounds (thread_of C.state C.saved thread.old) step answer }
    ensures settled { thread.new.own.opening ≡ None }
    ensures bounds { thread.new.own.bounds ≡ thread.old.own.bounds }
{
    let change = thread.change_of(next, step, answer);
    let told = thread.told(next, step, answer, change);
    apply(thread, change);
    count_turn(thread, told);
    told
}
