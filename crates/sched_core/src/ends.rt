//! How threads ended, and how a run ends in which none can go on.

ghost use Rattle.std.specs.Prelude.{◌≡◌, ℕ, true, false, Some, [], IfOk};
ghost use Rattle.schedules.specs.Run.{Run, due_of, EndsOfItself, EndsBy};
ghost use Rattle.core_runs.specs.Cores.{Core};
ghost use Rattle.thread_moves.specs.Thread.{thread_of};
ghost use Rattle.word_runs.specs.WordTurns.{Progress, EndedBy, is_live, word_turns};
ghost use Rattle.word_machine.specs.Machine.{threads_in, IsCoreOf};
ghost use Rattle.sched_core.specs.Outcome.{AreEnds};
ghost use Rattle.sched_core.specs.Ends.{end_at};
ghost use Rattle.sched_core.specs.ScheduledRun.{CanGoOn};

use op_core::{How, Next, NoMemory, Op, Rows, ThreadCode, ThreadEnd};
use schedules::LiveThreads;
use std::alloc::Global;
use word_machine::WordMachine;

// How the thread of a number ended, if it has ended: normally, or by an exception of a class.
fn end_of<C: ThreadCode + Drop>(machine: &WordMachine<C>, number: u8) -> Option<ThreadEnd>
    ensures { result ≡ end_at C.code number (threads_in (thread_of C.state C.saved) machine.now.seats.places.items number) }
{
    let thread = machine.thread(number)?;
    match thread.code().next() {
        Next::Want(Op::End(class)) if thread.is_over() => Some(ThreadEnd {
            thread: number,
            class,
        }),
        _ => None,
    }
}

/// How the threads ended that have ended, by rising number.
pub fn ends_of<C: ThreadCode + Drop>(
    alloc: Global,
    machine: &WordMachine<C>,
) -> Result<Rows<ThreadEnd>, NoMemory>
    ensures { IfOk result (λ ends. (core : Core C.State) → IsCoreOf (thread_of C.state C.saved) machine.now.words machine.now.seats.places.items core → AreEnds C.code core ends) }
{
    let mut ends = Rows::new(alloc);
    for number in 0..machine.count() {
        if let Some(end) = end_of(machine, number as u8) {
            ends.push(end)?;
        }
    }
    Ok(ends)
}

// Whether a thread is live.
fn has_live<C: ThreadCode + Drop>(machine: &WordMachine<C>) -> bool
    ensures some { result ≡ true → (t : ℕ) × (is_live (threads_in (thread_of C.state C.saved) machine.now.seats.places.items t) ≡ true) }
    ensures none { result ≡ false → (t : ℕ) → is_live (threads_in (thread_of C.state C.saved) machine.now.seats.places.items t) ≡ false }
{
    for number in 0..machine.count() {
        if machine.is_live(number as u8) {
            return true;
        }
    }
    false
}

// Whether an exception ended the thread of a number.
fn died<C: ThreadCode + Drop>(machine: &WordMachine<C>, number: u8) -> bool
    ensures some { result ≡ true → (c : ℕ) × EndedBy C.code (Some c) (threads_in (thread_of C.state C.saved) machine.now.seats.places.items number) }
    ensures none { result ≡ false → (c : ℕ) → EndedBy C.code (Some c) (threads_in (thread_of C.state C.saved) machine.now.seats.places.items number) → ⊥ }
{
    match end_of(machine, number) {
        Some(end) => end.class.is_some(),
        None => false,
    }
}

// Whether an exception ended a thread.
fn has_died<C: ThreadCode + Drop>(machine: &WordMachine<C>) -> bool
    ensures some { result ≡ true → (t : ℕ) × (c : ℕ) × EndedBy C.code (Some c) (threads_in (thread_of C.state C.saved) machine.now.seats.places.items t) }
    ensures none { result ≡ false → (t c : ℕ) → EndedBy C.code (Some c) (threads_in (thread_of C.state C.saved) machine.now.seats.places.items t) → ⊥ }
{
    for number in 0..machine.count() {
        if died(machine, number as u8) {
            return true;
        }
    }
    false
}

/// How a run ends that has come this far, with its order through and no thread that can go on.
pub fn how_it_ends<C: ThreadCode + Drop>(machine: &WordMachine<C>) -> How
    requires { (t : ℕ) → CanGoOn C.code (thread_of C.state C.saved) machine.now.words machine.now.seats.places.items t → ⊥ }
    ensures itself { (run : Run (Progress C.State)) → IsCoreOf (thread_of C.state C.saved) machine.now.words machine.now.seats.places.items run.state.core
        → (due_of (word_turns C.code machine.now.bounds) run).order ≡ [] → EndsOfItself (word_turns C.code machine.now.bounds) run result }
    ensures ends { (run : Run (Progress C.State)) → IsCoreOf (thread_of C.state C.saved) machine.now.words machine.now.seats.places.items run.state.core → run.state.keeps ≡ false
        → (due_of (word_turns C.code machine.now.bounds) run).order ≡ [] → EndsBy (word_turns C.code machine.now.bounds) run result }
{
    if has_live(machine) {
        return How::Stuck;
    }
    if has_died(machine) {
        return How::Died;
    }
    How::Done
}
