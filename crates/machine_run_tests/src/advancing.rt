//! Tests of advancing a thread by a step or by silent steps, and of what it is answered.

use machine_cases::{machine, opening};
use op_core::{Limit, Limits, Line, NoMemory, Op, Reply, ScriptStep, ThreadCode};
use ordinary_machine::{Advance, Ordinary};
use std::test::Fail;

const AMPLE: Limits = Limits {
    turns: 1000,
    heap: 1000,
    sections: 1000,
};

/// Advances a thread, if it has begun.
fn turn<C: ThreadCode + Drop>(
    machine: &mut Ordinary<C>,
    thread: u8,
    limits: &Limits,
) -> Result<Option<Advance>, NoMemory> {
    if !machine.has_begun(thread) {
        return Ok(None);
    }
    Ok(Some(machine.advance(thread, limits)?))
}

/// A reply as a word and its numbers.
fn shown(reply: Reply) -> (&'static str, u32, u32) {
    match reply {
        Reply::Class(class, length) => ("class", class, length),
        Reply::Value(value) => ("value", value, 0),
        Reply::Made(reference) => ("made", reference, 0),
        Reply::Done => ("done", 0, 0),
        Reply::Ready => ("ready", 0, 0),
        Reply::Bad => ("bad", 0, 0),
        Reply::Claimed => ("claimed", 0, 0),
        Reply::Already => ("already", 0, 0),
        _ => ("other", 0, 0),
    }
}

/// What a thread's step was answered, where it made one.
fn reply_of(advance: Option<Advance>) -> (&'static str, u32, u32) {
    match advance {
        Some(Advance::Step(event)) => shown(event.reply),
        Some(Advance::Spent(Limit::Heap)) => ("heap", 0, 0),
        _ => ("no step", 0, 0),
    }
}

const WANTED: [ScriptStep; 10] = [
    ScriptStep::Operation(Op::New(5, 3)),
    ScriptStep::Operation(Op::Write(20, 2, 8)),
    ScriptStep::Operation(Op::Read(20, 2)),
    ScriptStep::Operation(Op::ClassOf(9)),
    ScriptStep::Operation(Op::Init(4)),
    ScriptStep::Operation(Op::Init(6)),
    ScriptStep::Operation(Op::InitDone(6, false)),
    ScriptStep::Operation(Op::Init(6)),
    ScriptStep::Operation(Op::New(5, 3)),
    ScriptStep::Operation(Op::New(5, 3)),
];

const REPLIES: [(&str, u32, u32); 10] = [
    ("made", 20, 0),
    ("done", 0, 0),
    ("value", 8, 0),
    ("class", 7, 0),
    ("ready", 0, 0),
    ("claimed", 0, 0),
    ("done", 0, 0),
    ("bad", 0, 0),
    ("made", 25, 0),
    ("heap", 0, 0),
];

const SMALL_HEAP: Limits = Limits {
    turns: 1,
    heap: 14,
    sections: 1,
};

#[test]
fn objects_and_classes_are_answered_from_the_start_on(rt: HostRuntime) -> Result<(), Fail> {
    let opening = opening(rt.alloc(), &[9], &[4], 20)?;
    let mut machine = machine(rt.alloc(), &opening, &WANTED)?;
    for reply in REPLIES {
        let answer = turn(&mut machine, 1, &SMALL_HEAP).ok().flatten();
        assert!(rt; reply_of(answer) == reply);
    }
    Ok(())
}

/// Thread 1 holds a monitor as it starts thread 2, and waits; thread 2 notifies it. Both print.
const WAITS_FOR_A_STARTED_THREAD: [ScriptStep; 20] = [
    ScriptStep::Operation(Op::Enter(9)),
    ScriptStep::Operation(Op::Start(12, 5)),
    ScriptStep::Pass,
    ScriptStep::Operation(Op::Wait(9)),
    ScriptStep::Operation(Op::Rewake(9)),
    ScriptStep::Call,
    ScriptStep::Operation(Op::New(5, 3)),
    ScriptStep::Operation(Op::Exit(9)),
    ScriptStep::Operation(Op::Print(Line::Int(1))),
    ScriptStep::Operation(Op::Join(12)),
    ScriptStep::Return,
    ScriptStep::Operation(Op::End(None)),
    ScriptStep::Pass,
    ScriptStep::Operation(Op::Init(4)),
    ScriptStep::Operation(Op::Enter(9)),
    ScriptStep::Operation(Op::Notify(9)),
    ScriptStep::Operation(Op::Print(Line::Int(2))),
    ScriptStep::Operation(Op::InitDone(4, true)),
    ScriptStep::Operation(Op::Exit(9)),
    ScriptStep::Operation(Op::End(Some(3))),
];

/// Whether a thread has begun, has ended, and by which class.
fn standing_of<C: ThreadCode + Drop>(
    machine: &Ordinary<C>,
    thread: u8,
) -> (bool, bool, Option<Option<u32>>) {
    let end = machine.end_of(thread).map(|end| end.class);
    (machine.has_begun(thread), machine.has_ended(thread), end)
}

/// Whether both machines show the same threads, and as many lines.
fn is_alike<C: ThreadCode + Drop>(one: &Ordinary<C>, other: &Ordinary<C>) -> bool {
    let threads = [1, 2, 3];
    one.lines().len() == other.lines().len()
        && threads.iter().all(|thread| standing_of(one, *thread) == standing_of(other, *thread))
}

/// Advances a thread of a machine, and makes what it did on another one too. Whether the other accepted it, the thread
/// was enabled exactly where it did something, and both are alike.
fn goes_along<C: ThreadCode + Drop>(
    machine: &mut Ordinary<C>,
    other: &mut Ordinary<C>,
    thread: u8,
) -> Result<bool, NoMemory> {
    let is_enabled = machine.is_enabled(thread);
    let answer = turn(machine, thread, &AMPLE)?;
    let is_accepted = match answer {
        Some(Advance::Step(event)) => other.step(&event).is_ok(),
        _ => true,
    };
    let rests = matches!(
        answer,
        None | Some(Advance::Waits | Advance::Halts | Advance::Ended)
    );
    Ok(is_accepted && is_enabled != rests && is_alike(machine, other))
}

#[test]
fn another_machine_accepts_what_advance_answers(rt: HostRuntime) -> Result<(), Fail> {
    let alloc = rt.alloc();
    let steps = &WAITS_FOR_A_STARTED_THREAD;
    let opening = opening(alloc, &[9, 12], &[], 100)?;
    let mut other = machine(alloc, &opening, steps)?;
    let mut machine = machine(alloc, &opening, steps)?;
    let mut pick: u32 = 1;
    for _ in 0..400 {
        pick = (pick % 65536 * 75 + 74) % 65537;
        let thread = (pick % 3) as u8 + 1;
        assert!(rt; matches!(goes_along(&mut machine, &mut other, thread), Ok(true)));
    }
    assert!(rt; standing_of(&machine, 1) == (true, true, Some(None)));
    assert!(rt; standing_of(&machine, 2) == (true, true, Some(Some(3))));
    assert!(rt; standing_of(&machine, 3) == (false, false, None));
    assert!(rt; matches!(machine.lines().as_slice(), [Line::Int(2), Line::Int(1)]));
    assert!(rt; matches!(other.lines().as_slice(), [Line::Int(2), Line::Int(1)]));
    Ok(())
}

/// Main's own thread object was started, and its thread hasn't ended.
const STARTS_AND_JOINS_ITSELF: [ScriptStep; 2] = [
    ScriptStep::Operation(Op::Start(1, 5)),
    ScriptStep::Operation(Op::Join(1)),
];

#[test]
fn mains_own_thread_was_started(rt: HostRuntime) -> Result<(), Fail> {
    let opening = opening(rt.alloc(), &[], &[], 20)?;
    let mut machine = machine(rt.alloc(), &opening, &STARTS_AND_JOINS_ITSELF)?;
    let start = turn(&mut machine, 1, &AMPLE).ok().flatten();
    assert!(rt; reply_of(start) == ("already", 0, 0));
    assert!(rt; matches!(turn(&mut machine, 1, &AMPLE), Ok(Some(Advance::Waits))));
    Ok(())
}

/// Three silent steps before an operation, and none after it.
const RUNS_AND_HALTS: [ScriptStep; 4] = [
    ScriptStep::Call,
    ScriptStep::Pass,
    ScriptStep::Return,
    ScriptStep::Operation(Op::Enter(9)),
];

#[test]
fn silent_steps_run_up_to_an_operation(rt: HostRuntime) -> Result<(), Fail> {
    let opening = opening(rt.alloc(), &[9], &[], 20)?;
    let mut machine = machine(rt.alloc(), &opening, &RUNS_AND_HALTS)?;
    assert!(rt; machine.run_silent(1, 2) == 2);
    assert!(rt; machine.run_silent(1, 9) == 1);
    assert!(rt; machine.run_silent(2, 9) == 0);
    let answer = turn(&mut machine, 1, &AMPLE).ok().flatten();
    assert!(rt; matches!(answer, Some(Advance::Step(event)) if event.silent == 3));
    Ok(())
}

#[test]
fn a_thread_halts_at_the_end_of_its_code(rt: HostRuntime) -> Result<(), Fail> {
    let opening = opening(rt.alloc(), &[], &[], 20)?;
    let mut machine = machine(rt.alloc(), &opening, &[])?;
    assert!(rt; matches!(turn(&mut machine, 1, &AMPLE), Ok(Some(Advance::Halts))));
    assert!(rt; !machine.is_enabled(1) && !machine.has_ended(1));
    assert!(rt; machine.highest() == 1);
    assert!(rt; machine.into_lines().is_empty());
    Ok(())
}
