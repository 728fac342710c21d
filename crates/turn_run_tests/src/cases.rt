//! Scripts by single turns and by many turns in a call.

ghost use Rattle.std.specs.Prelude.{◌≡◌, ◌+◌, ◌≤◌, ◌^◌, IfOk};
ghost use Rattle.std.specs.List.{list_all};
ghost use Rattle.thread_moves.specs.Thread.{thread_of};
ghost use Rattle.turn_run_tests.specs.InRange.{is_in_range};
ghost use Rattle.turn_run_tests.specs.Ready.{StaysReadyOnAny};
ghost use Rattle.toy_code.specs.Toy.{toy_code};

use crate::answering::Answering;
use fixed_objects::{FixedObject, Opening};
use op_core::{Limits, Line, Op, Rows, ThreadCode};
use plain_words::{PlainWords, has_place};
use rollback_core::{ReadyThread, Turn};
use std::alloc::{AllocError, Global};
use std::test::Fail;
use thread_automaton::Bounds;
use toy_code::{Toy, ToyScript, ToyStep};
use turn_runs::{Looks, turns};

const LOCK: u32 = 1;

const OTHER: u32 = 3;

const WORDS: u32 = 5;

const THREAD: u32 = 11;

const FIRST: u32 = 16;

/// How many calls a run has at most.
pub(crate) const MOST: u64 = 1000;

/// The kind of the step that commits a section.
const COMMIT: u64 = 9;

const LIMITS: Limits = Limits {
    turns: 1000,
    heap: 20,
    sections: 10,
};

pub(crate) const NO_LOOKS: Looks = Looks {
    kinds: 0,
    events: false,
};

/// Words and silent steps outside of sections, an object, a class, a line.
pub(crate) const OUTSIDE: &[ToyStep] = &[
    ToyStep::Pass,
    ToyStep::Call,
    ToyStep::Do(Op::Write(WORDS, 0, 7)),
    ToyStep::Do(Op::Read(WORDS, 0)),
    ToyStep::Show,
    ToyStep::Return,
    ToyStep::Do(Op::New(1, 2)),
    ToyStep::Do(Op::ClassOf(WORDS)),
    ToyStep::Do(Op::Init(1)),
    ToyStep::Do(Op::InitDone(1, true)),
    ToyStep::Do(Op::Init(1)),
];

/// Sections one after another and inside each other, with words of the section before.
pub(crate) const SECTIONS: &[ToyStep] = &[
    ToyStep::Do(Op::Enter(LOCK)),
    ToyStep::Do(Op::Write(WORDS, 0, 1)),
    ToyStep::Do(Op::Enter(LOCK)),
    ToyStep::Do(Op::Write(WORDS, 1, 2)),
    ToyStep::Do(Op::Exit(LOCK)),
    ToyStep::Do(Op::Exit(LOCK)),
    ToyStep::Do(Op::Enter(OTHER)),
    ToyStep::Do(Op::Read(WORDS, 1)),
    ToyStep::Do(Op::Enter(LOCK)),
    ToyStep::Do(Op::Write(WORDS, 0, 3)),
    ToyStep::Do(Op::Exit(LOCK)),
    ToyStep::Do(Op::Print(Line::Int(4))),
    ToyStep::Do(Op::Notify(OTHER)),
    ToyStep::Do(Op::Exit(OTHER)),
];

/// A thread that is started, and monitors that aren't owned.
pub(crate) const OTHERS: &[ToyStep] = &[
    ToyStep::Do(Op::Exit(LOCK)),
    ToyStep::Do(Op::Enter(LOCK)),
    ToyStep::Do(Op::Start(THREAD, 5)),
    ToyStep::Do(Op::Start(THREAD, 5)),
    ToyStep::Do(Op::Exit(LOCK)),
    ToyStep::Do(Op::Notify(OTHER)),
];

/// How many turns a thread was given, in how many calls.
#[derive(Clone, Copy)]
pub(crate) struct Given {
    pub(crate) calls: u64,
    pub(crate) turns: u64,
}

/// A thread after its turns, and its words.
#[derive(Drop)]
pub(crate) struct Ran<'a> {
    pub(crate) ready: ReadyThread<Toy<'a>>,
    pub(crate) port: Answering,
    pub(crate) given: Given,
}

fn opening(alloc: Global) -> Result<Opening, AllocError> {
    let mut objects = Vec::new(alloc);
    for (reference, class, words) in [
        (LOCK, 1, &[][..]),
        (OTHER, 1, &[][..]),
        (WORDS, 2, &[0, 0][..]),
        (THREAD, 3, &[5, 0, 0][..]),
    ] {
        let words = Rows::from_vec(Vec::from_slice(alloc, words)?);
        objects.push(FixedObject {
            reference,
            class,
            length: 0,
            words,
            started: 0,
        })?;
    }
    Ok(Opening {
        objects: Rows::from_vec(objects),
        ready: Rows::new(alloc),
        classes: 3,
        first: FIRST,
        main_thread: 0,
    })
}

fn port(alloc: Global) -> Result<Answering, Fail> {
    let opening = opening(alloc)?;
    if !has_place(&opening, &LIMITS) {
        return Err(Fail::from("the fixed objects have a place"));
    }
    match PlainWords::open(alloc, &opening, &LIMITS) {
        Ok(words) => Ok(Answering::new(words)),
        Err(_) => Err(Fail::from("there is no memory")),
    }
}

fn is_in_range(step: ToyStep) -> bool
    ensures { result ≡ is_in_range step }
{
    match step {
        ToyStep::Do(Op::Read(reference, word) | Op::Write(reference, word, _)) => {
            reference as u64 + 2 + (word as u64) < 0x1_0000_0000
        }
        ToyStep::Do(Op::New(_, length)) => (length as u64) < 0x1_0000_0000,
        _ => true,
    }
}

fn are_in_range(steps: &[ToyStep]) -> bool
    ensures { result ≡ list_all is_in_range steps.now }
{
    steps.iter().all(|step| is_in_range(*step))
}

/// Gives a thread turns up to its end, or to a limit or a wait, by calls of at most this many.
fn give_turns<C: ThreadCode + Drop>(
    ready: &mut ReadyThread<C>,
    port: &mut Answering,
    most: u64,
    looks: Looks,
) -> Result<Given, Fail>
    requires { StaysReadyOnAny C.code ready.old.own.bounds (thread_of C.state C.saved ready.old) port.old }
{
    let mut given = Given { calls: 0, turns: 0 };
    for _call in 0..MOST {
        let Ok(stretch) = turns(ready, port, most, looks) else {
            return Err(Fail::from("there is no memory"));
        };
        given.calls = given.calls.saturating_add(1);
        given.turns = given.turns.saturating_add(stretch.count);
        if let Some(Turn::Ended(_) | Turn::Spent(_) | Turn::Blocked(_)) = stretch.last {
            return Ok(given);
        }
    }
    Err(Fail::from("the script ends"))
}

/// Where a script begins: its thread before the first turn, and its words.
pub(crate) fn begin<'a>(
    alloc: Global,
    scripts: &'a [ToyScript<'a>],
) -> Result<(ReadyThread<Toy<'a>>, Answering), Fail>
    ensures { IfOk result (λ b. StaysReadyOnAny toy_code b.0.own.bounds (thread_of ⟦<Toy<'a> as ThreadCode>⟧.state ⟦<Toy<'a> as ThreadCode>⟧.saved b.0) b.1) }
{
    let main = Toy::new(alloc, scripts, 0);
    if !are_in_range(main.steps) {
        return Err(Fail::from("each step is in range"));
    }
    let bounds = Bounds {
        limits: LIMITS,
        first: FIRST,
    };
    let ready = ReadyThread::first(alloc, main, 1, 5, bounds);
    let port = port(alloc)?;
    Ok((ready, port))
}

/// A script up to where it can't go on alone, by calls of at most this many turns, with a caller that looks so.
fn run_looking<'a>(
    alloc: Global,
    scripts: &'a [ToyScript<'a>],
    most: u64,
    looks: Looks,
) -> Result<Ran<'a>, Fail> {
    let (mut ready, mut port) = begin(alloc, scripts)?;
    let given = give_turns(&mut ready, &mut port, most, looks)?;
    Ok(Ran { ready, port, given })
}

/// The same by single turns.
pub(crate) fn run_singly<'a>(alloc: Global, scripts: &'a [ToyScript<'a>]) -> Result<Ran<'a>, Fail> {
    run_looking(alloc, scripts, 1, NO_LOOKS)
}

fn have_same_words(one: &PlainWords, other: &PlainWords) -> bool {
    let size = one.areas.size();
    if size != other.areas.size() {
        return false;
    }
    for at in 0..size {
        if one.raw(at) != other.raw(at) {
            return false;
        }
    }
    true
}

fn is_same_thread(one: &ReadyThread<Toy<'_>>, other: &ReadyThread<Toy<'_>>) -> bool {
    let one = one.thread();
    let other = other.thread();
    one.counted() == other.counted()
        && one.section() == other.section()
        && one.levels() == other.levels()
        && one.log_len() == other.log_len()
        && one.is_over() == other.is_over()
        && one.lines().len() == other.lines().len()
        && one.code().place.step == other.code().place.step
        && one.code().place.frames == other.code().place.frames
        && one.code().place.value == other.code().place.value
}

pub(crate) fn is_same(one: &Ran<'_>, other: &Ran<'_>) -> bool {
    one.given.turns == other.given.turns
        && one.port.made == other.port.made
        && one.port.sum == other.port.sum
        && have_same_words(&one.port.words, &other.port.words)
        && is_same_thread(&one.ready, &other.ready)
}

#[test]
fn many_turns_are_single_ones(rt: HostRuntime) -> Result<(), Fail> {
    for (steps, ends) in [(OUTSIDE, 11), (SECTIONS, 14), (OTHERS, 6)] {
        let scripts = [ToyScript { object: 0, steps }];
        let single = run_singly(rt.alloc(), &scripts)?;
        assert!(rt; single.port.refused == 0 && single.ready.thread().code().place.step == ends);
        for most in 2..21 {
            let many = run_looking(rt.alloc(), &scripts, most, NO_LOOKS)?;
            assert!(rt; is_same(&single, &many));
        }
    }
    Ok(())
}

#[test]
fn a_call_ends_at_a_look(rt: HostRuntime) -> Result<(), Fail> {
    let scripts = [ToyScript {
        object: 0,
        steps: SECTIONS,
    }];
    let single = run_singly(rt.alloc(), &scripts)?;
    // One call; one for each section too; one for each step of the script and for the end of the thread too.
    for (kinds, events, calls) in [(0, false, 1), (1 << COMMIT, false, 3), (0, true, 16)] {
        let looks = Looks { kinds, events };
        let many = run_looking(rt.alloc(), &scripts, 1000, looks)?;
        assert!(rt; many.given.calls == calls && is_same(&single, &many));
    }
    Ok(())
}
