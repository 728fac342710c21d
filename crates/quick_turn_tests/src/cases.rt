//! Scripts by single turns and by usual turns at once.

use crate::random::{Numbers, script};
use crate::run::{LOCK, OTHER, THREADS, WORDS, are_same, run};
use crate::slices::Giving;
use op_core::{Line, Op};
use std::alloc::Global;
use std::process::Abort;
use std::test::Fail;
use toy_code::{ToyScript, ToyStep};

/// How many random programs are run.
const SEEDS: u64 = 30;

const ENTER: ToyStep = ToyStep::Do(Op::Enter(LOCK));

const EXIT: ToyStep = ToyStep::Do(Op::Exit(LOCK));

const ENTER_OTHER: ToyStep = ToyStep::Do(Op::Enter(OTHER));

const EXIT_OTHER: ToyStep = ToyStep::Do(Op::Exit(OTHER));

const READ_X: ToyStep = ToyStep::Do(Op::Read(WORDS, 0));

const READ_Y: ToyStep = ToyStep::Do(Op::Read(WORDS, 1));

const X_11: ToyStep = ToyStep::Do(Op::Write(WORDS, 0, 11));

const Y_12: ToyStep = ToyStep::Do(Op::Write(WORDS, 1, 12));

const HEADER: ToyStep = ToyStep::Do(Op::ClassOf(WORDS));

const SHOW: ToyStep = ToyStep::Show;

/// Words and silent steps outside of sections, an object, a class, a line. Usual are a silent step and a call, a write of two turns, a
/// read, a return, a header, and the class once it is initialized.
const OUTSIDE: &[ToyStep] = &[
    ToyStep::Pass,
    ToyStep::Call,
    X_11,
    READ_X,
    SHOW,
    ToyStep::Return,
    ToyStep::Do(Op::New(1, 2)),
    HEADER,
    ToyStep::Do(Op::Init(1)),
    ToyStep::Do(Op::InitDone(1, true)),
    ToyStep::Do(Op::Init(1)),
];

const USUAL_OUTSIDE: u64 = 8;

/// Sections one after another and inside each other. Inside of a section that isn't pinned a read is two turns and a write three;
/// y, whose writer has committed, is read in four. Once the line is printed nothing that is usual follows.
const SECTIONS: &[ToyStep] = &[
    ENTER,
    X_11,
    ENTER,
    Y_12,
    EXIT,
    EXIT,
    ENTER_OTHER,
    READ_Y,
    ENTER,
    X_11,
    HEADER,
    EXIT,
    ToyStep::Do(Op::Print(Line::Int(4))),
    ToyStep::Do(Op::Notify(OTHER)),
    EXIT_OTHER,
];

const USUAL_SECTIONS: u64 = 15;

/// A thread that is started twice, and monitors that aren't owned.
const OTHERS: &[ToyStep] = &[
    EXIT,
    ENTER,
    ToyStep::Do(Op::Start(THREADS[0], 5)),
    ToyStep::Do(Op::Start(THREADS[0], 5)),
    EXIT,
    ToyStep::Do(Op::Notify(OTHER)),
];

/// Main starts a thread of low and one of high priority, and one between them.
const STARTS: &[ToyStep] = &[
    X_11,
    Y_12,
    ToyStep::Do(Op::Start(THREADS[0], 1)),
    ToyStep::Do(Op::Start(THREADS[1], 10)),
    ToyStep::Do(Op::Start(THREADS[2], 5)),
    READ_X,
    READ_Y,
    ToyStep::Do(Op::Join(THREADS[0])),
    READ_X,
];

const WRITER: &[ToyStep] = &[ENTER, X_11, Y_12, READ_X, HEADER, EXIT, READ_Y];

const READER: &[ToyStep] = &[ENTER, READ_X, SHOW, READ_Y, SHOW, EXIT, READ_X];

const NESTED: &[ToyStep] = &[
    ENTER_OTHER,
    Y_12,
    ENTER,
    X_11,
    READ_Y,
    EXIT,
    X_11,
    EXIT_OTHER,
    X_11,
];

const PEEKER: &[ToyStep] = &[READ_X, READ_Y, HEADER, X_11, READ_X, SHOW];

const WAITER: &[ToyStep] = &[ENTER, X_11, ToyStep::WaitOn(LOCK), READ_X, Y_12, EXIT];

const NOTIFIER: &[ToyStep] = &[
    ENTER,
    READ_X,
    ToyStep::Do(Op::Notify(LOCK)),
    X_11,
    EXIT,
    READ_Y,
];

/// What main and the three threads do.
const PROGRAMS: [[&[ToyStep]; 4]; 6] = [
    [OUTSIDE, &[], &[], &[]],
    [SECTIONS, &[], &[], &[]],
    [OTHERS, WRITER, &[], &[]],
    [STARTS, WRITER, READER, PEEKER],
    [STARTS, NESTED, READER, NESTED],
    [STARTS, WAITER, NOTIFIER, PEEKER],
];

/// Lengths of slices: each alone, and some in a row.
const LENGTHS: [&[u64]; 14] = [
    &[1],
    &[2],
    &[3],
    &[4],
    &[5],
    &[6],
    &[7],
    &[8],
    &[11],
    &[13],
    &[17],
    &[20],
    &[1000],
    &[9, 1, 14, 6, 3],
];

const RANDOM_LENGTHS: [&[u64]; 3] = [&[5], &[12], &[9, 1, 14, 6, 3]];

fn scripts_of<'a>(steps: [&'a [ToyStep]; 4]) -> [ToyScript<'a>; 4] {
    let [main, first, second, third] = steps;
    [
        ToyScript {
            object: 0,
            steps: main,
        },
        ToyScript {
            object: THREADS[0],
            steps: first,
        },
        ToyScript {
            object: THREADS[1],
            steps: second,
        },
        ToyScript {
            object: THREADS[2],
            steps: third,
        },
    ]
}

// Whether scripts come to the same by single turns and by usual ones at once.
fn comes_to_the_same<R: Abort + Copy + Drop>(
    alloc: Global,
    rt: R,
    scripts: &[ToyScript<'_>],
    lengths: &[u64],
) -> Result<bool, Fail> {
    let single = run(alloc, rt, scripts, lengths, Giving::Single)?;
    let usual = run(alloc, rt, scripts, lengths, Giving::Usual)?;
    Ok(single.usual == 0 && are_same(&single, &usual))
}

#[test]
fn usual_turns_are_single_ones(rt: HostRuntime) -> Result<(), Fail> {
    for steps in PROGRAMS {
        let scripts = scripts_of(steps);
        for lengths in LENGTHS {
            assert!(rt; comes_to_the_same(rt.alloc(), rt, &scripts, lengths)?);
        }
    }
    Ok(())
}

#[test]
fn usual_turns_come(rt: HostRuntime) -> Result<(), Fail> {
    for (steps, usual) in [(OUTSIDE, USUAL_OUTSIDE), (SECTIONS, USUAL_SECTIONS)] {
        let scripts = scripts_of([steps, &[], &[], &[]]);
        let ran = run(rt.alloc(), rt, &scripts, &[1000], Giving::Usual)?;
        assert!(rt; ran.usual == usual);
    }
    Ok(())
}

#[test]
fn random_programs_are_the_same(rt: HostRuntime) -> Result<(), Fail> {
    for seed in 0..SEEDS {
        let mut numbers = Numbers { last: seed };
        let first = script(rt.alloc(), &mut numbers)?;
        let second = script(rt.alloc(), &mut numbers)?;
        let third = script(rt.alloc(), &mut numbers)?;
        let scripts = scripts_of([
            STARTS,
            first.as_slice(),
            second.as_slice(),
            third.as_slice(),
        ]);
        for lengths in RANDOM_LENGTHS {
            assert!(rt; comes_to_the_same(rt.alloc(), rt, &scripts, lengths)?);
        }
    }
    Ok(())
}
