//! Programs of threads that print what they read, run along schedules.

use crate::scheduling::Live;
use machine_cases::{ample, opening};
use op_core::{Limits, Line, NoMemory, Op, Rows};
use ordinary_machine::{Advance, Ordinary};
use schedules::{OrderItem, Remaining, Schedule, TurnEnd, pick};
use std::alloc::{AllocError, Global};
use std::test::Fail;
use toy_code::{Toy, ToyScript, ToyStep};

/// What is printed under an order, and which threads are then left.
#[derive(Clone, Copy)]
struct Run {
    scripts: &'static [ToyScript<'static>],
    order: &'static [OrderItem],
    lines: &'static [i32],
    left: &'static [u8],
}

// Main's object is 1, and 11, 16 and 21 start the threads 2, 3 and 4. Object 9 has the words x and y.
const START_2: ToyStep = ToyStep::Do(Op::Start(11, 5));

const START_3: ToyStep = ToyStep::Do(Op::Start(16, 5));

const START_4: ToyStep = ToyStep::Do(Op::Start(21, 5));

const ENTER: ToyStep = ToyStep::Do(Op::Enter(3));

const EXIT: ToyStep = ToyStep::Do(Op::Exit(3));

const ENTER_INNER: ToyStep = ToyStep::Do(Op::Enter(5));

const EXIT_INNER: ToyStep = ToyStep::Do(Op::Exit(5));

const READ_X: ToyStep = ToyStep::Do(Op::Read(9, 0));

const READ_Y: ToyStep = ToyStep::Do(Op::Read(9, 1));

const PRINT_1: ToyStep = ToyStep::Do(Op::Print(Line::Int(1)));

const PRINT_2: ToyStep = ToyStep::Do(Op::Print(Line::Int(2)));

const PRINT_3: ToyStep = ToyStep::Do(Op::Print(Line::Int(3)));

const SETS_BOTH: [ToyStep; 5] = [
    ToyStep::Do(Op::Write(9, 0, 1)),
    ToyStep::Do(Op::Write(9, 1, 2)),
    START_2,
    START_3,
    START_4,
];

const WRITES_BOTH: [ToyStep; 4] = [
    ENTER,
    ToyStep::Do(Op::Write(9, 0, 11)),
    ToyStep::Do(Op::Write(9, 1, 12)),
    EXIT,
];

const SHOWS_BOTH: [ToyStep; 6] = [ENTER, READ_X, ToyStep::Show, READ_Y, ToyStep::Show, EXIT];

const WAITS: [ToyStep; 10] = [
    ENTER,
    ENTER_INNER,
    ENTER_INNER,
    ENTER_INNER,
    ToyStep::WaitOn(5),
    PRINT_1,
    EXIT_INNER,
    EXIT_INNER,
    EXIT_INNER,
    EXIT,
];

/// A section's words are seen by others once it is left, and without a monitor at once.
const PEEK: Run = Run {
    scripts: &[
        ToyScript {
            object: 1,
            steps: &SETS_BOTH,
        },
        ToyScript {
            object: 11,
            steps: &WRITES_BOTH,
        },
        ToyScript {
            object: 16,
            steps: &SHOWS_BOTH,
        },
        ToyScript {
            object: 21,
            steps: &[READ_X, ToyStep::Show],
        },
    ],
    order: &[
        OrderItem::Turns(1, 20),
        OrderItem::Turns(2, 2),
        OrderItem::Turns(4, 20),
        OrderItem::Turns(3, 8),
    ],
    lines: &[11, 11, 12],
    left: &[],
};

/// A thread that waits keeps the other monitor, and enters its own again as often as before.
const WAIT: Run = Run {
    scripts: &[
        ToyScript {
            object: 1,
            steps: &[START_2, START_3, START_4],
        },
        ToyScript {
            object: 11,
            steps: &WAITS,
        },
        ToyScript {
            object: 16,
            steps: &[ENTER, PRINT_2, EXIT],
        },
        ToyScript {
            object: 21,
            steps: &[ENTER_INNER, ToyStep::Do(Op::Notify(5)), EXIT_INNER],
        },
    ],
    order: &[
        OrderItem::Turns(1, 20),
        OrderItem::Turns(2, 14),
        OrderItem::Turns(3, 8),
        OrderItem::Turns(4, 20),
    ],
    lines: &[1, 2],
    left: &[],
};

/// A thread that joins another goes on after its end, and one that waits without the monitor goes on at once.
const JOIN: Run = Run {
    scripts: &[
        ToyScript {
            object: 1,
            steps: &[START_2, ToyStep::Do(Op::Join(11)), PRINT_3],
        },
        ToyScript {
            object: 11,
            steps: &[ToyStep::Pass, ToyStep::WaitOn(5), PRINT_2],
        },
    ],
    order: &[OrderItem::Turns(1, 8), OrderItem::Turns(7, 3)],
    lines: &[2, 3],
    left: &[],
};

/// Two threads that want each other's monitor are stuck.
const CYCLE: Run = Run {
    scripts: &[
        ToyScript {
            object: 1,
            steps: &[START_2, START_3, PRINT_1],
        },
        ToyScript {
            object: 11,
            steps: &[ENTER, ENTER_INNER, EXIT_INNER, EXIT],
        },
        ToyScript {
            object: 16,
            steps: &[ENTER_INNER, ENTER, EXIT, EXIT_INNER],
        },
    ],
    order: &[
        OrderItem::Turns(1, 20),
        OrderItem::Turns(2, 1),
        OrderItem::Turns(3, 1),
    ],
    lines: &[1],
    left: &[2, 3],
};

const LIMITS: Limits = Limits {
    turns: 1000,
    heap: 1000,
    sections: 1000,
};

fn live(alloc: Global, machine: &Ordinary<Toy>) -> Result<Vec<u8>, AllocError> {
    let mut threads = Vec::new(alloc);
    for thread in 1..5 {
        if machine.has_begun(thread) && !machine.has_ended(thread) {
            threads.push(thread)?;
        }
    }
    Ok(threads)
}

fn enabled(alloc: Global, machine: &Ordinary<Toy>) -> Result<Vec<u8>, AllocError> {
    let mut threads = Vec::new(alloc);
    for thread in 1..5 {
        if machine.is_enabled(thread) {
            threads.push(thread)?;
        }
    }
    Ok(threads)
}

/// Gives the next turn, if there is one.
fn turn(
    alloc: Global,
    machine: &mut Ordinary<Toy>,
    left: &mut Remaining,
) -> Result<bool, NoMemory> {
    let live = live(alloc, machine)?;
    let live = Live {
        threads: live.as_slice(),
    };
    let thread = match left.due(&live) {
        Some(thread) => thread,
        None => match pick(enabled(alloc, machine)?.as_slice(), left.draw()) {
            Some(thread) => thread,
            None => return Ok(false),
        },
    };
    if !machine.has_begun(thread) {
        return Ok(false);
    }
    match machine.advance(thread, &LIMITS)? {
        Advance::Waits => left.end_turn(TurnEnd::Blocked),
        _ => left.end_turn(TurnEnd::Other),
    }
    Ok(true)
}

/// Whether the machine printed these numbers.
fn printed(machine: &Ordinary<Toy>, lines: &[i32]) -> bool {
    machine.lines().len() == lines.len()
        && machine.lines().iter().zip(lines).all(|(
            line,
            number,
        )| matches!(line, Line::Int(printed) if printed == number))
}

#[test]
fn threads_print_what_they_read(rt: HostRuntime) -> Result<(), Fail> {
    let alloc = rt.alloc();
    let opening = opening(alloc, &[3, 5, 9, 11, 16, 21], &[], 30)?;
    assert!(rt; opening.lies_below_first());
    for run in [PEEK, WAIT, JOIN, CYCLE] {
        let schedule = Schedule {
            order: Rows::from_vec(Vec::from_slice(alloc, run.order)?),
            seed: None,
        };
        let mut left = Remaining::new(&schedule);
        let first = Toy::new(alloc, run.scripts, 1);
        let mut machine = ample(Ordinary::start(alloc, &opening, first))?;
        for _ in 0..200 {
            turn(alloc, &mut machine, &mut left).ok();
        }
        assert!(rt; printed(&machine, run.lines));
        assert!(rt; live(alloc, &machine)?.as_slice() == run.left);
    }
    Ok(())
}
