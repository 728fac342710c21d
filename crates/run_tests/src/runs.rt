//! Tests of what comes of scripts under an order and a seed: lines, ends of threads, limits and events.

use crate::setting::{AMPLE, ended, printed, run, shown};
use op_core::{Limits, Line, Op, Script};
use schedules::OrderItem;
use std::test::Fail;
use toy_code::{Toy, ToyScript, ToyStep};

/// What comes of scripts under an order and a seed: what is printed, who ended by which exception, and how.
#[derive(Clone, Copy)]
struct Run {
    scripts: &'static [ToyScript<'static>],
    order: &'static [OrderItem],
    seed: Option<u64>,
    limits: Limits,
    lines: &'static [i32],
    ends: &'static [(u8, Option<u32>)],
    how: (&'static str, u8),
}

// Main's object is 1, and 11 and 16 start the threads 2 and 3.
const OBJECTS: [u32; 4] = [3, 5, 11, 16];

const START_2: ToyStep = ToyStep::Do(Op::Start(11, 5));

const START_3: ToyStep = ToyStep::Do(Op::Start(16, 5));

const JOIN_2: ToyStep = ToyStep::Do(Op::Join(11));

const ENTER: ToyStep = ToyStep::Do(Op::Enter(3));

const ENTER_INNER: ToyStep = ToyStep::Do(Op::Enter(5));

const PRINT_1: ToyStep = ToyStep::Do(Op::Print(Line::Int(1)));

const PRINT_2: ToyStep = ToyStep::Do(Op::Print(Line::Int(2)));

const PRINT_3: ToyStep = ToyStep::Do(Op::Print(Line::Int(3)));

const THREE_PRINT: [ToyScript<'static>; 3] = [
    ToyScript {
        object: 1,
        steps: &[START_2, START_3, PRINT_1],
    },
    ToyScript {
        object: 11,
        steps: &[PRINT_2, PRINT_2],
    },
    ToyScript {
        object: 16,
        steps: &[PRINT_3],
    },
];

const MAIN_JOINS: [ToyScript<'static>; 2] = [
    ToyScript {
        object: 1,
        steps: &[START_2, ToyStep::Pass, JOIN_2, PRINT_3],
    },
    ToyScript {
        object: 11,
        steps: &[PRINT_2],
    },
];

const THREE_END: [(u8, Option<u32>); 3] = [(1, None), (2, None), (3, None)];

const LOWEST_FIRST: Run = Run {
    scripts: &THREE_PRINT,
    order: &[],
    seed: None,
    limits: AMPLE,
    lines: &[1, 2, 2, 3],
    ends: &THREE_END,
    how: ("done", 0),
};

const ITEM_BY_ITEM: Run = Run {
    scripts: &THREE_PRINT,
    order: &[
        OrderItem::Turns(1, 2),
        OrderItem::Turns(3, 1),
        OrderItem::Turns(2, 1),
    ],
    seed: None,
    limits: AMPLE,
    lines: &[3, 2, 1, 2],
    ends: &THREE_END,
    how: ("done", 0),
};

/// Items of threads that haven't begun, that never do, or that have ended, and one without turns.
const ITEMS_THAT_END_AT_ONCE: Run = Run {
    scripts: &THREE_PRINT,
    order: &[
        OrderItem::Turns(2, 5),
        OrderItem::Turns(7, 3),
        OrderItem::Turns(1, 0),
        OrderItem::Turns(1, 2),
        OrderItem::Turns(3, 9),
        OrderItem::Turns(3, 9),
    ],
    seed: None,
    limits: AMPLE,
    lines: &[3, 1, 2, 2],
    ends: &THREE_END,
    how: ("done", 0),
};

/// The numbers drawn after 1, without their 33 lower bits, are 908834774, 1093944153, 1392341196, 822192870,
/// 1708211034, 1074839795 and 1189567130: of 3 enabled threads the places 2, 0, 0, of 2 the places 0, 0, 1, of 1 the
/// place 0.
const SEED_1: Run = Run {
    scripts: &THREE_PRINT,
    order: &[OrderItem::Turns(1, 2)],
    seed: Some(1),
    limits: AMPLE,
    lines: &[3, 1, 2, 2],
    ends: &THREE_END,
    how: ("done", 0),
};

/// The item gives all its turns, though its thread has to wait.
const WAITS_IN_AN_ITEM: Run = Run {
    scripts: &MAIN_JOINS,
    order: &[OrderItem::Turns(1, 9)],
    seed: None,
    limits: AMPLE,
    lines: &[2, 3],
    ends: &[(1, None), (2, None)],
    how: ("done", 0),
};

const UNTIL_IT_WAITS: Run = Run {
    scripts: &MAIN_JOINS,
    order: &[OrderItem::Until(1, 16), OrderItem::Until(2, 16)],
    seed: None,
    limits: AMPLE,
    lines: &[2, 3],
    ends: &[(1, None), (2, None)],
    how: ("done", 0),
};

/// Thread 2 is ended by an exception before thread 1 ends.
const ONE_DIES: Run = Run {
    scripts: &[
        ToyScript {
            object: 1,
            steps: &[START_2, PRINT_1],
        },
        ToyScript {
            object: 11,
            steps: &[ToyStep::Do(Op::End(Some(5)))],
        },
    ],
    order: &[OrderItem::Turns(1, 1), OrderItem::Turns(2, 1)],
    seed: None,
    limits: AMPLE,
    lines: &[1],
    ends: &[(1, None), (2, Some(5))],
    how: ("died", 0),
};

/// Two threads that want each other's monitor.
const CYCLE: Run = Run {
    scripts: &[
        ToyScript {
            object: 1,
            steps: &[START_2, START_3, PRINT_1],
        },
        ToyScript {
            object: 11,
            steps: &[ENTER, ENTER_INNER],
        },
        ToyScript {
            object: 16,
            steps: &[ENTER_INNER, ENTER],
        },
    ],
    order: &[
        OrderItem::Turns(1, 20),
        OrderItem::Turns(2, 1),
        OrderItem::Turns(3, 1),
    ],
    seed: None,
    limits: AMPLE,
    lines: &[1],
    ends: &[(1, None)],
    how: ("stuck", 0),
};

const TWO_TURNS: Limits = Limits {
    turns: 2,
    heap: 1000,
    sections: 1000,
};

const FOUR_TURNS: Limits = Limits {
    turns: 4,
    heap: 1000,
    sections: 1000,
};

/// Its third turn would print.
const TOO_MANY_STEPS: Run = Run {
    scripts: &[ToyScript {
        object: 1,
        steps: &[ToyStep::Pass, PRINT_1, PRINT_2],
    }],
    order: &[],
    seed: None,
    limits: TWO_TURNS,
    lines: &[1],
    ends: &[],
    how: ("turns", 1),
};

/// The fourth turn ends the thread.
const JUST_ENOUGH_TURNS: Run = Run {
    scripts: &[ToyScript {
        object: 1,
        steps: &[ToyStep::Pass, PRINT_1, PRINT_2],
    }],
    order: &[],
    seed: None,
    limits: FOUR_TURNS,
    lines: &[1, 2],
    ends: &[(1, None)],
    how: ("done", 0),
};

/// A turn that a thread gets after its limit of counted turns is spent, though the thread would wait.
const SPENT_IN_AN_ITEM: Run = Run {
    scripts: &MAIN_JOINS,
    order: &[OrderItem::Turns(1, 3)],
    seed: None,
    limits: TWO_TURNS,
    lines: &[],
    ends: &[],
    how: ("turns", 1),
};

/// No such turn comes while the thread isn't enabled.
const SPENT_ONCE_ENABLED: Run = Run {
    scripts: &MAIN_JOINS,
    order: &[],
    seed: None,
    limits: TWO_TURNS,
    lines: &[2],
    ends: &[(2, None)],
    how: ("turns", 1),
};

/// The first object takes 4 words, the second 2.
const TOO_MANY_WORDS: Run = Run {
    scripts: &[ToyScript {
        object: 1,
        steps: &[
            ToyStep::Do(Op::New(5, 2)),
            PRINT_1,
            ToyStep::Do(Op::New(5, 0)),
            PRINT_2,
        ],
    }],
    order: &[],
    seed: None,
    limits: Limits {
        turns: 1000,
        heap: 5,
        sections: 1000,
    },
    lines: &[1],
    ends: &[],
    how: ("heap", 1),
};

const RUNS: [Run; 13] = [
    LOWEST_FIRST,
    ITEM_BY_ITEM,
    ITEMS_THAT_END_AT_ONCE,
    SEED_1,
    WAITS_IN_AN_ITEM,
    UNTIL_IT_WAITS,
    ONE_DIES,
    CYCLE,
    TOO_MANY_STEPS,
    JUST_ENOUGH_TURNS,
    SPENT_IN_AN_ITEM,
    SPENT_ONCE_ENABLED,
    TOO_MANY_WORDS,
];

#[test]
fn a_run_follows_its_schedule(rt: HostRuntime) -> Result<(), Fail> {
    let alloc = rt.alloc();
    for case in RUNS {
        let main = Toy::new(alloc, case.scripts, 1);
        let outcome = run(
            alloc,
            &OBJECTS,
            main,
            case.order,
            case.seed,
            &case.limits,
            false,
        )?;
        assert!(rt; printed(&outcome, case.lines));
        assert!(rt; ended(&outcome, case.ends));
        assert!(rt; shown(outcome.how) == case.how);
        assert!(rt; outcome.opened == 0 && outcome.undone == 0 && outcome.events.is_none());
    }
    Ok(())
}

#[test]
fn a_thread_at_the_end_of_its_code_is_stuck(rt: HostRuntime) -> Result<(), Fail> {
    let alloc = rt.alloc();
    let main = Script::new(alloc, &[]);
    let outcome = run(
        alloc,
        &[],
        main,
        &[OrderItem::Turns(1, 3)],
        Some(1),
        &AMPLE,
        true,
    )?;
    assert!(rt; shown(outcome.how) == ("stuck", 0));
    assert!(rt; ended(&outcome, &[]));
    Ok(())
}

/// Each step of `WAITS_IN_AN_ITEM`: its thread, and the silent steps before it.
const STEPS: [(u8, u64); 6] = [(1, 0), (2, 0), (2, 0), (1, 1), (1, 0), (1, 0)];

#[test]
fn events_are_kept_where_they_are_asked_for(rt: HostRuntime) -> Result<(), Fail> {
    let alloc = rt.alloc();
    let main = Toy::new(alloc, &MAIN_JOINS, 1);
    let outcome = run(
        alloc,
        &OBJECTS,
        main,
        WAITS_IN_AN_ITEM.order,
        None,
        &AMPLE,
        true,
    )?;
    let events = outcome.events.ok_or("there are events")?;
    assert!(rt; events.len() == STEPS.len());
    assert!(rt;
        events
            .iter()
            .zip(&STEPS)
            .all(|(event, step)| (event.thread, event.silent) == *step)
    );
    Ok(())
}
