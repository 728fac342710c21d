//! Scripts with monitors inside of each other: what is undone where a level of a section alone is wanted.

use crate::cases::{
    ENTER, ENTER_OTHER, EXIT, EXIT_OTHER, FOURTH, LOCK, OTHER, PAIR_MAIN, PRINT_1, READ_X, READ_Y,
    SECOND, THIRD, WORDS, WRITER, X_11, Y_12,
};
use op_core::{How, Limit, Limits, Line, Op, Rows};
use schedules::{OrderItem, Schedule};
use std::alloc::{AllocError, Global};
use std::test::Fail;
use toy_code::{ToyScript, ToyStep};
use turns_cases::{AMPLE, End, FIRST, Row, Run, run_of};

/// A row, and what becomes of levels in it.
#[derive(Clone, Copy)]
struct LevelRow {
    row: Row,
    /// How often inner levels were undone and outer ones stayed open.
    inner: u32,
    /// How often an undo gave a monitor its depth of before.
    deepened: u32,
    /// The kinds of the compare-exchanges that were lost, in order.
    lost: &'static [u8],
}

const SHOW: ToyStep = ToyStep::Show;

const X_5: ToyStep = ToyStep::Do(Op::Write(WORDS, 0, 5));

const Y_6: ToyStep = ToyStep::Do(Op::Write(WORDS, 1, 6));

/// Main starts a second thread of low and a third one of high priority.
const LOW_HIGH: &[ToyStep] = &[
    ToyStep::Do(Op::Start(SECOND, 1)),
    ToyStep::Do(Op::Start(THIRD, 10)),
];

/// It starts a fourth one of a priority between them, too.
const LOW_HIGH_FOURTH: &[ToyStep] = &[
    ToyStep::Do(Op::Start(SECOND, 1)),
    ToyStep::Do(Op::Start(THIRD, 10)),
    ToyStep::Do(Op::Start(FOURTH, 5)),
];

/// A thread that reads and prints y under the other lock.
const OTHER_READER: &[ToyStep] = &[ENTER_OTHER, READ_Y, SHOW, EXIT_OTHER];

/// A thread that reads and prints x without a lock.
const PEEKER: &[ToyStep] = &[READ_X, SHOW];

/// Only the inner level is undone where the inner monitor is wanted: the outer one's turns aren't made again.
const INNER: LevelRow = LevelRow {
    row: Row {
        scripts: &[
            ToyScript {
                object: 0,
                steps: PAIR_MAIN,
            },
            ToyScript {
                object: SECOND,
                steps: &[ENTER, X_11, ENTER_OTHER, Y_12, EXIT_OTHER, EXIT],
            },
            ToyScript {
                object: THIRD,
                steps: OTHER_READER,
            },
        ],
        limits: AMPLE,
        order: &[
            OrderItem::Until(1, 20),
            OrderItem::Until(2, 2),
            OrderItem::Until(2, 2),
            OrderItem::Until(3, 8),
            OrderItem::Until(2, 10),
            OrderItem::Until(3, 20),
        ],
        waits: &[],
        end: End::Done,
        lines: &[2],
        sections: (2, 1),
        counted: &[9, 18, 10],
    },
    inner: 1,
    deepened: 0,
    lost: &[],
};

/// The same where no word was written before.
const INNER_FROM_NOTHING: LevelRow = LevelRow {
    row: Row {
        scripts: &[
            ToyScript {
                object: 0,
                steps: LOW_HIGH,
            },
            ToyScript {
                object: SECOND,
                steps: &[ENTER, X_5, ENTER_OTHER, Y_6, EXIT_OTHER, EXIT],
            },
            ToyScript {
                object: THIRD,
                steps: OTHER_READER,
            },
        ],
        limits: AMPLE,
        order: &[
            OrderItem::Until(1, 20),
            OrderItem::Until(2, 2),
            OrderItem::Until(2, 2),
            OrderItem::Until(3, 8),
            OrderItem::Until(2, 10),
            OrderItem::Until(3, 20),
        ],
        waits: &[],
        end: End::Done,
        lines: &[0],
        sections: (2, 1),
        counted: &[],
    },
    inner: 1,
    deepened: 0,
    lost: &[],
};

/// The outer monitor is entered once more in the inner level: an undo of that gives it its depth of before.
const ENTERED_AGAIN: LevelRow = LevelRow {
    row: Row {
        scripts: &[
            ToyScript {
                object: 0,
                steps: LOW_HIGH_FOURTH,
            },
            ToyScript {
                object: SECOND,
                steps: &[ENTER, ENTER_OTHER, ENTER, Y_6, EXIT, EXIT_OTHER, EXIT],
            },
            ToyScript {
                object: THIRD,
                steps: OTHER_READER,
            },
            ToyScript {
                object: FOURTH,
                steps: &[ENTER, ToyStep::Do(Op::Print(Line::Int(8))), EXIT],
            },
        ],
        limits: AMPLE,
        order: &[
            OrderItem::Until(1, 20),
            OrderItem::Until(2, 2),
            OrderItem::Until(3, 8),
            OrderItem::Until(2, 10),
            OrderItem::Until(3, 20),
        ],
        waits: &[],
        end: End::Done,
        lines: &[0, 8],
        sections: (3, 1),
        counted: &[],
    },
    inner: 1,
    deepened: 1,
    lost: &[],
};

/// The outer monitor is left first: that pins the section, and nobody revokes it then.
const OUT_OF_ORDER: LevelRow = LevelRow {
    row: Row {
        scripts: &[
            ToyScript {
                object: 0,
                steps: LOW_HIGH,
            },
            ToyScript {
                object: SECOND,
                steps: &[ENTER, ENTER_OTHER, EXIT, Y_6, EXIT_OTHER],
            },
            ToyScript {
                object: THIRD,
                steps: OTHER_READER,
            },
        ],
        limits: AMPLE,
        order: &[
            OrderItem::Until(1, 20),
            OrderItem::Until(2, 14),
            OrderItem::Until(3, 8),
        ],
        waits: &[("pinned", 0)],
        end: End::Done,
        lines: &[6],
        sections: (2, 0),
        counted: &[],
    },
    inner: 0,
    deepened: 0,
    lost: &[],
};

/// A section is revoked just before its next level opens.
const LOST_OPEN: LevelRow = LevelRow {
    row: Row {
        scripts: &[
            ToyScript {
                object: 0,
                steps: LOW_HIGH,
            },
            ToyScript {
                object: SECOND,
                steps: &[ENTER, ENTER_OTHER, Y_12, EXIT_OTHER, EXIT],
            },
            ToyScript {
                object: THIRD,
                steps: &[ENTER, PRINT_1, EXIT],
            },
        ],
        limits: AMPLE,
        order: &[
            OrderItem::Until(1, 20),
            OrderItem::Until(2, 11),
            OrderItem::Until(2, 11),
            OrderItem::Until(3, 8),
        ],
        waits: &[],
        end: End::Done,
        lines: &[1],
        sections: (3, 1),
        counted: &[],
    },
    inner: 0,
    deepened: 0,
    lost: &[32],
};

/// A section is pinned deeper just before its inner level closes.
const LOST_CLOSE: LevelRow = LevelRow {
    row: Row {
        scripts: &[
            ToyScript {
                object: 0,
                steps: LOW_HIGH,
            },
            ToyScript {
                object: SECOND,
                steps: &[ENTER, ENTER_OTHER, X_11, EXIT_OTHER, EXIT],
            },
            ToyScript {
                object: THIRD,
                steps: PEEKER,
            },
        ],
        limits: AMPLE,
        order: &[
            OrderItem::Until(1, 20),
            OrderItem::Until(2, 11),
            OrderItem::Until(2, 11),
            OrderItem::Until(2, 11),
            OrderItem::Until(3, 20),
        ],
        waits: &[],
        end: End::Done,
        lines: &[11],
        sections: (1, 0),
        counted: &[7, 11, 4],
    },
    inner: 0,
    deepened: 0,
    lost: &[33],
};

/// A section is pinned by another thread just before its own one pins it.
const LOST_PIN: LevelRow = LevelRow {
    row: Row {
        scripts: &[
            ToyScript {
                object: 0,
                steps: LOW_HIGH,
            },
            ToyScript {
                object: SECOND,
                steps: &[ENTER, X_11, PRINT_1, EXIT],
            },
            ToyScript {
                object: THIRD,
                steps: PEEKER,
            },
        ],
        limits: AMPLE,
        order: &[
            OrderItem::Until(1, 20),
            OrderItem::Until(2, 2),
            OrderItem::Until(2, 6),
            OrderItem::Until(3, 20),
        ],
        waits: &[],
        end: End::Done,
        lines: &[11, 1],
        sections: (1, 0),
        counted: &[7, 8, 4],
    },
    inner: 0,
    deepened: 0,
    lost: &[7],
};

/// A section is revoked just before it is committed.
const LOST_COMMIT: LevelRow = LevelRow {
    row: Row {
        scripts: &[
            ToyScript {
                object: 0,
                steps: LOW_HIGH,
            },
            ToyScript {
                object: SECOND,
                steps: WRITER,
            },
            ToyScript {
                object: THIRD,
                steps: &[ENTER, READ_X, SHOW, EXIT],
            },
        ],
        limits: AMPLE,
        order: &[
            OrderItem::Until(1, 20),
            OrderItem::Until(2, 2),
            OrderItem::Until(2, 2),
            OrderItem::Until(2, 11),
            OrderItem::Until(3, 8),
        ],
        waits: &[],
        end: End::Done,
        lines: &[11],
        sections: (3, 1),
        counted: &[],
    },
    inner: 0,
    deepened: 0,
    lost: &[9],
};

/// The inner level is undone and opened again, and written in, before the outer one is undone.
const INNER_THEN_OUTER: LevelRow = LevelRow {
    row: Row {
        scripts: &[
            ToyScript {
                object: 0,
                steps: PAIR_MAIN,
            },
            ToyScript {
                object: SECOND,
                steps: &[ENTER, X_11, ENTER_OTHER, Y_12, EXIT_OTHER, EXIT],
            },
            ToyScript {
                object: THIRD,
                steps: &[
                    ENTER_OTHER,
                    READ_Y,
                    SHOW,
                    EXIT_OTHER,
                    ENTER,
                    READ_X,
                    SHOW,
                    EXIT,
                ],
            },
        ],
        limits: AMPLE,
        order: &[
            OrderItem::Until(1, 20),
            OrderItem::Until(2, 2),
            OrderItem::Until(2, 2),
            OrderItem::Until(3, 8),
            OrderItem::Until(2, 10),
            OrderItem::Until(3, 14),
            OrderItem::Until(2, 2),
            OrderItem::Until(3, 8),
            OrderItem::Until(2, 10),
            OrderItem::Until(3, 20),
        ],
        waits: &[],
        end: End::Done,
        lines: &[2, 1],
        sections: (4, 2),
        counted: &[],
    },
    inner: 1,
    deepened: 0,
    lost: &[],
};

/// A wait gives up the outer monitor and keeps the inner one; the outer one comes back at its level.
const WAIT_BELOW: LevelRow = LevelRow {
    row: Row {
        scripts: &[
            ToyScript {
                object: 0,
                steps: LOW_HIGH,
            },
            ToyScript {
                object: SECOND,
                steps: &[
                    ENTER,
                    ENTER_OTHER,
                    ToyStep::WaitOn(LOCK),
                    PRINT_1,
                    EXIT_OTHER,
                    EXIT,
                ],
            },
            ToyScript {
                object: THIRD,
                steps: &[ENTER, ToyStep::Do(Op::Notify(LOCK)), EXIT],
            },
        ],
        limits: AMPLE,
        order: &[
            OrderItem::Until(1, 20),
            OrderItem::Until(2, 14),
            OrderItem::Until(3, 20),
        ],
        waits: &[],
        end: End::Done,
        lines: &[1],
        sections: (2, 0),
        counted: &[7, 15, 10],
    },
    inner: 0,
    deepened: 0,
    lost: &[],
};

/// A level is closed and opened again: what was written in the first one isn't undone with the second.
const OPENED_AGAIN: LevelRow = LevelRow {
    row: Row {
        scripts: &[
            ToyScript {
                object: 0,
                steps: PAIR_MAIN,
            },
            ToyScript {
                object: SECOND,
                steps: &[
                    ENTER,
                    ENTER_OTHER,
                    X_11,
                    EXIT_OTHER,
                    ENTER_OTHER,
                    Y_12,
                    EXIT_OTHER,
                    EXIT,
                ],
            },
            ToyScript {
                object: THIRD,
                steps: &[ENTER_OTHER, READ_Y, SHOW, READ_X, SHOW, EXIT_OTHER],
            },
        ],
        limits: AMPLE,
        order: &[
            OrderItem::Until(1, 20),
            OrderItem::Until(2, 2),
            OrderItem::Until(2, 2),
            OrderItem::Until(3, 8),
            OrderItem::Until(2, 10),
            OrderItem::Until(3, 20),
        ],
        waits: &[],
        end: End::Done,
        lines: &[2, 11],
        sections: (2, 1),
        counted: &[],
    },
    inner: 1,
    deepened: 0,
    lost: &[],
};

const ROWS: [LevelRow; 11] = [
    INNER,
    INNER_FROM_NOTHING,
    ENTERED_AGAIN,
    OUT_OF_ORDER,
    LOST_OPEN,
    LOST_CLOSE,
    LOST_PIN,
    LOST_COMMIT,
    INNER_THEN_OUTER,
    WAIT_BELOW,
    OPENED_AGAIN,
];

#[test]
fn levels_are_undone_alone(rt: HostRuntime) -> Result<(), Fail> {
    for level_row in ROWS {
        let run = run_of(rt.alloc(), level_row.row)?;
        assert!(rt; run.is_some());
        if let Some(run) = run {
            assert!(rt; run.inner() == level_row.inner && run.deepened() == level_row.deepened);
            assert!(rt; run.lost() == level_row.lost);
        }
    }
    Ok(())
}

/// There is room for this number of objects without words.
const DEEP: Limits = Limits {
    turns: 5000,
    heap: 520,
    sections: 3,
};

/// Main makes objects, enters the monitor of each, and leaves them all, the last one first.
fn deep_steps(alloc: Global, count: u32) -> Result<Vec<ToyStep>, AllocError> {
    let mut steps = Vec::new(alloc);
    for _object in 0..count {
        steps.push(ToyStep::Do(Op::New(1, 0)))?;
    }
    for object in 0..count {
        steps.push(ToyStep::Do(Op::Enter(FIRST.saturating_add(object.saturating_mul(2)))))?;
    }
    for object in 0..count {
        let last = count.saturating_sub(object).saturating_sub(1);
        steps.push(ToyStep::Do(Op::Exit(FIRST.saturating_add(last.saturating_mul(2)))))?;
    }
    Ok(steps)
}

/// How a run ends in which main enters this number of monitors, and how many levels it then has open.
fn deep_run(alloc: Global, count: u32) -> Result<(How, u8), Fail> {
    let steps = deep_steps(alloc, count)?;
    let scripts = [ToyScript {
        object: 0,
        steps: &steps,
    }];
    let schedule = Schedule {
        order: Rows::new(alloc),
        seed: None,
    };
    let mut run = Run::begin(alloc, &scripts, DEEP)?;
    let how = run.follow(&schedule)?;
    Ok((how, run.levels_of(1)))
}

#[test]
fn a_section_has_255_levels_at_most(rt: HostRuntime) -> Result<(), Fail> {
    assert!(rt; matches!(deep_run(rt.alloc(), 255)?, (How::Done, 0)));
    assert!(rt;
        matches!(
            deep_run(rt.alloc(), 256)?,
            (How::Limit(1, Limit::Depth), 255)
        )
    );
    Ok(())
}
