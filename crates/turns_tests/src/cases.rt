//! Scripts, orders of turns, and what they come to.

use op_core::{Limits, Line, Op};
use schedules::OrderItem;
use std::test::Fail;
use toy_code::{ToyScript, ToyStep};
use turns_cases::{AMPLE, End, Row, Run, run_of};

pub const LOCK: u32 = 1;

pub const OTHER: u32 = 3;

pub const WORDS: u32 = 5;

pub const SECOND: u32 = 11;

pub const THIRD: u32 = 16;

pub const FOURTH: u32 = 21;

pub const ENTER: ToyStep = ToyStep::Do(Op::Enter(LOCK));

pub const EXIT: ToyStep = ToyStep::Do(Op::Exit(LOCK));

pub const READ_X: ToyStep = ToyStep::Do(Op::Read(WORDS, 0));

pub const READ_Y: ToyStep = ToyStep::Do(Op::Read(WORDS, 1));

pub const X_11: ToyStep = ToyStep::Do(Op::Write(WORDS, 0, 11));

pub const Y_12: ToyStep = ToyStep::Do(Op::Write(WORDS, 1, 12));

pub const ENTER_OTHER: ToyStep = ToyStep::Do(Op::Enter(OTHER));

pub const EXIT_OTHER: ToyStep = ToyStep::Do(Op::Exit(OTHER));

pub const PRINT_1: ToyStep = ToyStep::Do(Op::Print(Line::Int(1)));

const PRINT_2: ToyStep = ToyStep::Do(Op::Print(Line::Int(2)));

const PRINT_3: ToyStep = ToyStep::Do(Op::Print(Line::Int(3)));

const PRINT_4: ToyStep = ToyStep::Do(Op::Print(Line::Int(4)));

/// A thread that writes both words under the lock.
pub const WRITER: &[ToyStep] = &[ENTER, X_11, Y_12, EXIT];

/// A thread that reads and prints both words under the lock.
pub const READER: &[ToyStep] = &[ENTER, READ_X, ToyStep::Show, READ_Y, ToyStep::Show, EXIT];

/// Main writes 1 and 2 and starts the second and the third thread, with these priorities.
pub const PAIR_MAIN: &[ToyStep] = &[
    ToyStep::Do(Op::Write(WORDS, 0, 1)),
    ToyStep::Do(Op::Write(WORDS, 1, 2)),
    ToyStep::Do(Op::Start(SECOND, 1)),
    ToyStep::Do(Op::Start(THIRD, 10)),
];

const EQUAL_MAIN: &[ToyStep] = &[
    ToyStep::Do(Op::Write(WORDS, 0, 1)),
    ToyStep::Do(Op::Write(WORDS, 1, 2)),
    ToyStep::Do(Op::Start(SECOND, 5)),
    ToyStep::Do(Op::Start(THIRD, 5)),
];

/// It starts a fourth thread too.
const PEEK_MAIN: &[ToyStep] = &[
    ToyStep::Do(Op::Write(WORDS, 0, 1)),
    ToyStep::Do(Op::Write(WORDS, 1, 2)),
    ToyStep::Do(Op::Start(SECOND, 1)),
    ToyStep::Do(Op::Start(THIRD, 10)),
    ToyStep::Do(Op::Start(FOURTH, 5)),
];

const PAIR: Row = Row {
    scripts: &[
        ToyScript {
            object: 0,
            steps: PAIR_MAIN,
        },
        ToyScript {
            object: SECOND,
            steps: WRITER,
        },
        ToyScript {
            object: THIRD,
            steps: READER,
        },
    ],
    limits: AMPLE,
    order: &[
        OrderItem::Until(1, 20),
        OrderItem::Until(2, 2),
        OrderItem::Until(2, 2),
        OrderItem::Until(3, 8),
        OrderItem::Until(2, 10),
        OrderItem::Until(3, 20),
    ],
    waits: &[],
    end: End::Done,
    lines: &[1, 2],
    sections: (3, 1),
    counted: &[9, 17, 12],
};

const EQUAL: Row = Row {
    scripts: &[
        ToyScript {
            object: 0,
            steps: EQUAL_MAIN,
        },
        ToyScript {
            object: SECOND,
            steps: WRITER,
        },
        ToyScript {
            object: THIRD,
            steps: READER,
        },
    ],
    limits: AMPLE,
    order: &[
        OrderItem::Until(1, 20),
        OrderItem::Until(2, 2),
        OrderItem::Until(2, 2),
        OrderItem::Until(3, 8),
    ],
    waits: &[("not higher", 5)],
    end: End::Done,
    lines: &[11, 12],
    sections: (2, 0),
    counted: &[9, 8, 11],
};

const PEEK: Row = Row {
    scripts: &[
        ToyScript {
            object: 0,
            steps: PEEK_MAIN,
        },
        ToyScript {
            object: SECOND,
            steps: WRITER,
        },
        ToyScript {
            object: THIRD,
            steps: READER,
        },
        ToyScript {
            object: FOURTH,
            steps: &[READ_X, ToyStep::Show],
        },
    ],
    limits: AMPLE,
    order: &[
        OrderItem::Until(1, 20),
        OrderItem::Until(2, 2),
        OrderItem::Until(2, 2),
        OrderItem::Until(4, 20),
        OrderItem::Until(3, 8),
    ],
    waits: &[("pinned", 0)],
    end: End::Done,
    lines: &[11, 11, 12],
    sections: (2, 0),
    counted: &[12, 8, 11, 4],
};

const PRINT: Row = Row {
    scripts: &[
        ToyScript {
            object: 0,
            steps: PAIR_MAIN,
        },
        ToyScript {
            object: SECOND,
            steps: &[
                ENTER,
                ToyStep::Do(Op::Print(Line::Int(7))),
                X_11,
                Y_12,
                EXIT,
            ],
        },
        ToyScript {
            object: THIRD,
            steps: READER,
        },
    ],
    limits: AMPLE,
    order: &[
        OrderItem::Until(1, 20),
        OrderItem::Until(2, 2),
        OrderItem::Until(2, 2),
        OrderItem::Until(3, 8),
    ],
    waits: &[("pinned", 0)],
    end: End::Done,
    lines: &[7, 11, 12],
    sections: (2, 0),
    counted: &[9, 10, 11],
};

const MID_UNDO: Row = Row {
    scripts: &[
        ToyScript {
            object: 0,
            steps: PEEK_MAIN,
        },
        ToyScript {
            object: SECOND,
            steps: WRITER,
        },
        ToyScript {
            object: THIRD,
            steps: READER,
        },
        ToyScript {
            object: FOURTH,
            steps: &[READ_Y, ToyStep::Show, READ_X, ToyStep::Show],
        },
    ],
    limits: AMPLE,
    order: &[
        OrderItem::Until(1, 20),
        OrderItem::Until(2, 2),
        OrderItem::Until(2, 2),
        OrderItem::Until(3, 8),
        OrderItem::Until(2, 3),
        OrderItem::Until(4, 17),
        OrderItem::Until(4, 20),
        OrderItem::Until(2, 10),
        OrderItem::Until(4, 20),
        OrderItem::Until(3, 20),
    ],
    waits: &[("word revoking", 1)],
    end: End::Done,
    lines: &[2, 1, 1, 2],
    sections: (3, 1),
    counted: &[12, 17, 12, 5],
};

const KNOWN: Row = Row {
    scripts: &[
        ToyScript {
            object: 0,
            steps: &[
                ENTER,
                ToyStep::Do(Op::Write(WORDS, 0, 5)),
                EXIT,
                ToyStep::Do(Op::Start(SECOND, 1)),
                ToyStep::Do(Op::Start(THIRD, 10)),
                ToyStep::Do(Op::Start(FOURTH, 5)),
            ],
        },
        ToyScript {
            object: SECOND,
            steps: &[ENTER, ToyStep::Do(Op::Write(WORDS, 0, 6)), EXIT],
        },
        ToyScript {
            object: THIRD,
            steps: &[ENTER, READ_X, ToyStep::Show, EXIT],
        },
        ToyScript {
            object: FOURTH,
            steps: &[ToyStep::Do(Op::Write(WORDS, 0, 9))],
        },
    ],
    limits: AMPLE,
    order: &[
        OrderItem::Until(1, 20),
        OrderItem::Until(4, 6),
        OrderItem::Until(4, 1),
        OrderItem::Until(2, 2),
        OrderItem::Until(3, 8),
        OrderItem::Until(2, 10),
        OrderItem::Until(4, 2),
        OrderItem::Until(3, 20),
    ],
    waits: &[],
    end: End::Done,
    lines: &[9],
    sections: (4, 1),
    counted: &[16, 14, 10, 2],
};

const NESTED: Row = Row {
    scripts: &[
        ToyScript {
            object: 0,
            steps: &[
                ToyStep::Do(Op::Start(SECOND, 1)),
                ToyStep::Do(Op::Start(THIRD, 10)),
                ToyStep::Do(Op::Start(FOURTH, 5)),
            ],
        },
        ToyScript {
            object: SECOND,
            steps: &[
                ENTER,
                ToyStep::Do(Op::Enter(OTHER)),
                ToyStep::Do(Op::Write(WORDS, 0, 1)),
                ToyStep::Do(Op::Exit(OTHER)),
                ToyStep::Do(Op::Write(WORDS, 1, 1)),
                EXIT,
            ],
        },
        ToyScript {
            object: THIRD,
            steps: &[ENTER, READ_Y, ToyStep::Show, EXIT],
        },
        ToyScript {
            object: FOURTH,
            steps: &[
                ToyStep::Do(Op::Enter(OTHER)),
                ToyStep::Do(Op::Print(Line::Int(8))),
                ToyStep::Do(Op::Exit(OTHER)),
            ],
        },
    ],
    limits: AMPLE,
    order: &[
        OrderItem::Until(1, 20),
        OrderItem::Until(2, 14),
        OrderItem::Until(4, 12),
        OrderItem::Until(3, 8),
        OrderItem::Until(2, 10),
        OrderItem::Until(3, 20),
        OrderItem::Until(4, 20),
    ],
    waits: &[],
    end: End::Done,
    lines: &[0, 8],
    sections: (4, 1),
    counted: &[10, 23, 10, 8],
};

/// A thread that waits gives up the monitor that it had entered three times, and keeps the other one.
const WAIT: Row = Row {
    scripts: &[
        ToyScript {
            object: 0,
            steps: &[
                ToyStep::Do(Op::Start(SECOND, 1)),
                ToyStep::Do(Op::Start(THIRD, 10)),
                ToyStep::Do(Op::Start(FOURTH, 5)),
            ],
        },
        ToyScript {
            object: SECOND,
            steps: &[
                ENTER,
                ENTER_OTHER,
                ENTER_OTHER,
                ENTER_OTHER,
                ToyStep::WaitOn(OTHER),
                PRINT_1,
                EXIT_OTHER,
                EXIT_OTHER,
                EXIT_OTHER,
                EXIT,
            ],
        },
        ToyScript {
            object: THIRD,
            steps: &[ENTER, PRINT_2, EXIT],
        },
        ToyScript {
            object: FOURTH,
            steps: &[ENTER_OTHER, ToyStep::Do(Op::Notify(OTHER)), EXIT_OTHER],
        },
    ],
    limits: AMPLE,
    order: &[
        OrderItem::Until(1, 20),
        OrderItem::Until(2, 14),
        OrderItem::Until(3, 8),
        OrderItem::Until(4, 20),
    ],
    waits: &[("pinned", 0)],
    end: End::Done,
    lines: &[1, 2],
    sections: (3, 0),
    counted: &[10, 19, 8, 10],
};

/// Threads of one priority that want each other's monitors are stuck.
const CYCLE: Row = Row {
    scripts: &[
        ToyScript {
            object: 0,
            steps: &[
                PRINT_1,
                ToyStep::Do(Op::Start(SECOND, 5)),
                ToyStep::Do(Op::Start(THIRD, 5)),
            ],
        },
        ToyScript {
            object: SECOND,
            steps: &[ENTER, ENTER_OTHER, EXIT_OTHER, EXIT],
        },
        ToyScript {
            object: THIRD,
            steps: &[ENTER_OTHER, ENTER, EXIT, EXIT_OTHER],
        },
    ],
    limits: AMPLE,
    order: &[
        OrderItem::Until(1, 20),
        OrderItem::Until(2, 12),
        OrderItem::Until(3, 12),
    ],
    waits: &[],
    end: End::Stuck,
    lines: &[1],
    sections: (2, 0),
    counted: &[],
};

const SECTIONS: Row = Row {
    scripts: &[ToyScript {
        object: 0,
        steps: &[
            ENTER, PRINT_1, EXIT, ENTER, PRINT_2, EXIT, ENTER, PRINT_3, EXIT, ENTER, PRINT_4, EXIT,
        ],
    }],
    limits: Limits {
        turns: 1000,
        heap: 10,
        sections: 3,
    },
    order: &[],
    waits: &[],
    end: End::Sections,
    lines: &[1, 2, 3],
    sections: (3, 0),
    counted: &[22],
};

const HEAP_SCRIPTS: &[ToyScript<'static>] = &[ToyScript {
    object: 0,
    steps: &[ToyStep::Do(Op::New(1, 0)), PRINT_1],
}];

/// A new object without words takes two places.
const HEAP: Row = Row {
    scripts: HEAP_SCRIPTS,
    limits: Limits {
        turns: 1000,
        heap: 2,
        sections: 3,
    },
    order: &[],
    waits: &[],
    end: End::Done,
    lines: &[1],
    sections: (0, 0),
    counted: &[],
};

const SMALL_HEAP: Row = Row {
    scripts: HEAP_SCRIPTS,
    limits: Limits {
        turns: 1000,
        heap: 1,
        sections: 3,
    },
    order: &[],
    waits: &[],
    end: End::Heap,
    lines: &[],
    sections: (0, 0),
    counted: &[],
};

const TURNS: Row = Row {
    scripts: &[ToyScript {
        object: 0,
        steps: &[PRINT_1, PRINT_2],
    }],
    limits: Limits {
        turns: 1,
        heap: 10,
        sections: 3,
    },
    order: &[],
    waits: &[],
    end: End::Turns,
    lines: &[1],
    sections: (0, 0),
    counted: &[],
};

const JOIN: Row = Row {
    scripts: &[
        ToyScript {
            object: 0,
            steps: &[
                ToyStep::Do(Op::Start(SECOND, 5)),
                ToyStep::Do(Op::Join(SECOND)),
                PRINT_3,
            ],
        },
        ToyScript {
            object: SECOND,
            steps: &[ToyStep::Pass, PRINT_2],
        },
    ],
    limits: AMPLE,
    order: &[
        OrderItem::Until(1, 21),
        OrderItem::Until(1, 21),
        OrderItem::Until(1, 21),
    ],
    waits: &[("alive", 2)],
    end: End::Done,
    lines: &[2, 3],
    sections: (0, 0),
    counted: &[],
};

/// The second thread writes a word.
const WRITES: OrderItem = OrderItem::Until(2, 2);

/// The third one revokes the section.
const REVOKES: OrderItem = OrderItem::Until(3, 8);

/// The section is undone.
const UNDOES: OrderItem = OrderItem::Until(2, 10);

/// The third thread leaves the lock.
const LEAVES: OrderItem = OrderItem::Until(3, 14);

/// Ten sections of the third thread revoke one of the second.
const TEN_TIMES: Row = Row {
    scripts: &[
        ToyScript {
            object: 0,
            steps: &[
                ToyStep::Do(Op::Start(SECOND, 1)),
                ToyStep::Do(Op::Start(THIRD, 10)),
            ],
        },
        ToyScript {
            object: SECOND,
            steps: WRITER,
        },
        ToyScript {
            object: THIRD,
            steps: &[
                ENTER,
                EXIT,
                ENTER,
                EXIT,
                ENTER,
                EXIT,
                ENTER,
                EXIT,
                ENTER,
                EXIT,
                ENTER,
                EXIT,
                ENTER,
                EXIT,
                ENTER,
                EXIT,
                ENTER,
                EXIT,
                ENTER,
                EXIT,
                READ_X,
                ToyStep::Show,
            ],
        },
    ],
    limits: AMPLE,
    order: &[
        OrderItem::Until(1, 20),
        WRITES,
        REVOKES,
        UNDOES,
        LEAVES,
        WRITES,
        REVOKES,
        UNDOES,
        LEAVES,
        WRITES,
        REVOKES,
        UNDOES,
        LEAVES,
        WRITES,
        REVOKES,
        UNDOES,
        LEAVES,
        WRITES,
        REVOKES,
        UNDOES,
        LEAVES,
        WRITES,
        REVOKES,
        UNDOES,
        LEAVES,
        WRITES,
        REVOKES,
        UNDOES,
        LEAVES,
        WRITES,
        REVOKES,
        UNDOES,
        LEAVES,
        WRITES,
        REVOKES,
        UNDOES,
        LEAVES,
        WRITES,
        REVOKES,
        UNDOES,
        LEAVES,
    ],
    waits: &[],
    end: End::Done,
    lines: &[11],
    sections: (21, 10),
    counted: &[],
};

const ROWS: [Row; 15] = [
    PAIR, EQUAL, PEEK, PRINT, MID_UNDO, KNOWN, NESTED, WAIT, CYCLE, SECTIONS, HEAP, SMALL_HEAP,
    TURNS, JOIN, TEN_TIMES,
];

#[test]
fn turns_come_to_what_each_case_says(rt: HostRuntime) -> Result<(), Fail> {
    for row in ROWS {
        assert!(rt; run_of(rt.alloc(), row)?.is_some());
    }
    Ok(())
}

/// A silent step that leaves the frame in which a section was opened pins it first.
const LEAVING: &[ToyScript<'static>] = &[ToyScript {
    object: 0,
    steps: &[ToyStep::Call, ENTER, ToyStep::Return, EXIT],
}];

/// The kinds of the steps after that which takes the monitor: the section's word is loaded, it is pinned, and a silent
/// step follows.
const AFTER_ENTRY: [u8; 3] = [6, 7, 0];

#[test]
fn a_section_is_pinned_before_its_frame_is_left(rt: HostRuntime) -> Result<(), Fail> {
    let mut run = Run::begin(rt.alloc(), LEAVING, AMPLE)?;
    for _turn in 0..100 {
        if run.kind_of_turn(1)? == 12 {
            break;
        }
    }
    for kind in AFTER_ENTRY {
        assert!(rt; run.kind_of_turn(1)? == kind);
    }
    Ok(())
}
