//! Threads that have several monitors.

use crate::lines::{
    ENTERS_A, ENTERS_B, ENTERS_LOCK, LEAVES_A, LEAVES_B, LEAVES_LOCK, MAKES_A_AND_B, MAKES_LOCK,
    NOTIFIES, PRINTS_1, PRINTS_2, WAITS, X_IS_1, Y_IS_1, Y_IS_6,
};
use crate::programs::{Program, Row, ThreadClass, is_as_wanted};
use crate::threads::{
    INNER_WANTED, PRINTS_8_UNDER_A, PRINTS_8_UNDER_B, PRINTS_Y_UNDER_A, PRINTS_Y_UNDER_B,
};
use jrev_cases::NO_FAULTS;
use std::test::Fail;

/// Runs in which a monitor is wanted that was entered inside another one or outside of it.
const NESTED: [Row; 6] = [
    // The outer monitor is taken back, after a third thread got the inner one.
    Row {
        program: Program {
            first: &[MAKES_A_AND_B],
            classes: &[
                ThreadClass {
                    name: "Low",
                    run: &[ENTERS_A, ENTERS_B, X_IS_1, LEAVES_B, Y_IS_1, LEAVES_A],
                },
                PRINTS_Y_UNDER_A,
                PRINTS_8_UNDER_B,
            ],
            threads: &[("Low", 1), ("High", 10), ("Mid", 5)],
            last: &[],
            others: &[],
        },
        options: &["--order=1@20,2@14,4@12,3@8,2@10,3@20,4@20", "--counts"],
        faults: NO_FAULTS,
        status: 0,
        out: "0\n8\n",
        err: "counts: opened 4 undone 1\n",
    },
    // The inner monitor alone is taken back.
    Row {
        program: INNER_WANTED,
        options: &["--order=1@20,2@2,2@2,3@8,2@10,3@20", "--counts"],
        faults: NO_FAULTS,
        status: 0,
        out: "0\n",
        err: "counts: opened 2 undone 1\n",
    },
    // The outer monitor was entered again inside the inner one, and is held after the undo.
    Row {
        program: Program {
            first: &[MAKES_A_AND_B],
            classes: &[
                ThreadClass {
                    name: "Low",
                    run: &[
                        ENTERS_A, ENTERS_B, ENTERS_A, Y_IS_6, LEAVES_A, LEAVES_B, LEAVES_A,
                    ],
                },
                PRINTS_Y_UNDER_B,
                PRINTS_8_UNDER_A,
            ],
            threads: &[("Low", 1), ("High", 10), ("Mid", 5)],
            last: &[],
            others: &[],
        },
        options: &["--order=1@20,2@2,3@8,2@10,3@20", "--counts"],
        faults: NO_FAULTS,
        status: 0,
        out: "0\n8\n",
        err: "counts: opened 3 undone 1\n",
    },
    // The outer monitor was left first, so the inner one is kept.
    Row {
        program: Program {
            first: &[MAKES_A_AND_B],
            classes: &[
                ThreadClass {
                    name: "Low",
                    run: &[ENTERS_A, ENTERS_B, LEAVES_A, Y_IS_6, LEAVES_B],
                },
                PRINTS_Y_UNDER_B,
            ],
            threads: &[("Low", 1), ("High", 10)],
            last: &[],
            others: &[],
        },
        options: &["--order=1@20,2@14,3@8", "--counts"],
        faults: NO_FAULTS,
        status: 0,
        out: "6\n",
        err: "counts: opened 2 undone 0\n",
    },
    // A thread that waits keeps the outer monitor, and has the inner one three times after it.
    Row {
        program: Program {
            first: &[MAKES_LOCK, MAKES_A_AND_B],
            classes: &[
                ThreadClass {
                    name: "Low",
                    run: &[
                        ENTERS_A,
                        ENTERS_LOCK,
                        ENTERS_LOCK,
                        ENTERS_LOCK,
                        WAITS,
                        PRINTS_1,
                        LEAVES_LOCK,
                        LEAVES_LOCK,
                        LEAVES_LOCK,
                        LEAVES_A,
                    ],
                },
                ThreadClass {
                    name: "High",
                    run: &[ENTERS_A, PRINTS_2, LEAVES_A],
                },
                ThreadClass {
                    name: "N",
                    run: &[ENTERS_LOCK, NOTIFIES, LEAVES_LOCK],
                },
            ],
            threads: &[("Low", 1), ("High", 10), ("N", 5)],
            last: &[],
            others: &[],
        },
        options: &["--order=1@20,2@14,3@8,4@20", "--counts"],
        faults: NO_FAULTS,
        status: 0,
        out: "1\n2\n",
        err: "counts: opened 3 undone 0\n",
    },
    // Each of two threads with one priority has what the other wants.
    Row {
        program: Program {
            first: &[MAKES_A_AND_B, PRINTS_1],
            classes: &[
                ThreadClass {
                    name: "Outer",
                    run: &[ENTERS_A, ENTERS_B, LEAVES_B, LEAVES_A],
                },
                ThreadClass {
                    name: "Inner",
                    run: &[ENTERS_B, ENTERS_A, LEAVES_A, LEAVES_B],
                },
            ],
            threads: &[("Outer", 5), ("Inner", 5)],
            last: &[],
            others: &[],
        },
        options: &["--order=1@20,2@12,3@12"],
        faults: NO_FAULTS,
        status: 5,
        out: "1\n",
        err: "stuck\n",
    },
];

#[test]
fn an_undo_goes_back_to_the_entry_of_the_wanted_monitor(rt: HostRuntime) -> Result<(), Fail> {
    for row in &NESTED {
        assert!(rt; is_as_wanted(&rt, rt.alloc(), row)?, "{}", row.out);
    }
    Ok(())
}
