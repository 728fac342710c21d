//! Classes of threads that several programs have, and programs of which several things are tested.

use crate::lines::{
    ENTERS_A, ENTERS_B, ENTERS_LOCK, LEAVES_A, LEAVES_B, LEAVES_LOCK, MAKES_A_AND_B, MAKES_LOCK,
    PRINTS_8, PRINTS_X, PRINTS_Y, X_IS_1, X_IS_5, X_IS_6, X_IS_9, X_IS_11, Y_IS_2, Y_IS_6, Y_IS_12,
};
use crate::programs::{Program, ThreadClass};

/// Sets x to 11 and y to 12 under the lock.
pub const WRITES_BOTH: ThreadClass = ThreadClass {
    name: "Low",
    run: &[ENTERS_LOCK, X_IS_11, Y_IS_12, LEAVES_LOCK],
};

/// Prints x and y under the lock.
pub const PRINTS_BOTH: ThreadClass = ThreadClass {
    name: "High",
    run: &[ENTERS_LOCK, PRINTS_X, PRINTS_Y, LEAVES_LOCK],
};

/// Prints x under the lock.
pub const PRINTS_X_LOCKED: ThreadClass = ThreadClass {
    name: "High",
    run: &[ENTERS_LOCK, PRINTS_X, LEAVES_LOCK],
};

/// Prints y under a.
pub const PRINTS_Y_UNDER_A: ThreadClass = ThreadClass {
    name: "High",
    run: &[ENTERS_A, PRINTS_Y, LEAVES_A],
};

/// Prints y under b.
pub const PRINTS_Y_UNDER_B: ThreadClass = ThreadClass {
    name: "High",
    run: &[ENTERS_B, PRINTS_Y, LEAVES_B],
};

/// Prints 8 under a.
pub const PRINTS_8_UNDER_A: ThreadClass = ThreadClass {
    name: "Mid",
    run: &[ENTERS_A, PRINTS_8, LEAVES_A],
};

/// Prints 8 under b.
pub const PRINTS_8_UNDER_B: ThreadClass = ThreadClass {
    name: "Mid",
    run: &[ENTERS_B, PRINTS_8, LEAVES_B],
};

/// A thread of low priority that writes x and y under a lock, and one of high priority that prints them under it.
pub const PAIR: Program = Program {
    first: &[MAKES_LOCK, X_IS_1, Y_IS_2],
    classes: &[WRITES_BOTH, PRINTS_BOTH],
    threads: &[("Low", 1), ("High", 10)],
    last: &[],
    others: &[],
};

/// A word is overwritten without the lock by a thread that had read it before it was written and put back.
pub const LATE_WRITE: Program = Program {
    first: &[MAKES_LOCK, ENTERS_LOCK, X_IS_5, LEAVES_LOCK],
    classes: &[
        ThreadClass {
            name: "Low",
            run: &[ENTERS_LOCK, X_IS_6, LEAVES_LOCK],
        },
        PRINTS_X_LOCKED,
        ThreadClass {
            name: "B",
            run: &[X_IS_9],
        },
    ],
    threads: &[("Low", 1), ("High", 10), ("B", 5)],
    last: &[],
    others: &[],
};

/// A thread of high priority wants the inner one of two monitors.
pub const INNER_WANTED: Program = Program {
    first: &[MAKES_A_AND_B],
    classes: &[
        ThreadClass {
            name: "Low",
            run: &[ENTERS_A, X_IS_5, ENTERS_B, Y_IS_6, LEAVES_B, LEAVES_A],
        },
        PRINTS_Y_UNDER_B,
    ],
    threads: &[("Low", 1), ("High", 10)],
    last: &[],
    others: &[],
};
