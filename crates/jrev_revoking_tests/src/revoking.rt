//! A thread of higher priority takes a lock back, and what hinders it.

use crate::lines::{
    ENTERS_LOCK, LEAVES_LOCK, MAKES_LOCK, PRINTS_7, PRINTS_X, PRINTS_Y, X_IS_1, X_IS_11, Y_IS_2,
    Y_IS_12,
};
use crate::programs::{Program, Row, ThreadClass, is_as_wanted};
use crate::threads::{LATE_WRITE, PAIR, PRINTS_BOTH, PRINTS_X_LOCKED, WRITES_BOTH};
use jrev_cases::NO_FAULTS;
use std::test::Fail;

/// The same threads with one priority.
const EQUALS: Program = Program {
    threads: &[("Low", 5), ("High", 5)],
    ..PAIR
};

/// Eleven threads, ten of which print x under the lock.
const TEN: Program = Program {
    first: &[MAKES_LOCK, X_IS_1, Y_IS_2],
    classes: &[WRITES_BOTH, PRINTS_X_LOCKED],
    threads: &[
        ("Low", 1),
        ("High", 10),
        ("High", 10),
        ("High", 10),
        ("High", 10),
        ("High", 10),
        ("High", 10),
        ("High", 10),
        ("High", 10),
        ("High", 10),
        ("High", 10),
    ],
    last: &[],
    others: &[],
};

/// A class whose method sets x and y under the monitor of the class.
const S: &str = "class S
field 8 x I
field 8 y I
method 41 add (II)V stack 1 locals 2
iload_0
putstatic S x I
iload_1
putstatic S y I
return
end
";

const ADDS_3_AND_4: &str = "iconst_3
iconst_4
invokestatic S add (II)V
";

const PRINTS_X_OF_S: &str = "getstatic java/lang/System out Ljava/io/PrintStream;
getstatic S x I
invokevirtual java/io/PrintStream println (I)V
";

const PRINTS_SUM_OF_S: &str = "getstatic java/lang/System out Ljava/io/PrintStream;
getstatic S x I
getstatic S y I
iadd
invokevirtual java/io/PrintStream println (I)V
";

/// The thread that has the lock goes back.
const TAKEN_BACK: [Row; 5] = [
    // What the low thread wrote is put back, and it goes on from its entry once the high one is through.
    Row {
        program: PAIR,
        options: &["--order=1@20,2@2,2@2,3@8,2@10,3@20", "--counts"],
        faults: NO_FAULTS,
        status: 0,
        out: "1\n2\n",
        err: "counts: opened 3 undone 1\n",
    },
    // A thread without the lock prints y once it is put back, and waits for x until it is put back too.
    Row {
        program: Program {
            first: &[MAKES_LOCK, X_IS_1, Y_IS_2],
            classes: &[
                WRITES_BOTH,
                PRINTS_BOTH,
                ThreadClass {
                    name: "Peek",
                    run: &[PRINTS_Y, PRINTS_X],
                },
            ],
            threads: &[("Low", 1), ("High", 10), ("Peek", 5)],
            last: &[],
            others: &[],
        },
        options: &[
            "--order=1@20,2@2,2@2,3@8,2@3,4@17,4@20,2@10,4@20,3@20",
            "--counts",
        ],
        faults: NO_FAULTS,
        status: 0,
        out: "2\n1\n1\n2\n",
        err: "counts: opened 3 undone 1\n",
    },
    // A thread without the lock has read the word before it was written and put back, and overwrites it then.
    Row {
        program: LATE_WRITE,
        options: &["--order=1@20,4@6,4@1,2@2,3@8,2@10,4@2,3@20", "--counts"],
        faults: NO_FAULTS,
        status: 0,
        out: "9\n",
        err: "counts: opened 4 undone 1\n",
    },
    // The lock of a static method is taken back from main, which calls the method with the same arguments again.
    Row {
        program: Program {
            first: &[],
            classes: &[ThreadClass {
                name: "High",
                run: &[
                    "ldc class S\nmonitorenter\n",
                    PRINTS_X_OF_S,
                    "ldc class S\nmonitorexit\n",
                ],
            }],
            threads: &[("High", 10)],
            last: &[ADDS_3_AND_4, PRINTS_SUM_OF_S],
            others: &[("S.class", S)],
        },
        options: &["--order=1@12,1@2,2@8,1@10,2@20", "--counts"],
        faults: NO_FAULTS,
        status: 0,
        out: "0\n7\n",
        err: "counts: opened 3 undone 1\n",
    },
    // Ten threads take it back, one after the other.
    Row {
        program: TEN,
        options: &[
            "--order=1@20,2@2,3@8,2@10,3@20,2@2,4@8,2@10,4@20,2@2,5@8,2@10,5@20,2@2,6@8,2@10,6@20,2@2,7@8,2@10,7@20,2@2,8@8,2@10,8@20,2@2,9@8,2@10,9@20,2@2,10@8,2@10,10@20,2@2,11@8,2@10,11@20,2@2,12@8,2@10,12@20",
            "--counts",
        ],
        faults: NO_FAULTS,
        status: 0,
        out: "1\n1\n1\n1\n1\n1\n1\n1\n1\n1\n",
        err: "counts: opened 21 undone 10\n",
    },
];

#[test]
fn a_written_word_is_put_back(rt: HostRuntime) -> Result<(), Fail> {
    for row in &TAKEN_BACK {
        assert!(rt; is_as_wanted(&rt, rt.alloc(), row)?, "{}", row.out);
    }
    Ok(())
}

/// The thread that has the lock keeps it to its exit.
const KEPT: [Row; 4] = [
    // The other's priority isn't higher.
    Row {
        program: EQUALS,
        options: &["--order=1@20,2@2,2@2,3@8", "--counts"],
        faults: NO_FAULTS,
        status: 0,
        out: "11\n12\n",
        err: "counts: opened 2 undone 0\n",
    },
    // A thread without the lock has seen what was written.
    Row {
        program: Program {
            first: &[MAKES_LOCK, X_IS_1, Y_IS_2],
            classes: &[
                WRITES_BOTH,
                PRINTS_BOTH,
                ThreadClass {
                    name: "Peek",
                    run: &[PRINTS_X],
                },
            ],
            threads: &[("Low", 1), ("High", 10), ("Peek", 5)],
            last: &[],
            others: &[],
        },
        options: &["--order=1@20,2@2,2@2,4@20,3@8", "--counts"],
        faults: NO_FAULTS,
        status: 0,
        out: "11\n11\n12\n",
        err: "counts: opened 2 undone 0\n",
    },
    // A line was printed under the lock.
    Row {
        program: Program {
            first: &[MAKES_LOCK, X_IS_1, Y_IS_2],
            classes: &[
                ThreadClass {
                    name: "Low",
                    run: &[ENTERS_LOCK, PRINTS_7, X_IS_11, Y_IS_12, LEAVES_LOCK],
                },
                PRINTS_BOTH,
            ],
            threads: &[("Low", 1), ("High", 10)],
            last: &[],
            others: &[],
        },
        options: &["--order=1@20,2@2,2@2,3@8", "--counts"],
        faults: NO_FAULTS,
        status: 0,
        out: "7\n11\n12\n",
        err: "counts: opened 2 undone 0\n",
    },
    // Nobody wants the lock while it is held.
    Row {
        program: PAIR,
        options: &["--counts"],
        faults: NO_FAULTS,
        status: 0,
        out: "11\n12\n",
        err: "counts: opened 2 undone 0\n",
    },
];

#[test]
fn what_others_may_have_seen_is_kept(rt: HostRuntime) -> Result<(), Fail> {
    for row in &KEPT {
        assert!(rt; is_as_wanted(&rt, rt.alloc(), row)?, "{}", row.out);
    }
    Ok(())
}

/// The second put of the output fails, with the counts and without; they aren't written then.
const FAULTY: [Row; 2] = [
    Row {
        program: PAIR,
        options: &["--order=1@20,2@2,2@2,3@8,2@10,3@20"],
        faults: (0, 0, 2, 0),
        status: 8,
        out: "1\n",
        err: "write fault\n",
    },
    Row {
        program: PAIR,
        options: &["--order=1@20,2@2,2@2,3@8,2@10,3@20", "--counts"],
        faults: (0, 0, 2, 0),
        status: 8,
        out: "1\n",
        err: "write fault\n",
    },
];

#[test]
fn a_fault_of_the_output_is_all_that_is_said(rt: HostRuntime) -> Result<(), Fail> {
    for row in &FAULTY {
        assert!(rt; is_as_wanted(&rt, rt.alloc(), row)?);
    }
    Ok(())
}
