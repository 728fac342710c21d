//! Limits of runs, and words that are written one by one.

use crate::lines::{
    ENTERS_LOCK, LEAVES_LOCK, MAKES_LOCK, PRINTS_1, PRINTS_2, PRINTS_3, PRINTS_4, PRINTS_V,
    PRINTS_X, V_IS_MINUS_1,
};
use crate::programs::{Program, Row, ThreadClass, is_as_wanted};
use jrev_cases::NO_FAULTS;
use std::test::Fail;

/// A thread that writes -1 to a long, and one that prints it.
const WORDS: Program = Program {
    first: &[],
    classes: &[
        ThreadClass {
            name: "Writer",
            run: &[V_IS_MINUS_1],
        },
        ThreadClass {
            name: "Reader",
            run: &[PRINTS_V],
        },
    ],
    threads: &[("Writer", 5), ("Reader", 5)],
    last: &[],
    others: &[],
};

/// Main prints four numbers, each under the lock.
const BLOCKS: Program = Program {
    first: &[
        MAKES_LOCK,
        ENTERS_LOCK,
        PRINTS_1,
        LEAVES_LOCK,
        ENTERS_LOCK,
        PRINTS_2,
        LEAVES_LOCK,
        ENTERS_LOCK,
        PRINTS_3,
        LEAVES_LOCK,
        ENTERS_LOCK,
        PRINTS_4,
        LEAVES_LOCK,
    ],
    classes: &[],
    threads: &[],
    last: &[],
    others: &[],
};

/// Main makes an object, and prints 1.
const MAKES: Program = Program {
    first: &[
        "new java/lang/Object\ndup\ninvokespecial java/lang/Object <init> ()V\npop\n",
        PRINTS_1,
    ],
    classes: &[],
    threads: &[],
    last: &[],
    others: &[],
};

/// Adds 1 to x under the lock. The method begins that many threads, and joins them.
const COUNTER: &str = "class Counter
super java/lang/Thread
method 1 <init> ()V stack 1 locals 1
aload_0
invokespecial java/lang/Thread <init> ()V
return
end
method 1 run ()V stack 2 locals 1
getstatic Main lock Ljava/lang/Object;
monitorenter
getstatic Main x I
iconst_1
iadd
putstatic Main x I
getstatic Main lock Ljava/lang/Object;
monitorexit
return
end
method 9 count (I)V stack 4 locals 3
iload_0
anewarray Counter
astore_1
iconst_0
istore_2
begin:
frame int [LCounter; int /
iload_2
iload_0
if_icmpge begun
aload_1
iload_2
new Counter
dup
invokespecial Counter <init> ()V
aastore
aload_1
iload_2
aaload
invokevirtual Counter start ()V
iinc 2 1
goto begin
begun:
frame int [LCounter; int /
iload_2
ifle joined
iinc 2 -1
aload_1
iload_2
aaload
invokevirtual Counter join ()V
goto begun
joined:
frame int [LCounter; int /
return
end
";

/// 254 threads.
pub const MOST: Program = Program {
    first: &[
        MAKES_LOCK,
        "sipush 254\ninvokestatic Counter count (I)V\n",
        PRINTS_X,
    ],
    classes: &[],
    threads: &[],
    last: &[],
    others: &[("Counter.class", COUNTER)],
};

/// 255 threads.
pub const MORE: Program = Program {
    first: &[
        MAKES_LOCK,
        "sipush 255\ninvokestatic Counter count (I)V\n",
        PRINTS_X,
    ],
    classes: &[],
    threads: &[],
    last: &[],
    others: &[("Counter.class", COUNTER)],
};

/// Runs under limits and without.
const ENDED: [Row; 8] = [
    // A long is read after the first of its two words was written (JLS 17.7).
    Row {
        program: WORDS,
        options: &["--order=1@20,2@2,3@20"],
        faults: NO_FAULTS,
        status: 0,
        out: "4294967295\n",
        err: "",
    },
    // A fourth section is wanted.
    Row {
        program: BLOCKS,
        options: &["--sections=3"],
        faults: NO_FAULTS,
        status: 6,
        out: "1\n2\n3\n",
        err: "limit: sections thread 1\n",
    },
    Row {
        program: BLOCKS,
        options: &["--sections=4"],
        faults: NO_FAULTS,
        status: 0,
        out: "1\n2\n3\n4\n",
        err: "",
    },
    // There are fewer than 2^24 sections.
    Row {
        program: BLOCKS,
        options: &["--sections=16777216"],
        faults: NO_FAULTS,
        status: 2,
        out: "",
        err: "usage\n",
    },
    // An object without fields takes two words.
    Row {
        program: MAKES,
        options: &["--heap=2"],
        faults: NO_FAULTS,
        status: 0,
        out: "1\n",
        err: "",
    },
    Row {
        program: MAKES,
        options: &["--heap=1"],
        faults: NO_FAULTS,
        status: 6,
        out: "",
        err: "limit: heap thread 1\n",
    },
    // With main there are 255 threads, and no more.
    Row {
        program: MOST,
        options: &[],
        faults: NO_FAULTS,
        status: 0,
        out: "254\n",
        err: "",
    },
    Row {
        program: MORE,
        options: &[],
        faults: NO_FAULTS,
        status: 6,
        out: "",
        err: "limit: threads thread 1\n",
    },
];

#[test]
fn a_run_ends_where_a_limit_is_reached(rt: HostRuntime) -> Result<(), Fail> {
    for row in &ENDED {
        assert!(rt; is_as_wanted(&rt, rt.alloc(), row)?, "{}", row.err);
    }
    Ok(())
}
