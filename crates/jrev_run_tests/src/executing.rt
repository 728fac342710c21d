//! Programs that are executed by `pick`, by orders and seeds and under limits.

use jrev_cases::{Class, File, NO_FAULTS, SUM, owned_files, run_over};
use std::alloc::Global;
use std::test::Fail;
use std::thread::Threads;

/// A run of `pick`, and what is wanted of it: by the rules of Java, those of schedules and those of limits.
struct Execution {
    words: &'static [&'static str],
    files: &'static [File],
    status: u8,
    out: &'static str,
    err: &'static str,
}

fn is_executed<R: Threads + Sync>(
    rt: &R,
    alloc: Global,
    execution: &Execution,
) -> Result<bool, Fail> {
    let files = owned_files(rt, alloc, execution.files)?;
    let seen = run_over(rt, alloc, execution.words, files, "", NO_FAULTS)?;
    Ok(
        seen.status == execution.status
            && seen.out.as_slice() == execution.out.as_bytes()
            && seen.err.as_slice() == execution.err.as_bytes(),
    )
}

/// Programs of one thread.
const ALONE: [Execution; 12] = [
    // It takes ten turns, the last of which ends the thread, and makes no object.
    Execution {
        words: &[
            "pick",
            "D",
            "One",
            "--sections=0",
            "--turns=10",
            "--seed=7",
            "--heap=0",
            "--order=1*3,2*1",
        ],
        files: &[SUM],
        status: 0,
        out: "5\n",
        err: "",
    },
    Execution {
        words: &["pick", "D", "One", "--order=1*1"],
        files: &[SUM],
        status: 0,
        out: "5\n",
        err: "",
    },
    Execution {
        words: &[
            "pick",
            "D",
            "One",
            "--turns=1000000000",
            "--heap=5",
            "--sections=5",
        ],
        files: &[SUM],
        status: 0,
        out: "5\n",
        err: "",
    },
    // What was printed before a limit is there.
    Execution {
        words: &["pick", "D", "One", "--turns=9"],
        files: &[SUM],
        status: 6,
        out: "5\n",
        err: "limit: turns thread 1\n",
    },
    Execution {
        words: &["pick", "D", "One", "--turns=5"],
        files: &[SUM],
        status: 6,
        out: "",
        err: "limit: turns thread 1\n",
    },
    // The class isn't there, whatever the schedule.
    Execution {
        words: &["pick", "D", "Main", "--seed=1"],
        files: &[],
        status: 4,
        out: "",
        err: "no main\n",
    },
    // A division by zero ends main after its two lines.
    Execution {
        words: &["pick", "D", "Main"],
        files: &[File::Made(Class::Divides)],
        status: 1,
        out: "-2147483648\n0\n",
        err: "died: thread 1 java/lang/ArithmeticException\n",
    },
    // A 1,025th frame is wanted.
    Execution {
        words: &["pick", "D", "Main"],
        files: &[File::Made(Class::Recurses)],
        status: 6,
        out: "",
        err: "limit: frames thread 1\n",
    },
    // A monitor is entered a 65,536th time.
    Execution {
        words: &["pick", "D", "Main"],
        files: &[File::Made(Class::Enters)],
        status: 6,
        out: "",
        err: "limit: depth thread 1\n",
    },
    Execution {
        words: &["pick", "D", "Main"],
        files: &[File::Made(Class::StartsAgain)],
        status: 1,
        out: "1\n",
        err: "died: thread 1 java/lang/IllegalThreadStateException\n",
    },
    Execution {
        words: &["pick", "D", "Main"],
        files: &[File::Made(Class::Joins)],
        status: 0,
        out: "a7btruenull-5\n",
        err: "",
    },
    // An argument without units gives the receiver itself.
    Execution {
        words: &["pick", "D", "Main"],
        files: &[File::Made(Class::Compares)],
        status: 1,
        out: "true\ntrue\n",
        err: "died: thread 1 java/lang/IndexOutOfBoundsException\n",
    },
];

#[test]
fn a_thread_alone_is_executed(rt: HostRuntime) -> Result<(), Fail> {
    for execution in &ALONE {
        assert!(rt; is_executed(&rt, rt.alloc(), execution)?);
    }
    Ok(())
}

/// Programs of several threads.
const TOGETHER: [Execution; 18] = [
    // A text is made of what the thread finds under the monitor.
    Execution {
        words: &["pick", "D", "Main", "--order=1*400,2*400,3*400"],
        files: &[
            File::Made(Class::Pair),
            File::Made(Class::Low),
            File::Made(Class::High),
        ],
        status: 0,
        out: "x=11\n12\n",
        err: "",
    },
    Execution {
        words: &["pick", "D", "Main", "--order=1*400,3*400,2*400"],
        files: &[
            File::Made(Class::Pair),
            File::Made(Class::Low),
            File::Made(Class::High),
        ],
        status: 0,
        out: "x=1\n2\n",
        err: "",
    },
    // Each thread takes its first monitor; then each wants the other's.
    Execution {
        words: &["pick", "D", "Main", "--order=1@20,2@12,3@12"],
        files: &[File::Made(Class::Locker), File::Made(Class::Crosswise)],
        status: 5,
        out: "1\n",
        err: "stuck\n",
    },
    // Run one after the other, they end.
    Execution {
        words: &["pick", "D", "Main", "--order=1*400,2*400,3*400"],
        files: &[File::Made(Class::Locker), File::Made(Class::Crosswise)],
        status: 0,
        out: "1\n",
        err: "",
    },
    // An object takes words.
    Execution {
        words: &["pick", "D", "Main", "--heap=0"],
        files: &[File::Made(Class::Locker), File::Made(Class::Crosswise)],
        status: 6,
        out: "1\n",
        err: "limit: heap thread 1\n",
    },
    // Each has made its turns, so the next one is a limit. Of three threads that can go on the seed 1 picks the last.
    Execution {
        words: &[
            "pick",
            "D",
            "Main",
            "--order=1*100,2*100,3*100",
            "--turns=100",
            "--seed=1",
        ],
        files: &[File::Made(Class::Spins)],
        status: 6,
        out: "",
        err: "limit: turns thread 3\n",
    },
    // Without a seed it is the first.
    Execution {
        words: &[
            "pick",
            "D",
            "Main",
            "--order=1*100,2*100,3*100",
            "--turns=100",
        ],
        files: &[File::Made(Class::Spins)],
        status: 6,
        out: "",
        err: "limit: turns thread 1\n",
    },
    // An item gives the turn that is too many.
    Execution {
        words: &[
            "pick",
            "D",
            "Main",
            "--order=1*100,2*101,3*100",
            "--turns=100",
        ],
        files: &[File::Made(Class::Spins)],
        status: 6,
        out: "",
        err: "limit: turns thread 2\n",
    },
    // After the order, the turns belong to the lowest thread that can go on.
    Execution {
        words: &["pick", "D", "Main"],
        files: &[File::Made(Class::Tells)],
        status: 0,
        out: "2\n3\n",
        err: "",
    },
    Execution {
        words: &["pick", "D", "Main", "--order=1*400,3*400"],
        files: &[File::Made(Class::Tells)],
        status: 0,
        out: "3\n2\n",
        err: "",
    },
    // Items for threads that haven't begun give nothing.
    Execution {
        words: &["pick", "D", "Main", "--order=3*400,2*400"],
        files: &[File::Made(Class::Tells)],
        status: 0,
        out: "2\n3\n",
        err: "",
    },
    // Under every seed each thread counts all.
    Execution {
        words: &["pick", "D", "Main", "--seed=7"],
        files: &[File::Made(Class::Counts)],
        status: 0,
        out: "200\n",
        err: "",
    },
    Execution {
        words: &["pick", "D", "Main", "--seed=18446744073709551615"],
        files: &[File::Made(Class::Counts)],
        status: 0,
        out: "200\n",
        err: "",
    },
    Execution {
        words: &["pick", "D", "Main", "--seed=7"],
        files: &[File::Made(Class::Waits)],
        status: 0,
        out: "1\n1\n1\n2\n",
        err: "",
    },
    // With main there are 255 threads, and no more.
    Execution {
        words: &["pick", "D", "Some"],
        files: &[
            File::Made(Class::Many),
            File::Made(Class::Starts254),
            File::Made(Class::Starts255),
        ],
        status: 0,
        out: "",
        err: "",
    },
    Execution {
        words: &["pick", "D", "More"],
        files: &[
            File::Made(Class::Many),
            File::Made(Class::Starts254),
            File::Made(Class::Starts255),
        ],
        status: 6,
        out: "",
        err: "limit: threads thread 1\n",
    },
    // A thread that dies keeps its monitors. Its line comes first.
    Execution {
        words: &["pick", "D", "Main"],
        files: &[File::Made(Class::Holds)],
        status: 5,
        out: "1\n",
        err: "died: thread 2 java/lang/ArithmeticException\nstuck\n",
    },
    // The lines of threads that died come by number, not in the order in which they died.
    Execution {
        words: &["pick", "D", "Main", "--order=1*400,3*400"],
        files: &[File::Made(Class::Dies)],
        status: 1,
        out: "1\n",
        err: "died: thread 2 java/lang/NullPointerException\ndied: thread 3 java/lang/IllegalMonitorStateException\n",
    },
];

#[test]
fn threads_are_executed_by_turns(rt: HostRuntime) -> Result<(), Fail> {
    for execution in &TOGETHER {
        assert!(rt; is_executed(&rt, rt.alloc(), execution)?);
    }
    Ok(())
}
