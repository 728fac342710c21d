//! Tests of trace, check and migrate: a journal that is written, checked, and written in the newest version.

use jrev_cases::{
    Case, Class, File, NO_FAULTS, ONE_TEXT, Seen, is_as_wanted, owned_files, run_over,
};
use std::alloc::Global;
use std::test::Fail;
use std::thread::Threads;

const ONE: &[File] = &[File::Text("One.class", ONE_TEXT)];

/// The journal of the class One, which prints 2 + 3.
const ONE_JOURNAL: &str = "jrev-trace 2
1 0 init 29 claimed
1 0 done 29 ok
1 5 print
1 1 end
end 4
";

/// The same journal in version 1.
const FIRST_VERSION: &str = "jrev-trace 1
1 0 init 29 claimed
1 0 done 29 ok
1 5 print
1 1 end
end 4
";

/// The words, the status, and what is written on both streams, over the class One.
const TRACED: [(&[&str], u8, &str, &str); 3] = [
    (&["trace", "D", "One"], 0, ONE_JOURNAL, ""),
    (
        &["trace", "D", "One", "--turns=1"],
        6,
        "jrev-trace 2\n1 0 init 29 claimed\nend 1\n",
        "limit: turns thread 1\n",
    ),
    (&["trace", "D", "Two"], 4, "", "no main\n"),
];

fn over_one(
    words: &'static [&'static str],
    input: &'static str,
    status: u8,
    out: &'static str,
    err: &'static str,
) -> Case {
    Case {
        words,
        files: ONE,
        input,
        faults: (0, 0, 0, 0),
        status,
        out: out.as_bytes(),
        err,
    }
}

#[test]
fn trace_writes_the_journal_of_the_run(rt: HostRuntime) -> Result<(), Fail> {
    for (words, status, out, err) in TRACED {
        assert!(rt; is_as_wanted(&rt, rt.alloc(), &over_one(words, "", status, out, err))?);
    }
    Ok(())
}

/// Journals of the class One in both versions, with an undone level, with a faulty one, with an event that is no step, without
/// the last line, of a version that there isn't, and with a fault of the text after an event that is no step.
const CHECKED: [(&str, u8, &str, &str); 8] = [
    (ONE_JOURNAL, 0, "5\n", ""),
    (FIRST_VERSION, 0, "5\n", ""),
    (
        "jrev-trace 2\n1 0 init 29 claimed\nundone 1 1 0\n1 0 done 29 ok\n1 5 print\n1 1 end\nend 4\n",
        0,
        "5\n",
        "",
    ),
    (
        "jrev-trace 2\n1 0 init 29 claimed\nundone 1 0 0\n1 0 done 29 ok\n1 5 print\n1 1 end\nend 4\n",
        10,
        "",
        "not an execution: line 3\n",
    ),
    (
        "jrev-trace 2\n1 0 init 29 claimed\n1 0 done 29 ok\n1 4 print\n1 1 end\nend 4\n",
        10,
        "",
        "not an execution: line 4\n",
    ),
    (
        "jrev-trace 2\n1 0 init 29 claimed\n1 0 done 29 ok\n1 5 print\n1 1 end\n",
        10,
        "",
        "not an execution: line 6\n",
    ),
    (
        "jrev-trace 9\n1 0 init 29 claimed\n1 0 done 29 ok\n1 5 print\n1 1 end\nend 4\n",
        10,
        "",
        "not an execution: line 1\n",
    ),
    (
        "jrev-trace 2\n1 0 init 29 claimed\n1 0 done 29 ok\n1 4 print\n1 1 end\nend 3\n",
        10,
        "",
        "not an execution: line 6\n",
    ),
];

#[test]
fn check_says_whether_a_text_is_the_journal_of_an_execution(rt: HostRuntime) -> Result<(), Fail> {
    let words = &["check", "D", "One"];
    for (input, status, out, err) in CHECKED {
        assert!(rt; is_as_wanted(&rt, rt.alloc(), &over_one(words, input, status, out, err))?);
    }
    Ok(())
}

/// Programs that aren't accepted, under check: the input isn't read, so its first call, which would fail, isn't made.
const UNCHECKED: [Case; 2] = [
    Case {
        words: &["check", "D", "Two"],
        files: ONE,
        input: ONE_JOURNAL,
        faults: (0, 1, 0, 0),
        status: 4,
        out: b"",
        err: "no main\n",
    },
    Case {
        words: &["check", "D", "One"],
        files: &[File::Other("One.class", b"any")],
        input: ONE_JOURNAL,
        faults: (0, 1, 0, 0),
        status: 3,
        out: b"",
        err: "refused: read One.class 3 0 3\n",
    },
];

#[test]
fn the_input_is_read_of_an_accepted_program_alone(rt: HostRuntime) -> Result<(), Fail> {
    for case in &UNCHECKED {
        assert!(rt; is_as_wanted(&rt, rt.alloc(), case)?);
    }
    Ok(())
}

// Which line is missing or isn't ended in a text whose lines are all right.
fn first_missing(text: &str) -> usize {
    text.as_bytes()
        .iter()
        .filter(|byte| **byte == b'\n')
        .count()
        + 1
}

#[test]
fn a_cut_journal_is_none_at_the_line_that_is_cut(rt: HostRuntime) -> Result<(), Fail> {
    let alloc = rt.alloc();
    for length in 0..ONE_JOURNAL.len() {
        let text = ONE_JOURNAL.get(..length).unwrap_or("");
        let mut wanted = String::from_str(alloc, "not an execution: line ")?;
        wanted.push_str(first_missing(text).to_string(alloc)?.as_str())?;
        wanted.push('\n')?;
        let files = owned_files(&rt, alloc, ONE)?;
        let seen = run_over(
            &rt,
            alloc,
            &["check", "D", "One"],
            files,
            text,
            (0, 0, 0, 0),
        )?;
        assert!(rt; seen.status == 10 && seen.out.is_empty());
        assert!(rt; seen.err.as_slice() == wanted.as_bytes());
    }
    Ok(())
}

/// Journals of both versions, a text that is none, one of a version that there isn't, and an undone level in version 1.
const MIGRATED: [(&str, u8, &str, &str); 5] = [
    (FIRST_VERSION, 0, ONE_JOURNAL, ""),
    (ONE_JOURNAL, 0, ONE_JOURNAL, ""),
    ("", 10, "", "not an execution: line 1\n"),
    (
        "jrev-trace 3\nend 0\n",
        10,
        "",
        "not an execution: line 1\n",
    ),
    (
        "jrev-trace 1\nundone 1 1 0\nend 0\n",
        10,
        "",
        "not an execution: line 2\n",
    ),
];

#[test]
fn migrate_writes_a_journal_in_the_newest_version(rt: HostRuntime) -> Result<(), Fail> {
    for (input, status, out, err) in MIGRATED {
        assert!(rt;
            is_as_wanted(
                &rt,
                rt.alloc(),
                &over_one(&["migrate"], input, status, out, err)
            )?
        );
    }
    Ok(())
}

/// Each call of the input fails under check and migrate, and a put of the journal or of the lines.
const FAILING: [Case; 6] = [
    Case {
        words: &["check", "D", "One"],
        files: ONE,
        input: ONE_JOURNAL,
        faults: (0, 1, 0, 0),
        status: 7,
        out: b"",
        err: "read fault\n",
    },
    Case {
        words: &["check", "D", "One"],
        files: ONE,
        input: ONE_JOURNAL,
        faults: (0, 2, 0, 0),
        status: 7,
        out: b"",
        err: "read fault\n",
    },
    Case {
        words: &["check", "D", "One"],
        files: ONE,
        input: ONE_JOURNAL,
        faults: (0, 0, 1, 0),
        status: 8,
        out: b"",
        err: "write fault\n",
    },
    Case {
        words: &["migrate"],
        files: &[],
        input: FIRST_VERSION,
        faults: (0, 2, 0, 0),
        status: 7,
        out: b"",
        err: "read fault\n",
    },
    Case {
        words: &["trace", "D", "One"],
        files: ONE,
        input: "",
        faults: (0, 0, 3, 0),
        status: 8,
        out: b"jrev-trace 2\n1 0 init 29 claimed\n",
        err: "write fault\n",
    },
    Case {
        words: &["trace", "D", "One"],
        files: ONE,
        input: "",
        faults: (1, 0, 0, 0),
        status: 7,
        out: b"",
        err: "read fault\n",
    },
];

#[test]
fn a_failing_call_is_said(rt: HostRuntime) -> Result<(), Fail> {
    for case in &FAILING {
        assert!(rt; is_as_wanted(&rt, rt.alloc(), case)?);
    }
    Ok(())
}

/// Programs that print the same lines by every schedule, each with a seed: their journals are executions that print these lines.
const PROGRAMS: [(Class, &str); 4] = [
    (Class::Counts, "--seed=1"),
    (Class::Waits, "--seed=2"),
    (Class::Holds, "--seed=3"),
    (Class::Joins, "--seed=4"),
];

// What the journal of a run comes to under check, beside what the run printed.
fn is_checked<R: Threads + Sync>(
    rt: &R,
    alloc: Global,
    class: Class,
    seed: &str,
) -> Result<bool, Fail> {
    let files = &[File::Made(class)];
    let all = owned_files(rt, alloc, files)?;
    let picked = run_over(rt, alloc, &["pick", "D", "Main", seed], all, "", NO_FAULTS)?;
    let all = owned_files(rt, alloc, files)?;
    let traced = run_over(rt, alloc, &["trace", "D", "Main", seed], all, "", NO_FAULTS)?;
    let journal = String::from_utf8_lossy(alloc, traced.out.as_slice())?;
    let all = owned_files(rt, alloc, files)?;
    let words = &["check", "D", "Main"];
    let checked = run_over(rt, alloc, words, all, journal.as_str(), NO_FAULTS)?;
    Ok(
        traced.status == picked.status
            && traced.err == picked.err
            && checked.status == 0
            && checked.out == picked.out
            && checked.err.is_empty(),
    )
}

#[test]
fn the_journal_of_a_run_is_accepted(rt: HostRuntime) -> Result<(), Fail> {
    for (class, seed) in PROGRAMS {
        assert!(rt; is_checked(&rt, rt.alloc(), class, seed)?);
    }
    Ok(())
}

const PAIR: &[File] = &[
    File::Made(Class::Pair),
    File::Made(Class::Low),
    File::Made(Class::High),
];

// What check says of the journal of a run of the pair by these words.
fn checked_pair<R: Threads + Sync>(rt: &R, alloc: Global, words: &[&str]) -> Result<Seen, Fail> {
    let files = owned_files(rt, alloc, PAIR)?;
    let traced = run_over(rt, alloc, words, files, "", NO_FAULTS)?;
    let journal = String::from_utf8_lossy(alloc, traced.out.as_slice())?;
    let files = owned_files(rt, alloc, PAIR)?;
    let words = &["check", "D", "Main"];
    run_over(rt, alloc, words, files, journal.as_str(), NO_FAULTS)
}

// Whether the journal of a run that may end at a limit of turns is accepted, and gives the first of these lines.
fn is_prefix_checked<R: Threads + Sync>(
    rt: &R,
    alloc: Global,
    turns: u32,
    lines: &[u8],
) -> Result<bool, Fail> {
    let limit = format!(in alloc; "--turns={turns}")?;
    let words = &["trace", "D", "Main", "--seed=5", limit.as_str()];
    let checked = checked_pair(rt, alloc, words)?;
    Ok(checked.status == 0 && lines.starts_with(checked.out.as_slice()))
}

#[test]
fn the_journal_of_a_run_that_a_limit_ends_is_accepted(rt: HostRuntime) -> Result<(), Fail> {
    let alloc = rt.alloc();
    let whole = checked_pair(&rt, alloc, &["trace", "D", "Main", "--seed=5"])?;
    let lines = whole.out.as_slice();
    let is_one = lines == b"x=1\n2\n".as_slice() || lines == b"x=11\n12\n".as_slice();
    assert!(rt; whole.status == 0 && is_one);
    for turns in 1..100 {
        assert!(rt; is_prefix_checked(&rt, alloc, turns, lines)?);
    }
    Ok(())
}

/// Starts Writer and Reader, which share a long.
const LONG: &str = "class Main
field 8 v J
method 9 main ([Ljava/lang/String;)V stack 2 locals 1
new Writer
dup
invokespecial Writer <init> ()V
invokevirtual Writer start ()V
new Reader
dup
invokespecial Reader <init> ()V
invokevirtual Reader start ()V
return
end
";

/// Writes -1 to the long.
const WRITER: &str = "class Writer
super java/lang/Thread
method 1 <init> ()V stack 1 locals 1
aload_0
invokespecial java/lang/Thread <init> ()V
return
end
method 1 run ()V stack 2 locals 1
ldc2_w -1
putstatic Main v J
return
end
";

/// Prints the long.
const READER: &str = "class Reader
super java/lang/Thread
method 1 <init> ()V stack 1 locals 1
aload_0
invokespecial java/lang/Thread <init> ()V
return
end
method 1 run ()V stack 3 locals 1
getstatic java/lang/System out Ljava/io/PrintStream;
getstatic Main v J
invokevirtual java/io/PrintStream println (J)V
return
end
";

/// Sets x to 5 under the lock, and starts Six, Shows and Nine.
const WORD: &str = "class Main
field 8 lock Ljava/lang/Object;
field 8 x I
method 9 main ([Ljava/lang/String;)V stack 2 locals 1
new java/lang/Object
dup
invokespecial java/lang/Object <init> ()V
putstatic Main lock Ljava/lang/Object;
getstatic Main lock Ljava/lang/Object;
monitorenter
iconst_5
putstatic Main x I
getstatic Main lock Ljava/lang/Object;
monitorexit
new Six
dup
invokespecial Six <init> ()V
invokevirtual Six start ()V
new Shows
dup
invokespecial Shows <init> ()V
invokevirtual Shows start ()V
new Nine
dup
invokespecial Nine <init> ()V
invokevirtual Nine start ()V
return
end
";

/// Sets x to 6 under the lock.
const SIX: &str = "class Six
super java/lang/Thread
method 1 <init> ()V stack 1 locals 1
aload_0
invokespecial java/lang/Thread <init> ()V
return
end
method 1 run ()V stack 1 locals 1
getstatic Main lock Ljava/lang/Object;
monitorenter
bipush 6
putstatic Main x I
getstatic Main lock Ljava/lang/Object;
monitorexit
return
end
";

/// Prints x under the lock.
const SHOWS: &str = "class Shows
super java/lang/Thread
method 1 <init> ()V stack 1 locals 1
aload_0
invokespecial java/lang/Thread <init> ()V
return
end
method 1 run ()V stack 2 locals 1
getstatic Main lock Ljava/lang/Object;
monitorenter
getstatic java/lang/System out Ljava/io/PrintStream;
getstatic Main x I
invokevirtual java/io/PrintStream println (I)V
getstatic Main lock Ljava/lang/Object;
monitorexit
return
end
";

/// Sets x to 9, without the lock.
const NINE: &str = "class Nine
super java/lang/Thread
method 1 <init> ()V stack 1 locals 1
aload_0
invokespecial java/lang/Thread <init> ()V
return
end
method 1 run ()V stack 1 locals 1
bipush 9
putstatic Main x I
return
end
";

/// Programs whose lines depend on whose turn it is: a long that is read after the first of its two words was written (JLS 17.7),
/// and a word that is written without the lock while another thread has it. Each with an order of turns and its line.
const RACES: [(&[File], &str, &[u8]); 2] = [
    (
        &[
            File::Text("Main.class", LONG),
            File::Text("Writer.class", WRITER),
            File::Text("Reader.class", READER),
        ],
        "--order=1@20,2@2,3@20",
        b"4294967295\n",
    ),
    (
        &[
            File::Text("Main.class", WORD),
            File::Text("Six.class", SIX),
            File::Text("Shows.class", SHOWS),
            File::Text("Nine.class", NINE),
        ],
        "--order=1@20,2@2,4@2,2@20,3@20",
        b"9\n",
    ),
];

#[test]
fn the_journal_of_a_race_is_accepted(rt: HostRuntime) -> Result<(), Fail> {
    let alloc = rt.alloc();
    for (files, order, lines) in &RACES {
        let words = &["trace", "D", "Main", order];
        let traced = run_over(
            &rt,
            alloc,
            words,
            owned_files(&rt, alloc, files)?,
            "",
            NO_FAULTS,
        )?;
        assert!(rt; traced.status == 0);
        let journal = String::from_utf8_lossy(alloc, traced.out.as_slice())?;
        let words = &["check", "D", "Main"];
        let files = owned_files(&rt, alloc, files)?;
        let checked = run_over(&rt, alloc, words, files, journal.as_str(), NO_FAULTS)?;
        assert!(rt; checked.status == 0 && checked.out.as_slice() == *lines);
    }
    Ok(())
}
