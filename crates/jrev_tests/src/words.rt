//! Tests of the words of the command line, of the version and the help, and of the numbers of statuses.

use jrev_cases::{Case, Request, Status, is_as_wanted, owned_words, run, words_of};
use std::test::Fail;

/// Words that ask for nothing that there is.
const FAULTY: [&[&str]; 31] = [
    &[],
    &["pick", "D"],
    &["pick", "D", "One", "x"],
    &["pick", "", "One"],
    &["pick", "--D", "One"],
    &["pick", "D", "--counts"],
    &["--help", "x"],
    &["make", "One"],
    &["load", "D"],
    &["load", "D", "One", "x"],
    &["load", "--D", "One"],
    &["load", "D", "One", "--counts"],
    &["run", "D"],
    &["run", "D", "One", "--seed=1"],
    &["run", "D", "One", "--workers=65"],
    &["trace", "D"],
    &["trace", "D", "One", "--counts"],
    &["trace", "D", "One", "--order=1@28"],
    &["check", "D"],
    &["check", "D", "One", "--seed=1"],
    &["migrate", "x"],
    &["stress", "x"],
    &["pick", "D", "One", "--counts", "--counts"],
    &["pick", "D", "One", "--counts=1"],
    &["pick", "D", "One", "--order=1@28"],
    &["pick", "D", "One", "--order=1@34"],
    &["load", "D", "One", "--order=1*1"],
    &["load", "D", "One", "--seed=1"],
    &["load", "D", "One", "--turns=5"],
    &["load", "D", "One", "--heap=5"],
    &["load", "D", "One", "--sections=5"],
];

fn usage(words: &'static [&'static str]) -> Case {
    Case {
        words,
        files: &[],
        input: "",
        faults: (0, 0, 0, 0),
        status: 2,
        out: b"",
        err: "usage\n",
    }
}

#[test]
fn other_words_are_a_faulty_command_line(rt: HostRuntime) -> Result<(), Fail> {
    for words in FAULTY {
        assert!(rt; is_as_wanted(&rt, rt.alloc(), &usage(words))?);
    }
    Ok(())
}

/// The version.
const VERSION: [Case; 1] = [Case {
    words: &["--version"],
    files: &[],
    input: "",
    faults: (0, 0, 0, 0),
    status: 0,
    out: b"jrev 0.1.0\n",
    err: "",
}];

#[test]
fn the_version_is_printed(rt: HostRuntime) -> Result<(), Fail> {
    for case in &VERSION {
        assert!(rt; is_as_wanted(&rt, rt.alloc(), case)?);
    }
    Ok(())
}

const HELP: Case = Case {
    words: &["--help"],
    files: &[],
    input: "",
    faults: (0, 0, 0, 0),
    status: 0,
    out: b"",
    err: "",
};

/// What the help text says: each command with its words, each option, and each exit status.
const HELPED: [&str; 34] = [
    "jrev executes Java class files",
    "jrev pick DIR MAIN",
    "jrev run DIR MAIN",
    "jrev trace DIR MAIN",
    "jrev check DIR MAIN",
    "jrev load DIR MAIN",
    "jrev make",
    "jrev migrate",
    "jrev stress N",
    "jrev --help",
    "jrev --version",
    "\n  --workers=N",
    "\n  --slice=N",
    "\n  --order=ITEM,..",
    "\n  --seed=N ",
    "\n  --turns=N ",
    "\n  --heap=N ",
    "\n  --sections=N ",
    "exit status:",
    "\n  0  ",
    "\n  1  ",
    "\n  2  ",
    "\n  3  ",
    "\n  4  ",
    "\n  5  ",
    "\n  6  ",
    "\n  7  ",
    "\n  8  ",
    "\n  9  ",
    "\n 10  ",
    "\n 11  ",
    "journal",
    "one.jasm",
    "accepted",
];

fn has(text: &[u8], part: &str) -> bool {
    text.windows(part.len().max(1))
        .any(|w| w == part.as_bytes())
}

#[test]
fn the_help_text_names_each_command_and_status(rt: HostRuntime) -> Result<(), Fail> {
    let seen = run(&rt, rt.alloc(), &HELP)?;
    assert!(rt; seen.status == 0 && seen.err.is_empty());
    for part in HELPED {
        assert!(rt; has(seen.out.as_slice(), part));
    }
    Ok(())
}

#[test]
fn a_dot_in_a_class_name_is_a_slash(rt: HostRuntime) -> Result<(), Fail> {
    let words = owned_words(rt.alloc(), &["pick", "dir", "a.b.C"])?;
    match words_of(rt.alloc(), words.as_slice()) {
        Ok(Request::Pick { dir, main, .. }) => {
            assert!(rt; dir.as_str() == "dir" && main.as_str() == "a/b/C");
            Ok(())
        }
        _ => Err(Fail::from("no request")),
    }
}

/// The statuses in the order of their numbers.
const STATUSES: [Status; 12] = [
    Status::Done,
    Status::Died,
    Status::Usage,
    Status::Refused,
    Status::NoMain,
    Status::Stuck,
    Status::Limit,
    Status::ReadFault,
    Status::WriteFault,
    Status::Memory,
    Status::NotExecution(3),
    Status::MakeRefused(3),
];

#[test]
fn statuses_have_their_numbers(rt: HostRuntime) {
    for (number, status) in (0u8..).zip(STATUSES) {
        assert!(rt; status.number() == number);
    }
}
