//! `jrev_why DIR MAIN` says why `jrev load DIR MAIN` refuses a program, or what the program has if it is accepted.
#![tactic(auto)]

ghost use Rattle.std.specs.Prelude.{IfOk, map};
ghost use Rattle.why_main.specs.Verdict.{IsVerdict};

mod accepted;
mod counting;
mod refused;

use accepted::show_accepted;
use command_words::{Request, WordsRefusal, words_of};
use encoded_texts::encoded_text;
use jr_ports::{DirFault, FolderDir};
use op_core::NoMemory;
use program_accept::{AcceptRefusal, Program, Refusal, accept};
use program_input::{class_names, read_files};
use refused::show_refused;
use std::alloc::{AllocError, Global};
use std::env;
use std::io::{self, ErrorKind};
use std::process::ExitCode;
use std::rt::{Env, Files};
use why_names::no_memory;

/// How many class files are read at most: one more than a program has, so that too many are seen.
const MOST_READ: usize = 1025;

/// What class files come to.
#[derive(Drop)]
pub(crate) enum Verdict {
    /// A program that is accepted.
    Accepted(Program),
    /// The first rule that is broken.
    Refused(Refusal),
    /// No rule is broken, and there is no such main method.
    NoMain,
}

// What class files come to, where the program is to begin with a class.
fn judge(alloc: Global, files: Vec<Vec<u8>>, main: &[u8]) -> Result<Verdict, NoMemory>
    ensures { IfOk result (IsVerdict (map (λ f. f.items) files.items) main.now) }
{
    match accept(alloc, files, main) {
        Ok(program) => Ok(Verdict::Accepted(program)),
        Err(AcceptRefusal::Refused(refusal)) => Ok(Verdict::Refused(refusal)),
        Err(AcceptRefusal::NoMain) => Ok(Verdict::NoMain),
        Err(AcceptRefusal::NoMemory) => Err(NoMemory),
    }
}

/// The words of `jrev load` with the words of the command line.
fn load_words<R: Env + AllocGlobal>(rt: &R) -> io::Result<Vec<String>> {
    let mut words = Vec::new(rt.alloc());
    words.push(String::from_str(rt.alloc(), "load")?)?;
    for word in env::args(rt)?.skip(1) {
        words.push(word)?;
    }
    Ok(words)
}

/// Says that the folder failed, or that there is no memory.
fn show_fault<R: Eprint>(rt: &R, fault: DirFault) -> io::Result<u8> {
    match fault {
        DirFault::Failed => {
            eprintln!(rt; "read fault")?;
            Ok(7)
        }
        DirFault::NoMemory => Err(no_memory()),
    }
}

/// A copy of the bytes of files: judging them takes them, and what is shown is to be of the same bytes.
fn copy_of(alloc: Global, files: &[Vec<u8>]) -> Result<Vec<Vec<u8>>, AllocError> {
    let mut copy = Vec::new(alloc);
    for file in files {
        copy.push(Vec::from_slice(alloc, file.as_slice())?)?;
    }
    Ok(copy)
}

/// Judges the class files of a folder, as `jrev load` does, and shows what they come to. Returns the exit status.
fn explain<R: Print + Eprint + AllocGlobal + Files>(
    rt: &R,
    dir: &str,
    main: &str,
) -> io::Result<u8> {
    let alloc = rt.alloc();
    let mut classes = FolderDir::new(rt);
    let mut names = match class_names(alloc, &mut classes, dir) {
        Ok(names) => names,
        Err(fault) => return show_fault(rt, fault),
    };
    names.truncate(MOST_READ);
    let files = match read_files(alloc, &mut classes, dir, names.as_slice()) {
        Ok(files) => files,
        Err(fault) => return show_fault(rt, fault),
    };
    let count = files.len();
    let kept = copy_of(alloc, files.as_slice())?;
    let encoded = encoded_text(alloc, main)?;
    match judge(alloc, files, encoded.as_slice()) {
        Ok(Verdict::Accepted(program)) => {
            show_accepted(rt, count, &program)?;
            Ok(0)
        }
        Ok(Verdict::Refused(refusal)) => {
            show_refused(rt, names.as_slice(), kept.as_slice(), refusal)?;
            Ok(3)
        }
        Ok(Verdict::NoMain) => {
            println!(rt; "no main")?;
            println!(rt;
                "what to do: give the name of a class of the folder that has a static method void main(String[]) itself"
            )?;
            Ok(4)
        }
        Err(NoMemory) => Err(no_memory()),
    }
}

/// Explains the program that the words of the command line name. Returns the exit status.
fn run<R: Print + Eprint + AllocGlobal + Files + Env>(rt: &R) -> io::Result<u8> {
    let words = load_words(rt)?;
    match words_of(rt.alloc(), words.as_slice()) {
        Ok(Request::Load { dir, main }) => explain(rt, dir.as_str(), main.as_str()),
        Ok(_) | Err(WordsRefusal::Usage) => {
            eprintln!(rt; "usage: jrev_why DIR MAIN")?;
            Ok(2)
        }
        Err(WordsRefusal::NoMemory) => Err(no_memory()),
    }
}

fn main(rt: HostRuntime) -> ExitCode {
    match run(&rt) {
        Ok(status) => ExitCode::from(status),
        Err(error) => {
            let _ = eprintln!(rt; "jrev_why: {error}");
            match error.kind() {
                ErrorKind::InvalidData => ExitCode::from(2),
                ErrorKind::OutOfMemory => ExitCode::from(9),
                _ => ExitCode::from(8),
            }
        }
    }
}
