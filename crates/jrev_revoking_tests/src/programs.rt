//! Programs whose main method starts threads, as texts of the assembler, and what comes of their runs.

use jrev_cases::{Faults, Seen, assembled, run_over};
use std::alloc::Global;
use std::test::Fail;
use std::thread::Threads;

/// A class of threads.
#[derive(Clone, Copy)]
pub struct ThreadClass {
    pub name: &'static str,
    /// The lines of its run method, in pieces.
    pub run: &'static [&'static str],
}

/// A program. Its class Main has the static fields lock, a, b, x, y and v.
#[derive(Clone, Copy)]
pub struct Program {
    /// What main does first, in pieces.
    pub first: &'static [&'static str],
    /// The classes of its threads.
    pub classes: &'static [ThreadClass],
    /// The threads that main makes and starts then, each of a class that is named and with a priority.
    pub threads: &'static [(&'static str, u8)],
    /// What main does last, in pieces.
    pub last: &'static [&'static str],
    /// The name of the file and the text of each other class.
    pub others: &'static [(&'static str, &'static str)],
}

/// A run of `pick` over a program, and what is wanted of it.
pub struct Row {
    pub program: Program,
    /// The words after the name of the main class.
    pub options: &'static [&'static str],
    pub faults: Faults,
    pub status: u8,
    pub out: &'static str,
    pub err: &'static str,
}

const MAIN_HEAD: &str = "class Main
field 8 lock Ljava/lang/Object;
field 8 a Ljava/lang/Object;
field 8 b Ljava/lang/Object;
field 8 x I
field 8 y I
field 8 v J
method 9 main ([Ljava/lang/String;)V stack 4 locals 2
";

const THREAD_HEAD: &str = "super java/lang/Thread
method 1 <init> ()V stack 1 locals 1
aload_0
invokespecial java/lang/Thread <init> ()V
return
end
method 1 run ()V stack 4 locals 1
";

const TAIL: &str = "return
end
";

fn push_all(text: &mut String, pieces: &[&str]) -> Result<(), Fail> {
    for piece in pieces {
        text.push_str(piece)?;
    }
    Ok(())
}

/// The lines that make and start a thread of a class.
fn starting(alloc: Global, name: &str, priority: u8) -> Result<String, Fail> {
    Ok(format!(in alloc;
        "new {name}\ndup\ninvokespecial {name} <init> ()V\nastore_1\naload_1\nbipush {priority}\n\
         invokevirtual {name} setPriority (I)V\naload_1\ninvokevirtual {name} start ()V\n"
    )?)
}

fn main_text(alloc: Global, program: &Program) -> Result<String, Fail> {
    let mut text = String::from_str(alloc, MAIN_HEAD)?;
    push_all(&mut text, program.first)?;
    for (name, priority) in program.threads {
        text.push_str(starting(alloc, name, *priority)?.as_str())?;
    }
    push_all(&mut text, program.last)?;
    text.push_str(TAIL)?;
    Ok(text)
}

fn thread_text(alloc: Global, class: &ThreadClass) -> Result<String, Fail> {
    let name = class.name;
    let mut text = format!(in alloc; "class {name}\n")?;
    text.push_str(THREAD_HEAD)?;
    push_all(&mut text, class.run)?;
    text.push_str(TAIL)?;
    Ok(text)
}

/// The class files of a program.
fn files_of<R: Threads + Sync>(
    rt: &R,
    alloc: Global,
    program: &Program,
) -> Result<Vec<(String, Vec<u8>)>, Fail> {
    let mut files = Vec::new(alloc);
    let main = main_text(alloc, program)?;
    files.push((
        String::from_str(alloc, "Main.class")?,
        assembled(rt, alloc, main.as_str())?,
    ))?;
    for class in program.classes {
        let name = class.name;
        let text = thread_text(alloc, class)?;
        files.push((
            format!(in alloc; "{name}.class")?,
            assembled(rt, alloc, text.as_str())?,
        ))?;
    }
    for (name, text) in program.others {
        files.push((String::from_str(alloc, name)?, assembled(rt, alloc, text)?))?;
    }
    Ok(files)
}

/// What comes of a command over a program, with these options and this text on the input.
pub fn run_of<R: Threads + Sync>(
    rt: &R,
    alloc: Global,
    program: &Program,
    command: &str,
    options: &[&str],
    input: &str,
    faults: Faults,
) -> Result<Seen, Fail> {
    let mut words = Vec::from_slice(alloc, &[command, "D", "Main"])?;
    words.extend_from_slice(options)?;
    let files = files_of(rt, alloc, program)?;
    run_over(rt, alloc, words.as_slice(), files, input, faults)
}

/// Whether the run ends with the wanted status, and gives the wanted lines to both streams.
pub fn is_as_wanted<R: Threads + Sync>(rt: &R, alloc: Global, row: &Row) -> Result<bool, Fail> {
    let seen = run_of(rt, alloc, &row.program, "pick", row.options, "", row.faults)?;
    Ok(
        seen.status == row.status
            && seen.out.as_slice() == row.out.as_bytes()
            && seen.err.as_slice() == row.err.as_bytes(),
    )
}
