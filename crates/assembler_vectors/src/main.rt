//! `assembler_vectors FILE..` prints what is made of each file: of a text the bytes of its class file or the line that
//! is refused, and of a list of lines, whose name ends in `.lines`, how many say something.
#![tactic(auto)]

use assembler_text::lines_of;
use class_make::{MakeRefusal, assemble};
use std::env;
use std::fs::File;
use std::io::{self, Read};
use std::rt::{Env, Files};

/// How many bytes of a file are read at most.
const MOST_READ: usize = 65_536;

fn no_memory() -> io::Error {
    io::Error::from(io::ErrorKind::OutOfMemory)
}

fn show_lines<R: Print + AllocGlobal>(rt: &R, bytes: &[u8]) -> io::Result<()> {
    if bytes.len() > MOST_READ {
        return println!(rt; "too long");
    }
    let Ok(text) = lines_of(rt.alloc(), bytes) else {
        return Err(no_memory());
    };
    let lines = text.lines.as_slice();
    let all = lines.len();
    let say = lines.iter().filter(|line| line.line.is_some()).count();
    println!(rt; "{say} of {all} lines say something")
}

fn show_bytes<R: Print>(rt: &R, bytes: &[u8]) -> io::Result<()> {
    for byte in bytes {
        let byte = *byte;
        print!(rt; "{byte:02x}")?;
    }
    println!(rt; "")
}

fn show_class<R: Print + AllocGlobal>(rt: &R, text: &[u8]) -> io::Result<()> {
    match assemble(rt.alloc(), text) {
        Ok(bytes) => show_bytes(rt, &bytes),
        Err(MakeRefusal::Line(number)) => println!(rt; "refused at line {number}"),
        Err(MakeRefusal::NoMemory) => Err(no_memory()),
    }
}

fn show_file<R: Print + AllocGlobal + Files>(rt: &R, path: &str) -> io::Result<()> {
    let mut bytes = Vec::new(rt.alloc());
    File::open(rt, path)?
        .take(MOST_READ as u64)
        .read_to_end(&mut bytes)?;
    print!(rt; "{path} ")?;
    if path.as_bytes().ends_with(b".lines") {
        show_lines(rt, &bytes)
    } else {
        show_class(rt, &bytes)
    }
}

fn run<R: Print + AllocGlobal + Files + Env>(rt: &R) -> io::Result<()> {
    for path in env::args(rt)?.skip(1) {
        show_file(rt, path.as_str())?;
    }
    Ok(())
}

fn main(rt: HostRuntime) -> io::Result<()> {
    run(&rt)
}
