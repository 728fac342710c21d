//! `interp_vectors FILE..` makes the class of each text, runs its methods, which take no arguments, up to their return,
//! and prints the class, the method and what it returns or throws.
#![tactic(auto)]

ghost use Rattle.code_decode.specs.Method.{StandsForFile};

mod method_run;

use builtin_world::number::ARITHMETIC_EXCEPTION;
use class_make::{MakeRefusal, assemble};
use class_read::{ClassFile, NameRefusal, read_class, text_of};
use code_decode::{CodeAt, decode_class};
use method_run::{Answer, run_method};
use std::env;
use std::fs::File;
use std::io::{self, Read};
use std::rt::{Env, Files};

/// How many bytes of a file are read at most.
const MOST_READ: u64 = 65_536;

fn no_memory() -> io::Error {
    io::Error::from(io::ErrorKind::OutOfMemory)
}

/// Prints the text of a Utf8 entry.
fn show_text<R: Print + AllocGlobal>(rt: &R, file: &ClassFile, index: u16) -> io::Result<()>
    requires { StandsForFile file.now }
{
    match text_of(rt.alloc(), file, index) {
        Ok(text) => {
            let text = text.as_str();
            print!(rt; " {text}")
        }
        Err(NameRefusal::Bad) => print!(rt; " no text"),
        Err(NameRefusal::NoMemory) => Err(no_memory()),
    }
}

fn show_answer<R: Print>(rt: &R, answer: Answer) -> io::Result<()> {
    match answer {
        Answer::Nothing => println!(rt; " returns"),
        Answer::Int(number) => println!(rt; " {number}"),
        Answer::Long(number) => println!(rt; " {number}"),
        Answer::Reference(word) => println!(rt; " reference {word}"),
        Answer::Thrown(ARITHMETIC_EXCEPTION) => println!(rt; " java.lang.ArithmeticException"),
        Answer::Thrown(class) => println!(rt; " throws {class}"),
        Answer::Stopped(step) => println!(rt; " stops at instruction {step}"),
        Answer::Endless => println!(rt; " doesn't end"),
    }
}

/// Runs the methods of a class file, and prints what comes of each.
fn show_methods<R: Print + AllocGlobal>(rt: &R, name: &str, file: ClassFile) -> io::Result<()>
    requires { StandsForFile file }
{
    match decode_class(rt.alloc(), file) {
        Ok(unit) => {
            let members = unit.file.methods.as_slice().iter();
            for (member, code) in members.zip(unit.codes.as_slice().iter()) {
                print!(rt; "{name}")?;
                show_text(rt, &unit.file, member.name)?;
                match code {
                    Some(code) => show_answer(rt, run_method(rt.alloc(), code)?)?,
                    None => println!(rt; " no code")?,
                }
            }
            Ok(())
        }
        Err(CodeAt { method, refusal }) => println!(rt; "{name}: method {method}: {refusal}"),
    }
}

fn show_bytes<R: Print + AllocGlobal>(rt: &R, name: &str, bytes: &[u8]) -> io::Result<()> {
    match read_class(rt.alloc(), bytes) {
        Ok(file) => show_methods(rt, name, file),
        Err(refusal) => println!(rt; "{name}: {refusal}"),
    }
}

fn show_class<R: Print + AllocGlobal>(rt: &R, name: &str, text: &[u8]) -> io::Result<()> {
    match assemble(rt.alloc(), text) {
        Ok(bytes) => show_bytes(rt, name, &bytes),
        Err(MakeRefusal::Line(number)) => println!(rt; "{name}: refused at line {number}"),
        Err(MakeRefusal::NoMemory) => Err(no_memory()),
    }
}

fn show_file<R: Print + AllocGlobal + Files>(rt: &R, path: &str) -> io::Result<()> {
    let mut text = Vec::new(rt.alloc());
    File::open(rt, path)?
        .take(MOST_READ)
        .read_to_end(&mut text)?;
    show_class(rt, path, &text)
}

fn run<R: Print + AllocGlobal + Files + Env>(rt: &R) -> io::Result<()> {
    for path in env::args(rt)?.skip(1) {
        show_file(rt, path.as_str())?;
    }
    Ok(())
}

fn main(rt: HostRuntime) -> io::Result<()> {
    run(&rt)
}
