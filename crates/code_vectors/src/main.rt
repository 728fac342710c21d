//! `code_vectors FILE..` prints what is read of the code of each method of class files, or why it is refused: each
//! method by itself, and then the class as a whole.
#![tactic(auto)]

ghost use Rattle.code_decode.specs.Method.{StandsForFile};

mod show;

use class_read::{ClassFile, MOST_BYTES, NameRefusal, read_class, text_of};
use code_decode::{CodeAt, decode, decode_class};
use show::{show_code, show_counts};
use std::env;
use std::fs::File;
use std::io::{self, Read};
use std::rt::{Env, Files};

/// Prints the text of a Utf8 entry.
fn show_text<R: Print + AllocGlobal>(rt: &R, file: &ClassFile, index: u16) -> io::Result<()>
    requires { StandsForFile file.now }
{
    match text_of(rt.alloc(), file, index) {
        Ok(text) => {
            let text = text.as_str();
            print!(rt; " {text}")
        }
        Err(NameRefusal::Bad) => print!(rt; " no text"),
        Err(NameRefusal::NoMemory) => print!(rt; " no memory"),
    }
}

/// Prints the code of a method that is read by itself.
fn show_method<R: Print + AllocGlobal>(rt: &R, file: &ClassFile, method: u16) -> io::Result<()>
    requires { StandsForFile file.now }
{
    match file.methods.get(usize::from(method)) {
        Some(member) => match &member.code {
            Some(_) => match decode(rt.alloc(), file, method) {
                Ok(code) => show_code(rt, &code),
                Err(refusal) => println!(rt; ": {refusal}"),
            },
            None => println!(rt; ": no code"),
        },
        None => Ok(()),
    }
}

fn show_methods<R: Print + AllocGlobal>(rt: &R, file: &ClassFile) -> io::Result<()>
    requires { StandsForFile file.now }
{
    for (method, member) in (0u16..).zip(file.methods.as_slice().iter()) {
        print!(rt; "method {method}")?;
        show_text(rt, file, member.name)?;
        show_method(rt, file, method)?;
    }
    Ok(())
}

/// Prints what is read of the class as a whole.
fn show_class<R: Print + AllocGlobal>(rt: &R, file: ClassFile) -> io::Result<()>
    requires { StandsForFile file }
{
    match decode_class(rt.alloc(), file) {
        Ok(unit) => {
            print!(rt; "class:")?;
            for code in unit.codes.as_slice() {
                show_counts(rt, code)?;
            }
            println!(rt; "")
        }
        Err(CodeAt { method, refusal }) => println!(rt; "class: method {method}: {refusal}"),
    }
}

fn show_bytes<R: Print + AllocGlobal>(rt: &R, bytes: &[u8]) -> io::Result<()> {
    match read_class(rt.alloc(), bytes) {
        Ok(file) => {
            show_methods(rt, &file)?;
            show_class(rt, file)
        }
        Err(refusal) => println!(rt; "no class file: {refusal}"),
    }
}

fn show_file<R: Print + AllocGlobal + Files>(rt: &R, path: &str) -> io::Result<()> {
    let mut bytes = Vec::new(rt.alloc());
    File::open(rt, path)?
        .take(MOST_BYTES as u64 + 1)
        .read_to_end(&mut bytes)?;
    println!(rt; "{path}")?;
    show_bytes(rt, bytes.as_slice())
}

fn run<R: Print + AllocGlobal + Files + Env>(rt: &R) -> io::Result<()> {
    for path in env::args(rt)?.skip(1) {
        show_file(rt, path.as_str())?;
    }
    Ok(())
}

fn main(rt: HostRuntime) -> io::Result<()> {
    run(&rt)
}
