//! `class_show FILE` prints what is read of a class file, or why it is refused.
#![tactic(auto)]

ghost use Rattle.std.specs.Prelude.{◌↔◌, List, ℕ, IsTrue, IfOk};
ghost use Rattle.class_read.specs.ClassFile.{IsFile};
ghost use Rattle.code_decode.specs.Method.{StandsForFile};
ghost use Rattle.class_show.specs.Accepted.{IsAccepted, HasCodes};

mod code;

use class_read::{
    ClassFile, Constant, MOST_BYTES, Member, NameRefusal, ReadRefusal, read_class, text_of,
};
use code::show_codes;
use code_decode::{CodeAt, CodeRefusal, decode_class};
use std::env;
use std::fs::File;
use std::io::{self, Read};
use std::process::ExitCode;
use std::rt::{Env, Files};

fn no_memory() -> io::Error {
    io::Error::from(io::ErrorKind::OutOfMemory)
}

/// Prints the text of a Utf8 entry, with escapes.
fn show_text<R: Print + AllocGlobal>(rt: &R, file: &ClassFile, index: u16) -> io::Result<()>
    requires { (bytes : List ℕ) × IsFile bytes file.now }
{
    match text_of(rt.alloc(), file, index) {
        Ok(text) => {
            let text = text.as_str();
            println!(rt; "Utf8 {text:?}")
        }
        Err(NameRefusal::Bad) => println!(rt; "Utf8"),
        Err(NameRefusal::NoMemory) => Err(no_memory()),
    }
}

/// Prints an entry of the pool that is no text.
fn show_constant<R: Print>(rt: &R, constant: &Constant) -> io::Result<()> {
    match constant {
        Constant::Gap | Constant::Utf8(_) => println!(rt; ""),
        Constant::Integer(value) => println!(rt; "Integer {value}"),
        Constant::Float(bits) => println!(rt; "Float {bits:#010x}"),
        Constant::Long(value) => println!(rt; "Long {value}"),
        Constant::Double(bits) => println!(rt; "Double {bits:#018x}"),
        Constant::Class(name) => println!(rt; "Class {name}"),
        Constant::Str(text) => println!(rt; "String {text}"),
        Constant::Field(class, pair) => println!(rt; "Fieldref {class} {pair}"),
        Constant::Method(class, pair) => println!(rt; "Methodref {class} {pair}"),
        Constant::IfaceMethod(class, pair) => println!(rt; "InterfaceMethodref {class} {pair}"),
        Constant::Pair(name, descriptor) => println!(rt; "NameAndType {name} {descriptor}"),
        Constant::Handle(kind, index) => println!(rt; "MethodHandle {kind} {index}"),
        Constant::MethodType(descriptor) => println!(rt; "MethodType {descriptor}"),
        Constant::Dynamic(bootstrap, pair) => println!(rt; "InvokeDynamic {bootstrap} {pair}"),
    }
}

fn show_pool<R: Print + AllocGlobal>(rt: &R, file: &ClassFile) -> io::Result<()>
    requires { (bytes : List ℕ) × IsFile bytes file.now }
{
    for (index, constant) in (0u16..).zip(file.pool.as_slice().iter()) {
        match constant {
            Constant::Gap => {}
            Constant::Utf8(_) => {
                print!(rt; "  {index} ")?;
                show_text(rt, file, index)?;
            }
            _ => {
                print!(rt; "  {index} ")?;
                show_constant(rt, constant)?;
            }
        }
    }
    Ok(())
}

fn show_members<R: Print>(rt: &R, heading: &str, members: &[Member]) -> io::Result<()> {
    for member in members {
        let (flags, name, descriptor) = (member.flags, member.name, member.descriptor);
        print!(rt; "{heading} flags {flags:#06x} name {name} descriptor {descriptor}")?;
        match member.constant {
            Some(constant) => println!(rt; " constant {constant}")?,
            None => println!(rt; "")?,
        }
    }
    Ok(())
}

/// Prints what is kept of a class file.
fn show<R: Print + AllocGlobal>(rt: &R, file: &ClassFile) -> io::Result<()>
    requires { (bytes : List ℕ) × IsFile bytes file.now }
{
    let (major, flags) = (file.major, file.flags);
    let (this_class, super_class) = (file.this_class, file.super_class);
    println!(rt; "class {this_class} super {super_class} version {major} flags {flags:#06x}")?;
    for interface in file.interfaces.as_slice() {
        let interface = *interface;
        println!(rt; "interface {interface}")?;
    }
    println!(rt; "pool")?;
    show_pool(rt, file)?;
    show_members(rt, "field", file.fields.as_slice())?;
    show_members(rt, "method", file.methods.as_slice())
}

/// Prints the code of each method, and says whether it was accepted.
fn show_decoded<R: Print + AllocGlobal>(rt: &R, file: ClassFile) -> io::Result<bool>
    requires { StandsForFile file }
    ensures { IfOk result (λ accepted. IsTrue accepted ↔ HasCodes file) }
{
    match decode_class(rt.alloc(), file) {
        Ok(unit) => {
            show_codes(rt, &unit)?;
            Ok(true)
        }
        Err(
            CodeAt {
                refusal: CodeRefusal::NoMemory,
                ..
            },
        ) => Err(no_memory()),
        Err(CodeAt { method, refusal }) => {
            println!(rt; "refused: method {method} {refusal}")?;
            Ok(false)
        }
    }
}

/// Prints what is read of the bytes of a file, and says whether it was accepted.
fn show_bytes<R: Print + AllocGlobal>(rt: &R, bytes: &[u8]) -> io::Result<bool>
    ensures { IfOk result (λ accepted. IsTrue accepted ↔ IsAccepted bytes.now) }
{
    match read_class(rt.alloc(), bytes) {
        Ok(file) => {
            show(rt, &file)?;
            show_decoded(rt, file)
        }
        Err(ReadRefusal::NoMemory) => Err(no_memory()),
        Err(refusal) => {
            println!(rt; "refused: {refusal}")?;
            Ok(false)
        }
    }
}

/// Reads and prints the file, and says whether it was accepted.
fn show_file<R: Print + AllocGlobal + Files>(rt: &R, path: &str) -> io::Result<bool> {
    let mut bytes = Vec::new(rt.alloc());
    File::open(rt, path)?
        .take(MOST_BYTES as u64 + 1)
        .read_to_end(&mut bytes)?;
    show_bytes(rt, bytes.as_slice())
}

/// Shows the file that the one word of the command line names.
fn run<R: Print + AllocGlobal + Files + Env>(rt: &R) -> io::Result<bool> {
    let mut words = env::args(rt)?.skip(1);
    let (Some(path), None) = (words.next(), words.next()) else {
        println!(rt; "usage: class_show FILE")?;
        return Ok(false);
    };
    show_file(rt, path.as_str())
}

fn main(rt: HostRuntime) -> ExitCode {
    match run(&rt) {
        Ok(true) => ExitCode::SUCCESS,
        Ok(false) => ExitCode::FAILURE,
        Err(error) => {
            let _ = eprintln!(rt; "class_show: {error}");
            ExitCode::FAILURE
        }
    }
}
