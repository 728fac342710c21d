//! Prints what is read of a class file that javac made, and whether class files are the same when they are taken
//! apart and written.
#![tactic(auto)]

ghost use Rattle.std.specs.Prelude.{List, ℕ};
ghost use Rattle.class_read.specs.ClassFile.{IsFile};

use class_read::{ClassFile, Member, read_class, text_of};
use class_walk::walk;
use class_write::{read_classes_can_be_written, write_class};
use std::alloc::Global;
use std::fs::File;
use std::io::{self, Read};
use std::rt::Files;

fn file_bytes<R: AllocGlobal + Files>(rt: &R, path: &str) -> io::Result<Vec<u8>> {
    let mut bytes = Vec::new(rt.alloc());
    File::open(rt, path)?.take(2000).read_to_end(&mut bytes)?;
    Ok(bytes)
}

fn is_written_again(alloc: Global, bytes: &[u8]) -> bool {
    read_classes_can_be_written();
    match walk(alloc, bytes) {
        Ok(class) => match write_class(alloc, &class) {
            Ok(written) => written.as_slice() == bytes,
            Err(_) => false,
        },
        Err(_) => false,
    }
}

fn show_written<R: Print + AllocGlobal + Files>(rt: &R, path: &str) -> io::Result<()> {
    let bytes = file_bytes(rt, path)?;
    if is_written_again(rt.alloc(), bytes.as_slice()) {
        println!(rt; "{path} is written as it was")
    } else {
        println!(rt; "{path} is written otherwise")
    }
}

fn show_text<R: Print + AllocGlobal>(rt: &R, file: &ClassFile, index: u16) -> io::Result<()>
    requires { (bytes : List ℕ) × IsFile bytes file.now }
{
    match text_of(rt.alloc(), file, index) {
        Ok(text) => {
            let text = text.as_str();
            println!(rt; "{index} is {text:?}")
        }
        Err(_) => println!(rt; "{index} is no text"),
    }
}

fn show_code<R: Print>(rt: &R, method: &Member) -> io::Result<()> {
    let name = method.name;
    println!(rt; "method {name}")?;
    let Some(code) = &method.code else {
        return Ok(());
    };
    for handler in code.handlers.as_slice() {
        let (from, to, at, kind) = (handler.from, handler.to, handler.at, handler.kind);
        println!(rt; "from {from} to {to} by {at}, class {kind}")?;
    }
    let length = code.maps.len();
    println!(rt; "{length} bytes of maps")
}

fn show_members<R: Print>(rt: &R, file: &ClassFile) -> io::Result<()> {
    for interface in file.interfaces.as_slice() {
        let interface = *interface;
        println!(rt; "interface {interface}")?;
    }
    for field in file.fields.as_slice() {
        match field.constant {
            Some(constant) => println!(rt; "field with constant {constant}")?,
            None => println!(rt; "field")?,
        }
    }
    let count = file.methods.len();
    println!(rt; "{count} methods, and the last one:")?;
    match file.methods.as_slice() {
        [.., method] => show_code(rt, method),
        [] => Ok(()),
    }
}

fn show_read<R: Print + AllocGlobal>(rt: &R, bytes: &[u8]) -> io::Result<()> {
    match read_class(rt.alloc(), bytes) {
        Ok(file) => {
            show_members(rt, &file)?;
            show_text(rt, &file, 40)?;
            show_text(rt, &file, 39)?;
            show_text(rt, &file, 64)
        }
        Err(refusal) => println!(rt; "refused: {refusal}"),
    }
}

fn main(rt: HostRuntime) -> io::Result<()> {
    show_written(&rt, "One.class")?;
    show_written(&rt, "Sample.class")?;
    let bytes = file_bytes(&rt, "Outer.class")?;
    show_read(&rt, bytes.as_slice())
}
