//! From class files to a linked program.

ghost use Rattle.std.specs.Prelude.{IfOk};
ghost use Rattle.code_decode.specs.Method.{StandsForFile};
ghost use Rattle.link_rules.specs.Units.{AreUnits, IsDecoded};

use class_make::{MakeRefusal, assemble};
use class_read::{ClassFile, ReadRefusal, read_class};
use code_decode::{ClassUnit, CodeAt, CodeRefusal, decode_class};
use link_types::LinkRefusal;
use linker::{World, link};
use std::alloc::{AllocError, Global};

/// What comes of a program.
#[derive(Drop)]
pub enum Answer {
    Linked(World),
    Refused { kind: u8, class: u32, place: u16 },
    /// A class file isn't read.
    NoFile(Fault),
}

/// What is wrong with a class file.
#[derive(Clone, Copy)]
pub enum Fault {
    NoMemory,
    /// Its text isn't assembled.
    Text,
    /// It isn't read.
    File,
    /// The code of its methods isn't read.
    Code,
}

/// The class file of a text.
pub fn file_of_text(alloc: Global, text: &str) -> Result<Vec<u8>, Fault> {
    match assemble(alloc, text.as_bytes()) {
        Ok(bytes) => Ok(bytes),
        Err(MakeRefusal::NoMemory) => Err(Fault::NoMemory),
        Err(MakeRefusal::Line(_)) => Err(Fault::Text),
    }
}

fn file_of_bytes(alloc: Global, bytes: &[u8]) -> Result<ClassFile, Fault>
    ensures { IfOk result StandsForFile }
{
    match read_class(alloc, bytes) {
        Ok(file) => Ok(file),
        Err(ReadRefusal::NoMemory) => Err(Fault::NoMemory),
        Err(_) => Err(Fault::File),
    }
}

fn class_unit(alloc: Global, bytes: &[u8]) -> Result<ClassUnit, Fault>
    ensures { IfOk result IsDecoded }
{
    let file = file_of_bytes(alloc, bytes)?;
    match decode_class(alloc, file) {
        Ok(unit) => Ok(unit),
        Err(
            CodeAt {
                refusal: CodeRefusal::NoMemory,
                ..
            },
        ) => Err(Fault::NoMemory),
        Err(_) => Err(Fault::Code),
    }
}

fn class_units(alloc: Global, files: &[Vec<u8>]) -> Result<Vec<ClassUnit>, Fault>
    ensures { IfOk result (λ units. AreUnits units.items) }
{
    let mut units = Vec::new(alloc);
    for file in files {
        let unit = class_unit(alloc, file)?;
        match units.push(unit) {
            Ok(()) => {}
            Err(_) => return Err(Fault::NoMemory),
        }
    }
    Ok(units)
}

/// Links the program of these class files.
pub fn link_files(alloc: Global, files: &[Vec<u8>]) -> Result<Answer, AllocError> {
    let units = match class_units(alloc, files) {
        Ok(units) => units,
        Err(Fault::NoMemory) => return Err(AllocError),
        Err(fault) => return Ok(Answer::NoFile(fault)),
    };
    match link(alloc, units) {
        Ok(world) => Ok(Answer::Linked(world)),
        Err(LinkRefusal::At { kind, class, place }) => Ok(Answer::Refused {
            kind: kind.number(),
            class,
            place,
        }),
        Err(LinkRefusal::NoMemory) => Err(AllocError),
    }
}
