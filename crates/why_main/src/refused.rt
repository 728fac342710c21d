//! Printing why a program is refused.

ghost use Rattle.std.specs.Prelude.{List, ℕ};
ghost use Rattle.class_read.specs.ClassFile.{IsFile};

use crate::counting::count_breaking;
use class_read::{ClassFile, ReadRefusal, read_class};
use program_accept::{Refusal, Stage};
use std::io;
use why_names::{no_memory, show_file_class, show_instruction, show_linked, show_method};
use why_texts::refusal_text;

/// Prints the method of a refusal, and the instruction at its place.
fn show_place<R: Print + AllocGlobal>(rt: &R, file: &ClassFile, refusal: Refusal) -> io::Result<()>
    requires { (bytes : List ℕ) × IsFile bytes file.now }
{
    match file.methods.get(usize::from(refusal.method)) {
        Some(method) => {
            show_method(rt, file, method)?;
            match (refusal.stage, refusal.number) {
                // The place of these two is the number of a handler or of a frame.
                (Stage::Code, 5 | 6) => Ok(()),
                _ => show_instruction(rt, file, method, refusal.place),
            }
        }
        None => Ok(()),
    }
}

/// Prints what the numbers of a refusal mean in a file.
fn show_meaning<R: Print + AllocGlobal>(
    rt: &R,
    names: &[String],
    files: &[Vec<u8>],
    file: &ClassFile,
    refusal: Refusal,
) -> io::Result<()>
    requires { (bytes : List ℕ) × IsFile bytes file.now }
{
    show_file_class(rt, file)?;
    match refusal.stage {
        Stage::Read => Ok(()),
        Stage::Code | Stage::Verify => show_place(rt, file, refusal),
        Stage::Link => match u16::try_from(refusal.place) {
            Ok(0) | Err(_) => Ok(()),
            Ok(place) => show_linked(rt, names, files, file, place),
        },
    }
}

/// Prints how many files break the rule of a refusal first in its stage, where the stage looks at each file by itself.
fn show_count<R: Print + AllocGlobal>(
    rt: &R,
    files: &[Vec<u8>],
    refusal: Refusal,
) -> io::Result<()> {
    match refusal.stage {
        Stage::Read | Stage::Code => {
            let count = count_breaking(rt.alloc(), files, refusal.stage, refusal.number)?;
            let all = files.len();
            println!(rt; "files whose first fault this is: {count} of {all}")
        }
        Stage::Link | Stage::Verify => Ok(()),
    }
}

/// Prints why a program of files with these names and bytes is refused: the line of `jrev load`, the rule and what to do, and
/// what its numbers mean.
pub(crate) fn show_refused<R: Print + AllocGlobal>(
    rt: &R,
    names: &[String],
    files: &[Vec<u8>],
    refusal: Refusal,
) -> io::Result<()> {
    let alloc = rt.alloc();
    let name = match names.get(refusal.class as usize) {
        Some(name) => name.as_bytes(),
        None => &[],
    };
    let told = refusal_text(alloc, name, refusal)?;
    let told = String::from_utf8_lossy(alloc, told.as_slice())?;
    let told = told.as_str();
    print!(rt; "{told}")?;
    match files.get(refusal.class as usize) {
        Some(bytes) => match read_class(alloc, bytes.as_slice()) {
            Ok(file) => show_meaning(rt, names, files, &file, refusal)?,
            Err(ReadRefusal::NoMemory) => return Err(no_memory()),
            Err(_) => {}
        },
        None => {}
    }
    show_count(rt, files, refusal)
}
