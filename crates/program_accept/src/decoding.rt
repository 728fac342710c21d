//! The code of all files is decoded. Each file is read again for it, so that what is kept of one file alone is there
//! beside the decoded classes.

ghost use Rattle.std.specs.Prelude.{◌≤◌, length, map};
ghost use Rattle.rules.specs.Rules.{each};
ghost use Rattle.program_accept.specs.Accepted.{code_rules, read_rules};
ghost use Rattle.program_accept.specs.Answers.{Decides};
ghost use Rattle.program_accept.specs.Only.{IsOnlyUnit, AreOnlyUnits};

use crate::refusal::{AcceptRefusal, code_refused, read_refused};
use class_read::read_class;
use code_decode::{ClassUnit, decode_class};
use std::alloc::Global;

// The class of the class file at a place, with its code.
fn decode_file(alloc: Global, place: u32, bytes: &[u8]) -> Result<ClassUnit, AcceptRefusal>
    requires read { (read_rules place bytes.now).Hold }
    ensures { Decides result (code_rules place bytes.now) (IsOnlyUnit bytes.now) }
{
    let file = match read_class(alloc, bytes) {
        Ok(file) => file,
        Err(refusal) => return Err(read_refused(place, refusal)),
    };
    match decode_class(alloc, file) {
        Ok(unit) => Ok(unit),
        Err(at) => Err(code_refused(place, at)),
    }
}

/// The classes of all class files, with their code.
pub(crate) fn decode_files(
    alloc: Global,
    files: &[Vec<u8>],
) -> Result<Vec<ClassUnit>, AcceptRefusal>
    requires few { length files.now ≤ 1024 }
    requires read { (each read_rules (map (λ f. f.items) files.now)).Hold }
    ensures { Decides result (each code_rules (map (λ f. f.items) files.now)) (λ made. AreOnlyUnits (map (λ f. f.items) files.now) made.items) }
{
    let mut made = Vec::new(alloc);
    for (place, bytes) in files.iter().enumerate() {
        let unit = decode_file(alloc, place as u32, bytes)?;
        made.push(unit)?;
    }
    Ok(made)
}
