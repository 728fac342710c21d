//! All files are class files.

ghost use Rattle.std.specs.Prelude.{◌≤◌, length, map};
ghost use Rattle.rules.specs.Rules.{each};
ghost use Rattle.program_accept.specs.Accepted.{read_rules};
ghost use Rattle.program_accept.specs.Answers.{Decides};

use crate::refusal::{AcceptRefusal, read_refused};
use class_read::{ClassFile, read_class};
use std::alloc::Global;

// The class file at a place.
fn read_file(alloc: Global, place: u32, bytes: &[u8]) -> Result<ClassFile, AcceptRefusal>
    ensures { Decides result (read_rules place bytes.now) (λ _. Unit {0}) }
{
    match read_class(alloc, bytes) {
        Ok(file) => Ok(file),
        Err(refusal) => Err(read_refused(place, refusal)),
    }
}

/// All files are class files.
pub(crate) fn check_files(alloc: Global, files: &[Vec<u8>]) -> Result<(), AcceptRefusal>
    requires few { length files.now ≤ 1024 }
    ensures { Decides result (each read_rules (map (λ f. f.items) files.now)) (λ _. Unit {0}) }
{
    for (place, bytes) in files.iter().enumerate() {
        drop(read_file(alloc, place as u32, bytes)?);
    }
    Ok(())
}
