//! How many files break a rule.

ghost use Rattle.code_decode.specs.Method.{StandsForFile};

use class_read::{ClassFile, ReadRefusal, read_class};
use code_decode::{CodeAt, CodeRefusal, decode_class};
use program_accept::Stage;
use std::alloc::Global;
use std::io;
use why_names::no_memory;

/// Whether the code of a class is first refused by the rule of a number.
fn breaks_code(alloc: Global, file: ClassFile, number: u8) -> io::Result<bool>
    requires { StandsForFile file }
{
    match decode_class(alloc, file) {
        Ok(_) => Ok(false),
        Err(
            CodeAt {
                refusal: CodeRefusal::NoMemory,
                ..
            },
        ) => Err(no_memory()),
        Err(CodeAt { refusal, .. }) => Ok(refusal.number() == number),
    }
}

/// Whether the first rule that a file breaks in a stage is the one of a number. Only reading and decoding look at each file
/// by itself.
fn breaks(alloc: Global, bytes: &[u8], stage: Stage, number: u8) -> io::Result<bool> {
    match read_class(alloc, bytes) {
        Ok(file) => match stage {
            Stage::Code => breaks_code(alloc, file, number),
            _ => Ok(false),
        },
        Err(ReadRefusal::NoMemory) => Err(no_memory()),
        Err(refusal) => match stage {
            Stage::Read => Ok(refusal.number() == number),
            _ => Ok(false),
        },
    }
}

/// How many of the files break first, in a stage, the rule of a number.
pub(crate) fn count_breaking(
    alloc: Global,
    files: &[Vec<u8>],
    stage: Stage,
    number: u8,
) -> io::Result<usize> {
    let mut count = 0usize;
    for file in files {
        if breaks(alloc, file.as_slice(), stage, number)? {
            count = count.saturating_add(1);
        }
    }
    Ok(count)
}
