//! The class files of the generated load, and their names.

ghost use Rattle.std.specs.Prelude.{◌≡◌, ◌∷◌, [], IfOk, Ok, map, string_bytes};
ghost use Rattle.class_make.specs.Texts.{IsAssembled};
ghost use Rattle.stress_texts.specs.Classes.{AreClasses, stress_names};
ghost use Rattle.stress_texts.specs.Texts.{stress_texts};

use crate::texts::{stress_text, worker_text};
use class_make::make_class;
use op_core::NoMemory;
use std::alloc::{AllocError, Global};

/// The name of the class whose main method is the load's.
pub const STRESS_MAIN: &str = "Stress";

fn file_of(alloc: Global, text: &str) -> Result<Vec<u8>, NoMemory>
    ensures { IfOk result (λ file. IsAssembled text.now (Ok file.items)) }
{
    make_class(alloc, text).map_err(|_| NoMemory)
}

fn pair(alloc: Global, first: Vec<u8>, second: Vec<u8>) -> Result<Vec<Vec<u8>>, AllocError>
    ensures { IfOk result (λ files. files.items ≡ first ∷ second ∷ []) }
{
    let mut files = Vec::new(alloc);
    files.push(first)?;
    files.push(second)?;
    Ok(files)
}

/// The class files (JVMS 4.1) of the load of a number: `Stress`, whose main method makes, starts and joins 2 + number mod 15
/// threads, and `StressWorker`, the class of these threads. They are what the assembler makes of the texts.
///
/// # Errors
/// It fails when memory runs out. It would also fail where the assembler refused a text; that it refuses none isn't proved.
pub fn stress_classes(alloc: Global, number: u64) -> Result<Vec<Vec<u8>>, NoMemory>
    ensures { IfOk result (λ files. AreClasses (stress_texts number) (map (λ file. file.items) files.items)) }
{
    let stress = stress_text(alloc, number)?;
    let first = file_of(alloc, stress.as_str())?;
    let second = file_of(alloc, worker_text())?;
    let files = pair(alloc, first, second)?;
    Ok(files)
}

/// The names of the files of [`stress_classes`], in their order. It fails only when memory runs out.
pub fn stress_names(alloc: Global) -> Result<Vec<String>, AllocError>
    ensures { IfOk result (λ names. map string_bytes names.items ≡ stress_names) }
{
    let mut names = Vec::new(alloc);
    names.push(String::from_str(alloc, "Stress.class")?)?;
    names.push(String::from_str(alloc, "StressWorker.class")?)?;
    Ok(names)
}
