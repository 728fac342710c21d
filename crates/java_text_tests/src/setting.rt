//! Programs of one class.

use class_make::assemble;
use program_accept::{Program, accept};
use std::alloc::Global;

/// The program of a class whose text is given, with `main` in it, if it is accepted.
pub fn program_of(alloc: Global, name: &[u8], text: &str) -> Option<Program> {
    let bytes = assemble(alloc, text.as_bytes()).ok()?;
    let mut files = Vec::new(alloc);
    files.push(bytes).ok()?;
    accept(alloc, files, name).ok()
}
