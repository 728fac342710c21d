//! Class files from an assembler's text.
//!
//! The lines of a text, one after another, make a class, each entry of the pool at the line that names it first, and
//! the file is the spelling of that class (JVMS SE 8, chapter 4).
#![tactic(auto)]

mod class;
mod laws;
mod make;
mod refusal;
mod state;

pub use laws::texts_have_one_answer;
pub use make::{assemble, make_class};
pub use refusal::MakeRefusal;
