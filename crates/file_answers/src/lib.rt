//! What is answered to class files, where nothing is executed of them or something that a [`Verdict`] says, and to an assembler's
//! text.
//!
//! The answers are functions of values: [`answer_to_files`] of class files, with a [`Verdict`] on a program, and [`answer_to_text`]
//! of a text. [`decide_program`], [`load_folder`] and [`make`] read these from a folder and an input.
#![tactic(auto)]

mod answers;
mod failure;
mod loading;
mod making;
mod texts;
mod verdict;

pub use answers::{given, not_execution, usage};
pub use failure::Failure;
pub use loading::{Judged, Loaded, answer_to_files, decide_program, judge, load_folder};
pub use making::{answer_to_text, make};
pub use texts::{help, version};
pub use verdict::{Count, Verdict};
