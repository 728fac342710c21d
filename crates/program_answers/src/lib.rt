//! What a program answers on its streams: a status, and what goes to the standard output and the standard error.
#![tactic(auto)]

mod answer;
mod output;
mod status;
mod writing;

pub use answer::Answer;
pub use output::Output;
pub use status::Status;
pub use writing::{report, say, say_fault};
