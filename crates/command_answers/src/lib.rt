//! What the commands answer that execute programs or read journals, before a byte of it is written.
//!
//! The answers are functions of values: `answer_to_files` of `file_answers` of class files, with a verdict on a program
//! ([`Execution`], [`Tracing`]), [`answer_to_journal`] of a journal that is to be in the newest version, and [`answer_to_number`] of a
//! number for which a program is made. [`decide_hosted`], [`check`] and [`migrate`] read these from a folder and an input.
#![tactic(auto)]

mod executions;
mod hosting;
mod journals;
mod stressing;

pub use executions::{Execution, Tracing};
pub use hosting::{HostedExecution, decide_hosted};
pub use journals::{answer_to_journal, check, migrate};
pub use stressing::answer_to_number;
