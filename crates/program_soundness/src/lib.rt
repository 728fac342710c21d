//! Type soundness of programs that were decoded, linked and verified (`IsSound` in `specs/SoundPrograms.antt`): what their threads
//! never do, what their objects are, and in what state they begin. Laws alone.
//!
//! The laws of `run_laws` stand on three hypotheses on classes, operands and numbers (`Accepted`, `HasRoom`, `ClassesFollow`), which
//! the others give.
#![tactic(auto)]

mod object_laws;
mod operand_laws;
mod priority_laws;
mod program_laws;
mod run_laws;
mod start_laws;

pub use object_laws::{classes_follow, programs_are_sound};
pub use operand_laws::programs_are_accepted;
pub use priority_laws::priorities_fit;
pub use program_laws::{
    classes_go_up, main_methods_begin, numbers_are_words, objects_have_room, programs_go_in_order,
    programs_have_room,
};
pub use run_laws::{
    blocked_threads_wait, executions_fit, lists_fit, live_threads_go_on, programs_are_grounded,
    programs_are_orderly, programs_keep_start_words,
};
pub use start_laws::{runs_fit, starts_fit};
