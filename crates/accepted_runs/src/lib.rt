//! Runs of accepted programs on shared words, with sections that are undone: what is left of them is an execution, they have whatever
//! a turn asks for, they end held up only where each thread waits, and they tell the texts and ends of what is left; and on a table that host threads share they can go on. Laws alone.
#![tactic(auto)]

pub mod accepted_cores;
pub mod accepted_priorities;
pub mod accepted_programs;
mod erasure_laws;
pub mod java_cores;
mod readiness_laws;
pub mod sound_texts;
mod string_laws;
mod table_laws;
mod text_laws;
mod waiting_laws;
pub mod waiting_runs;

pub use erasure_laws::accepted_runs_are_erased;
pub use readiness_laws::accepted_runs_are_ready;
pub use string_laws::accepted_texts_never_change;
pub use table_laws::accepted_programs_can_go_on;
pub use text_laws::{accepted_turns_tell_texts, printed_lines_name_arrays, turns_tell_ends};
pub use waiting_laws::held_up_programs_wait;
