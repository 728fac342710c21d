//! What is so of the sections of every run: which threads have which of them open, and what a thread does with those of
//! others. Laws alone.
//!
//! Each function does nothing: its contract is the law.
#![tactic(auto)]

pub mod held_levels;
pub mod known_sections;
mod laws;
pub mod level_marks;
pub mod level_runs;
pub mod level_saves;
pub mod open_sections;
pub mod opened_saves;
pub mod own_sections;
pub mod run_bits;
pub mod run_layout;
pub mod run_parts;
pub mod run_threads;
pub mod section_levels;
pub mod settled_lists;
pub mod start_words;

pub use laws::{
    others_sections_stay, others_sections_stay_in_runs, runs_begin_with_runs, runs_have_acts,
    runs_reach_states, sections_are_apart, sections_are_apart_in_runs, sections_open_once,
    sections_open_once_in_runs, zero_is_no_section,
};
