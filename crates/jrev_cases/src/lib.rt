//! Cases of the top call: folders, words and streams in memory, programs as texts of the assembler, and what comes of a run.
#![tactic(auto)]

mod programs;
mod running;

pub use jrev_top::{Request, Status, words_of};
pub use programs::{Class, ONE_TEXT};
pub use running::{
    Case, Faults, File, NO_FAULTS, ONE_FILE, PRINTS_1_AND_2, SUM, Seen, assembled, is_as_wanted,
    owned_files, owned_words, run, run_gated, run_over,
};
