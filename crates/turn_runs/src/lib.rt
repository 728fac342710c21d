//! Many turns of one thread in one call, and what hosts of a thread's code do with what is kept of it beside the code.
#![tactic(auto)]

mod looks;
mod own;
mod stretch;

pub use looks::Looks;
pub use own::{
    LOAD_WORD, SWAP_WORD, count_event, count_silent, has_unseen_level, is_safe, probe, written_word,
};
pub use stretch::{Stretch, turns};
