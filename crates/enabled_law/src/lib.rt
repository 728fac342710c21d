//! Which threads go on when they are given turns, and what changes that. Laws alone.
//!
//! Each function does nothing: its contract is the law.
#![tactic(auto)]

mod laws;

pub use laws::{
    enabled_threads_can_come_to_wait, only_watched_words_count, others_stay,
    uncounted_turns_leave_words, unseen_steps_leave_enabled,
};
