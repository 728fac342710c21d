//! Threads that run scripts on one table of words, given turns by a schedule, and what must come of them: for tests of turns.
#![tactic(auto)]

mod enabled;
mod row;
mod run;
mod setting;
mod turning;

pub use row::{AMPLE, End, Row, run_of};
pub use run::Run;
pub use setting::{FIRST, opening};
pub use turning::{Came, add, give_turn};
