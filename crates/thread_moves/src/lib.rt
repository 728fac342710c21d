//! A Java thread in memory: what it does next, and what it makes of each answer.
#![tactic(auto)]

mod answers;
mod change;
mod checks;
mod mark;
mod monitors;
mod next_move;
mod stack;
mod thread;
mod told;

pub use change::ThreadChange;
pub use checks::is_in;
pub use mark::SavedMark;
pub use stack::Stack;
pub use thread::{JThread, Own, PrintedLine};
pub use told::StepTold;
