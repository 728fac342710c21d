//! One turn of a Java thread on the words that threads share.
#![tactic(auto)]

mod quiet;
mod ready;
mod silent;
mod turned;
mod turning;

pub use ready::{ReadyThread, TurnMaker, turn, turn_for};
pub use turned::Turn;
