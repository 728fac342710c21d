//! Schedules: which thread gets the next turn, and when a run that follows a schedule ends.
//!
//! A [`Schedule`] has an order, a list of items that each give turns to one thread, and maybe a seed,
//! which draws the thread of each turn that comes after the order. [`Remaining`] is what is left of a
//! schedule while a run follows it, and [`pick`] names the thread of a turn that no item gives. What
//! gives the turns is left open here: `specs/Run.antt` says what a run is over any `TurnSystem`, and
//! [`laws`] says what follows for all of them.
#![tactic(auto)]

pub mod laws;
mod order;
mod picking;
mod remaining;

pub use order::{OrderItem, Schedule, TurnEnd};
pub use picking::{next_number, pick, place_among};
pub use remaining::{LiveThreads, Remaining};
