//! The words of a run on a table that host threads share: each seat makes the steps of its thread, and all these steps are one
//! run.
#![tactic(auto)]

mod finish;
mod port;
mod rule;
mod seat;
mod setup;
mod steps;
mod table;

pub use port::TablePort;
pub use seat::TableSeat;
pub use setup::{SeatView, Setup, TableKey, ThreadPart};
pub use table::{TableWords, Unfinished};
