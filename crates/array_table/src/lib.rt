//! Numbers of arrays: fewer dimensions first, then by the places of their bases.
#![tactic(auto)]

pub mod laws;
mod place;
mod row;
mod table;

pub use place::ArrayPlace;
pub use table::ArrayTable;
