//! The members that classes declare, by numbers, and the first of one signature in an order of classes.
#![tactic(auto)]

mod groups;
mod search;
mod table;

pub use search::find_first;
pub use table::{MemberRow, MemberTable};
