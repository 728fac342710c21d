//! The rules of abstract methods and what implements them (JVMS SE 8, 5.4.5, 6.5).
#![tactic(auto)]

mod candidates;
mod implementations;
mod memo;

pub use implementations::check_implementations;
