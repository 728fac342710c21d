//! The objects that are there as a program begins (JVMS SE 8, 5.5, 4.7.2 and 5.1).
#![tactic(auto)]

mod constants;
mod places;
mod start;
mod statics;
mod stored;

pub use start::StartObjects;
