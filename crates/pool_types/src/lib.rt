//! The types that the Class entries of class files stand for (JVMS SE 8, 4.4.1).
#![tactic(auto)]

mod pool_row;
mod types;

pub use types::PoolTypes;
