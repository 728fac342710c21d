//! The constant pool of a class that is written (JVMS SE 8, 4.4).
//!
//! [`PoolMaker`] makes each entry at its first use, the parts of an entry before it, and gives the index of an
//! entry that is there. What it has made is a pool that `class_write` can write and `class_walk` reads again.
#![tactic(auto)]

mod key;
mod laws;
mod maker;
mod refusal;

pub use laws::{
    entries_are_different, items_are_at_their_indices, items_stay_at_their_indices,
    made_pools_are_pools,
};
pub use maker::PoolMaker;
pub use refusal::PoolRefusal;
