//! Whether a linked program is type safe (JVMS SE 8, 4.10.1).
#![tactic(auto)]

mod verifying;

pub use linked_methods::{World, link};
pub use verifying::verify;
