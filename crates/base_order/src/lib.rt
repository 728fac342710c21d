//! The types of innermost elements in the order of their descriptors (JVMS SE 8, 4.3.2).
#![tactic(auto)]

mod bases;
mod order;
mod sorting;
mod text;

pub use order::BaseOrder;
