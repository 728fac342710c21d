//! Relations between the numbers below a size, their transitive closure, and an order that fits one.
#![tactic(auto)]

mod closing;
mod ordering;
mod relation;
mod row;

pub use relation::Relation;
