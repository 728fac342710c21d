//! Which type is below which one (JVMS SE 8, 4.10.1.2, 6.5), over a relation of classes that the caller gives. All of it
//! is small functions that take no memory.
#![tactic(auto)]

mod below;
mod relation;

pub use below::is_object_below;
pub use relation::ClassRelation;
