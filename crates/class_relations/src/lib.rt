//! What the classes of a linked program are to each other, by number (JVMS SE 8, 5.3.5, 6.5 instanceof).
#![tactic(auto)]

mod marks;
mod relations;

pub use relations::ClassRelations;
