//! Which type is assignable to which (JVMS SE 8, 4.10.1.2), and what one word is to an instruction that wants it
//! (JVMS 4.10.1.9). All of it is small functions that take no memory.
//!
//! How the program's classes are related is asked through [`ClassHierarchy`].
#![tactic(auto)]

mod assignable;
mod hierarchy;
mod same;
mod verdict;
mod wanted;

pub use assignable::{is_assignable, is_object_assignable};
pub use hierarchy::ClassHierarchy;
pub use same::{is_same_object, is_same_type};
pub use verdict::Verdict;
pub use wanted::{
    array_of_kind_verdict, array_of_references_verdict, array_verdict, initializes, is_int,
    is_long, is_reference, is_whole, receiver_here_verdict, receiver_to_set_verdict,
    reference_to_verdict, reference_verdict,
};
