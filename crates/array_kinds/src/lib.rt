//! Array types and their descriptors (JVMS SE 8, 4.3.2, 4.4.1).
#![tactic(auto)]

mod kind;
mod laws;

pub use kind::{ArrayKind, array_itself, array_of, primitive_array};
pub use laws::{
    arrays_are_spelled, arrays_are_spelled_by_bases, named_types_are_there,
    spelled_arrays_are_named,
};
