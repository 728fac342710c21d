//! Facts about tiny methods: what the definitions of the type checker come to there.
//!
//! Each function does nothing: its contract is the fact.
#![tactic(auto)]

mod frames;
mod methods;
mod objects;
mod orders;
mod programs;
mod stacks;
mod types;

pub use frames::{classes_are_named, map_frames_change_each_other};
pub use methods::{a_method_with_a_branch_is_type_safe, each_kind_is_refused};
pub use objects::{
    arrays_are_read_and_written, constructors_initialize_once, fields_are_set_early,
    references_are_moved,
};
pub use orders::{
    causes_have_an_order, frames_have_an_order, handlers_have_an_order, map_frames_hold,
    returns_have_an_order,
};
pub use programs::a_program_is_type_safe;
pub use stacks::{no_long_is_split, whole_words_are_moved};
pub use types::{
    arrays_of_arrays_are_objects, interfaces_take_every_class, stores_leave_no_half_of_a_long,
};
