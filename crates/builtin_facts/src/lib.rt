//! What holds of the built-in classes and their methods in every program, and in linked ones. Laws alone.
//!
//! Each is a part of `Accepted` of `row_soundness`.
#![tactic(auto)]

mod laws;

pub use laws::{
    built_in_classes_have_numbers, char_arrays_are_there, natives_fit, natives_fit_their_table,
    runs_take_nothing,
};
