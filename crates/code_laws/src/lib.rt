//! Laws of class files and of the code in them that were accepted (JVMS SE 8, 4.1 to 4.9).
//!
//! A crate of laws: each is the contract of an empty function, for the layers above to cite.
#![tactic(auto)]

mod code;
mod file;
mod frames;
mod steps;

pub use code::{accepted_code_is_right, codes_of_a_file_are_accepted, handlers_are_inside};
pub use file::{
    entries_are_right, headers_are_right, members_are_distinct, members_are_right, uses_are_right,
};
pub use frames::{frames_stand_at_instructions, locals_are_spelled, stacks_are_spelled};
pub use steps::{
    code_begins_with_an_instruction, instructions_stand_in_order, operands_are_named,
    targets_are_inside,
};
