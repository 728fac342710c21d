//! What holds of type safe methods and programs (JVMS SE 8, 4.10.1): what their definitions in `type_rules` come to.
//!
//! Each function does nothing: its contract is the law.
#![tactic(auto)]

mod answers;
mod frames;
mod programs;

pub use answers::{
    assignments_agree, methods_are_safe_or_refused, programs_are_verified_or_refused, walks_decide,
};
pub use frames::{
    first_frames_are_entries, frames_go_on, frames_have_room, handlers_are_entered,
    right_types_are_used, what_is_wanted_is_there,
};
pub use programs::{
    assignable_types_are_below, methods_stay_inside, types_go_to_themselves,
    verified_methods_are_type_safe,
};
