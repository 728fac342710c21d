//! Facts about tiny programs: what the definitions of linking come to there.
//!
//! Each function does nothing: its contract is the fact.
#![tactic(auto)]

mod layouts;
mod lookups;
mod programs;
mod texts;

pub use layouts::{
    array_classes_stand_by_their_bytes, constants_stand_as_they_are_stored,
    fixed_objects_follow_each_other, long_fields_take_two_words, numbers_begin_with_the_library,
};
pub use lookups::{
    constructors_are_not_inherited, fields_of_interfaces_come_first, only_rings_are_cycles,
    selection_skips_private_and_static, superclasses_come_before_interfaces,
};
pub use programs::{a_program_has_an_order, a_program_is_linked, the_first_broken_rule_is_refused};
pub use texts::{
    class_names_are_no_floats, equal_literals_are_one, other_names_have_their_places,
    overlong_forms_are_one_text,
};
