//! What linking means (JVMS SE 8, 5.3.5 and 5.4), as definitions over the decoded classes of a program, and what holds of
//! linked programs by them.
//!
//! A crate of definitions: `specs/Classes.antt` has the classes of a program by their names, `Supers` what is above
//! them, `Members` which member a name means, `Layout` and `FixedObjects` where words and objects lie, `Arrays`,
//! `Strings` and `Names` what else is numbered, `Operands` what an index of a constant pool stands for, `Methods` what
//! a method is to its callers, and `LinkRules` the rules in the order in which they are looked at. Definitions go by
//! names; a number is a function of the classes alone, so a program is linked in one way at most.
//!
//! The laws speak of programs that keep all rules (`Linked`). Each function does nothing: its contract is the law.
#![tactic(auto)]

mod laws;

pub use laws::{
    arrays_are_there, exceptions_are_throwable, fixed_objects_lie_in_a_row, found_members_fit,
    initializers_take_nothing, literals_are_there, names_have_one_number, object_fields_lie_apart,
    objects_grow, objects_have_methods, programs_have_one_answer, selected_methods_fit,
    static_fields_lie_apart, subclasses_are_ordered, superclasses_run_up, uses_resolve,
};
