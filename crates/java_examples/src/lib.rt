//! Facts about tiny programs: what the definitions of `java_rows` come to there.
//!
//! Each function does nothing: its contract is the fact.
#![tactic(auto)]

mod one;
mod programs;

pub use one::{
    a_synchronized_main_enters_its_class, a_zero_divisor_is_an_exception,
    five_steps_lead_to_a_line, the_class_is_initialized_first, threads_begin_at_run,
};
pub use programs::{
    a_failed_initializer_is_one_error, a_long_argument_is_two_locals, notify_all_goes_on,
    run_finds_its_target, the_superclass_is_initialized_first,
};
