//! Which method a call executes on an object of a class (JVMS SE 8, 6.5, invokevirtual and invokeinterface), by numbers.
#![tactic(auto)]

mod entries;
mod numbers;
mod selected_rows;
mod selection;

pub use selection::MethodSelection;
