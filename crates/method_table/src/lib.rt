//! What the methods of a program are to their callers (JVMS SE 8, 4.3.3, 4.6, 2.9), by numbers.
#![tactic(auto)]

mod classes;
mod codes;
mod initializers;
mod kinds;
mod natives;
mod rows_of;
mod table;

pub use codes::code;
pub use table::MethodTable;
