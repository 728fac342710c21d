//! The classes of a program by number, and what is above them (JVMS SE 8, 5.3.5).
#![tactic(auto)]

mod above;
mod checks;
mod headers;
mod naming;
mod numbers;
mod supers;

pub use supers::Supers;
