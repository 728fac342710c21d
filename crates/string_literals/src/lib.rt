//! The string literals of the files of a program (JVMS SE 8, 4.4.3 and 5.1).
#![tactic(auto)]

mod file;
mod literals;
mod text_numbers;

pub use literals::StringLiterals;
