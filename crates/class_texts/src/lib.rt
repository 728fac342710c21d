//! The texts of class files by number (JVMS SE 8, 4.4.7): equal texts have one number, and others have others.
#![tactic(auto)]

mod adding;
mod texts;

pub use texts::ClassTexts;
