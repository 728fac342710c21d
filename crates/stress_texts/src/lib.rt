//! A generated load: two classes whose threads move ones between the elements of an array, under one monitor.
//!
//! [`stress_classes`] makes the class files of a number. `specs/Texts.antt` has the texts of which they are made.
#![tactic(auto)]

mod classes;
pub mod template;
mod texts;

pub use classes::{STRESS_MAIN, stress_classes, stress_names};
