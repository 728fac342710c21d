//! Texts as UTF-16 code units (JVMS SE 8, 4.4.7, and `java.lang.String`).
//!
//! [`units_of_text`] and [`push_units`] give the units of a text, [`text_of_units`] the text of units, in UTF-8.
//! [`decimal_units`] and [`ascii_units`] give the units of numbers and of words.
#![tactic(auto)]

mod decimal;
mod reading;
mod writing;

pub use decimal::{ascii_units, decimal_units};
pub use reading::{push_units, units_of_text};
pub use writing::text_of_units;
