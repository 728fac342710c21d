//! The rules of the fields and methods that class files declare (JVMS SE 8, 4.5, 4.6, 5.4.5).
#![tactic(auto)]

mod fields;
mod floats;
mod methods;

pub use fields::{check_fields, has_float_at};
pub use floats::float_texts;
pub use methods::check_methods;
