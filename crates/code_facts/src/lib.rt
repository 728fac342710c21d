//! What holds of the numbers in class files and in decoded code, and which methods have code. Laws alone.
//!
//! They go with the laws of `code_laws`.
#![tactic(auto)]

mod laws;

pub use laws::{codes_push_words, methods_have_code, pools_have_words};
