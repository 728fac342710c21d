//! A small program that is sound, computed from the definitions. Laws alone.
#![tactic(auto)]

mod laws;

pub use laws::a_program_is_sound;
