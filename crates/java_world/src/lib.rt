//! An accepted program as the code of threads asks it (JVMS SE 8, 5.1, 5.4.3, 5.5, 6.5): [`JavaWorld`] answers from the
//! tables of the linker, and has the quick forms of all
//! instructions and the units of all string literals beside them.
#![tactic(auto)]

mod classes;
mod constants;
mod initialized;
mod literals;
mod methods;
mod operands;
mod program;
mod quicks;
mod world;

pub use world::JavaWorld;
