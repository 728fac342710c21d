//! A toy thread code, to show what threads see of each other: threads that print what they read.
//!
//! A program is a list of [`ToyScript`]s, one for each object that starts a thread. A [`Toy`] makes the
//! steps of one of them, one after another, and then ends. `specs/Toy.antt` says how it goes on from each
//! place, and [`laws`] says which programs meet the premises of the laws on thread codes.
#![tactic(auto)]

pub mod laws;
mod saves;
mod script;
mod toy;

pub use saves::ToySaves;
pub use script::{ToyPlace, ToyScript, ToyStep};
pub use toy::Toy;
