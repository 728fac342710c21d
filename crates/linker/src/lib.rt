//! Linking (JVMS SE 8, chapter 5): from decoded class files to a [`World`], in which names are numbers.
#![tactic(auto)]

mod classes;
mod linking;
mod members;
mod names;
mod objects;
mod tables;
mod world;

pub use linking::link;
pub use world::World;
