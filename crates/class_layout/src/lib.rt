//! Where the words of classes, objects and fields lie (JVMS SE 8, 2.5.3 and 2.7 leave it to the machine).
#![tactic(auto)]

mod layout;
mod object_places;
mod objects;
mod row;
mod table;

pub use layout::ClassLayout;
