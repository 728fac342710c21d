//! Class files (JVMS SE 8, chapter 4).
//!
//! [`read_class`] reads any class file of the format, or says what is wrong with it first. [`text_of`] gives the
//! text of a constant, and [`descriptor_of`] what a descriptor says.
#![tactic(auto)]

mod attributes;
mod class_file;
mod flags;
mod header;
mod members;
mod read;
mod repeats;
mod texts;

pub use class_file::{ClassFile, CodeAttribute, Member};
pub use class_names::{BaseKind, Descriptor, Kind, NameRefusal, descriptor_of};
pub use class_pool::{Pool, ReadRefusal, TextUse};
pub use class_walk::{Constant, MOST_BYTES, RawHandler};
pub use read::read_class;
pub use texts::text_of;
