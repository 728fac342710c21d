//! The walk through a class file from its front, by counts and lengths alone (JVMS SE 8, chapter 4).
//!
//! [`walk`] takes a file apart into its constant pool, header, fields, methods and attributes. It looks at
//! no name, index, flag or attribute content. [`code_content`] does the same for the content of a Code
//! attribute.
#![tactic(auto)]

mod class;
mod code;
mod cursor;
mod members;
mod pool;
mod refusal;
mod walking;

pub use class::{Constant, RawAttribute, RawClass, RawCode, RawHandler, RawMember};
pub use code::code_content;
pub use refusal::{ContentRefusal, WalkFault, WalkRefusal};
pub use walking::{MOST_BYTES, walk};
