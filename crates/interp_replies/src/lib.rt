//! How a Java thread goes on with the reply to an operation (JVMS 6.5): [`answer`] returns what is to be done then;
//! [`read`], [`loads`] and others return it for one way to go on.
#![tactic(auto)]

mod classes;
mod elements;
mod monitors;
mod replying;
mod threads;
mod values;

pub use elements::{loads, stores};
pub use replying::answer;
pub use values::{done, high_read, length, low_read, low_written, read};
