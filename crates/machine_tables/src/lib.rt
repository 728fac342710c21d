//! The tables that an ordinary machine is kept in: objects with their monitors by reference, classes by
//! number, and the threads that have begun by number.
//!
//! No call here makes the step of an operation: a table is asked, or changed at one number, and a thread's
//! code is run and answered in its place. What each table means is a
//! function, in `specs/Tables.antt`: [`Objects`] is the object of each reference, [`Classes`] how far each
//! class's initialization is, [`Threads`] where each thread is and what it waits for. Their parts are
//! those of an ordinary state of `op_core`.
#![tactic(auto)]

mod classes;
mod objects;
mod places;
mod threads;
mod words;

pub use classes::{ClassProgress, Classes};
pub use objects::{HeapObject, MonitorState, Objects};
pub use threads::{Seat, Standing, Threads, WaitState};
pub use words::Words;
