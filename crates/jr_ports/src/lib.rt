//! The outside world: folders of class files, input, output, and a gate between host threads.
//!
//! Each object that can fail counts its faults, so that a caller's contract can name the cause of a
//! refusal: a call answers `Failed` only where that count rose in this very call.
#![tactic(auto)]

mod faults;
mod folder;
mod gate;
mod memory;
mod ports;
mod streams;

pub use folder::FolderDir;
pub use gate::{Gate, NoGate};
pub use memory::{MemDir, MemSink, MemSource, names_differ};
pub use ports::{ClassDir, DirFault, MOST_READ, Sink, SinkFault, Source, SourceFault};
pub use streams::{StdErr, StdOut, StdSource};
