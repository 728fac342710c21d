//! The standard input as a source, the standard output and the standard error as sinks.

ghost use Rattle.std.specs.Prelude.{◌≡◌, ◌<◌, ◌≤◌, None, IfOk, length};

use crate::faults::{Refusal, refusal_of};
use crate::ports::{Sink, SinkFault, Source, SourceFault};
use std::alloc::Global;
use std::io::{Print, Read, Stderr, Stdin, Stdout};

/// A sink over a stream of the system. What it was given isn't known to proofs.
#[derive(Drop)]
pub struct StreamSink<P> {
    stream: P,
    faults: u64,
}

/// The standard output.
pub type StdOut = StreamSink<Stdout>;

/// The standard error.
pub type StdErr = StreamSink<Stderr>;

impl<P: Print> StreamSink<P> {
    /// A sink that writes to a stream.
    pub fn new(stream: P) -> Self
        ensures { result.faults ≡ 0 }
    {
        StreamSink { stream, faults: 0 }
    }
}

impl<P: Print> Sink for StreamSink<P> {
    ghost given = { λ _. None };

    ghost faults = { λ sink. sink.faults };

    fn put(&mut self, bytes: &[u8]) -> Result<(), SinkFault> {
        match self.stream.write_all(bytes) {
            Ok(()) => Ok(()),
            Err(error) => match refusal_of(&mut self.faults, &error) {
                Refusal::Failed => Err(SinkFault::Failed),
                Refusal::NoMemory => Err(SinkFault::NoMemory),
            },
        }
    }
}

/// The standard input. What it holds isn't known to proofs. Nothing is read after its first end.
#[derive(Drop)]
pub struct StdSource {
    stream: Stdin,
    // The end of the input was seen. A terminal would go on after it.
    is_ended: bool,
    faults: u64,
}

impl StdSource {
    /// A source that reads the standard input.
    pub fn new(stream: Stdin) -> Self
        ensures { result.faults ≡ 0 }
    {
        StdSource {
            stream,
            is_ended: false,
            faults: 0,
        }
    }
}

impl Source for StdSource {
    ghost left = { λ _. None };

    ghost taken = { λ _. None };

    ghost faults = { λ source. source.faults };

    fn take(&mut self, alloc: Global, most: u32) -> Result<Vec<u8>, SourceFault> {
        let mut piece = Vec::new(alloc);
        if self.is_ended {
            return Ok(piece);
        }
        match self.stream.take(u64::from(most)).read_to_end(&mut piece) {
            Ok(_) => {
                self.is_ended = piece.len() < most as usize;
                piece.truncate(most as usize);
                Ok(piece)
            }
            Err(error) => match refusal_of(&mut self.faults, &error) {
                Refusal::Failed => Err(SourceFault::Failed),
                Refusal::NoMemory => Err(SourceFault::NoMemory),
            },
        }
    }
}
