//! A sink in memory that keeps what it is given.

ghost use Rattle.std.specs.Prelude.{◌≡◌, [], ◌<◌, ◌≤◌, Some, OnOk, OnErr};
ghost use Rattle.std.specs.List.{concat};
ghost use Rattle.jr_ports.specs.Stream.{Gains, GainsPart};

use super::{Calls, Pieces};
use crate::faults::Refusal;
use crate::ports::{Sink, SinkFault};
use std::alloc::Global;

/// A sink that keeps what it is given, and takes nothing of a put that it refuses.
#[derive(Drop)]
pub struct MemSink {
    taken: Pieces,
    calls: Calls,
}

impl MemSink {
    /// A sink that was given nothing; `fail` lists the puts, counted from 1, that fail.
    pub fn new(alloc: Global, fail: Vec<u32>) -> Self
        ensures empty { result.taken ≡ [] }
        ensures fail { (result.calls.fail.items ≡ fail.items) × (result.calls.made ≡ 0) × (result.calls.faults ≡ 0) }
    {
        MemSink {
            taken: Pieces::new(alloc),
            calls: Calls::new(fail),
        }
    }

    /// The bytes that were taken.
    pub fn given(&self) -> &[u8]
        ensures { result.now ≡ concat self.now.taken }
    {
        self.taken.joined()
    }

    fn refuse(&mut self) -> SinkFault
        ensures taken { self.new.taken ≡ self.old.taken }
        ensures cause { result ≡ SinkFault.Failed → self.old.calls.faults < self.new.calls.faults }
        ensures memory { result ≡ SinkFault.NoMemory → self.new.calls.faults ≡ self.old.calls.faults }
    {
        match self.calls.refuse() {
            Refusal::Failed => SinkFault::Failed,
            Refusal::NoMemory => SinkFault::NoMemory,
        }
    }
}

impl Sink for MemSink {
    ghost given = { λ sink. Some sink.taken };

    ghost faults = { λ sink. sink.calls.faults };

    fn put(&mut self, bytes: &[u8]) -> Result<(), SinkFault> {
        if self.calls.next_fails() {
            return Err(self.refuse());
        }
        self.taken.push(bytes)?;
        Ok(())
    }
}
