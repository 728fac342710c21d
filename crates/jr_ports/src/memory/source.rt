//! A source in memory that holds its bytes.

ghost use Rattle.std.specs.Prelude.{◌≡◌, ◌<◌, ◌≤◌, [], Some, length, drop};

use super::Calls;
use crate::faults::Refusal;
use crate::ports::{Source, SourceFault};
use std::alloc::Global;

/// A source that holds its bytes.
#[derive(Drop)]
pub struct MemSource {
    bytes: Vec<u8>,
    taken: usize,
    /// How many bytes each take asked for, and how many came.
    takes: Vec<(u32, usize)>,
    calls: Calls,
    ghost within: { taken ≤ length bytes.items },
}

impl MemSource {
    /// A source of these bytes; `fail` lists the takes, counted from 1, that fail.
    pub fn new(alloc: Global, bytes: Vec<u8>, fail: Vec<u32>) -> Self
        ensures bytes { result.bytes.items ≡ bytes.items }
        ensures taken { (result.taken ≡ 0) × (result.takes.items ≡ []) }
        ensures fail { (result.calls.fail.items ≡ fail.items) × (result.calls.made ≡ 0) × (result.calls.faults ≡ 0) }
    {
        MemSource {
            bytes,
            taken: 0,
            takes: Vec::new(alloc),
            calls: Calls::new(fail),
        }
    }

    fn refuse(&mut self) -> SourceFault
        ensures bytes { self.new.bytes ≡ self.old.bytes }
        ensures taken { (self.new.taken ≡ self.old.taken) × (self.new.takes ≡ self.old.takes) }
        ensures cause { result ≡ SourceFault.Failed → self.old.calls.faults < self.new.calls.faults }
        ensures memory { result ≡ SourceFault.NoMemory → self.new.calls.faults ≡ self.old.calls.faults }
    {
        match self.calls.refuse() {
            Refusal::Failed => SourceFault::Failed,
            Refusal::NoMemory => SourceFault::NoMemory,
        }
    }
}

impl Source for MemSource {
    ghost use Rattle.jr_ports.specs.Stream.{takes_of};

    ghost left = { λ source. Some (drop source.taken source.bytes.items) };

    ghost taken = { λ source. Some (takes_of source.takes.items) };

    ghost faults = { λ source. source.calls.faults };

    fn take(&mut self, alloc: Global, most: u32) -> Result<Vec<u8>, SourceFault> {
        if self.calls.next_fails() {
            return Err(self.refuse());
        }
        let rest = &self.bytes[self.taken..];
        let count = rest.len().min(most as usize);
        let piece = Vec::from_slice(alloc, &rest[..count])?;
        self.takes.push((most, count))?;
        self.taken += count;
        Ok(piece)
    }
}
