//! A folder, a source and a sink in memory, of which chosen calls fail.

ghost use Rattle.std.specs.Prelude.{◌≡◌, ◌+◌, ◌-◌, ◌^◌, ◌<◌, ◌↔◌, min, IsTrue, Contains};

use crate::faults::{Refusal, count_fault};

mod dir;
mod pieces;
mod sink;
mod source;

pub use dir::{MemDir, names_differ};
use pieces::Pieces;
pub use sink::MemSink;
pub use source::MemSource;

/// Which calls of a memory form fail, and how many calls and faults there were.
#[derive(Drop)]
struct Calls {
    /// The calls, counted from 1, that fail.
    fail: Vec<u32>,
    made: u32,
    faults: u64,
}

impl Calls {
    fn new(fail: Vec<u32>) -> Self
        ensures fail { result.fail.items ≡ fail.items }
        ensures none_yet { (result.made ≡ 0) × (result.faults ≡ 0) }
    {
        Calls {
            fail,
            made: 0,
            faults: 0,
        }
    }

    /// Counts one call more, and says whether it is one that fails.
    fn next_fails(&mut self) -> bool
        ensures counted { self.new.made ≡ min (self.old.made + 1) (2 ^ 32 - 1) }
        ensures fails { IsTrue result ↔ Contains self.old.fail.items self.new.made }
        ensures others { (self.new.faults ≡ self.old.faults) × (self.new.fail.items ≡ self.old.fail.items) }
    {
        self.made = self.made.saturating_add(1);
        self.fail.contains(&self.made)
    }

    /// The answer of a call that fails: a fault, or out of memory where the count is at its maximum.
    fn refuse(&mut self) -> Refusal
        ensures cause { result ≡ Refusal.Failed → self.old.faults < self.new.faults }
        ensures memory { result ≡ Refusal.NoMemory → self.new.faults ≡ self.old.faults }
    {
        if count_fault(&mut self.faults) {
            Refusal::Failed
        } else {
            Refusal::NoMemory
        }
    }
}
