//! How many bits the numbers of threads and the words that they load have along a run. A law alone.
//!
//! The function does nothing: its contract is the law.

ghost use Rattle.section_laws.specs.Bits.{RunsAreInBits};

use op_core::ThreadCode;

/// The number and the priority of each thread have 8 bits, and each word of an object that a thread loads has 64.
pub fn runs_are_in_bits<C: ThreadCode>()
    ensures { RunsAreInBits C.code }
{}
