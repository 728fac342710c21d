//! Why frames were refused.

ghost use Rattle.std.specs.Prelude.{◌≡◌};
ghost use Rattle.code_frames.specs.declared.refusal.Fault.TheVariants as faults;
ghost use Rattle.code_frames.specs.declared.refusal.FrameRefusal.TheVariants as refusals;
ghost use Rattle.code_frames.specs.Reading.{refusal_of};

use std::alloc::{AllocError, AllocFailed};

/// Why a StackMapTable was refused.
#[derive(Clone, Copy)]
pub enum FrameRefusal {
    /// The frame of this number, from 0, is the first that is wrong.
    Frame(u16),
    /// There was no memory.
    NoMemory,
}

impl From<AllocError> for FrameRefusal {
    ghost from_gives = { λ _ e. e ≡ refusals.NoMemory };

    fn from(_e: AllocError) -> FrameRefusal {
        FrameRefusal::NoMemory
    }
}

/// Why a part of a frame was not read.
#[derive(Clone, Copy)]
pub enum Fault {
    /// There is no well-formed part of a frame.
    Malformed,
    /// There was no memory.
    NoMemory,
}

impl Fault {
    /// The refusal for a fault in the frame of this number.
    pub fn in_frame(self, number: u16) -> FrameRefusal
        ensures { result ≡ refusal_of self number }
    {
        match self {
            Fault::Malformed => FrameRefusal::Frame(number),
            Fault::NoMemory => FrameRefusal::NoMemory,
        }
    }
}

impl From<AllocError> for Fault {
    ghost from_gives = { λ _ e. e ≡ faults.NoMemory };

    fn from(_e: AllocError) -> Fault {
        Fault::NoMemory
    }
}
