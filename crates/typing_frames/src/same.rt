//! Frames that are the same.

ghost use Rattle.std.specs.Prelude.{◌≡◌};
ghost use Rattle.type_rules.specs.Assignable as assignable;
ghost use Rattle.type_rules.specs.TypeFaults as faults;
ghost use Rattle.typing_frames.specs.Frames.{shown};

use crate::stores::{CurrentFrame, FrameStores};
use word_types::is_same_type;

fn is_same_flag(a: bool, b: bool) -> bool
    ensures { result ≡ faults.is_same_flag a b }
{
    if a { b } else { !b }
}

// Tests whether two frames have the same stack.
fn are_same_stacks(stores: &FrameStores, a: CurrentFrame, b: CurrentFrame) -> bool
    ensures { result ≡ assignable.are_same_types (shown stores.now a).stack (shown stores.now b).stack }
{
    if a.depth != b.depth {
        return false;
    }
    for at in 0..a.depth {
        if !is_same_type(
            stores.stacks.word(a.stack, at),
            stores.stacks.word(b.stack, at),
        ) {
            return false;
        }
    }
    true
}

// Tests whether two frames have the same locals.
fn are_same_locals(stores: &FrameStores, max_locals: u16, a: CurrentFrame, b: CurrentFrame) -> bool
    requires { max_locals ≡ stores.now.locals.most }
    ensures { result ≡ assignable.are_same_types (shown stores.now a).locals (shown stores.now b).locals }
{
    for at in 0..u32::from(max_locals) {
        if !is_same_type(
            stores.locals.word(a.locals, at),
            stores.locals.word(b.locals, at),
        ) {
            return false;
        }
    }
    true
}

impl FrameStores {
    /// Tests whether two frames are the same, word by word. `max_locals` is that of the stores. Takes no memory.
    pub fn is_same_frame(&self, max_locals: u16, a: CurrentFrame, b: CurrentFrame) -> bool
        requires { max_locals ≡ self.now.locals.most }
        ensures { result ≡ faults.is_same_frame (shown self.now a) (shown self.now b) }
    {
        are_same_locals(self, max_locals, a, b)
            && are_same_stacks(self, a, b)
            && is_same_flag(a.unset, b.unset)
    }
}
