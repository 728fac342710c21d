//! The words on top of a stack.

ghost use Rattle.std.specs.Prelude.{◌≡◌, ◌+◌, ◌-◌, ◌≤◌, IfOk, length, drop, ◌++◌};
ghost use Rattle.type_rules.specs.Assignable.{Hierarchy};
ghost use Rattle.typing_frames.specs.Frames.{shown, IsFrame, StoresFollow, StoresRemember};

use std::alloc::AllocError;
use type_rules::VerificationType;
use typing_frames::{CurrentFrame, FrameStores};

// A frame with more words on its stack, the top one first, in place of the frame.
fn push_words(
    stores: &mut FrameStores,
    frame: CurrentFrame,
    words: &[VerificationType],
) -> Result<CurrentFrame, AllocError>
    requires frame { IsFrame stores.old frame }
    requires room { frame.depth + length words.now ≤ stores.old.stacks.most }
    ensures follows { StoresFollow stores.old stores.new }
    ensures remembered { (h : Hierarchy) → StoresRemember h stores.old → StoresRemember h stores.new }
    ensures frame { IfOk result (λ made. IsFrame stores.new made) }
    ensures shown { IfOk result (λ made. shown stores.new made
        ≡ record (shown stores.old frame) { stack = words.now ++ (shown stores.old frame).stack }) }
{
    let mut made = frame;
    let mut left = words.len();
    while left > 0 {
        left -= 1;
        made = stores.push(made, words[left])?;
    }
    Ok(made)
}

/// A frame with `words` on its stack, the top one first, in place of the `count` words that were on top, and in place
/// of the given frame. Each kept frame stays as it was, also after an error.
pub(crate) fn replace_top(
    stores: &mut FrameStores,
    frame: CurrentFrame,
    count: u32,
    words: &[VerificationType],
) -> Result<CurrentFrame, AllocError>
    requires frame { IsFrame stores.old frame }
    requires count { count ≤ frame.depth }
    requires room { frame.depth - count + length words.now ≤ stores.old.stacks.most }
    ensures follows { StoresFollow stores.old stores.new }
    ensures remembered { (h : Hierarchy) → StoresRemember h stores.old → StoresRemember h stores.new }
    ensures frame { IfOk result (λ made. IsFrame stores.new made) }
    ensures shown { IfOk result (λ made. shown stores.new made
        ≡ record (shown stores.old frame) { stack = words.now ++ drop count (shown stores.old frame).stack }) }
{
    let under = stores.take(frame, count)?;
    push_words(stores, under, words)
}
