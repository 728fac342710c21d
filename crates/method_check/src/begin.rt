//! The frame with which a method begins.

ghost use Rattle.std.specs.Prelude.{◌≡◌, [], IfOk};
ghost use Rattle.type_rules.specs.Assignable.{Hierarchy};
ghost use Rattle.type_rules.specs.Environment.{padded};
ghost use Rattle.typing_frames.specs.Frames.{shown, IsFrame, StoresFollow, StoresRemember};

use map_frames::MethodEntry;
use std::alloc::AllocError;
use typing_frames::{CurrentFrame, FrameStores};

/// The frame with which a method begins (JVMS 4.10.1.6): its words as far as it has locals, and an empty stack. Each kept
/// frame stays as it was, also after an error.
pub(crate) fn entry_frame(
    stores: &mut FrameStores,
    entry: &MethodEntry,
) -> Result<CurrentFrame, AllocError>
    requires locals { entry.now.max_locals ≡ stores.old.locals.most }
    ensures follows { StoresFollow stores.old stores.new }
    ensures remembered { (h : Hierarchy) → StoresRemember h stores.old → StoresRemember h stores.new }
    ensures frame { IfOk result (λ made. IsFrame stores.new made) }
    ensures shown { IfOk result (λ made. shown stores.new made ≡ record {
      locals = padded entry.now.max_locals entry.now.words.items;
      stack = [];
      flag_this_uninit = entry.now.constructs;
    }) }
{
    let words = entry.words.as_slice();
    let there = words.len().min(usize::from(entry.max_locals));
    let mut frame = stores.empty(entry.constructs);
    for (at, word) in words[..there].iter().enumerate() {
        frame = stores.set_local(frame, at as u32, *word)?;
    }
    Ok(frame)
}
