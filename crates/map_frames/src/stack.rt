//! The stack of a map frame.

ghost use Rattle.std.specs.Prelude.{◌≡◌, ◌≤◌, ◌∷◌, ◌++◌, [], Bool, List, IfOk, map};
ghost use Rattle.type_rules.specs.Assignable as assignable;
ghost use Rattle.type_rules.specs.Environment.{in_locals};
ghost use Rattle.type_rules.specs.MapFrames as frames;
ghost use Rattle.type_rules.specs.declared.types.VerificationType.{VerificationType};
ghost use Rattle.typing_frames.specs.Frames.{IsFrame, StoresFollow, StoresRemember};
ghost use Rattle.map_frames.specs.Making.{IsStack, IsFrameInRoom};

use crate::items::is_wide;
use crate::pool::{PoolOperands, item_type};
use code_frames::VType;
use std::alloc::AllocError;
use type_rules::VerificationType;
use typing_frames::{CurrentFrame, FrameStores};

// A frame with one more word on its stack. Of a stack that is too deep, only the depth is kept.
fn with_word(
    stores: &mut FrameStores,
    max_stack: u16,
    frame: CurrentFrame,
    word: VerificationType,
) -> Result<CurrentFrame, AllocError>
    requires frame { IsFrameInRoom stores.old frame }
    requires stack { max_stack ≡ stores.old.stacks.most }
    ensures follows { StoresFollow stores.old stores.new }
    ensures remembered { (h : assignable.Hierarchy) → StoresRemember h stores.old → StoresRemember h stores.new }
    ensures frame { IfOk result (λ made. IsFrameInRoom stores.new made) }
    ensures words { (locals : List VerificationType) (unset : Bool) (ws : List VerificationType) → IsStack stores.old frame locals unset ws
        → IfOk result (λ made. IsStack stores.new made locals unset (ws ++ word ∷ [])) }
{
    if frame.depth < u32::from(max_stack) {
        return stores.push(frame, word);
    }
    if frame.depth == u32::MAX {
        return Err(AllocError);
    }
    Ok(CurrentFrame {
        locals: frame.locals,
        stack: frame.stack,
        depth: frame.depth + 1,
        unset: frame.unset,
    })
}

// The same with the words of a value.
fn with_value(
    stores: &mut FrameStores,
    max_stack: u16,
    frame: CurrentFrame,
    value: VerificationType,
) -> Result<CurrentFrame, AllocError>
    requires frame { IsFrameInRoom stores.old frame }
    requires stack { max_stack ≡ stores.old.stacks.most }
    ensures follows { StoresFollow stores.old stores.new }
    ensures remembered { (h : assignable.Hierarchy) → StoresRemember h stores.old → StoresRemember h stores.new }
    ensures frame { IfOk result (λ made. IsFrameInRoom stores.new made) }
    ensures words { (locals : List VerificationType) (unset : Bool) (ws : List VerificationType) → IsStack stores.old frame locals unset ws
        → IfOk result (λ made. IsStack stores.new made locals unset (ws ++ in_locals value)) }
{
    let made = with_word(stores, max_stack, frame, value)?;
    if !is_wide(value) {
        return Ok(made);
    }
    with_word(stores, max_stack, made, VerificationType::Second)
}

// The same with the words of all items of a table, the deepest first.
pub(crate) fn with_types<P: PoolOperands>(
    stores: &mut FrameStores,
    max_stack: u16,
    frame: CurrentFrame,
    pool: &P,
    entry: &[VerificationType],
    types: &[VType],
) -> Result<CurrentFrame, AllocError>
    requires frame { IsFrameInRoom stores.old frame }
    requires stack { max_stack ≡ stores.old.stacks.most }
    ensures follows { StoresFollow stores.old stores.new }
    ensures remembered { (h : assignable.Hierarchy) → StoresRemember h stores.old → StoresRemember h stores.new }
    ensures words { (locals : List VerificationType) (unset : Bool) → IsStack stores.old frame locals unset []
        → IfOk result (λ made. IsStack stores.new made locals unset (frames.item_words (frames.item_type (P.operands pool.now) entry.now) types.now)) }
{
    let mut made = frame;
    for item in types {
        made = with_value(stores, max_stack, made, item_type(pool, entry, *item))?;
    }
    Ok(made)
}
