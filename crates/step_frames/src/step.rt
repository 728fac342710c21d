//! The frame after any instruction.

ghost use Rattle.std.specs.Prelude.{◌≡◌, ◌≤◌, true, None, IfOk, length};
ghost use Rattle.type_rules.specs.Assignable.{Hierarchy};
ghost use Rattle.type_rules.specs.FrameAfter as after;
ghost use Rattle.type_rules.specs.TypeFaults.{are_locals_there, own_fault};
ghost use Rattle.type_rules.specs.Wants.{wants, words_wanted};
ghost use Rattle.typing_frames.specs.Frames.{shown, IsFrame, StoresFollow, StoresRemember};
ghost use Rattle.step_frames.specs.Arrays.{MakesArray};

use crate::after::frame_with;
use crate::count::words_taken;
use crate::made::{initialize, makes_object, names_init};
use instructions::{Instr, Target};
use std::alloc::AllocError;
use step_wants::{MethodWorld, wants_of};
use type_rules::VerificationType;
use typing_frames::{CurrentFrame, FrameStores};

// The frame after an instruction, where the stack has what it wants and there is room.
fn frame_behind<W: MethodWorld>(
    world: &W,
    stores: &mut FrameStores,
    frame: CurrentFrame,
    instruction: &Instr<Target>,
) -> Result<CurrentFrame, AllocError>
    requires frame { IsFrame stores.old frame }
    requires array { MakesArray (W.environment world.now) instruction.now.what }
    requires wanted { words_wanted (wants (W.environment world.now) instruction.now.what) ≤ frame.depth }
    requires locals { are_locals_there (W.environment world.now) instruction.now.what ≡ true }
    requires most { (W.environment world.now).max_locals ≡ stores.old.locals.most }
    requires room { length (after.stack_with (W.environment world.now) instruction.now.at instruction.now.what
        (shown stores.old frame)) ≤ stores.old.stacks.most }
    ensures follows { StoresFollow stores.old stores.new }
    ensures remembered { (h : Hierarchy) → StoresRemember h stores.old → StoresRemember h stores.new }
    ensures frame { IfOk result (λ made. IsFrame stores.new made) }
    ensures shown { IfOk result (λ made. shown stores.new made
        ≡ after.frame_after (W.environment world.now) instruction.now (shown stores.old frame)) }
{
    let what = &instruction.what;
    let taken = words_taken(wants_of(world, what), frame.depth);
    let receiver = stores.peek(frame, taken.saturating_sub(1));
    let made = frame_with(world, stores, frame, instruction)?;
    if names_init(world, what) {
        return initialize(world, stores, made, receiver);
    }
    if makes_object(what) {
        let object = VerificationType::Uninit(instruction.at);
        return stores.replaced_in_locals(made, object, VerificationType::Top);
    }
    Ok(made)
}

/// The frame after an instruction that breaks no rule by itself (JVMS 4.10.1.9), in place of the given frame. Each
/// kept frame stays as it was, also after an error.
pub fn after_instruction<W: MethodWorld>(
    world: &W,
    stores: &mut FrameStores,
    frame: CurrentFrame,
    instruction: &Instr<Target>,
) -> Result<CurrentFrame, AllocError>
    requires frame { IsFrame stores.old frame }
    requires locals { (W.environment world.now).max_locals ≡ stores.old.locals.most }
    requires stack { (W.environment world.now).max_stack ≡ stores.old.stacks.most }
    requires array { MakesArray (W.environment world.now) instruction.now.what }
    requires right { own_fault (W.environment world.now) instruction.now (shown stores.old frame) ≡ None }
    ensures follows { StoresFollow stores.old stores.new }
    ensures remembered { (h : Hierarchy) → StoresRemember h stores.old → StoresRemember h stores.new }
    ensures frame { IfOk result (λ made. IsFrame stores.new made) }
    ensures shown { IfOk result (λ made. shown stores.new made
        ≡ after.frame_after (W.environment world.now) instruction.now (shown stores.old frame)) }
{
    frame_behind(world, stores, frame, instruction)
}
