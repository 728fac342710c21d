//! The frame after an instruction.

ghost use Rattle.std.specs.Prelude.{◌≡◌, ◌≤◌, ◌++◌, true, IfOk, length, drop};
ghost use Rattle.type_rules.specs.Assignable.{Hierarchy};
ghost use Rattle.type_rules.specs.FrameAfter as after;
ghost use Rattle.type_rules.specs.TypeFaults.{are_locals_there};
ghost use Rattle.type_rules.specs.Wants.{wants, words_wanted};
ghost use Rattle.typing_frames.specs.Frames.{shown, IsFrame, StoresFollow, StoresRemember};
ghost use Rattle.step_frames.specs.Arrays.{MakesArray};
ghost use Rattle.step_frames.specs.Locals.{locals_changed, IsWithin};
ghost use Rattle.step_frames.specs.Tops.{words_on_top};

use crate::behind::top_behind;
use crate::change::LocalChange;
use crate::count::words_taken;
use crate::locals::{change_local, local_change};
use crate::shown::ShownFrame;
use crate::top::replace_top;
use crate::words::TopWords;
use instructions::{Instr, Target};
use std::alloc::AllocError;
use step_wants::{MethodWorld, wants_of};
use typing_frames::{CurrentFrame, FrameStores};

/// What an instruction changes in a frame.
#[derive(Clone, Copy)]
pub struct StepChange {
    pub local: LocalChange,
    /// How many words are taken off the stack.
    pub taken: u32,
    /// What is put in their place.
    pub top: TopWords,
}

// What an instruction changes in a frame. Takes no memory.
fn step_change<W: MethodWorld>(
    world: &W,
    stores: &FrameStores,
    frame: CurrentFrame,
    instruction: &Instr<Target>,
) -> StepChange
    requires frame { IsFrame stores.now frame }
    requires array { MakesArray (W.environment world.now) instruction.now.what }
    requires wanted { words_wanted (wants (W.environment world.now) instruction.now.what) ≤ frame.depth }
    requires locals { are_locals_there (W.environment world.now) instruction.now.what ≡ true }
    ensures taken { result.taken ≡ words_wanted (wants (W.environment world.now) instruction.now.what) }
    ensures top { words_on_top result.top ++ drop result.taken (shown stores.now frame).stack
        ≡ after.stack_with (W.environment world.now) instruction.now.at instruction.now.what (shown stores.now frame) }
    ensures local { locals_changed result.local (shown stores.now frame).locals
        ≡ after.locals_with instruction.now.what (shown stores.now frame) }
    ensures within { IsWithin result.local (W.environment world.now).max_locals }
{
    let read = ShownFrame::new(stores, frame);
    let what = &instruction.what;
    let local = local_change(&read, what);
    let top = top_behind(world, &read, instruction.at, what);
    let taken = words_taken(wants_of(world, what), frame.depth);
    StepChange { local, taken, top }
}

// A frame that is changed, in place of the frame. Each kept frame stays as it was, also after an error.
fn change_frame(
    stores: &mut FrameStores,
    frame: CurrentFrame,
    change: StepChange,
) -> Result<CurrentFrame, AllocError>
    requires frame { IsFrame stores.old frame }
    requires taken { change.taken ≤ frame.depth }
    requires room { length (words_on_top change.top ++ drop change.taken (shown stores.old frame).stack)
        ≤ stores.old.stacks.most }
    requires within { IsWithin change.local stores.old.locals.most }
    ensures follows { StoresFollow stores.old stores.new }
    ensures remembered { (h : Hierarchy) → StoresRemember h stores.old → StoresRemember h stores.new }
    ensures frame { IfOk result (λ made. IsFrame stores.new made) }
    ensures shown { IfOk result (λ made. shown stores.new made ≡ record (shown stores.old frame) {
      locals = locals_changed change.local (shown stores.old frame).locals;
      stack = words_on_top change.top ++ drop change.taken (shown stores.old frame).stack;
    }) }
{
    let words = &change.top.words[..change.top.count];
    let made = replace_top(stores, frame, change.taken, words)?;
    change_local(stores, made, change.local)
}

// A frame as an instruction leaves it that makes and initializes no object, in place of the frame. Each kept frame
// stays as it was, also after an error.
pub(crate) fn frame_with<W: MethodWorld>(
    world: &W,
    stores: &mut FrameStores,
    frame: CurrentFrame,
    instruction: &Instr<Target>,
) -> Result<CurrentFrame, AllocError>
    requires frame { IsFrame stores.old frame }
    requires array { MakesArray (W.environment world.now) instruction.now.what }
    requires wanted { words_wanted (wants (W.environment world.now) instruction.now.what) ≤ frame.depth }
    requires locals { are_locals_there (W.environment world.now) instruction.now.what ≡ true }
    requires most { (W.environment world.now).max_locals ≡ stores.old.locals.most }
    requires room { length (after.stack_with (W.environment world.now) instruction.now.at instruction.now.what
        (shown stores.old frame)) ≤ stores.old.stacks.most }
    ensures follows { StoresFollow stores.old stores.new }
    ensures remembered { (h : Hierarchy) → StoresRemember h stores.old → StoresRemember h stores.new }
    ensures frame { IfOk result (λ made. IsFrame stores.new made) }
    ensures shown { IfOk result (λ made. shown stores.new made
        ≡ after.frame_with (W.environment world.now) instruction.now.at instruction.now.what (shown stores.old frame)) }
{
    let change = step_change(world, stores, frame, instruction);
    change_frame(stores, frame, change)
}
