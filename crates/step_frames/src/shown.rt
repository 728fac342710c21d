//! Frames in stores that are read.

ghost use Rattle.std.specs.Prelude.{◌≡◌};
ghost use Rattle.typing_frames.specs.Frames.{shown, IsFrame};
ghost use Rattle.typing_frames.specs.Told.{Tells};
ghost use Rattle.type_lists.specs.Shown.{EndsBy};
ghost use Rattle.type_lists.specs.Store.{word_at};
ghost use Rattle.std.proofs.Props.{props};
ghost use Rattle.type_rules.specs.TypeFaults.{own_fault};

use instructions::{Instr, Target};
use step_faults::{FrameWords, own_fault};
use step_wants::MethodWorld;
use type_rules::VerificationType;
use typing_frames::{CheckStop, CurrentFrame, FrameStores};

/// A frame, with the stores that it is in.
#[derive(Drop)]
pub struct ShownFrame<'a> {
    stores: &'a FrameStores,
    frame: CurrentFrame,
    ghost locals_end: { EndsBy (word_at stores.now.locals frame.locals) stores.now.locals.most } by { Prim.hlevel props },
    ghost stack_ends: { EndsBy (word_at stores.now.stacks frame.stack) frame.depth } by { Prim.hlevel props },
}

impl<'a> ShownFrame<'a> {
    /// A frame of the stores. Takes no memory.
    pub fn new(stores: &'a FrameStores, frame: CurrentFrame) -> Self
        requires { IsFrame stores.now frame }
        ensures { shown result.stores.now result.frame ≡ shown stores.now frame }
    {
        ShownFrame { stores, frame }
    }
}

impl<'a> FrameWords for ShownFrame<'a> {
    ghost use Rattle.typing_frames.specs.Frames.{shown};

    ghost frame = { λ s. shown s.stores.now s.frame };

    fn height(&self) -> u32 {
        self.frame.depth
    }

    fn stack_word(&self, under: u32) -> VerificationType {
        self.stores.peek(self.frame, under)
    }

    fn stack_has_made(&self, offset: u32) -> bool {
        self.stores
            .stacks
            .has(self.frame.stack, VerificationType::Uninit(offset))
    }

    fn local(&self, at: u32) -> VerificationType {
        self.stores.locals.word(self.frame.locals, at)
    }

    fn flag_this_uninit(&self) -> bool {
        self.frame.unset
    }
}

/// Checks the rules of an instruction by itself in a frame, in this order, each over all of the instruction: StackShape,
/// TypeMismatch, Uninit, Limits, ReturnType (JVMS 4.10.1.9). Takes no memory.
///
/// # Errors
///
/// The first rule that is broken.
pub fn check_instruction<W: MethodWorld>(
    world: &W,
    stores: &FrameStores,
    frame: CurrentFrame,
    instruction: &Instr<Target>,
) -> Result<(), CheckStop>
    requires { IsFrame stores.now frame }
    ensures { Tells result (own_fault (W.environment world.now) instruction.now (shown stores.now frame)) }
{
    match own_fault(world, &ShownFrame::new(stores, frame), instruction) {
        None => Ok(()),
        Some(kind) => Err(CheckStop::At(kind)),
    }
}
