//! Map frames.

ghost use Rattle.std.specs.Prelude.{◌≡◌, Bool, List, slice_get};
ghost use Rattle.code_frames.specs.declared.types.VType.{VType};
ghost use Rattle.type_rules.specs.declared.types.VerificationType.{VerificationType};
ghost use Rattle.type_rules.specs.MapFrames.{map_frame_at};
ghost use Rattle.typing_frames.specs.declared.stores.FrameStores.{FrameStores};
ghost use Rattle.map_frames.specs.Mapped.{AreMapFrames, MapsAt};

use code_frames::Frames;
use type_lists::Words;
use type_rules::VerificationType;
use typing_frames::CurrentFrame;

/// A stack map frame of a method.
#[derive(Clone, Copy)]
pub struct MappedFrame {
    /// The frame with as many locals as the method has.
    pub frame: CurrentFrame,
    /// These locals, also where the stack is deeper than the method's.
    pub locals: Words,
    /// The word of a stack of one word.
    pub only: Option<VerificationType>,
    /// How many words its locals have, which may be more.
    pub words: u32,
    /// Whether a word past the locals of the method isn't Top.
    pub passes: bool,
}

/// The stack map frames of a method, by their numbers in its table.
#[derive(Drop)]
pub struct MapFrames {
    pub(crate) frames: Vec<MappedFrame>,
}

impl MapFrames {
    /// The map frame at an instruction, by the instruction's number; `None` where there is none. `frames` is the
    /// table that they were made of. Takes no memory.
    pub fn at(&self, frames: &Frames, step: u32) -> Option<MappedFrame>
        ensures { (stores : FrameStores) (item : VType → VerificationType) (constructs : Bool) (values : List VerificationType)
            → AreMapFrames stores self.now item constructs values frames.now → MapsAt stores result (map_frame_at item constructs values frames.now step) }
    {
        let number = frames.number_at(step)?;
        self.get(number)
    }

    // The frame of a number.
    fn get(&self, number: u32) -> Option<MappedFrame>
        ensures { result ≡ slice_get self.now.frames.items number }
    {
        self.frames.get(number as usize).copied()
    }
}
