//! Constants of a program.

ghost use Rattle.std.specs.Prelude.{◌≡◌};
ghost use Rattle.std.specs.Option.{option_map};
ghost use Rattle.java_rows.specs.LocalRows.{pushed};
ghost use Rattle.interp_local.specs.Effects.{row_of, CanApply, constant_words};
ghost use Rattle.interp_local.specs.Frames.{frame_now};

use crate::effect::{Effect, Words, leaves};
use crate::numbers::halves;
use frame_snapshot::Frames;

/// A constant that an instruction pushes.
#[derive(Clone, Copy)]
pub enum Constant {
    /// The word of an int, or the reference of a string or a class.
    Word(u32),
    Long(u64),
}

/// The constants of a linked program.
pub trait Constants {
    ghost use Rattle.std.specs.Prelude.{◌≡◌, List};
    ghost use Rattle.std.specs.Option.{option_map};
    ghost use Rattle.code_decode.specs.declared.code.ClassUnit.{ClassUnit};
    ghost use Rattle.java_rows.specs.Program.{constant_at};
    ghost use Rattle.interp_local.specs.Effects.{constant_words};

    /// The classes of the program.
    ghost units: { Self → List ClassUnit };

    /// The constant at an index of the pool of a class (JVMS 5.1), `None` where there is none that an instruction
    /// pushes. Takes no memory.
    fn constant(&self, class: u32, index: u16) -> Option<Constant>
        ensures { option_map constant_words result ≡ constant_at (units self.now) class index };
}

/// A constant is pushed, if there is one.
#[inline(always)]
pub fn push(frames: &Frames, constant: Option<Constant>) -> Effect
    ensures row { pushed (frame_now frames.now) frames.now.here.stack (option_map constant_words constant) ≡ row_of (frame_now frames.now) result }
    ensures fits { CanApply frames.now result }
{
    match constant {
        Some(Constant::Word(word)) => leaves(frames, 0, Words::One(word)),
        Some(Constant::Long(number)) => leaves(frames, 0, halves(number)),
        None => Effect::Other,
    }
}
