//! What an instruction does to a frame.

ghost use Rattle.std.specs.Prelude.{◌≡◌, ◌≤◌, ◌++◌, length, drop};
ghost use Rattle.java_rows.specs.LocalRows.{leaving};
ghost use Rattle.interp_local.specs.Effects.{words_of, row_of, CanApply};
ghost use Rattle.interp_local.specs.Frames.{frame_now};
ghost use Rattle.interp_local.specs.Steps.{kind_of_effect};

use crate::step::LocalStep;
use frame_snapshot::Frames;

/// Words that are pushed, the first of them on top.
#[derive(Clone, Copy)]
pub enum Words {
    None,
    One(u32),
    Two(u32, u32),
    Three(u32, u32, u32),
    Four(u32, u32, u32, u32),
    Five(u32, u32, u32, u32, u32),
    Six(u32, u32, u32, u32, u32, u32),
}

impl Words {
    /// How many they are.
    #[inline(always)]
    pub fn len(self) -> usize
        ensures { result ≡ length (words_of self) }
    {
        match self {
            Words::None => 0,
            Words::One(..) => 1,
            Words::Two(..) => 2,
            Words::Three(..) => 3,
            Words::Four(..) => 4,
            Words::Five(..) => 5,
            Words::Six(..) => 6,
        }
    }
}

/// What an instruction that needs no operation does.
#[derive(Clone, Copy)]
pub enum Effect {
    /// `taken` words are taken off the stack, and `words` are pushed.
    Leaves {
        taken: usize,
        words: Words,
    },
    /// `taken` words are taken off the stack, and a local gets another word.
    Stores {
        taken: usize,
        local: usize,
        word: u32,
    },
    /// Two words are taken off the stack, and two locals have them: this one the low half.
    StoresLong {
        local: u16,
        low: u32,
        high: u32,
    },
    /// `taken` words are taken off the stack, and another instruction follows.
    Jumps {
        taken: usize,
        step: u32,
    },
    /// An exception of this class is thrown.
    Throws(u32),
    /// It needs an operation, or something is missing.
    Other,
}

impl Effect {
    /// What a step that does this comes to.
    #[inline(always)]
    pub fn kind(self) -> LocalStep
        ensures { result ≡ kind_of_effect self }
    {
        match self {
            Effect::Throws(class) => LocalStep::Throw(class),
            Effect::Other => LocalStep::Other,
            _ => LocalStep::Moved,
        }
    }
}

/// `taken` words are taken off the stack, and `words` are pushed, if there is room.
#[inline(always)]
pub fn leaves(frames: &Frames, taken: usize, words: Words) -> Effect
    requires { taken ≤ length frames.now.here.stack }
    ensures row { leaving (frame_now frames.now) (words_of words ++ drop taken frames.now.here.stack) ≡ row_of (frame_now frames.now) result }
    ensures fits { CanApply frames.now result }
{
    let count = words.len();
    if count <= taken || frames.has_room(count - taken) {
        Effect::Leaves { taken, words }
    } else {
        Effect::Other
    }
}
