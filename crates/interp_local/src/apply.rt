//! What is to be done is done.

ghost use Rattle.std.specs.Prelude.{◌≡◌, ◌≤◌, ◌<◌, ◌+◌, ◌++◌, ◌^◌, length, drop};
ghost use Rattle.frame_snapshot.specs.FrameStack.{with_here};
ghost use Rattle.interp_local.specs.Effects.{words_of, row_of, CanApply, with_words, replaced};
ghost use Rattle.interp_local.specs.Frames.{frame_now};
ghost use Rattle.interp_local.specs.Steps.{outcome, IsLocal, KeptUnlessMoved};

use crate::effect::{Effect, Words};
use crate::step::LocalStep;
use frame_snapshot::Frames;

/// Pushes words, for which there must be room.
#[inline(always)]
fn push_words(frames: &mut Frames, words: Words)
    requires { length (words_of words) ≤ frames.old.here.free }
    ensures { frames.new ≡ with_words frames.old (words_of words) }
{
    match words {
        Words::None => {}
        Words::One(a) => frames.push_word(a),
        Words::Two(a, b) => {
            frames.push_word(b);
            frames.push_word(a);
        }
        Words::Three(a, b, c) => {
            frames.push_word(c);
            frames.push_word(b);
            frames.push_word(a);
        }
        Words::Four(a, b, c, d) => {
            frames.push_word(d);
            frames.push_word(c);
            frames.push_word(b);
            frames.push_word(a);
        }
        Words::Five(a, b, c, d, e) => {
            frames.push_word(e);
            frames.push_word(d);
            frames.push_word(c);
            frames.push_word(b);
            frames.push_word(a);
        }
        Words::Six(a, b, c, d, e, f) => {
            frames.push_word(f);
            frames.push_word(e);
            frames.push_word(d);
            frames.push_word(c);
            frames.push_word(b);
            frames.push_word(a);
        }
    }
}

/// Takes words off the stack, pushes others, and goes to the next instruction.
#[inline(always)]
pub fn replace(frames: &mut Frames, taken: usize, words: Words)
    requires words { taken ≤ length frames.old.here.stack }
    requires room { length (words_of words) ≤ frames.old.here.free + taken }
    requires step { frames.old.here.step + 1 < 2 ^ 64 }
    ensures { frames.new ≡ replaced frames.old taken (words_of words) }
{
    frames.drop_words(taken);
    push_words(frames, words);
    let step = frames.step();
    frames.set_step(step + 1);
}

/// Does to the top frame what an instruction is to do, which must be possible.
#[inline(always)]
pub fn apply(frames: &mut Frames, effect: Effect) -> LocalStep
    requires fits { CanApply frames.old effect }
    requires step { frames.old.here.step + 1 < 2 ^ 64 }
    ensures row { row_of (frame_now frames.old) effect ≡ outcome result frames.new }
    ensures kept { KeptUnlessMoved result frames.old frames.new }
    ensures local { IsLocal frames.old frames.new }
{
    match effect {
        Effect::Leaves { taken, words } => {
            replace(frames, taken, words);
            LocalStep::Moved
        }
        Effect::Stores { taken, local, word } => {
            frames.set_local(local, word);
            replace(frames, taken, Words::None);
            LocalStep::Moved
        }
        Effect::StoresLong { local, low, high } => {
            let first = usize::from(local);
            frames.set_local(first, low);
            frames.set_local(first + 1, high);
            replace(frames, 2, Words::None);
            LocalStep::Moved
        }
        Effect::Jumps { taken, step } => {
            frames.drop_words(taken);
            frames.set_step(step as usize);
            LocalStep::Moved
        }
        Effect::Throws(class) => LocalStep::Throw(class),
        Effect::Other => LocalStep::Other,
    }
}
