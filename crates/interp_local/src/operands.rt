//! The words on top of an operand stack.

ghost use Rattle.std.specs.Prelude.{◌≡◌, ◌<◌, ◌∷◌, length, drop, IfSome, IsNone};

use frame_snapshot::Frames;

/// The word on top, if there is one.
#[inline(always)]
pub fn one(frames: &Frames) -> Option<u32>
    ensures some { IfSome result (λ a. frames.now.here.stack ≡ a ∷ drop 1 frames.now.here.stack) }
    ensures none { IsNone result → length frames.now.here.stack < 1 }
{
    if !frames.has(1) {
        return None;
    }
    Some(frames.word(0))
}

/// The two words on top, the top first.
#[inline(always)]
pub fn two(frames: &Frames) -> Option<(u32, u32)>
    ensures some { IfSome result (λ w. frames.now.here.stack ≡ w.0 ∷ w.1 ∷ drop 2 frames.now.here.stack) }
    ensures none { IsNone result → length frames.now.here.stack < 2 }
{
    if !frames.has(2) {
        return None;
    }
    Some((frames.word(0), frames.word(1)))
}

/// The three words on top, the top first.
#[inline(always)]
pub fn three(frames: &Frames) -> Option<(u32, u32, u32)>
    ensures some { IfSome result (λ w. frames.now.here.stack ≡ w.0 ∷ w.1 ∷ w.2 ∷ drop 3 frames.now.here.stack) }
    ensures none { IsNone result → length frames.now.here.stack < 3 }
{
    if !frames.has(3) {
        return None;
    }
    Some((frames.word(0), frames.word(1), frames.word(2)))
}

/// The four words on top, the top first.
#[inline(always)]
pub fn four(frames: &Frames) -> Option<(u32, u32, u32, u32)>
    ensures some { IfSome result (λ w. frames.now.here.stack ≡ w.0 ∷ w.1 ∷ w.2 ∷ w.3 ∷ drop 4 frames.now.here.stack) }
    ensures none { IsNone result → length frames.now.here.stack < 4 }
{
    if !frames.has(4) {
        return None;
    }
    Some((
        frames.word(0),
        frames.word(1),
        frames.word(2),
        frames.word(3),
    ))
}
