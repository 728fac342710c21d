//! What the tests of frames and instructions begin with.

use frame_snapshot::{FrameStage, Frames};
use interp_local::{Constant, Constants};
use link_types::MethodId;
use std::alloc::{AllocError, Global};

pub const METHOD: MethodId = MethodId {
    class: 29,
    method: 0,
};

/// A program without constants.
pub struct NoConstants;

impl Constants for NoConstants {
    ghost use Rattle.std.specs.Prelude.{[]};

    ghost units = { λ _. [] };

    fn constant(&self, _class: u32, _index: u16) -> Option<Constant> {
        None
    }
}

/// Frames whose top one has these words on its stack, the last on top, and room for eight.
pub fn frames_with(alloc: Global, words: &[u32]) -> Result<Frames, AllocError> {
    let mut frames = Frames::launch(alloc, METHOD, FrameStage::Begun, 8)?;
    for word in words {
        push(&mut frames, *word);
    }
    Ok(frames)
}

/// Puts a word on the stack of the top frame, where there is room for it.
pub fn push(frames: &mut Frames, word: u32) {
    if frames.has_room(1) {
        frames.push_word(word);
    }
}

/// The words on the stack of the top frame, the last on top.
pub fn stack_is(frames: &Frames, words: &[u32]) -> bool {
    let count = words.len();
    if !frames.has(count) || frames.has(count + 1) {
        return false;
    }
    (0..count).all(|depth| frames.word(depth) == words[count - 1 - depth])
}
