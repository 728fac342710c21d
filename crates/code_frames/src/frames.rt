//! The frames of a method, found by their instructions.

ghost use Rattle.std.specs.Prelude.{◌≡◌, ◌≢◌, ◌==◌, ◌<◌, ◌^◌, [], ◌∷◌, ◌++◌, length, slice_get, option_copied, OnOk, OnErr};
ghost use Rattle.std.specs.List.{AllByRecursion, position_from};

use crate::types::MapFrame;
use instructions::Numbering;
use std::alloc::{AllocError, Global};
use std::marker::Model;

/// The stack map frames of a method, in order. Contracts see the list of them.
#[derive(Drop)]
pub struct Frames {
    frames: Vec<MapFrame>,
    /// The numbers of the instructions that the frames are at.
    steps: Numbering,
}

impl Model for Frames {
    ghost use Rattle.std.specs.Prelude.{◌≡◌, List, map};
    ghost use Rattle.code_frames.specs.declared.types.MapFrame.{MapFrame};

    ghost Value = { List MapFrame };

    ghost view = { λ f. f.frames.items };

    ghost invariant = { λ f. f.steps ≡ map (λ g. g.step) f.frames.items };
}

impl Frames {
    /// No frames. Takes no memory.
    pub fn new(alloc: Global) -> Self
        ensures { result ≡ [] }
    {
        Frames {
            frames: Vec::new(alloc),
            steps: Numbering::new(alloc),
        }
    }

    /// The frames as a slice.
    pub fn as_slice(&self) -> &[MapFrame]
        ensures { result.now ≡ self.now }
    {
        self.frames.as_slice()
    }

    /// How many frames there are.
    pub fn len(&self) -> usize
        ensures { result ≡ length self.now }
    {
        self.frames.len()
    }

    /// Whether there are no frames.
    pub fn is_empty(&self) -> bool
        ensures { result ≡ (length self.now == 0) }
    {
        self.frames.is_empty()
    }

    /// The frame of a number, from 0, or `None` past the last.
    pub fn get(&self, number: u32) -> Option<&MapFrame>
        ensures { option_copied result ≡ slice_get self.now number }
    {
        self.frames.get(number as usize)
    }

    /// The number of the frame at an instruction, by the instruction's number, or `None` where there is none.
    pub fn number_at(&self, step: u32) -> Option<u32>
        ensures { result ≡ position_from (λ f. f.step == step) 0 self.now }
    {
        self.steps.number_at(step)
    }

    /// Appends a frame. An error leaves the frames as they were, and drops the new one.
    pub fn push(&mut self, frame: MapFrame) -> Result<(), AllocError>
        requires count { length self.old < 2 ^ 32 }
        requires apart { AllByRecursion (λ f. f.step ≢ frame.step) self.old }
        ensures ok { OnOk result (self.new ≡ self.old ++ frame ∷ []) }
        ensures err { OnErr result (self.new ≡ self.old) }
    {
        let (count, step) = (self.frames.len(), frame.step);
        self.frames.push(frame)?;
        let numbered = self.steps.push(step);
        if numbered.is_err() {
            self.frames.truncate(count);
        }
        numbered
    }
}
