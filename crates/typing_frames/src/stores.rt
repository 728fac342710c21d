//! Frames in stores, and what is read of them.

ghost use Rattle.std.specs.Prelude.{◌≡◌, ◌≤◌};

use std::alloc::Global;
use type_lists::{WordStore, Words};
use type_rules::VerificationType;

/// The stores of a method's locals and stacks, which are made for as many words as the method may have.
#[derive(Drop)]
pub struct FrameStores {
    pub locals: WordStore,
    pub stacks: WordStore,
}

/// A frame in [`FrameStores`].
#[derive(Clone, Copy)]
pub struct CurrentFrame {
    pub locals: Words,
    /// From the bottom.
    pub stack: Words,
    /// How many words the stack has.
    pub depth: u32,
    /// Whether the object of a constructor isn't initialized yet (JVMS 4.10.1.4: flagThisUninit).
    pub unset: bool,
}

impl FrameStores {
    ghost use Rattle.std.specs.Prelude.{[]};
    ghost use Rattle.type_rules.specs.Assignable.{Hierarchy};
    ghost use Rattle.type_rules.specs.Environment.{padded};
    ghost use Rattle.type_rules.specs.FrameAfter as after;
    ghost use Rattle.typing_frames.specs.Frames.{shown, IsFrame, IsKeptFrame, KeepsAll, StoresRemember};

    /// Stores for frames of `max_locals` locals, and of at most `max_stack` words on the stack. Takes no memory.
    pub fn new(alloc: Global, max_locals: u16, max_stack: u16) -> Self
        ensures locals { result.locals.most ≡ max_locals }
        ensures stacks { result.stacks.most ≡ max_stack }
        ensures remembered { (h : Hierarchy) → StoresRemember h result }
    {
        FrameStores {
            locals: WordStore::new(alloc, u32::from(max_locals)),
            stacks: WordStore::new(alloc, u32::from(max_stack)),
        }
    }

    /// The frame whose locals are Top, and whose stack is empty. It is kept. Takes no memory.
    pub fn empty(&self, unset: bool) -> CurrentFrame
        ensures kept { IsKeptFrame self.now result }
        ensures shown { shown self.now result ≡ record { locals = padded self.now.locals.most []; stack = []; flag_this_uninit = unset } }
    {
        CurrentFrame {
            locals: self.locals.tops(),
            stack: self.stacks.tops(),
            depth: 0,
            unset,
        }
    }

    /// The word of a local; Top past the last one. Takes no memory.
    pub fn local(&self, frame: CurrentFrame, at: u32) -> VerificationType
        requires { IsFrame self.now frame }
        ensures { result ≡ after.local_at (shown self.now frame) at }
    {
        self.locals.word(frame.locals, at)
    }

    /// The word of the stack under `under` others; Top under the lowest one. Takes no memory.
    pub fn peek(&self, frame: CurrentFrame, under: u32) -> VerificationType
        ensures { result ≡ after.stack_at (shown self.now frame) under }
    {
        if frame.depth <= under {
            return VerificationType::Top;
        }
        self.stacks.word(frame.stack, frame.depth - under - 1)
    }

    /// Keeps all frames that there are: no change changes them.
    pub fn keep(&mut self)
        ensures kept { KeepsAll self.old self.new }
        ensures remembered { (h : Hierarchy) → StoresRemember h self.old → StoresRemember h self.new }
    {
        self.locals.keep();
        self.stacks.keep();
    }
}
