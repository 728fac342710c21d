//! Changes of frames.

ghost use Rattle.std.specs.Prelude.{◌≡◌, ◌≤◌, ◌<◌, IfOk};

use crate::stores::{CurrentFrame, FrameStores};
use std::alloc::AllocError;
use type_rules::VerificationType;
use word_types::is_same_type;

impl FrameStores {
    ghost use Rattle.std.specs.Prelude.{◌+◌, ◌∷◌, drop, false, slice_set};
    ghost use Rattle.type_rules.specs.declared.types.VerificationType.TheVariants.{Top};
    ghost use Rattle.type_rules.specs.Assignable as assignable;
    ghost use Rattle.type_rules.specs.FrameAfter as after;
    ghost use Rattle.typing_frames.specs.Frames.{shown, IsFrame, StoresFollow, StoresRemember};

    /// A frame with another word on top of its stack, in place of the frame. Each kept frame stays as it was, also after
    /// an error.
    pub fn push(
        &mut self,
        frame: CurrentFrame,
        word: VerificationType,
    ) -> Result<CurrentFrame, AllocError>
        requires frame { IsFrame self.old frame }
        requires room { frame.depth < self.old.stacks.most }
        ensures follows { StoresFollow self.old self.new }
        ensures remembered { (h : assignable.Hierarchy) → StoresRemember h self.old → StoresRemember h self.new }
        ensures frame { IfOk result (λ made. IsFrame self.new made) }
        ensures shown { IfOk result (λ made. shown self.new made ≡ record (shown self.old frame) { stack = word ∷ (shown self.old frame).stack }) }
    {
        let stack = self.stacks.set(frame.stack, frame.depth, word)?;
        Ok(CurrentFrame {
            locals: frame.locals,
            stack,
            depth: frame.depth + 1,
            unset: frame.unset,
        })
    }

    /// A frame without the word on top of its stack, in place of the frame. Each kept frame stays as it was, also after an
    /// error.
    pub fn pop(&mut self, frame: CurrentFrame) -> Result<CurrentFrame, AllocError>
        requires frame { IsFrame self.old frame }
        requires some { 0 < frame.depth }
        ensures follows { StoresFollow self.old self.new }
        ensures remembered { (h : assignable.Hierarchy) → StoresRemember h self.old → StoresRemember h self.new }
        ensures frame { IfOk result (λ made. IsFrame self.new made) }
        ensures depth { IfOk result (λ made. made.depth + 1 ≡ frame.depth) }
        ensures shown { IfOk result (λ made. shown self.new made ≡ record (shown self.old frame) { stack = drop 1 (shown self.old frame).stack }) }
    {
        let depth = frame.depth - 1;
        let stack = self.stacks.set(frame.stack, depth, VerificationType::Top)?;
        Ok(CurrentFrame {
            locals: frame.locals,
            stack,
            depth,
            unset: frame.unset,
        })
    }

    /// A frame without the top `count` words of its stack, in place of the given frame. Each kept frame stays as it
    /// was, also after an error.
    pub fn take(&mut self, frame: CurrentFrame, count: u32) -> Result<CurrentFrame, AllocError>
        requires frame { IsFrame self.old frame }
        requires count { count ≤ frame.depth }
        ensures follows { StoresFollow self.old self.new }
        ensures remembered { (h : assignable.Hierarchy) → StoresRemember h self.old → StoresRemember h self.new }
        ensures frame { IfOk result (λ made. IsFrame self.new made) }
        ensures depth { IfOk result (λ made. made.depth + count ≡ frame.depth) }
        ensures shown { IfOk result (λ made. shown self.new made ≡ record (shown self.old frame) { stack = drop count (shown self.old frame).stack }) }
    {
        let mut made = frame;
        for _ in 0..count {
            made = self.pop(made)?;
        }
        Ok(made)
    }

    /// A frame with another word in a local, in place of the frame. Each kept frame stays as it was, also after an error.
    pub fn set_local(
        &mut self,
        frame: CurrentFrame,
        at: u32,
        word: VerificationType,
    ) -> Result<CurrentFrame, AllocError>
        requires frame { IsFrame self.old frame }
        requires place { at < self.old.locals.most }
        ensures follows { StoresFollow self.old self.new }
        ensures remembered { (h : assignable.Hierarchy) → StoresRemember h self.old → StoresRemember h self.new }
        ensures frame { IfOk result (λ made. IsFrame self.new made) }
        ensures shown { IfOk result (λ made. shown self.new made ≡ record (shown self.old frame) { locals = slice_set (shown self.old frame).locals at word }) }
    {
        let locals = self.locals.set(frame.locals, at, word)?;
        Ok(CurrentFrame {
            locals,
            stack: frame.stack,
            depth: frame.depth,
            unset: frame.unset,
        })
    }

    // A frame with Top in a local, if there is such a local.
    fn clear_local(&mut self, frame: CurrentFrame, at: u32) -> Result<CurrentFrame, AllocError>
        requires frame { IsFrame self.old frame }
        ensures follows { StoresFollow self.old self.new }
        ensures remembered { (h : assignable.Hierarchy) → StoresRemember h self.old → StoresRemember h self.new }
        ensures frame { IfOk result (λ made. IsFrame self.new made) }
        ensures shown { IfOk result (λ made. shown self.new made ≡ record (shown self.old frame) { locals = slice_set (shown self.old frame).locals at Top }) }
    {
        if is_same_type(self.locals.word(frame.locals, at), VerificationType::Top) {
            return Ok(frame);
        }
        self.set_local(frame, at, VerificationType::Top)
    }

    // A frame whose local loses its word: the other half of a long or double is Top.
    fn without_half(&mut self, frame: CurrentFrame, at: u32) -> Result<CurrentFrame, AllocError>
        requires frame { IsFrame self.old frame }
        requires place { at < self.old.locals.most }
        ensures follows { StoresFollow self.old self.new }
        ensures remembered { (h : assignable.Hierarchy) → StoresRemember h self.old → StoresRemember h self.new }
        ensures frame { IfOk result (λ made. IsFrame self.new made) }
        ensures shown { IfOk result (λ made. shown self.new made ≡ record (shown self.old frame) {
          locals = after.without_half (shown self.old frame).locals at (after.local_at (shown self.old frame) at);
        }) }
    {
        match self.local(frame, at) {
            VerificationType::Second => self.clear_local(frame, at.saturating_sub(1)),
            VerificationType::Long | VerificationType::Double => self.clear_local(frame, at + 1),
            _ => Ok(frame),
        }
    }

    /// A frame with another word in a local, in place of the frame; the other half of a long or double that loses a word
    /// is Top. Each kept frame stays as it was, also after an error.
    pub fn put_local(
        &mut self,
        frame: CurrentFrame,
        at: u32,
        word: VerificationType,
    ) -> Result<CurrentFrame, AllocError>
        requires frame { IsFrame self.old frame }
        requires place { at < self.old.locals.most }
        ensures follows { StoresFollow self.old self.new }
        ensures remembered { (h : assignable.Hierarchy) → StoresRemember h self.old → StoresRemember h self.new }
        ensures frame { IfOk result (λ made. IsFrame self.new made) }
        ensures shown { IfOk result (λ made. shown self.new made ≡ record (shown self.old frame) { locals = after.with_local (shown self.old frame).locals at word }) }
    {
        let half = self.without_half(frame, at)?;
        self.set_local(half, at, word)
    }

    /// A frame in whose locals each word that is the old one, which isn't Top, is replaced by the new one, in place of
    /// the given frame. Each kept frame stays as it was, also after an error.
    pub fn replaced_in_locals(
        &mut self,
        frame: CurrentFrame,
        old: VerificationType,
        new: VerificationType,
    ) -> Result<CurrentFrame, AllocError>
        requires frame { IsFrame self.old frame }
        requires old { assignable.is_same_type Top old ≡ false }
        ensures follows { StoresFollow self.old self.new }
        ensures remembered { (h : assignable.Hierarchy) → StoresRemember h self.old → StoresRemember h self.new }
        ensures frame { IfOk result (λ made. IsFrame self.new made) }
        ensures shown { IfOk result (λ made. shown self.new made ≡ record (shown self.old frame) { locals = after.replaced_types old new (shown self.old frame).locals }) }
    {
        let locals = self.locals.replaced(frame.locals, old, new)?;
        Ok(CurrentFrame {
            locals,
            stack: frame.stack,
            depth: frame.depth,
            unset: frame.unset,
        })
    }

    // The same on the stack.
    fn replaced_on_stack(
        &mut self,
        frame: CurrentFrame,
        old: VerificationType,
        new: VerificationType,
    ) -> Result<CurrentFrame, AllocError>
        requires frame { IsFrame self.old frame }
        requires old { assignable.is_same_type Top old ≡ false }
        ensures follows { StoresFollow self.old self.new }
        ensures remembered { (h : assignable.Hierarchy) → StoresRemember h self.old → StoresRemember h self.new }
        ensures frame { IfOk result (λ made. IsFrame self.new made) }
        ensures shown { IfOk result (λ made. shown self.new made ≡ record (shown self.old frame) { stack = after.replaced_types old new (shown self.old frame).stack }) }
    {
        let stack = self.stacks.replaced(frame.stack, old, new)?;
        Ok(CurrentFrame {
            locals: frame.locals,
            stack,
            depth: frame.depth,
            unset: frame.unset,
        })
    }

    /// A frame in whose locals and stack each word that is the old one, which isn't Top, is replaced by the new one, in
    /// place of the given frame. Each kept frame stays as it was, also after an error.
    pub fn replaced(
        &mut self,
        frame: CurrentFrame,
        old: VerificationType,
        new: VerificationType,
    ) -> Result<CurrentFrame, AllocError>
        requires frame { IsFrame self.old frame }
        requires old { assignable.is_same_type Top old ≡ false }
        ensures follows { StoresFollow self.old self.new }
        ensures remembered { (h : assignable.Hierarchy) → StoresRemember h self.old → StoresRemember h self.new }
        ensures frame { IfOk result (λ made. IsFrame self.new made) }
        ensures shown { IfOk result (λ made. shown self.new made ≡ record (shown self.old frame) {
          locals = after.replaced_types old new (shown self.old frame).locals;
          stack = after.replaced_types old new (shown self.old frame).stack;
        }) }
    {
        let made = self.replaced_in_locals(frame, old, new)?;
        self.replaced_on_stack(made, old, new)
    }
}
