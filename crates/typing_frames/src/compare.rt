//! Frames that are compared.

ghost use Rattle.std.specs.Prelude.{◌≡◌, IfOk};

use crate::stores::{CurrentFrame, FrameStores};
use std::alloc::AllocError;
use word_types::ClassHierarchy;

impl FrameStores {
    ghost use Rattle.type_rules.specs.Assignable as assignable;
    ghost use Rattle.type_rules.specs.Environment.{Environment};
    ghost use Rattle.type_rules.specs.TypeFaults as faults;
    ghost use Rattle.typing_frames.specs.Frames.{shown, IsFrame, LeavesFrames, StoresRemember};

    // Tests whether each word of a stack is assignable to that of another one of the same depth.
    fn are_stacks_assignable<H: ClassHierarchy>(
        &mut self,
        hierarchy: &H,
        low: CurrentFrame,
        high: CurrentFrame,
    ) -> Result<bool, AllocError>
        requires low { IsFrame self.old low }
        requires high { IsFrame self.old high }
        requires depth { low.depth ≡ high.depth }
        requires remembered { StoresRemember (H.hierarchy hierarchy.now) self.old }
        ensures leaves { LeavesFrames self.old self.new }
        ensures remembered { StoresRemember (H.hierarchy hierarchy.now) self.new }
        ensures told { IfOk result (λ b. b ≡ assignable.are_assignable (H.hierarchy hierarchy.now) (shown self.old low).stack (shown self.old high).stack) }
    {
        self.stacks.are_assignable(hierarchy, low.stack, high.stack)
    }

    // Tests whether each local is assignable to that of another frame.
    fn are_locals_assignable<H: ClassHierarchy>(
        &mut self,
        hierarchy: &H,
        low: CurrentFrame,
        high: CurrentFrame,
    ) -> Result<bool, AllocError>
        requires low { IsFrame self.old low }
        requires high { IsFrame self.old high }
        requires remembered { StoresRemember (H.hierarchy hierarchy.now) self.old }
        ensures leaves { LeavesFrames self.old self.new }
        ensures remembered { StoresRemember (H.hierarchy hierarchy.now) self.new }
        ensures told { IfOk result (λ b. b ≡ assignable.are_locals_assignable (H.hierarchy hierarchy.now) (shown self.old low).locals (shown self.old high).locals) }
    {
        self.locals
            .are_assignable(hierarchy, low.locals, high.locals)
    }

    /// Tests whether a frame is assignable to another one (JVMS 4.10.1.2): the stacks word by word and of one depth, the
    /// locals word by word, and a frame whose object isn't initialized only to one of which that is known. All frames
    /// stay as they are, also after an error.
    pub fn is_frame_assignable<H: ClassHierarchy>(
        &mut self,
        hierarchy: &H,
        low: CurrentFrame,
        high: CurrentFrame,
    ) -> Result<bool, AllocError>
        requires low { IsFrame self.old low }
        requires high { IsFrame self.old high }
        requires remembered { StoresRemember (H.hierarchy hierarchy.now) self.old }
        ensures leaves { LeavesFrames self.old self.new }
        ensures remembered { StoresRemember (H.hierarchy hierarchy.now) self.new }
        ensures told { (env : Environment) → env.hierarchy ≡ H.hierarchy hierarchy.now
            → IfOk result (λ b. b ≡ faults.is_frame_assignable env (shown self.old low) (shown self.old high)) }
    {
        if low.depth != high.depth {
            return Ok(false);
        }
        if low.unset && !high.unset {
            return Ok(false);
        }
        if !self.are_stacks_assignable(hierarchy, low, high)? {
            return Ok(false);
        }
        self.are_locals_assignable(hierarchy, low, high)
    }
}
