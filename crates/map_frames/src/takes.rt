//! Frames that come to map frames.

ghost use Rattle.std.specs.Prelude.{◌≡◌, IfOk};
ghost use Rattle.type_rules.specs.Environment.{Environment, TypeFrame};
ghost use Rattle.type_rules.specs.TypeFaults.{is_frame_assignable};
ghost use Rattle.typing_frames.specs.Frames.{shown, IsFrame, LeavesFrames, StoresRemember};
ghost use Rattle.map_frames.specs.Making.{IsFrameInRoom};
ghost use Rattle.map_frames.specs.Mapped.{Maps};

use crate::mapped::MappedFrame;
use std::alloc::AllocError;
use typing_frames::{CurrentFrame, FrameStores};
use word_types::ClassHierarchy;

impl MappedFrame {
    /// Tests whether a frame is assignable to a map frame (JVMS 4.10.1.2), of which words past the method's locals count
    /// too. All frames stay as they are, also after an error.
    pub fn takes<H: ClassHierarchy>(
        self,
        stores: &mut FrameStores,
        hierarchy: &H,
        frame: CurrentFrame,
    ) -> Result<bool, AllocError>
        requires map { IsFrameInRoom stores.old self.frame }
        requires frame { IsFrame stores.old frame }
        requires remembered { StoresRemember (H.hierarchy hierarchy.now) stores.old }
        ensures leaves { LeavesFrames stores.old stores.new }
        ensures remembered { StoresRemember (H.hierarchy hierarchy.now) stores.new }
        ensures told { (env : Environment) (g : TypeFrame) → env.hierarchy ≡ H.hierarchy hierarchy.now → Maps stores.old self g
            → IfOk result (λ b. b ≡ is_frame_assignable env (shown stores.old frame) g) }
    {
        if self.passes {
            return Ok(false);
        }
        if frame.depth != self.frame.depth {
            return Ok(false);
        }
        stores.is_frame_assignable(hierarchy, frame, self.frame)
    }
}
