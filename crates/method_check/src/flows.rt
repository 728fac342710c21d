//! Where an instruction leads.

ghost use Rattle.std.specs.Prelude.{◌≡◌, ℕ};
ghost use Rattle.instructions.specs.What.{targets_of};
ghost use Rattle.link_types.specs.declared.operands.Operand.{Operand};
ghost use Rattle.type_rules.specs.Environment.{Environment};
ghost use Rattle.type_rules.specs.TypeFaults as faults;
ghost use Rattle.typing_frames.specs.Frames.{shown, IsFrame, LeavesFrames, StoresRemember};
ghost use Rattle.typing_frames.specs.Told.{Tells};
ghost use Rattle.handler_frames.specs.Methods.{AreHandlersOf, AreMade};

use handler_frames::MethodHandlers;
use instructions::{Steps, Target, What};
use type_rules::VerifyKind;
use typing_frames::{CheckStop, CurrentFrame, FrameStores};
use word_types::ClassHierarchy;

// A frame is assignable to the map frame at the instruction of a number.
fn check_flow<H: ClassHierarchy>(
    stores: &mut FrameStores,
    hierarchy: &H,
    method: MethodHandlers<'_>,
    frame: CurrentFrame,
    step: u32,
) -> Result<(), CheckStop>
    requires made { AreMade stores.old method }
    requires frame { IsFrame stores.old frame }
    requires remembered { StoresRemember (H.hierarchy hierarchy.now) stores.old }
    ensures leaves { LeavesFrames stores.old stores.new }
    ensures remembered { StoresRemember (H.hierarchy hierarchy.now) stores.new }
    ensures told { (env : Environment) (operands : ℕ → Operand) → env.hierarchy ≡ H.hierarchy hierarchy.now → AreHandlersOf env stores.old operands method.entry
        → Tells result (faults.flow_fault env (shown stores.old frame) step) }
{
    let Some(map) = method.maps.at(method.frames, step) else {
        return Err(CheckStop::At(VerifyKind::FrameMissing));
    };
    if !map.takes(stores, hierarchy, frame)? {
        return Err(CheckStop::At(VerifyKind::FrameMismatch));
    }
    Ok(())
}

/// The frame after an instruction is assignable to the map frame at each target, the default of a switch first (JVMS
/// 4.10.1.9). All frames stay as they are, also after an error.
pub(crate) fn check_flows<H: ClassHierarchy>(
    stores: &mut FrameStores,
    hierarchy: &H,
    method: MethodHandlers<'_>,
    frame: CurrentFrame,
    what: &What<Target>,
) -> Result<(), CheckStop>
    requires made { AreMade stores.old method }
    requires frame { IsFrame stores.old frame }
    requires remembered { StoresRemember (H.hierarchy hierarchy.now) stores.old }
    ensures leaves { LeavesFrames stores.old stores.new }
    ensures remembered { StoresRemember (H.hierarchy hierarchy.now) stores.new }
    ensures told { (env : Environment) (operands : ℕ → Operand) → env.hierarchy ≡ H.hierarchy hierarchy.now → AreHandlersOf env stores.old operands method.entry
        → Tells result (faults.flows_fault env (shown stores.old frame) (targets_of what.now)) }
{
    for target in what.targets() {
        check_flow(stores, hierarchy, method, frame, target.step)?;
    }
    Ok(())
}

/// The last instruction isn't followed by another one (JVMS 4.10.1.6). `step` is the number of the instruction.
pub(crate) fn check_end(steps: &Steps, step: u32, what: &What<Target>) -> Result<(), CheckStop>
    ensures { (env : Environment) → env.steps ≡ steps.now → Tells result (faults.end_fault env step what.now) }
{
    if what.falls_through() && steps.len() <= step as usize + 1 {
        return Err(CheckStop::At(VerifyKind::FallsOff));
    }
    Ok(())
}
