//! The locals after an instruction.

ghost use Rattle.std.specs.Prelude.{◌≡◌, true, IfOk};
ghost use Rattle.type_rules.specs.Assignable.{Hierarchy};
ghost use Rattle.type_rules.specs.Environment.{Environment};
ghost use Rattle.type_rules.specs.FrameAfter.{locals_with};
ghost use Rattle.type_rules.specs.TypeFaults.{are_locals_there};
ghost use Rattle.typing_frames.specs.Frames.{shown, IsFrame, StoresFollow, StoresRemember};
ghost use Rattle.step_frames.specs.Locals.{locals_changed, IsWithin};

use crate::change::LocalChange;
use instructions::{LocalAccess, Target, ValueKind, What};
use std::alloc::AllocError;
use step_faults::FrameWords;
use type_rules::VerificationType;
use typing_frames::{CurrentFrame, FrameStores};

/// What an instruction puts into the locals. Takes no memory.
pub(crate) fn local_change<F: FrameWords>(frame: &F, what: &What<Target>) -> LocalChange
    ensures is { locals_changed result (F.frame frame.now).locals ≡ locals_with what.now (F.frame frame.now) }
    ensures within { (env : Environment) → are_locals_there env what.now ≡ true → IsWithin result env.max_locals }
{
    match what {
        What::Local(LocalAccess::Store(ValueKind::Int), local) => {
            LocalChange::Word(*local, VerificationType::Int)
        }
        What::Local(LocalAccess::Store(ValueKind::Long), local) => LocalChange::Long(*local),
        What::Local(LocalAccess::Store(ValueKind::Reference), local) => {
            LocalChange::Word(*local, frame.stack_word(0))
        }
        _ => LocalChange::Nothing,
    }
}

/// A frame whose locals are changed, in place of the frame. Each kept frame stays as it was, also after an error.
pub(crate) fn change_local(
    stores: &mut FrameStores,
    frame: CurrentFrame,
    change: LocalChange,
) -> Result<CurrentFrame, AllocError>
    requires frame { IsFrame stores.old frame }
    requires within { IsWithin change stores.old.locals.most }
    ensures follows { StoresFollow stores.old stores.new }
    ensures remembered { (h : Hierarchy) → StoresRemember h stores.old → StoresRemember h stores.new }
    ensures frame { IfOk result (λ made. IsFrame stores.new made) }
    ensures shown { IfOk result (λ made. shown stores.new made
        ≡ record (shown stores.old frame) { locals = locals_changed change (shown stores.old frame).locals }) }
{
    match change {
        LocalChange::Nothing => Ok(frame),
        LocalChange::Word(local, word) => stores.put_local(frame, u32::from(local), word),
        LocalChange::Long(local) => {
            let first = u32::from(local);
            let half = stores.put_local(frame, first, VerificationType::Long)?;
            stores.put_local(half, first + 1, VerificationType::Second)
        }
    }
}
