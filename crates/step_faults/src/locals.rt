//! The locals that an instruction names.

ghost use Rattle.std.specs.Prelude.{◌≡◌};
ghost use Rattle.type_rules.specs.TypeFaults as faults;

use crate::frame::FrameWords;
use instructions::{LocalAccess, Target, ValueKind, What};
use step_wants::MethodWorld;
use type_rules::VerificationType;
use word_types::{is_reference, is_same_type};

fn is_load_right(kind: ValueKind, word: VerificationType) -> bool
    ensures { result ≡ faults.is_load_right kind word }
{
    match kind {
        ValueKind::Int => is_same_type(word, VerificationType::Int),
        ValueKind::Long => is_same_type(word, VerificationType::Long),
        ValueKind::Reference => is_reference(word),
    }
}

/// Tests whether the first local that is read has the type that the instruction wants, where the method has it.
pub(crate) fn is_local_right<W: MethodWorld, F: FrameWords>(
    world: &W,
    frame: &F,
    what: &What<Target>,
) -> bool
    ensures { result ≡ faults.is_local_right (W.environment world.now) what.now (F.frame frame.now) }
{
    match what {
        What::Local(LocalAccess::Load(kind), local) => {
            world.max_locals() <= *local || is_load_right(*kind, frame.local(u32::from(*local)))
        }
        What::Increment { local, .. } => {
            world.max_locals() <= *local
                || is_same_type(frame.local(u32::from(*local)), VerificationType::Int)
        }
        _ => true,
    }
}

fn words_of_kind(kind: ValueKind) -> u32
    ensures { result ≡ faults.words_of_kind kind }
{
    match kind {
        ValueKind::Long => 2,
        _ => 1,
    }
}

/// Tests whether the method has the locals that an instruction names.
pub(crate) fn are_locals_there<W: MethodWorld>(world: &W, what: &What<Target>) -> bool
    ensures { result ≡ faults.are_locals_there (W.environment world.now) what.now }
{
    match what {
        What::Local(LocalAccess::Load(kind) | LocalAccess::Store(kind), local) => {
            u32::from(*local) + words_of_kind(*kind) <= u32::from(world.max_locals())
        }
        What::Increment { local, .. } => *local < world.max_locals(),
        _ => true,
    }
}
