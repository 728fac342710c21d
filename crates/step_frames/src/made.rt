//! Objects that are made and initialized.

ghost use Rattle.std.specs.Prelude.{◌≡◌, IfOk};
ghost use Rattle.type_rules.specs.Assignable.{Hierarchy};
ghost use Rattle.type_rules.specs.FrameAfter as after;
ghost use Rattle.typing_frames.specs.Frames.{shown, IsFrame, StoresFollow, StoresRemember};
ghost use Rattle.step_frames.specs.Made.{makes_object, names_init};

use instructions::{Call, ClassUse, Target, What};
use link_types::{ObjectType, Operand};
use std::alloc::AllocError;
use step_wants::MethodWorld;
use type_rules::VerificationType;
use typing_frames::{CurrentFrame, FrameStores};
use word_types::is_same_type;

/// Tests whether an instruction is a `new`.
pub(crate) fn makes_object(what: &What<Target>) -> bool
    ensures { result ≡ makes_object what.now }
{
    matches!(what, What::Class(ClassUse::New, _))
}

fn names_constructor(operand: Operand) -> bool
    ensures { result ≡ after.names_constructor operand }
{
    match operand {
        Operand::Method(method) => method.constructs,
        _ => false,
    }
}

/// Tests whether an instruction calls an `<init>`.
pub(crate) fn names_init<W: MethodWorld>(world: &W, what: &What<Target>) -> bool
    ensures { result ≡ names_init (W.environment world.now) what.now }
{
    match what {
        What::Call(Call::Special, index) => names_constructor(world.operand(*index)),
        _ => false,
    }
}

fn initialized<W: MethodWorld>(world: &W, word: VerificationType) -> VerificationType
    ensures { result ≡ after.initialized (W.environment world.now) word }
{
    match word {
        VerificationType::Uninit(offset) => VerificationType::Object(world.made_at(offset)),
        VerificationType::UninitThis => VerificationType::Object(ObjectType::Class(world.class())),
        _ => word,
    }
}

/// A frame in which all copies of an object are initialized, in place of the frame. Each kept frame stays as it was,
/// also after an error.
pub(crate) fn initialize<W: MethodWorld>(
    world: &W,
    stores: &mut FrameStores,
    frame: CurrentFrame,
    word: VerificationType,
) -> Result<CurrentFrame, AllocError>
    requires { IsFrame stores.old frame }
    ensures follows { StoresFollow stores.old stores.new }
    ensures remembered { (h : Hierarchy) → StoresRemember h stores.old → StoresRemember h stores.new }
    ensures frame { IfOk result (λ made. IsFrame stores.new made) }
    ensures shown { IfOk result (λ made. shown stores.new made
        ≡ after.with_initialized (W.environment world.now) word (shown stores.old frame)) }
{
    let known = initialized(world, word);
    if is_same_type(word, known) {
        return Ok(frame);
    }
    let is_this = is_same_type(word, VerificationType::UninitThis);
    let all = stores.replaced(frame, word, known)?;
    Ok(CurrentFrame {
        locals: all.locals,
        stack: all.stack,
        depth: all.depth,
        unset: all.unset && !is_this,
    })
}
