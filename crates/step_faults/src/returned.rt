//! Returns, and objects that aren't initialized.

ghost use Rattle.std.specs.Prelude.{◌≡◌};
ghost use Rattle.type_rules.specs.TypeFaults as faults;

use crate::frame::FrameWords;
use instructions::{ClassUse, Instr, Plain, Target, ValueKind, What};
use link_types::ValueType;
use step_wants::MethodWorld;
use type_rules::VerificationType;
use word_types::is_assignable;

/// Tests whether `new` finds nothing on the stack that it made before, and whether no constructor returns before its
/// object is initialized.
pub(crate) fn is_initialization_right<F: FrameWords>(frame: &F, instruction: &Instr<Target>) -> bool
    ensures { result ≡ faults.is_initialization_right instruction.now instruction.now.what (F.frame frame.now) }
{
    match &instruction.what {
        What::Class(ClassUse::New, _) => !frame.stack_has_made(instruction.at),
        What::Plain(Plain::Return(_)) => !frame.flag_this_uninit(),
        _ => true,
    }
}

fn is_int_type(value: ValueType) -> bool
    ensures { result ≡ faults.is_int_type value }
{
    !matches!(value, ValueType::Long | ValueType::Object(_))
}

fn fits_return_type<W: MethodWorld, F: FrameWords>(
    world: &W,
    frame: &F,
    kind: Option<ValueKind>,
) -> bool
    ensures { result
        ≡ faults.fits_return_type (W.environment world.now) (W.environment world.now).return_type kind
        (F.frame frame.now) }
{
    match (world.return_type(), kind) {
        (None, None) => true,
        (Some(value), Some(ValueKind::Int)) => is_int_type(value),
        (Some(ValueType::Long), Some(ValueKind::Long)) => true,
        (Some(ValueType::Object(t)), Some(ValueKind::Reference)) => is_assignable(
            world.classes(),
            frame.stack_word(0),
            VerificationType::Object(t),
        ),
        _ => false,
    }
}

/// Tests whether a return fits what the method returns.
pub(crate) fn returns_rightly<W: MethodWorld, F: FrameWords>(
    world: &W,
    frame: &F,
    what: &What<Target>,
) -> bool
    ensures { result ≡ faults.returns_rightly (W.environment world.now) what.now (F.frame frame.now) }
{
    match what {
        What::Plain(Plain::Return(kind)) => fits_return_type(world, frame, *kind),
        _ => true,
    }
}
