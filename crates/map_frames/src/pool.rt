//! The types that items of frames stand for.

ghost use Rattle.std.specs.Prelude.{◌≡◌};
ghost use Rattle.type_rules.specs.MapFrames as frames;
ghost use Rattle.type_rules.specs.declared.types.VerificationType.TheVariants as types;

use builtin_world::number::OBJECT;
use code_frames::VType;
use link_types::{ObjectType, Operand};
use type_rules::VerificationType;

/// Says what the indices of a class's constant pool stand for.
pub trait PoolOperands {
    ghost use Rattle.std.specs.Prelude.{◌≡◌, ℕ};
    ghost use Rattle.link_types.specs.declared.operands.Operand.{Operand};

    /// What each index stands for.
    ghost operands: { Self → ℕ → Operand };

    /// What an index stands for. Takes no memory.
    fn operand(&self, index: u16) -> Operand
        ensures { result ≡ operands self.now index };
}

/// The type of references to the class that an operand names; Object where it names none.
pub fn object_type(operand: Operand) -> ObjectType
    ensures { result ≡ frames.object_type operand }
{
    match operand {
        Operand::Class(class) => class.kind,
        _ => ObjectType::Class(OBJECT),
    }
}

// The type that an item of a frame stands for, where the method begins with these words.
pub(crate) fn item_type<P: PoolOperands>(
    pool: &P,
    entry: &[VerificationType],
    item: VType,
) -> VerificationType
    ensures { result ≡ frames.item_type (P.operands pool.now) entry.now item }
{
    match item {
        VType::Top => VerificationType::Top,
        VType::Int => VerificationType::Int,
        VType::Float => VerificationType::Float,
        VType::Double => VerificationType::Double,
        VType::Long => VerificationType::Long,
        VType::Null => VerificationType::Null,
        VType::UninitThis => VerificationType::UninitThis,
        VType::Object(index) => VerificationType::Object(object_type(pool.operand(index))),
        VType::Uninit(at) => VerificationType::Uninit(at),
        VType::Entry(local) => entry
            .get(usize::from(local))
            .copied()
            .unwrap_or(VerificationType::Top),
    }
}
