//! Array types.

ghost use Rattle.std.specs.Prelude.{◌≡◌};
ghost use Rattle.array_kinds.specs.Kinds.{array_itself, array_of_type, primitive_kind};

use instructions::PrimitiveType;
use link_types::{ElementType, ObjectType};

/// An array type: how many dimensions it has, from 1 to 255, and the type of its innermost elements.
#[derive(Clone, Copy)]
pub struct ArrayKind {
    pub dimensions: u8,
    pub base: ElementType,
}

/// The array type that a type is, if it is one.
pub fn array_itself(kind: ObjectType) -> Option<ArrayKind>
    ensures { result ≡ array_itself kind }
{
    match kind {
        ObjectType::Array(dimensions, base) => Some(ArrayKind { dimensions, base }),
        _ => None,
    }
}

/// The type of the arrays whose elements are of a type; none where these have 255 dimensions (JVMS 4.9.1, anewarray).
pub fn array_of(element: ObjectType) -> Option<ArrayKind>
    ensures { result ≡ array_of_type element }
{
    match element {
        ObjectType::Class(class) => Some(ArrayKind {
            dimensions: 1,
            base: ElementType::Class(class),
        }),
        ObjectType::Other(name) => Some(ArrayKind {
            dimensions: 1,
            base: ElementType::Other(name),
        }),
        ObjectType::Array(dimensions, base) => match dimensions.checked_add(1) {
            Some(dimensions) => Some(ArrayKind { dimensions, base }),
            None => None,
        },
    }
}

/// The type of the arrays that newarray makes (JVMS 6.5).
pub fn primitive_array(kind: PrimitiveType) -> ArrayKind
    ensures { result ≡ primitive_kind kind }
{
    ArrayKind {
        dimensions: 1,
        base: match kind {
            PrimitiveType::Boolean => ElementType::Boolean,
            PrimitiveType::Char => ElementType::Char,
            PrimitiveType::Byte => ElementType::Byte,
            PrimitiveType::Short => ElementType::Short,
            PrimitiveType::Int => ElementType::Int,
            PrimitiveType::Long => ElementType::Long,
        },
    }
}
