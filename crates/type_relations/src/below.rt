//! Types below one another.

ghost use Rattle.std.specs.Prelude.{◌≡◌};
ghost use Rattle.link_types.specs.Subtypes as subtypes;

use crate::ClassRelation;
use builtin_world::number::OBJECT;
use link_types::{ElementType, ObjectType};

/// The same of the elements of arrays of as many dimensions.
fn is_element_below<R: ClassRelation>(relation: &R, low: ElementType, high: ElementType) -> bool
    ensures { result ≡ subtypes.is_element_below (R.is_below relation.now) low high }
{
    match (low, high) {
        (ElementType::Boolean, ElementType::Boolean)
        | (ElementType::Byte, ElementType::Byte)
        | (ElementType::Char, ElementType::Char)
        | (ElementType::Short, ElementType::Short)
        | (ElementType::Int, ElementType::Int)
        | (ElementType::Long, ElementType::Long)
        | (ElementType::Float, ElementType::Float)
        | (ElementType::Double, ElementType::Double) => true,
        (ElementType::Class(c), ElementType::Class(d)) => relation.is_class_below(c, d),
        (ElementType::Other(_), ElementType::Class(d)) => d == OBJECT,
        (ElementType::Other(m), ElementType::Other(n)) => m == n,
        _ => false,
    }
}

fn is_object_element(element: ElementType) -> bool
    ensures { result ≡ subtypes.is_object_element element }
{
    matches!(element, ElementType::Class(OBJECT))
}

/// Tests whether a type of references is below another one. The relation says it of classes of the program; a class that
/// isn't in the program is below itself and Object alone. An array is below Object, below arrays of as many dimensions
/// whose elements are above its own, and below arrays of Object of fewer dimensions. It asks the relation at most once.
pub fn is_object_below<R: ClassRelation>(relation: &R, low: ObjectType, high: ObjectType) -> bool
    ensures { result ≡ subtypes.is_object_below (R.is_below relation.now) low high }
{
    match (low, high) {
        (ObjectType::Class(c), ObjectType::Class(d)) => relation.is_class_below(c, d),
        (ObjectType::Other(m), ObjectType::Other(n)) => m == n,
        (ObjectType::Other(_) | ObjectType::Array(_, _), ObjectType::Class(d)) => d == OBJECT,
        (ObjectType::Array(m, x), ObjectType::Array(n, y)) if m == n => is_element_below(
            relation, x, y,
        ),
        (ObjectType::Array(m, _), ObjectType::Array(n, y)) => n < m && is_object_element(y),
        _ => false,
    }
}
