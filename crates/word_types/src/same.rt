//! Whether types are the same.

ghost use Rattle.std.specs.Prelude.{◌≡◌};
ghost use Rattle.type_rules.specs.Assignable as assignable;

use link_types::{ElementType, ObjectType};
use type_rules::VerificationType;

/// Tests whether two types of elements are the same.
pub fn is_same_element(a: ElementType, b: ElementType) -> bool
    ensures { result ≡ assignable.is_same_element a b }
{
    match (a, b) {
        (ElementType::Boolean, ElementType::Boolean)
        | (ElementType::Byte, ElementType::Byte)
        | (ElementType::Char, ElementType::Char)
        | (ElementType::Short, ElementType::Short)
        | (ElementType::Int, ElementType::Int)
        | (ElementType::Long, ElementType::Long)
        | (ElementType::Float, ElementType::Float)
        | (ElementType::Double, ElementType::Double) => true,
        (ElementType::Class(c), ElementType::Class(d)) => c == d,
        (ElementType::Other(m), ElementType::Other(n)) => m == n,
        _ => false,
    }
}

/// Tests whether two types of references are the same.
pub fn is_same_object(a: ObjectType, b: ObjectType) -> bool
    ensures { result ≡ assignable.is_same_object a b }
{
    match (a, b) {
        (ObjectType::Class(c), ObjectType::Class(d)) => c == d,
        (ObjectType::Other(m), ObjectType::Other(n)) => m == n,
        (ObjectType::Array(m, x), ObjectType::Array(n, y)) => m == n && is_same_element(x, y),
        _ => false,
    }
}

/// Tests whether two verification types are the same.
pub fn is_same_type(a: VerificationType, b: VerificationType) -> bool
    ensures { result ≡ assignable.is_same_type a b }
{
    match (a, b) {
        (VerificationType::Top, VerificationType::Top)
        | (VerificationType::Int, VerificationType::Int)
        | (VerificationType::Float, VerificationType::Float)
        | (VerificationType::Long, VerificationType::Long)
        | (VerificationType::Double, VerificationType::Double)
        | (VerificationType::Second, VerificationType::Second)
        | (VerificationType::Null, VerificationType::Null)
        | (VerificationType::UninitThis, VerificationType::UninitThis) => true,
        (VerificationType::Uninit(p), VerificationType::Uninit(q)) => p == q,
        (VerificationType::Object(s), VerificationType::Object(t)) => is_same_object(s, t),
        _ => false,
    }
}
