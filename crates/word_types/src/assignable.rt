//! Which type is assignable to which (JVMS 4.10.1.2).

ghost use Rattle.std.specs.Prelude.{◌≡◌};
ghost use Rattle.type_rules.specs.Assignable as assignable;

use crate::ClassHierarchy;
use builtin_world::number::OBJECT;
use link_types::ObjectType;
use type_relations::{ClassRelation, is_object_below};
use type_rules::VerificationType;

// Whether a class of the program is assignable to another one.
fn is_class_assignable<H: ClassHierarchy>(hierarchy: &H, low: u32, high: u32) -> bool
    ensures { result ≡ assignable.is_class_assignable (H.hierarchy hierarchy.now) low high }
{
    high == OBJECT
        || hierarchy.is_interface(high)
        || (!hierarchy.is_interface(low) && hierarchy.is_superclass(low, high))
}

// The classes of a program, related as assignability has it.
#[derive(Drop)]
struct Assignability<'a, H: ClassHierarchy> {
    hierarchy: &'a H,
}

impl<'a, H: ClassHierarchy> ClassRelation for Assignability<'a, H> {
    ghost use Rattle.type_rules.specs.Assignable as assignable;

    ghost is_below = { λ a. assignable.is_class_assignable (H.hierarchy a.hierarchy.now) };

    fn is_class_below(&self, low: u32, high: u32) -> bool {
        is_class_assignable(self.hierarchy, low, high)
    }
}

/// Tests whether a reference of one type is assignable to another type. Every class and every interface of the program
/// is assignable to each interface, a class that isn't in the program only to itself and to Object, an array to Object
/// and by its elements.
pub fn is_object_assignable<H: ClassHierarchy>(
    hierarchy: &H,
    low: ObjectType,
    high: ObjectType,
) -> bool
    ensures { result ≡ assignable.is_object_assignable (H.hierarchy hierarchy.now) low high }
{
    is_object_below(&Assignability { hierarchy }, low, high)
}

/// Tests whether a word of one type is assignable to another type: each to Top and to itself, null to every
/// reference that is initialized, references by their types.
pub fn is_assignable<H: ClassHierarchy>(
    hierarchy: &H,
    low: VerificationType,
    high: VerificationType,
) -> bool
    ensures { result ≡ assignable.is_assignable (H.hierarchy hierarchy.now) low high }
{
    match (low, high) {
        (_, VerificationType::Top)
        | (VerificationType::Int, VerificationType::Int)
        | (VerificationType::Float, VerificationType::Float)
        | (VerificationType::Long, VerificationType::Long)
        | (VerificationType::Double, VerificationType::Double)
        | (VerificationType::Second, VerificationType::Second)
        | (VerificationType::Null, VerificationType::Null | VerificationType::Object(_))
        | (VerificationType::UninitThis, VerificationType::UninitThis) => true,
        (VerificationType::Uninit(p), VerificationType::Uninit(q)) => p == q,
        (VerificationType::Object(s), VerificationType::Object(t)) => is_object_assignable(
            hierarchy, s, t,
        ),
        _ => false,
    }
}
