//! The wants of instructions, read on a word each (JVMS 4.10.1.9).

ghost use Rattle.std.specs.Prelude.{◌≡◌, ℕ, [], ◌∷◌};
ghost use Rattle.type_rules.specs.Environment.{Environment};
ghost use Rattle.type_rules.specs.Wants as wants;
ghost use Rattle.type_rules.specs.declared.types.VerificationType.TheVariants as words;
ghost use Rattle.word_types.specs.Verdicts.{verdict_meant, is_element_among};

use crate::{ClassHierarchy, Verdict, is_object_assignable, is_same_object};
use instructions::ElementKind;
use link_types::{ElementType, ObjectType};
use type_rules::VerificationType;

/// Tests whether a word is no second one of a long or a double.
pub fn is_whole(word: VerificationType) -> bool
    ensures { result ≡ wants.is_whole word }
{
    !matches!(word, VerificationType::Second)
}

/// Tests whether a word is an int.
pub fn is_int(word: VerificationType) -> bool
    ensures { result ≡ wants.is_int_word word }
{
    matches!(word, VerificationType::Int)
}

/// Tests whether the word on top of a stack and the one under it are a long.
pub fn is_long(top: VerificationType, under: VerificationType) -> bool
    ensures { (env : Environment)
        → wants.right_if result ∷ [] ≡ wants.verdicts env (wants.a_long ∷ []) (top ∷ under ∷ []) }
{
    matches!(
        (top, under),
        (VerificationType::Second, VerificationType::Long)
    )
}

/// Tests whether a word is a reference, also one to an object that isn't initialized.
pub fn is_reference(word: VerificationType) -> bool
    ensures { result ≡ wants.is_reference_type word }
{
    matches!(
        word,
        VerificationType::Null
            | VerificationType::Object(_)
            | VerificationType::UninitThis
            | VerificationType::Uninit(_)
    )
}

fn right_if(is_right: bool) -> Verdict
    ensures { verdict_meant result ≡ wants.right_if is_right }
{
    if is_right {
        Verdict::Right
    } else {
        Verdict::Wrong
    }
}

/// Where null or an initialized object is wanted.
pub fn reference_verdict(word: VerificationType) -> Verdict
    ensures { (env : Environment) → verdict_meant result ≡ wants.verdict env wants.a_reference word }
{
    match word {
        VerificationType::Null | VerificationType::Object(_) => Verdict::Right,
        VerificationType::UninitThis | VerificationType::Uninit(_) => Verdict::Uninitialized,
        _ => Verdict::Wrong,
    }
}

/// Where null or an object of a type is wanted.
pub fn reference_to_verdict<H: ClassHierarchy>(
    hierarchy: &H,
    named: ObjectType,
    word: VerificationType,
) -> Verdict
    ensures { (env : Environment) → env.hierarchy ≡ H.hierarchy hierarchy.now
        → verdict_meant result ≡ wants.verdict env (wants.a_reference_to named) word }
{
    match word {
        VerificationType::Null => Verdict::Right,
        VerificationType::Object(t) => right_if(is_object_assignable(hierarchy, t, named)),
        VerificationType::UninitThis | VerificationType::Uninit(_) => Verdict::Uninitialized,
        _ => Verdict::Wrong,
    }
}

fn is_element_of_kind(kind: ElementKind, element: ElementType) -> bool
    ensures { result ≡ is_element_among (wants.element_types kind) element }
{
    match kind {
        ElementKind::Int => matches!(element, ElementType::Int),
        ElementKind::Long => matches!(element, ElementType::Long),
        ElementKind::Reference => false,
        ElementKind::ByteOrBoolean => matches!(element, ElementType::Byte | ElementType::Boolean),
        ElementKind::Char => matches!(element, ElementType::Char),
        ElementKind::Short => matches!(element, ElementType::Short),
    }
}

fn is_array_of_kind(kind: ElementKind, t: ObjectType) -> bool
    ensures { result ≡ wants.is_array_of_one (wants.element_types kind) t }
{
    match t {
        ObjectType::Array(dimensions, element) => dimensions == 1
            && is_element_of_kind(kind, element),
        _ => false,
    }
}

/// Tests a word where null or an array of numbers of a kind is wanted. No array is right for the kind of references:
/// see [`array_of_references_verdict`].
pub fn array_of_kind_verdict(kind: ElementKind, word: VerificationType) -> Verdict
    ensures { (env : Environment)
        → verdict_meant result ≡ wants.verdict env (wants.an_array_of (wants.element_types kind)) word }
{
    match word {
        VerificationType::Null => Verdict::Right,
        VerificationType::Object(t) => right_if(is_array_of_kind(kind, t)),
        VerificationType::UninitThis | VerificationType::Uninit(_) => Verdict::Uninitialized,
        _ => Verdict::Wrong,
    }
}

/// Where null or an array is wanted.
pub fn array_verdict(word: VerificationType) -> Verdict
    ensures { (env : Environment) → verdict_meant result ≡ wants.verdict env wants.an_array word }
{
    match word {
        VerificationType::Null => Verdict::Right,
        VerificationType::Object(ObjectType::Array(_, _)) => Verdict::Right,
        VerificationType::UninitThis | VerificationType::Uninit(_) => Verdict::Uninitialized,
        _ => Verdict::Wrong,
    }
}

fn is_array_of_references(t: ObjectType) -> bool
    ensures { result ≡ wants.is_array_of_references t }
{
    match t {
        ObjectType::Array(dimensions, element) => {
            dimensions > 1
                || (dimensions == 1
                    && matches!(element, ElementType::Class(_) | ElementType::Other(_)))
        }
        _ => false,
    }
}

/// Where null or an array of references is wanted.
pub fn array_of_references_verdict(word: VerificationType) -> Verdict
    ensures { (env : Environment) → verdict_meant result ≡ wants.verdict env wants.an_array_of_references word }
{
    match word {
        VerificationType::Null => Verdict::Right,
        VerificationType::Object(t) => right_if(is_array_of_references(t)),
        VerificationType::UninitThis | VerificationType::Uninit(_) => Verdict::Uninitialized,
        _ => Verdict::Wrong,
    }
}

/// Where the object of a constructor whose class declares a field is wanted, or a reference to the named class.
pub fn receiver_to_set_verdict<H: ClassHierarchy>(
    hierarchy: &H,
    named: ObjectType,
    word: VerificationType,
) -> Verdict
    ensures { (env : Environment) → env.hierarchy ≡ H.hierarchy hierarchy.now
        → verdict_meant result ≡ wants.verdict env (wants.a_receiver_to_set named) word }
{
    match word {
        VerificationType::Null | VerificationType::UninitThis => Verdict::Right,
        VerificationType::Object(t) => right_if(is_object_assignable(hierarchy, t, named)),
        VerificationType::Uninit(_) => Verdict::Uninitialized,
        _ => Verdict::Wrong,
    }
}

/// Where a reference to the named class and to the class of the method is wanted.
pub fn receiver_here_verdict<H: ClassHierarchy>(
    hierarchy: &H,
    class: u32,
    named: ObjectType,
    word: VerificationType,
) -> Verdict
    ensures { (env : Environment) → env.hierarchy ≡ H.hierarchy hierarchy.now → env.class ≡ class
        → verdict_meant result ≡ wants.verdict env (wants.a_receiver_here named) word }
{
    match word {
        VerificationType::Null => Verdict::Right,
        VerificationType::Object(t) => right_if(
            is_object_assignable(hierarchy, t, named)
                && is_object_assignable(hierarchy, t, ObjectType::Class(class)),
        ),
        VerificationType::UninitThis | VerificationType::Uninit(_) => Verdict::Uninitialized,
        _ => Verdict::Wrong,
    }
}

/// Tests whether a call of the named class's `<init>` may initialize a word, in a method of a class and its direct
/// superclass. Where the word is what a `new` made, `made` is the type that the `new` makes; else it isn't looked at.
pub fn initializes(
    class: u32,
    direct_super: u32,
    made: ObjectType,
    named: ObjectType,
    word: VerificationType,
) -> bool
    ensures { (env : Environment) → env.class ≡ class → env.super ≡ direct_super
        → ((p : ℕ) → word ≡ words.Uninit p → env.made_at p ≡ made)
        → result ≡ wants.initializes env named word }
{
    match word {
        VerificationType::UninitThis => {
            is_same_object(named, ObjectType::Class(class))
                || is_same_object(named, ObjectType::Class(direct_super))
        }
        VerificationType::Uninit(_) => is_same_object(named, made),
        _ => false,
    }
}
