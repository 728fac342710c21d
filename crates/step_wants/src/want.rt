//! What is wanted of a word.

ghost use Rattle.std.specs.Prelude.{◌≡◌};
ghost use Rattle.type_rules.specs.Wants as wants;
ghost use Rattle.step_wants.specs.Wanted.{want_meant};

use instructions::{ElementKind, ValueKind};
use link_types::{ObjectType, ValueType};

/// What an instruction wants of the word on top of the stack, or of two where it is a long (JVMS 4.10.1.9).
#[derive(Clone, Copy)]
pub enum Want {
    /// Any word.
    Word,
    /// Any word that isn't the second one of a long or a double.
    Whole,
    Int,
    Long,
    /// Any reference, also one to an object that isn't initialized.
    StoredReference,
    /// Null, or an initialized object.
    Reference,
    /// Null, or an initialized object of a type.
    ReferenceTo(ObjectType),
    /// Null, or an array of the numbers of a kind. There is none of the kind of references.
    ArrayOf(ElementKind),
    Array,
    ArrayOfReferences,
    /// The object of a constructor whose class declares the field, or a reference to the named class.
    ReceiverToSet(ObjectType),
    /// A reference to the named class and to the class of the method.
    ReceiverHere(ObjectType),
    /// An object of the named class that isn't initialized.
    ToInitialize(ObjectType),
}

impl Want {
    /// How many words that is: two for a long, else one.
    pub fn words(self) -> u32
        ensures { result ≡ wants.want_size (want_meant self) }
    {
        match self {
            Want::Long => 2,
            _ => 1,
        }
    }
}

/// What is wanted where a value is stored or returned.
pub(crate) fn value_wanted(kind: ValueKind) -> Want
    ensures { want_meant result ≡ wants.value_wanted kind }
{
    match kind {
        ValueKind::Int => Want::Int,
        ValueKind::Long => Want::Long,
        ValueKind::Reference => Want::Reference,
    }
}

/// What is wanted where a value of a type is passed or put into a field.
pub(crate) fn type_wanted(value: ValueType) -> Want
    ensures { want_meant result ≡ wants.type_wanted value }
{
    match value {
        ValueType::Long => Want::Long,
        ValueType::Object(t) => Want::ReferenceTo(t),
        _ => Want::Int,
    }
}

/// What is wanted where an array's element is read or written.
pub(crate) fn array_wanted(kind: ElementKind) -> Want
    ensures { want_meant result ≡ wants.array_wanted kind }
{
    match kind {
        ElementKind::Reference => Want::ArrayOfReferences,
        _ => Want::ArrayOf(kind),
    }
}

/// What is wanted where an element is put into an array.
pub(crate) fn element_wanted(kind: ElementKind) -> Want
    ensures { want_meant result ≡ wants.element_wanted kind }
{
    match kind {
        ElementKind::Reference => Want::Reference,
        ElementKind::Long => Want::Long,
        _ => Want::Int,
    }
}
