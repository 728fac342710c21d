//! The types of words, as the type checker knows them.

use link_types::ObjectType;

/// A verification type (JVMS 4.10.1.2): what is known of one word of a frame. A class is given by its number.
///
/// A long is `Long` and then `Second`, a double `Double` and then `Second`: two locals, or two words of the stack with
/// `Second` on top. No instruction makes a float or a double, so both come from stack map frames alone, at code that
/// nothing reaches.
#[derive(Clone, Copy)]
pub enum VerificationType {
    /// Anything: nothing is known of the word.
    Top,
    Int,
    Float,
    /// The first word of a long.
    Long,
    /// The first word of a double.
    Double,
    /// The second word of the long or double that comes before it.
    Second,
    Null,
    /// The object that a constructor has yet to initialize.
    UninitThis,
    /// What the `new` at an offset made, not yet initialized.
    Uninit(u32),
    /// Null, or an initialized object of this type.
    Object(ObjectType),
}
