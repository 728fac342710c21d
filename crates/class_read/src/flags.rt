//! Which access flags go together (JVMS 4.1, 4.5, 4.6).

ghost use Rattle.std.specs.Prelude.{◌≡◌};
ghost use Rattle.class_read.specs.ClassRules.{are_class_flags};
ghost use Rattle.class_read.specs.MemberRules.{has_two_accesses, are_field_flags, is_unlike_abstract, are_method_flags, wants_code};

use access_flags::{
    ABSTRACT, FINAL, INTERFACE, NATIVE, PRIVATE, PROTECTED, PUBLIC, STATIC, SYNCHRONIZED, VOLATILE,
    has,
};

fn has_two_accesses(flags: u16) -> bool
    ensures { result ≡ has_two_accesses flags }
{
    has(flags, PUBLIC) && has(flags, PRIVATE)
        || has(flags, PUBLIC) && has(flags, PROTECTED)
        || has(flags, PRIVATE) && has(flags, PROTECTED)
}

/// Whether a class may have these flags.
pub fn are_class_flags(flags: u16) -> bool
    ensures { result ≡ are_class_flags flags }
{
    (!has(flags, INTERFACE) || has(flags, ABSTRACT) && !has(flags, FINAL))
        && !(has(flags, FINAL) && has(flags, ABSTRACT))
}

/// Whether a field of an interface or of another class may have these flags.
pub fn are_field_flags(is_interface: bool, flags: u16) -> bool
    ensures { result ≡ are_field_flags is_interface flags }
{
    !has_two_accesses(flags)
        && !(has(flags, FINAL) && has(flags, VOLATILE))
        && (!is_interface || has(flags, PUBLIC) && has(flags, STATIC) && has(flags, FINAL))
}

/// Whether one of the flags is set that don't go with abstract.
fn is_unlike_abstract(flags: u16) -> bool
    ensures { result ≡ is_unlike_abstract flags }
{
    has(flags, PRIVATE)
        || has(flags, STATIC)
        || has(flags, FINAL)
        || has(flags, SYNCHRONIZED)
        || has(flags, NATIVE)
}

/// Whether a method may have these flags.
pub fn are_method_flags(flags: u16) -> bool
    ensures { result ≡ are_method_flags flags }
{
    !has_two_accesses(flags) && !(has(flags, ABSTRACT) && is_unlike_abstract(flags))
}

/// Whether a method with these flags has code.
pub fn wants_code(flags: u16) -> bool
    ensures { result ≡ wants_code flags }
{
    !(has(flags, ABSTRACT) || has(flags, NATIVE))
}
