//! Entries that hold no bytes, as keys of a map.

ghost use Rattle.std.specs.Prelude.{◌≡◌};
ghost use Rattle.class_walk.specs.Layout.{Fits};
ghost use Rattle.assembler_pool.specs.Key.{constant_of};

use class_walk::Constant;

/// An entry other than a text.
#[derive(Clone, Copy, PartialEq, Eq, PartialOrd, Ord)]
pub enum Key {
    Integer(i32),
    Long(i64),
    Class(u16),
    Str(u16),
    Field(u16, u16),
    Method(u16, u16),
    IfaceMethod(u16, u16),
    Pair(u16, u16),
}

/// The entry of a key.
pub fn constant(key: Key) -> Constant
    ensures value { result ≡ constant_of key }
    ensures fits { Fits (constant_of key) }
{
    match key {
        Key::Integer(value) => Constant::Integer(value),
        Key::Long(value) => Constant::Long(value),
        Key::Class(name) => Constant::Class(name),
        Key::Str(text) => Constant::Str(text),
        Key::Field(class, pair) => Constant::Field(class, pair),
        Key::Method(class, pair) => Constant::Method(class, pair),
        Key::IfaceMethod(class, pair) => Constant::IfaceMethod(class, pair),
        Key::Pair(name, descriptor) => Constant::Pair(name, descriptor),
    }
}
