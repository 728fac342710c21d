//! The access flags of classes, fields and methods (JVMS SE 8, 4.1, 4.5 and 4.6).
//!
//! A flag that means one thing of a class and another of a member has the name that it has among members: 0x0020
//! is `ACC_SUPER` of a class, 0x0040 is `ACC_BRIDGE` of a method.
#![tactic(auto)]

ghost use Rattle.std.specs.Prelude.{◌≡◌};
ghost use Rattle.access_flags.specs.Flags.{has};

/// Can be named from other packages.
pub const PUBLIC: u16 = 0x0001;

/// Can be named in its own class alone.
pub const PRIVATE: u16 = 0x0002;

/// Can be named in its package and in subclasses.
pub const PROTECTED: u16 = 0x0004;

/// Belongs to its class and not to an object.
pub const STATIC: u16 = 0x0008;

/// A class has no subclasses, a field isn't written after its initializer, a method isn't overridden.
pub const FINAL: u16 = 0x0010;

/// A method runs under a monitor.
pub const SYNCHRONIZED: u16 = 0x0020;

/// A field isn't cached.
pub const VOLATILE: u16 = 0x0040;

/// A method isn't written in Java.
pub const NATIVE: u16 = 0x0100;

/// An interface, and no class.
pub const INTERFACE: u16 = 0x0200;

/// A class has no objects of its own, a method has no code.
pub const ABSTRACT: u16 = 0x0400;

/// Whether one of the bits of `flag` is set in `flags`.
pub fn has(flags: u16, flag: u16) -> bool
    ensures { result ≡ has flags flag }
{
    flags & flag != 0
}
