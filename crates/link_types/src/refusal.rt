//! Why a program isn't linked.

ghost use Rattle.std.specs.Prelude.{◌≡◌};
ghost use Rattle.link_types.specs.declared.refusal.LinkRefusal.TheVariants as refusals;
ghost use Rattle.link_types.specs.LinkKind.{kind_number};

use std::alloc::{AllocError, AllocFailed};

/// A rule of linking that a program breaks (JVMS 5.3.5, 5.4), with the error that a Java programmer knows it by.
/// Java finds most of them as late as the class or the instruction is used; here they are found before the program
/// begins.
#[derive(Clone, Copy)]
pub enum LinkKind {
    /// Two class files define one class, or one defines a built-in class (`LinkageError`: duplicate class definition,
    /// JVMS 5.3.5).
    Twice,
    /// A superclass, an interface or a class that an instruction or a handler names isn't there, or of an array class
    /// the class of its innermost elements (`NoClassDefFoundError`, JVMS 5.3).
    Missing,
    /// A class is a superclass or superinterface of itself (`ClassCircularityError`, JVMS 5.3.5).
    Cycle,
    /// A class extends a final class (`VerifyError`, JVMS 4.10).
    FinalSuper,
    /// What is named as an interface is a class, after `implements` or in a call by invokeinterface
    /// (`IncompatibleClassChangeError`, JVMS 5.3.5, 5.4.3.4).
    NotInterface,
    /// The class has no field of this name and descriptor, nor does it inherit one; or `System.out` is assigned
    /// (`NoSuchFieldError`, JVMS 5.4.3.2).
    NoField,
    /// The class has no method of this name and descriptor, nor does it inherit one (`NoSuchMethodError`, JVMS
    /// 5.4.3.3); or a class that isn't abstract doesn't implement an abstract method, or a call by invokespecial finds
    /// an abstract one (`AbstractMethodError`, JVMS 6.5).
    NoMethod,
    /// A static member where the instruction wants one of an object, or the other way round
    /// (`IncompatibleClassChangeError`, JVMS 6.5).
    StaticMismatch,
    /// A private member of another class is named, or a method that isn't public implements a method of an interface
    /// (`IllegalAccessError`, JVMS 5.4.4, 6.5 invokeinterface).
    Private,
    /// A field is a volatile long: a long is read and written as two words here.
    VolatileLong,
    /// A method is native (`UnsatisfiedLinkError`, JVMS 5.6): only built-in methods are.
    Native,
    /// A method of an interface has code: default and static methods of interfaces aren't executed.
    DefaultMethod,
    /// There are more than 1,024 class files.
    TooMany,
    /// The descriptor of a member has a float or a double, which aren't executed.
    FloatUse,
    /// A method overrides a final one (`VerifyError`, JVMS 4.10).
    FinalMethod,
    /// A class extends an interface, or an interface another class than java/lang/Object
    /// (`IncompatibleClassChangeError`, JVMS 5.3.5; `ClassFormatError`, JVMS 4.1); `new` of an interface, an abstract
    /// class or an array class (`InstantiationError`, JVMS 6.5 new); or a call that isn't invokeinterface of a method of
    /// an interface (`IncompatibleClassChangeError`, JVMS 5.4.3.3).
    NotClass,
}

impl LinkKind {
    /// The number that identifies the kind, from 1 in the order of the variants.
    pub fn number(self) -> u8
        ensures { result ≡ kind_number self }
    {
        match self {
            LinkKind::Twice => 1,
            LinkKind::Missing => 2,
            LinkKind::Cycle => 3,
            LinkKind::FinalSuper => 4,
            LinkKind::NotInterface => 5,
            LinkKind::NoField => 6,
            LinkKind::NoMethod => 7,
            LinkKind::StaticMismatch => 8,
            LinkKind::Private => 9,
            LinkKind::VolatileLong => 10,
            LinkKind::Native => 11,
            LinkKind::DefaultMethod => 12,
            LinkKind::TooMany => 13,
            LinkKind::FloatUse => 14,
            LinkKind::FinalMethod => 15,
            LinkKind::NotClass => 16,
        }
    }
}

/// Why a program wasn't linked.
#[derive(Clone, Copy)]
pub enum LinkRefusal {
    /// There was no memory.
    NoMemory,
    /// A rule is broken.
    At {
        kind: LinkKind,
        /// The place of the class's file among the files, from 0; 1,024 where there are too many.
        class: u32,
        /// An index of the constant pool of that class, or 0: of the entry that names the superclass, the interface,
        /// the class or the member at fault, or of the name of the declared member at fault.
        place: u16,
    },
}

impl From<AllocError> for LinkRefusal {
    ghost from_gives = { λ _ e. e ≡ refusals.NoMemory };

    fn from(_error: AllocError) -> Self {
        LinkRefusal::NoMemory
    }
}

impl<T: Drop> From<AllocFailed<T>> for LinkRefusal {
    ghost from_gives = { λ _ e. e ≡ refusals.NoMemory };

    fn from(_error: AllocFailed<T>) -> Self {
        LinkRefusal::NoMemory
    }
}
