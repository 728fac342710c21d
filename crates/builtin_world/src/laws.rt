//! What holds of the table as a whole. Each function does nothing: its contract is the law.
ghost use Rattle.std.specs.Prelude.{◌≡◌, Some};
ghost use Rattle.builtin_world.specs.Laws.{NumbersRunFromOne, NamesAreDistinct, NumbersAreDistinct, SupersComeFirst, InterfacesComeFirst, SupersAreOpen, InterfacesAreInterfaces, ThrowablesComeTogether, SubclassesKeepWords, MethodsAreDistinct, MethodsAreFew, NativesAreOwn};
ghost use Rattle.builtin_world.specs.Native.{member_of, native_at};

use crate::Native;

/// The numbers of the built-in classes are 1, 2 and so on, without a gap.
pub fn numbers_run_from_one()
    ensures { NumbersRunFromOne }
{}

/// No two built-in classes have one name or one number.
pub fn classes_are_distinct()
    ensures names { NamesAreDistinct }
    ensures numbers { NumbersAreDistinct }
{}

/// Each built-in class comes after its superclass and its superinterfaces.
pub fn supers_come_first()
    ensures classes { SupersComeFirst }
    ensures interfaces { InterfacesComeFirst }
{}

/// Each superclass of a built-in class is a class that is not final, and each superinterface an interface.
pub fn supers_can_be_extended()
    ensures classes { SupersAreOpen }
    ensures interfaces { InterfacesAreInterfaces }
{}

/// Throwable and the classes below it are the built-in classes from Throwable up to the one before StringBuilder.
pub fn throwables_come_together()
    ensures { ThrowablesComeTogether }
{}

/// An object of a built-in class begins with the words of an object of its superclass.
pub fn subclasses_keep_words()
    ensures { SubclassesKeepWords }
{}

/// No built-in class has two methods of one name and descriptor, or 65,536 methods.
pub fn methods_are_distinct()
    ensures distinct { MethodsAreDistinct }
    ensures few { MethodsAreFew }
{}

/// Each method has the native that stands for it.
pub fn natives_are_own()
    ensures { NativesAreOwn }
{}

/// Each native stands for a method of the table.
pub fn natives_are_used(native: Native)
    ensures { native_at (member_of native) ≡ Some native }
{}
