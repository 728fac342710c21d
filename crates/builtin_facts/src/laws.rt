//! The built-in classes in every program.

ghost use Rattle.std.specs.Prelude.{List};
ghost use Rattle.code_decode.specs.declared.code.ClassUnit.{ClassUnit};
ghost use Rattle.builtin_facts.specs.Facts.{BuiltInClassesHaveNumbers, HasCharArrays, NativesFit, NativesFitTheirTable, RunsTakeNothing};

/// Each built-in class is a class of the program.
pub fn built_in_classes_have_numbers()
    ensures { BuiltInClassesHaveNumbers }
{}

/// Each program has the class of the arrays with the units of Strings.
pub fn char_arrays_are_there()
    ensures { (us : List ClassUnit) → HasCharArrays us }
{}

/// A method of a built-in class that isn't abstract takes and gives what the table of such methods says, is static where
/// it says so, and is declared by the class that it says.
pub fn natives_fit_their_table()
    ensures { NativesFitTheirTable }
{}

/// In a linked program each method of a built-in class that isn't abstract fits, as `Accepted` asks it.
pub fn natives_fit()
    ensures { NativesFit }
{}

/// `run` of Thread and of Runnable take nothing, and that of Runnable gives nothing.
pub fn runs_take_nothing()
    ensures { (us : List ClassUnit) → RunsTakeNothing us }
{}
