//! The exceptions that the machine itself makes.

ghost use Rattle.std.specs.Prelude.{◌≡◌, ◌≤◌, ◌<◌};
ghost use Rattle.builtin_world.specs.BuiltinClass.{number_of};
ghost use Rattle.builtin_world.specs.MachineException.{class_name_of};

use crate::number::{self, COUNT, THROWABLE};

/// An exception that the machine itself makes, with a null message, where JVMS 6.5 or the Java SE 8
/// API documentation lets an instruction or a built-in method throw it.
#[derive(Clone, Copy)]
pub enum MachineException {
    /// A zero divisor of an int or long division or remainder.
    Arithmetic,
    /// A null reference where an object, an array, a monitor or a thrown object is wanted.
    NullPointer,
    /// An array index below 0 or not below the length.
    ArrayIndexOutOfBounds,
    /// A new array of a length below 0.
    NegativeArraySize,
    /// A reference stored into an array whose elements are of another class.
    ArrayStore,
    /// A reference cast to a class that the object is not of.
    ClassCast,
    /// A monitor left, waited on or notified by a thread that does not own it.
    IllegalMonitorState,
    /// A priority that is not 1 to 10.
    IllegalArgument,
    /// A second start of a thread.
    IllegalThreadState,
    /// A use of a class whose initialization failed before.
    NoClassDefFound,
    /// An initialization of a class that ended with an exception that is no Error.
    ExceptionInInitializer,
    /// A call through an interface that the object's class does not implement.
    IncompatibleClassChange,
}

impl MachineException {
    /// The number of its class, which is below Throwable.
    #[tactic(auto, unfolding(crate::specs::Library::library))]
    pub fn class_number(self) -> u32
        ensures number { result ≡ number_of (class_name_of self) }
        ensures below { THROWABLE < result }
        ensures built_in { result ≤ COUNT }
    {
        match self {
            MachineException::Arithmetic => number::ARITHMETIC_EXCEPTION,
            MachineException::NullPointer => number::NULL_POINTER_EXCEPTION,
            MachineException::ArrayIndexOutOfBounds => number::ARRAY_INDEX_OUT_OF_BOUNDS_EXCEPTION,
            MachineException::NegativeArraySize => number::NEGATIVE_ARRAY_SIZE_EXCEPTION,
            MachineException::ArrayStore => number::ARRAY_STORE_EXCEPTION,
            MachineException::ClassCast => number::CLASS_CAST_EXCEPTION,
            MachineException::IllegalMonitorState => number::ILLEGAL_MONITOR_STATE_EXCEPTION,
            MachineException::IllegalArgument => number::ILLEGAL_ARGUMENT_EXCEPTION,
            MachineException::IllegalThreadState => number::ILLEGAL_THREAD_STATE_EXCEPTION,
            MachineException::NoClassDefFound => number::NO_CLASS_DEF_FOUND_ERROR,
            MachineException::ExceptionInInitializer => number::EXCEPTION_IN_INITIALIZER_ERROR,
            MachineException::IncompatibleClassChange => number::INCOMPATIBLE_CLASS_CHANGE_ERROR,
        }
    }
}
