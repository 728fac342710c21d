//! The number of each built-in class.
ghost use Rattle.builtin_world.specs.Laws.{ConstantsAreNumbers};

pub const OBJECT: u32 = 1;

pub const CLASS: u32 = 2;

pub const STRING: u32 = 3;

pub const SYSTEM: u32 = 4;

pub const PRINT_STREAM: u32 = 5;

pub const RUNNABLE: u32 = 6;

pub const THREAD: u32 = 7;

pub const THROWABLE: u32 = 8;

pub const EXCEPTION: u32 = 9;

pub const RUNTIME_EXCEPTION: u32 = 10;

pub const ERROR: u32 = 11;

pub const INTERRUPTED_EXCEPTION: u32 = 12;

pub const ARITHMETIC_EXCEPTION: u32 = 13;

pub const NULL_POINTER_EXCEPTION: u32 = 14;

pub const INDEX_OUT_OF_BOUNDS_EXCEPTION: u32 = 15;

pub const ARRAY_INDEX_OUT_OF_BOUNDS_EXCEPTION: u32 = 16;

pub const NEGATIVE_ARRAY_SIZE_EXCEPTION: u32 = 17;

pub const ARRAY_STORE_EXCEPTION: u32 = 18;

pub const CLASS_CAST_EXCEPTION: u32 = 19;

pub const ILLEGAL_MONITOR_STATE_EXCEPTION: u32 = 20;

pub const ILLEGAL_ARGUMENT_EXCEPTION: u32 = 21;

pub const ILLEGAL_THREAD_STATE_EXCEPTION: u32 = 22;

pub const ILLEGAL_STATE_EXCEPTION: u32 = 23;

pub const LINKAGE_ERROR: u32 = 24;

pub const NO_CLASS_DEF_FOUND_ERROR: u32 = 25;

pub const EXCEPTION_IN_INITIALIZER_ERROR: u32 = 26;

pub const INCOMPATIBLE_CLASS_CHANGE_ERROR: u32 = 27;

pub const STRING_BUILDER: u32 = 28;

/// How many built-in classes there are: the first class of a program has the next number.
pub const COUNT: u32 = 28;

/// Each constant above is the number of the class that it names.
pub fn constants_are_numbers()
    ensures { ConstantsAreNumbers }
{}
