//! What instructions do, as far as their operands don't say it.

/// The type of a value that is moved (JVMS 2.11.1).
#[derive(Clone, Copy)]
pub enum ValueKind {
    Int,
    Long,
    Reference,
}

/// The type of the elements of an array that is read or written. One instruction serves arrays of byte and
/// of boolean.
#[derive(Clone, Copy)]
pub enum ElementKind {
    Int,
    Long,
    Reference,
    ByteOrBoolean,
    Char,
    Short,
}

/// The element type of an array that newarray makes (JVMS 6.5, table 6.5.newarray-A).
#[derive(Clone, Copy)]
pub enum PrimitiveType {
    Boolean,
    Char,
    Byte,
    Short,
    Int,
    Long,
}

/// What is done with the words on top of the operand stack (JVMS 2.11.6).
#[derive(Clone, Copy)]
pub enum StackOperation {
    Pop,
    Pop2,
    Dup,
    DupX1,
    DupX2,
    Dup2,
    Dup2X1,
    Dup2X2,
    Swap,
}

/// What makes one number of two of the same type (JVMS 2.11.3).
#[derive(Clone, Copy)]
pub enum Arithmetic {
    Add,
    Subtract,
    Multiply,
    Divide,
    Remainder,
    And,
    Or,
    Xor,
}

/// How a number is shifted by an int (JVMS 2.11.3).
#[derive(Clone, Copy)]
pub enum Shift {
    Left,
    Right,
    UnsignedRight,
}

/// A conversion of a number (JVMS 2.11.4).
#[derive(Clone, Copy)]
pub enum Conversion {
    IntToLong,
    LongToInt,
    IntToByte,
    IntToChar,
    IntToShort,
}

/// How a number compares with another, or with zero.
#[derive(Clone, Copy)]
pub enum Condition {
    Equal,
    NotEqual,
    Less,
    GreaterOrEqual,
    Greater,
    LessOrEqual,
}

/// When a branch is taken (JVMS 2.11.7).
#[derive(Clone, Copy)]
pub enum Test {
    /// An int against zero.
    Zero(Condition),
    /// An int against an int.
    Ints(Condition),
    /// Both references are the same.
    Same,
    /// The references differ.
    Different,
    Null,
    NonNull,
    Always,
}

/// Whether a local is read or written.
#[derive(Clone, Copy)]
pub enum LocalAccess {
    Load(ValueKind),
    Store(ValueKind),
}

/// What is done with a field (JVMS 2.11.5).
#[derive(Clone, Copy)]
pub enum FieldAccess {
    GetStatic,
    PutStatic,
    GetField,
    PutField,
}

/// How a method of a class is called (JVMS 2.11.8).
#[derive(Clone, Copy)]
pub enum Call {
    Virtual,
    Special,
    Static,
}

/// What is done with a class (JVMS 2.11.5).
#[derive(Clone, Copy)]
pub enum ClassUse {
    New,
    /// An array of references, by its element class.
    NewArray,
    CheckCast,
    InstanceOf,
}

/// An instruction that has no operands.
#[derive(Clone, Copy)]
pub enum Plain {
    Nop,
    Null,
    ArrayLoad(ElementKind),
    ArrayStore(ElementKind),
    Stack(StackOperation),
    IntArithmetic(Arithmetic),
    LongArithmetic(Arithmetic),
    IntNegate,
    LongNegate,
    IntShift(Shift),
    LongShift(Shift),
    Convert(Conversion),
    LongCompare,
    /// A return, of a value or of none.
    Return(Option<ValueKind>),
    ArrayLength,
    Throw,
    MonitorEnter,
    MonitorExit,
}
