//! Instructions that one look identifies.

ghost use Rattle.std.specs.Prelude.{◌≡◌, IfOk};
ghost use Rattle.interp_local.specs.Quick.{quick_of, quicks_of, quick_arithmetic, quick_long_arithmetic, quick_shift, quick_long_shift, quick_plain, quick_local, quick_if, quick_if_ints, quick_branch};

use instructions::{
    Arithmetic, Condition, Conversion, Instr, LocalAccess, Plain, Shift, StackOperation, Target,
    Test, ValueKind, What,
};
use std::alloc::{AllocError, Global};

/// An instruction so small that one look identifies it: on ints, longs, references and branches, where it needs no
/// operation. A branch has the number of the instruction that it leads to.
#[derive(Clone, Copy)]
pub enum Quick {
    /// An int or a reference of a local.
    Load(u16),
    /// An int or a reference to a local.
    Store(u16),
    Increment(u16, i16),
    LoadLong(u16),
    StoreLong(u16),
    /// A constant.
    Push(u32),
    /// A constant of the constant pool.
    Constant(u16),
    Duplicate,
    Add,
    Subtract,
    Multiply,
    Divide,
    Remainder,
    And,
    Or,
    Xor,
    ShiftLeft,
    ShiftRight,
    ShiftRightUnsigned,
    AddLongs,
    SubtractLongs,
    MultiplyLongs,
    DivideLongs,
    RemainderLongs,
    AndLongs,
    OrLongs,
    XorLongs,
    ShiftLongLeft,
    ShiftLongRight,
    ShiftLongRightUnsigned,
    CompareLongs,
    IntToLong,
    LongToInt,
    /// An int against 0.
    IfEqual(u32),
    IfNotEqual(u32),
    IfLess(u32),
    IfGreaterOrEqual(u32),
    IfGreater(u32),
    IfLessOrEqual(u32),
    /// An int against an int.
    IfIntsEqual(u32),
    IfIntsNotEqual(u32),
    IfIntsLess(u32),
    IfIntsGreaterOrEqual(u32),
    IfIntsGreater(u32),
    IfIntsLessOrEqual(u32),
    /// A reference against another one, or against null.
    IfSame(u32),
    IfDifferent(u32),
    IfNull(u32),
    IfNonNull(u32),
    Goto(u32),
    /// An instruction that needs an operation.
    Operation,
    /// Any other instruction.
    Other,
}

fn make_arithmetic(op: Arithmetic) -> Quick
    ensures { result ≡ quick_arithmetic op }
{
    match op {
        Arithmetic::Add => Quick::Add,
        Arithmetic::Subtract => Quick::Subtract,
        Arithmetic::Multiply => Quick::Multiply,
        Arithmetic::Divide => Quick::Divide,
        Arithmetic::Remainder => Quick::Remainder,
        Arithmetic::And => Quick::And,
        Arithmetic::Or => Quick::Or,
        Arithmetic::Xor => Quick::Xor,
    }
}

fn make_long_arithmetic(op: Arithmetic) -> Quick
    ensures { result ≡ quick_long_arithmetic op }
{
    match op {
        Arithmetic::Add => Quick::AddLongs,
        Arithmetic::Subtract => Quick::SubtractLongs,
        Arithmetic::Multiply => Quick::MultiplyLongs,
        Arithmetic::Divide => Quick::DivideLongs,
        Arithmetic::Remainder => Quick::RemainderLongs,
        Arithmetic::And => Quick::AndLongs,
        Arithmetic::Or => Quick::OrLongs,
        Arithmetic::Xor => Quick::XorLongs,
    }
}

fn make_shift(op: Shift) -> Quick
    ensures { result ≡ quick_shift op }
{
    match op {
        Shift::Left => Quick::ShiftLeft,
        Shift::Right => Quick::ShiftRight,
        Shift::UnsignedRight => Quick::ShiftRightUnsigned,
    }
}

fn make_long_shift(op: Shift) -> Quick
    ensures { result ≡ quick_long_shift op }
{
    match op {
        Shift::Left => Quick::ShiftLongLeft,
        Shift::Right => Quick::ShiftLongRight,
        Shift::UnsignedRight => Quick::ShiftLongRightUnsigned,
    }
}

fn make_plain(op: Plain) -> Quick
    ensures { result ≡ quick_plain op }
{
    match op {
        Plain::Null => Quick::Push(0),
        Plain::Stack(StackOperation::Dup) => Quick::Duplicate,
        Plain::IntArithmetic(op) => make_arithmetic(op),
        Plain::LongArithmetic(op) => make_long_arithmetic(op),
        Plain::IntShift(op) => make_shift(op),
        Plain::LongShift(op) => make_long_shift(op),
        Plain::LongCompare => Quick::CompareLongs,
        Plain::Convert(Conversion::IntToLong) => Quick::IntToLong,
        Plain::Convert(Conversion::LongToInt) => Quick::LongToInt,
        Plain::ArrayLoad(_)
        | Plain::ArrayStore(_)
        | Plain::ArrayLength
        | Plain::Return(_)
        | Plain::Throw
        | Plain::MonitorEnter
        | Plain::MonitorExit => Quick::Operation,
        _ => Quick::Other,
    }
}

fn make_local(access: LocalAccess, local: u16) -> Quick
    ensures { result ≡ quick_local access local }
{
    match access {
        LocalAccess::Load(ValueKind::Long) => Quick::LoadLong(local),
        LocalAccess::Load(_) => Quick::Load(local),
        LocalAccess::Store(ValueKind::Long) => Quick::StoreLong(local),
        LocalAccess::Store(_) => Quick::Store(local),
    }
}

fn make_if(condition: Condition, step: u32) -> Quick
    ensures { result ≡ quick_if condition step }
{
    match condition {
        Condition::Equal => Quick::IfEqual(step),
        Condition::NotEqual => Quick::IfNotEqual(step),
        Condition::Less => Quick::IfLess(step),
        Condition::GreaterOrEqual => Quick::IfGreaterOrEqual(step),
        Condition::Greater => Quick::IfGreater(step),
        Condition::LessOrEqual => Quick::IfLessOrEqual(step),
    }
}

fn make_if_ints(condition: Condition, step: u32) -> Quick
    ensures { result ≡ quick_if_ints condition step }
{
    match condition {
        Condition::Equal => Quick::IfIntsEqual(step),
        Condition::NotEqual => Quick::IfIntsNotEqual(step),
        Condition::Less => Quick::IfIntsLess(step),
        Condition::GreaterOrEqual => Quick::IfIntsGreaterOrEqual(step),
        Condition::Greater => Quick::IfIntsGreater(step),
        Condition::LessOrEqual => Quick::IfIntsLessOrEqual(step),
    }
}

fn make_branch(test: Test, step: u32) -> Quick
    ensures { result ≡ quick_branch test step }
{
    match test {
        Test::Zero(condition) => make_if(condition, step),
        Test::Ints(condition) => make_if_ints(condition, step),
        Test::Same => Quick::IfSame(step),
        Test::Different => Quick::IfDifferent(step),
        Test::Null => Quick::IfNull(step),
        Test::NonNull => Quick::IfNonNull(step),
        Test::Always => Quick::Goto(step),
    }
}

/// The same instruction in one look.
pub fn make_quick(what: &What<Target>) -> Quick
    ensures { result ≡ quick_of what.now }
{
    match what {
        What::Plain(op) => make_plain(*op),
        What::Int(number) => Quick::Push(number.cast_unsigned()),
        What::Constant(index) | What::LongConstant(index) => Quick::Constant(*index),
        What::Local(access, local) => make_local(*access, *local),
        What::Increment { local, by } => Quick::Increment(*local, *by),
        What::Branch(test, target) => make_branch(*test, target.step),
        What::Field(..)
        | What::Call(..)
        | What::InterfaceCall(_)
        | What::Class(..)
        | What::NewArray(_) => Quick::Operation,
        _ => Quick::Other,
    }
}

/// The instructions of a method in one look each, for [`crate::run_local`].
pub fn make_quicks(alloc: Global, steps: &[Instr<Target>]) -> Result<Vec<Quick>, AllocError>
    ensures { IfOk result (λ quicks. quicks.items ≡ quicks_of steps.now) }
{
    let mut quicks = Vec::with_capacity(alloc, steps.len())?;
    for instruction in steps {
        quicks.push(make_quick(&instruction.what))?;
    }
    Ok(quicks)
}
