//! Each row of the table of instructions, as a line of words.

use instructions::{
    Arithmetic, Call, ClassUse, Condition, Conversion, ElementKind, FieldAccess, Form, LocalAccess,
    Plain, Row, Shift, StackOperation, Test, ValueKind, row,
};
use std::io;

fn kind(kind: ValueKind) -> &'static str {
    match kind {
        ValueKind::Int => "int",
        ValueKind::Long => "long",
        ValueKind::Reference => "reference",
    }
}

fn element(kind: ElementKind) -> &'static str {
    match kind {
        ElementKind::Int => "int",
        ElementKind::Long => "long",
        ElementKind::Reference => "reference",
        ElementKind::ByteOrBoolean => "byte or boolean",
        ElementKind::Char => "char",
        ElementKind::Short => "short",
    }
}

fn stack(operation: StackOperation) -> &'static str {
    match operation {
        StackOperation::Pop => "pop",
        StackOperation::Pop2 => "pop2",
        StackOperation::Dup => "dup",
        StackOperation::DupX1 => "dup_x1",
        StackOperation::DupX2 => "dup_x2",
        StackOperation::Dup2 => "dup2",
        StackOperation::Dup2X1 => "dup2_x1",
        StackOperation::Dup2X2 => "dup2_x2",
        StackOperation::Swap => "swap",
    }
}

fn arithmetic(arithmetic: Arithmetic) -> &'static str {
    match arithmetic {
        Arithmetic::Add => "+",
        Arithmetic::Subtract => "-",
        Arithmetic::Multiply => "*",
        Arithmetic::Divide => "/",
        Arithmetic::Remainder => "%",
        Arithmetic::And => "&",
        Arithmetic::Or => "|",
        Arithmetic::Xor => "^",
    }
}

fn shift(shift: Shift) -> &'static str {
    match shift {
        Shift::Left => "<<",
        Shift::Right => ">>",
        Shift::UnsignedRight => ">>>",
    }
}

fn conversion(conversion: Conversion) -> &'static str {
    match conversion {
        Conversion::IntToLong => "int to long",
        Conversion::LongToInt => "long to int",
        Conversion::IntToByte => "int to byte",
        Conversion::IntToChar => "int to char",
        Conversion::IntToShort => "int to short",
    }
}

fn condition(condition: Condition) -> &'static str {
    match condition {
        Condition::Equal => "==",
        Condition::NotEqual => "!=",
        Condition::Less => "<",
        Condition::GreaterOrEqual => ">=",
        Condition::Greater => ">",
        Condition::LessOrEqual => "<=",
    }
}

fn plain(plain: Plain) -> (&'static str, &'static str) {
    match plain {
        Plain::Nop => ("nop", ""),
        Plain::Null => ("null", ""),
        Plain::ArrayLoad(of) => ("array load", element(of)),
        Plain::ArrayStore(of) => ("array store", element(of)),
        Plain::Stack(operation) => ("stack", stack(operation)),
        Plain::IntArithmetic(by) => ("int arithmetic", arithmetic(by)),
        Plain::LongArithmetic(by) => ("long arithmetic", arithmetic(by)),
        Plain::IntNegate => ("negate", "int"),
        Plain::LongNegate => ("negate", "long"),
        Plain::IntShift(by) => ("int shift", shift(by)),
        Plain::LongShift(by) => ("long shift", shift(by)),
        Plain::Convert(by) => ("convert", conversion(by)),
        Plain::LongCompare => ("compare", "long"),
        Plain::Return(value) => ("return", value.map_or("", kind)),
        Plain::ArrayLength => ("array length", ""),
        Plain::Throw => ("throw", ""),
        Plain::MonitorEnter => ("monitor", "enter"),
        Plain::MonitorExit => ("monitor", "exit"),
    }
}

fn branch(test: Test) -> (&'static str, &'static str) {
    match test {
        Test::Zero(by) => ("branch on zero", condition(by)),
        Test::Ints(by) => ("branch on ints", condition(by)),
        Test::Same => ("branch on references", "=="),
        Test::Different => ("branch on references", "!="),
        Test::Null => ("branch on references", "null"),
        Test::NonNull => ("branch on references", "not null"),
        Test::Always => ("branch", ""),
    }
}

fn local(access: LocalAccess) -> (&'static str, &'static str) {
    match access {
        LocalAccess::Load(of) => ("load", kind(of)),
        LocalAccess::Store(of) => ("store", kind(of)),
    }
}

fn field(access: FieldAccess) -> &'static str {
    match access {
        FieldAccess::GetStatic => "getstatic",
        FieldAccess::PutStatic => "putstatic",
        FieldAccess::GetField => "getfield",
        FieldAccess::PutField => "putfield",
    }
}

fn call(call: Call) -> &'static str {
    match call {
        Call::Virtual => "virtual",
        Call::Special => "special",
        Call::Static => "static",
    }
}

fn class(class: ClassUse) -> &'static str {
    match class {
        ClassUse::New => "new",
        ClassUse::NewArray => "new array",
        ClassUse::CheckCast => "cast",
        ClassUse::InstanceOf => "instance",
    }
}

/// What an instruction with operands does.
fn with_operands(form: Form) -> (&'static str, (&'static str, &'static str)) {
    match form {
        Form::ByteInt => ("s1", ("push", "int")),
        Form::ShortInt => ("s2", ("push", "int")),
        Form::ByteConstant => ("c1", ("constant", "")),
        Form::Constant => ("c2", ("constant", "")),
        Form::LongConstant => ("c2", ("constant", "long")),
        Form::Local(access) => ("l1", local(access)),
        Form::Increment => ("l1 s1", ("add to local", "int")),
        Form::Branch(test) => ("b2", branch(test)),
        Form::FarBranch(test) => ("b4", branch(test)),
        Form::TableSwitch => ("table", ("switch", "")),
        Form::LookupSwitch => ("lookup", ("switch", "")),
        Form::Field(access) => ("c2", ("field", field(access))),
        Form::Call(by) => ("c2", ("call", call(by))),
        Form::InterfaceCall => ("c2 u1 0", ("call", "interface")),
        Form::Class(by) => ("c2", ("class", class(by))),
        Form::NewArray => ("u1", ("new array", "primitive")),
        Form::Wide => ("instruction", ("wide", "")),
        _ => ("none", ("none", "")),
    }
}

/// The operands, what is done, with or to what, and the number that the instruction stands for.
fn shown(form: Form) -> (&'static str, (&'static str, &'static str), i64) {
    match form {
        Form::Plain(of) => ("", plain(of), 0),
        Form::FixedInt(value) => ("", ("push", "int"), i64::from(value)),
        Form::FixedLong(value) => ("", ("push", "long"), value),
        Form::FixedLocal(access, number) => ("", local(access), i64::from(number)),
        other => {
            let (operands, does) = with_operands(other);
            (operands, does, 0)
        }
    }
}

/// Prints the number, the mnemonic, the operands, what is done, with or to what, and the number that the instruction
/// stands for.
fn print_row<R: Print>(rt: &R, row: Row) -> io::Result<()> {
    let (operands, (does, what), value) = shown(row.form);
    let (number, mnemonic) = (row.number, row.mnemonic);
    println!(rt; "{number} | {mnemonic} | {operands} | {does} | {what} | {value}")
}

/// Prints the row of each number that has one.
pub fn print_rows<R: Print>(rt: &R) -> io::Result<()> {
    for number in 0..=255u8 {
        if let Some(row) = row(number) {
            print_row(rt, row)?;
        }
    }
    Ok(())
}
