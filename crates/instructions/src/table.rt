//! The table of instructions, by number.

ghost use Rattle.std.specs.Prelude.{◌≡◌, map, slice_get};
ghost use Rattle.std.specs.Option.{option_map, option_flatten};
ghost use Rattle.instructions.specs.Table.{shown_row, row_numbered, row_named, numbered_rows, first_named};

use crate::form::{Form, Row};
use crate::operation::{
    Arithmetic, Call, ClassUse, Condition, Conversion, ElementKind, FieldAccess, LocalAccess,
    Plain, Shift, StackOperation, Test, ValueKind,
};

macro_rules! row {
    ($number:literal, $mnemonic:literal, $form:expr) => {
        Some(Row {
            number: $number,
            mnemonic: $mnemonic,
            form: $form,
        })
    };
}

static TABLE: [Option<Row>; 202] = [
    row!(0, "nop", Form::Plain(Plain::Nop)),
    row!(1, "aconst_null", Form::Plain(Plain::Null)),
    row!(2, "iconst_m1", Form::FixedInt(-1)),
    row!(3, "iconst_0", Form::FixedInt(0)),
    row!(4, "iconst_1", Form::FixedInt(1)),
    row!(5, "iconst_2", Form::FixedInt(2)),
    row!(6, "iconst_3", Form::FixedInt(3)),
    row!(7, "iconst_4", Form::FixedInt(4)),
    row!(8, "iconst_5", Form::FixedInt(5)),
    row!(9, "lconst_0", Form::FixedLong(0)),
    row!(10, "lconst_1", Form::FixedLong(1)),
    None,
    None,
    None,
    None,
    None,
    row!(16, "bipush", Form::ByteInt),
    row!(17, "sipush", Form::ShortInt),
    row!(18, "ldc", Form::ByteConstant),
    row!(19, "ldc_w", Form::Constant),
    row!(20, "ldc2_w", Form::LongConstant),
    row!(21, "iload", Form::Local(LocalAccess::Load(ValueKind::Int))),
    row!(22, "lload", Form::Local(LocalAccess::Load(ValueKind::Long))),
    None,
    None,
    row!(
        25,
        "aload",
        Form::Local(LocalAccess::Load(ValueKind::Reference))
    ),
    row!(
        26,
        "iload_0",
        Form::FixedLocal(LocalAccess::Load(ValueKind::Int), 0)
    ),
    row!(
        27,
        "iload_1",
        Form::FixedLocal(LocalAccess::Load(ValueKind::Int), 1)
    ),
    row!(
        28,
        "iload_2",
        Form::FixedLocal(LocalAccess::Load(ValueKind::Int), 2)
    ),
    row!(
        29,
        "iload_3",
        Form::FixedLocal(LocalAccess::Load(ValueKind::Int), 3)
    ),
    row!(
        30,
        "lload_0",
        Form::FixedLocal(LocalAccess::Load(ValueKind::Long), 0)
    ),
    row!(
        31,
        "lload_1",
        Form::FixedLocal(LocalAccess::Load(ValueKind::Long), 1)
    ),
    row!(
        32,
        "lload_2",
        Form::FixedLocal(LocalAccess::Load(ValueKind::Long), 2)
    ),
    row!(
        33,
        "lload_3",
        Form::FixedLocal(LocalAccess::Load(ValueKind::Long), 3)
    ),
    None,
    None,
    None,
    None,
    None,
    None,
    None,
    None,
    row!(
        42,
        "aload_0",
        Form::FixedLocal(LocalAccess::Load(ValueKind::Reference), 0)
    ),
    row!(
        43,
        "aload_1",
        Form::FixedLocal(LocalAccess::Load(ValueKind::Reference), 1)
    ),
    row!(
        44,
        "aload_2",
        Form::FixedLocal(LocalAccess::Load(ValueKind::Reference), 2)
    ),
    row!(
        45,
        "aload_3",
        Form::FixedLocal(LocalAccess::Load(ValueKind::Reference), 3)
    ),
    row!(
        46,
        "iaload",
        Form::Plain(Plain::ArrayLoad(ElementKind::Int))
    ),
    row!(
        47,
        "laload",
        Form::Plain(Plain::ArrayLoad(ElementKind::Long))
    ),
    None,
    None,
    row!(
        50,
        "aaload",
        Form::Plain(Plain::ArrayLoad(ElementKind::Reference))
    ),
    row!(
        51,
        "baload",
        Form::Plain(Plain::ArrayLoad(ElementKind::ByteOrBoolean))
    ),
    row!(
        52,
        "caload",
        Form::Plain(Plain::ArrayLoad(ElementKind::Char))
    ),
    row!(
        53,
        "saload",
        Form::Plain(Plain::ArrayLoad(ElementKind::Short))
    ),
    row!(
        54,
        "istore",
        Form::Local(LocalAccess::Store(ValueKind::Int))
    ),
    row!(
        55,
        "lstore",
        Form::Local(LocalAccess::Store(ValueKind::Long))
    ),
    None,
    None,
    row!(
        58,
        "astore",
        Form::Local(LocalAccess::Store(ValueKind::Reference))
    ),
    row!(
        59,
        "istore_0",
        Form::FixedLocal(LocalAccess::Store(ValueKind::Int), 0)
    ),
    row!(
        60,
        "istore_1",
        Form::FixedLocal(LocalAccess::Store(ValueKind::Int), 1)
    ),
    row!(
        61,
        "istore_2",
        Form::FixedLocal(LocalAccess::Store(ValueKind::Int), 2)
    ),
    row!(
        62,
        "istore_3",
        Form::FixedLocal(LocalAccess::Store(ValueKind::Int), 3)
    ),
    row!(
        63,
        "lstore_0",
        Form::FixedLocal(LocalAccess::Store(ValueKind::Long), 0)
    ),
    row!(
        64,
        "lstore_1",
        Form::FixedLocal(LocalAccess::Store(ValueKind::Long), 1)
    ),
    row!(
        65,
        "lstore_2",
        Form::FixedLocal(LocalAccess::Store(ValueKind::Long), 2)
    ),
    row!(
        66,
        "lstore_3",
        Form::FixedLocal(LocalAccess::Store(ValueKind::Long), 3)
    ),
    None,
    None,
    None,
    None,
    None,
    None,
    None,
    None,
    row!(
        75,
        "astore_0",
        Form::FixedLocal(LocalAccess::Store(ValueKind::Reference), 0)
    ),
    row!(
        76,
        "astore_1",
        Form::FixedLocal(LocalAccess::Store(ValueKind::Reference), 1)
    ),
    row!(
        77,
        "astore_2",
        Form::FixedLocal(LocalAccess::Store(ValueKind::Reference), 2)
    ),
    row!(
        78,
        "astore_3",
        Form::FixedLocal(LocalAccess::Store(ValueKind::Reference), 3)
    ),
    row!(
        79,
        "iastore",
        Form::Plain(Plain::ArrayStore(ElementKind::Int))
    ),
    row!(
        80,
        "lastore",
        Form::Plain(Plain::ArrayStore(ElementKind::Long))
    ),
    None,
    None,
    row!(
        83,
        "aastore",
        Form::Plain(Plain::ArrayStore(ElementKind::Reference))
    ),
    row!(
        84,
        "bastore",
        Form::Plain(Plain::ArrayStore(ElementKind::ByteOrBoolean))
    ),
    row!(
        85,
        "castore",
        Form::Plain(Plain::ArrayStore(ElementKind::Char))
    ),
    row!(
        86,
        "sastore",
        Form::Plain(Plain::ArrayStore(ElementKind::Short))
    ),
    row!(87, "pop", Form::Plain(Plain::Stack(StackOperation::Pop))),
    row!(88, "pop2", Form::Plain(Plain::Stack(StackOperation::Pop2))),
    row!(89, "dup", Form::Plain(Plain::Stack(StackOperation::Dup))),
    row!(
        90,
        "dup_x1",
        Form::Plain(Plain::Stack(StackOperation::DupX1))
    ),
    row!(
        91,
        "dup_x2",
        Form::Plain(Plain::Stack(StackOperation::DupX2))
    ),
    row!(92, "dup2", Form::Plain(Plain::Stack(StackOperation::Dup2))),
    row!(
        93,
        "dup2_x1",
        Form::Plain(Plain::Stack(StackOperation::Dup2X1))
    ),
    row!(
        94,
        "dup2_x2",
        Form::Plain(Plain::Stack(StackOperation::Dup2X2))
    ),
    row!(95, "swap", Form::Plain(Plain::Stack(StackOperation::Swap))),
    row!(
        96,
        "iadd",
        Form::Plain(Plain::IntArithmetic(Arithmetic::Add))
    ),
    row!(
        97,
        "ladd",
        Form::Plain(Plain::LongArithmetic(Arithmetic::Add))
    ),
    None,
    None,
    row!(
        100,
        "isub",
        Form::Plain(Plain::IntArithmetic(Arithmetic::Subtract))
    ),
    row!(
        101,
        "lsub",
        Form::Plain(Plain::LongArithmetic(Arithmetic::Subtract))
    ),
    None,
    None,
    row!(
        104,
        "imul",
        Form::Plain(Plain::IntArithmetic(Arithmetic::Multiply))
    ),
    row!(
        105,
        "lmul",
        Form::Plain(Plain::LongArithmetic(Arithmetic::Multiply))
    ),
    None,
    None,
    row!(
        108,
        "idiv",
        Form::Plain(Plain::IntArithmetic(Arithmetic::Divide))
    ),
    row!(
        109,
        "ldiv",
        Form::Plain(Plain::LongArithmetic(Arithmetic::Divide))
    ),
    None,
    None,
    row!(
        112,
        "irem",
        Form::Plain(Plain::IntArithmetic(Arithmetic::Remainder))
    ),
    row!(
        113,
        "lrem",
        Form::Plain(Plain::LongArithmetic(Arithmetic::Remainder))
    ),
    None,
    None,
    row!(116, "ineg", Form::Plain(Plain::IntNegate)),
    row!(117, "lneg", Form::Plain(Plain::LongNegate)),
    None,
    None,
    row!(120, "ishl", Form::Plain(Plain::IntShift(Shift::Left))),
    row!(121, "lshl", Form::Plain(Plain::LongShift(Shift::Left))),
    row!(122, "ishr", Form::Plain(Plain::IntShift(Shift::Right))),
    row!(123, "lshr", Form::Plain(Plain::LongShift(Shift::Right))),
    row!(
        124,
        "iushr",
        Form::Plain(Plain::IntShift(Shift::UnsignedRight))
    ),
    row!(
        125,
        "lushr",
        Form::Plain(Plain::LongShift(Shift::UnsignedRight))
    ),
    row!(
        126,
        "iand",
        Form::Plain(Plain::IntArithmetic(Arithmetic::And))
    ),
    row!(
        127,
        "land",
        Form::Plain(Plain::LongArithmetic(Arithmetic::And))
    ),
    row!(
        128,
        "ior",
        Form::Plain(Plain::IntArithmetic(Arithmetic::Or))
    ),
    row!(
        129,
        "lor",
        Form::Plain(Plain::LongArithmetic(Arithmetic::Or))
    ),
    row!(
        130,
        "ixor",
        Form::Plain(Plain::IntArithmetic(Arithmetic::Xor))
    ),
    row!(
        131,
        "lxor",
        Form::Plain(Plain::LongArithmetic(Arithmetic::Xor))
    ),
    row!(132, "iinc", Form::Increment),
    row!(
        133,
        "i2l",
        Form::Plain(Plain::Convert(Conversion::IntToLong))
    ),
    None,
    None,
    row!(
        136,
        "l2i",
        Form::Plain(Plain::Convert(Conversion::LongToInt))
    ),
    None,
    None,
    None,
    None,
    None,
    None,
    None,
    None,
    row!(
        145,
        "i2b",
        Form::Plain(Plain::Convert(Conversion::IntToByte))
    ),
    row!(
        146,
        "i2c",
        Form::Plain(Plain::Convert(Conversion::IntToChar))
    ),
    row!(
        147,
        "i2s",
        Form::Plain(Plain::Convert(Conversion::IntToShort))
    ),
    row!(148, "lcmp", Form::Plain(Plain::LongCompare)),
    None,
    None,
    None,
    None,
    row!(153, "ifeq", Form::Branch(Test::Zero(Condition::Equal))),
    row!(154, "ifne", Form::Branch(Test::Zero(Condition::NotEqual))),
    row!(155, "iflt", Form::Branch(Test::Zero(Condition::Less))),
    row!(
        156,
        "ifge",
        Form::Branch(Test::Zero(Condition::GreaterOrEqual))
    ),
    row!(157, "ifgt", Form::Branch(Test::Zero(Condition::Greater))),
    row!(
        158,
        "ifle",
        Form::Branch(Test::Zero(Condition::LessOrEqual))
    ),
    row!(159, "if_icmpeq", Form::Branch(Test::Ints(Condition::Equal))),
    row!(
        160,
        "if_icmpne",
        Form::Branch(Test::Ints(Condition::NotEqual))
    ),
    row!(161, "if_icmplt", Form::Branch(Test::Ints(Condition::Less))),
    row!(
        162,
        "if_icmpge",
        Form::Branch(Test::Ints(Condition::GreaterOrEqual))
    ),
    row!(
        163,
        "if_icmpgt",
        Form::Branch(Test::Ints(Condition::Greater))
    ),
    row!(
        164,
        "if_icmple",
        Form::Branch(Test::Ints(Condition::LessOrEqual))
    ),
    row!(165, "if_acmpeq", Form::Branch(Test::Same)),
    row!(166, "if_acmpne", Form::Branch(Test::Different)),
    row!(167, "goto", Form::Branch(Test::Always)),
    None,
    None,
    row!(170, "tableswitch", Form::TableSwitch),
    row!(171, "lookupswitch", Form::LookupSwitch),
    row!(
        172,
        "ireturn",
        Form::Plain(Plain::Return(Some(ValueKind::Int)))
    ),
    row!(
        173,
        "lreturn",
        Form::Plain(Plain::Return(Some(ValueKind::Long)))
    ),
    None,
    None,
    row!(
        176,
        "areturn",
        Form::Plain(Plain::Return(Some(ValueKind::Reference)))
    ),
    row!(177, "return", Form::Plain(Plain::Return(None))),
    row!(178, "getstatic", Form::Field(FieldAccess::GetStatic)),
    row!(179, "putstatic", Form::Field(FieldAccess::PutStatic)),
    row!(180, "getfield", Form::Field(FieldAccess::GetField)),
    row!(181, "putfield", Form::Field(FieldAccess::PutField)),
    row!(182, "invokevirtual", Form::Call(Call::Virtual)),
    row!(183, "invokespecial", Form::Call(Call::Special)),
    row!(184, "invokestatic", Form::Call(Call::Static)),
    row!(185, "invokeinterface", Form::InterfaceCall),
    None,
    row!(187, "new", Form::Class(ClassUse::New)),
    row!(188, "newarray", Form::NewArray),
    row!(189, "anewarray", Form::Class(ClassUse::NewArray)),
    row!(190, "arraylength", Form::Plain(Plain::ArrayLength)),
    row!(191, "athrow", Form::Plain(Plain::Throw)),
    row!(192, "checkcast", Form::Class(ClassUse::CheckCast)),
    row!(193, "instanceof", Form::Class(ClassUse::InstanceOf)),
    row!(194, "monitorenter", Form::Plain(Plain::MonitorEnter)),
    row!(195, "monitorexit", Form::Plain(Plain::MonitorExit)),
    row!(196, "wide", Form::Wide),
    None,
    row!(198, "ifnull", Form::Branch(Test::Null)),
    row!(199, "ifnonnull", Form::Branch(Test::NonNull)),
    row!(200, "goto_w", Form::FarBranch(Test::Always)),
    None,
];

/// The table, with a place for each number up to 201.
fn rows() -> &'static [Option<Row>]
    ensures { map (option_map shown_row) result.now ≡ numbered_rows }
{
    &TABLE
}

/// The item at an index, if there is one.
pub fn at<T: Copy>(items: &[Option<T>], index: usize) -> Option<T>
    ensures { result ≡ option_flatten (slice_get items.now index) }
{
    items.get(index).copied().flatten()
}

/// The row of an instruction's number, and `None` exactly where the table has no such instruction.
pub fn row(number: u8) -> Option<Row>
    ensures row { option_map shown_row result ≡ row_numbered number }
{
    at(rows(), usize::from(number))
}

/// The first of some rows that has a mnemonic.
fn find_named(rows: &[Option<Row>], mnemonic: &str) -> Option<Row>
    ensures { result ≡ first_named mnemonic.now rows.now }
{
    for row in rows {
        match row {
            Some(row) if row.mnemonic == mnemonic => return Some(*row),
            _ => {}
        }
    }
    None
}

/// The row of a mnemonic, and `None` exactly where the table has no such instruction.
pub fn row_named(mnemonic: &str) -> Option<Row>
    ensures row { option_map shown_row result ≡ row_named mnemonic.now }
{
    find_named(rows(), mnemonic)
}
