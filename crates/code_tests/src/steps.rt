//! Tests of reading the instructions of code: each form of operands, and faulty code.

use crate::pool::pool;
use class_read::Pool;
use code_steps::{StepFault, StepRefusal, read_steps};
use instructions::{
    Call, ClassUse, FieldAccess, LocalAccess, Plain, PrimitiveType, StackOperation, Target, Test,
    ValueKind, What,
};
use std::alloc::Global;
use std::test::Fail;

/// An instruction as a word, and the numbers after it.
type Shown = (&'static str, i64, i64);

/// The instruction, where it is one of those that the tests read.
fn shown(what: &What<Target>) -> Shown {
    match what {
        What::Plain(Plain::Stack(StackOperation::Pop)) => ("pop", 0, 0),
        What::Int(int) => ("int", i64::from(*int), 0),
        What::Long(long) => ("long", *long, 0),
        What::Local(LocalAccess::Load(ValueKind::Reference), local) => {
            ("aload", i64::from(*local), 0)
        }
        What::Local(LocalAccess::Load(ValueKind::Int), local) => ("iload", i64::from(*local), 0),
        What::Local(LocalAccess::Store(ValueKind::Long), local) => ("lstore", i64::from(*local), 0),
        What::Constant(index) => ("constant", i64::from(*index), 0),
        What::LongConstant(index) => ("long constant", i64::from(*index), 0),
        What::Increment { local, by } => ("iinc", i64::from(*local), i64::from(*by)),
        What::Branch(Test::Always, target) => {
            ("goto", i64::from(target.at), i64::from(target.step))
        }
        What::Field(FieldAccess::GetStatic, index) => ("getstatic", i64::from(*index), 0),
        What::Call(Call::Special, index) => ("invokespecial", i64::from(*index), 0),
        What::InterfaceCall(index) => ("invokeinterface", i64::from(*index), 0),
        What::Class(ClassUse::NewArray, index) => ("anewarray", i64::from(*index), 0),
        What::NewArray(PrimitiveType::Long) => ("newarray long", 0, 0),
        _ => ("another", 0, 0),
    }
}

/// The first instruction of a code, or its fault and the fault's offset.
fn first(alloc: Global, code: &[u8]) -> Result<Shown, Fail> {
    let constants = pool(alloc)?;
    let pool = Pool::new(alloc, constants.as_slice())?;
    Ok(match read_steps(alloc, &pool, code) {
        Ok(steps) => match steps.get(0) {
            Some(step) => shown(&step.what),
            None => ("no instruction", 0, 0),
        },
        Err(StepRefusal::Fault(StepFault::Length)) => ("length", 0, 0),
        Err(StepRefusal::Fault(StepFault::Operand(at))) => ("operand", i64::from(at), 0),
        Err(_) => ("another refusal", 0, 0),
    })
}

/// Codes that begin with an instruction of each form of operands, and codes that name what no class file has.
const CODES: [(&[u8], Shown); 23] = [
    (&[87], ("pop", 0, 0)),
    (&[2], ("int", -1, 0)),
    (&[10], ("long", 1, 0)),
    (&[45], ("aload", 3, 0)),
    (&[16, 253], ("int", -3, 0)),
    (&[17, 1, 44], ("int", 300, 0)),
    (&[18, 12], ("constant", 12, 0)),
    (&[19, 0, 2], ("constant", 2, 0)),
    (&[20, 0, 10], ("long constant", 10, 0)),
    (&[55, 200], ("lstore", 200, 0)),
    (&[132, 2, 255], ("iinc", 2, -1)),
    (&[196, 132, 1, 0, 1, 44], ("iinc", 256, 300)),
    (&[196, 21, 1, 0], ("iload", 256, 0)),
    (&[167, 0, 3, 0], ("goto", 3, 1)),
    (&[200, 0, 0, 0, 5, 0], ("goto", 5, 1)),
    (&[178, 0, 8], ("getstatic", 8, 0)),
    (&[183, 0, 17], ("invokespecial", 17, 0)),
    (&[185, 0, 7, 4, 0], ("invokeinterface", 7, 0)),
    (&[189, 0, 14], ("anewarray", 14, 0)),
    (&[188, 11], ("newarray long", 0, 0)),
    // a call of <clinit>, of an interface's <init>, and 255 brackets without the type after them
    (&[183, 0, 21], ("operand", 0, 0)),
    (&[185, 0, 18, 4, 0], ("operand", 0, 0)),
    (&[189, 0, 23], ("operand", 0, 0)),
];

#[test]
fn each_form_is_read(rt: HostRuntime) -> Result<(), Fail> {
    for (code, wanted) in &CODES {
        let (word, first, second) = first(rt.alloc(), code)?;
        assert!(rt;
            word == wanted.0 && first == wanted.1 && second == wanted.2,
            "{code:?}"
        );
    }
    Ok(())
}

#[test]
fn code_of_65536_bytes_is_refused(rt: HostRuntime) -> Result<(), Fail> {
    let long = vec![in rt.alloc(); 0; 65536]?;
    let (word, _, _) = first(rt.alloc(), long.as_slice())?;
    assert!(rt; word == "length");
    Ok(())
}
