//! How many words an instruction puts on the stack.

ghost use Rattle.std.specs.Prelude.{◌≡◌, ℕ, length};
ghost use Rattle.type_rules.specs.Environment.{TypeFrame, on_stack, type_of_value};
ghost use Rattle.type_rules.specs.FrameAfter as after;
ghost use Rattle.instructions.specs.declared.operation.Plain.TheVariants as plain;
ghost use Rattle.instructions.specs.declared.operation.ClassUse.{ClassUse};

use instructions::{
    Conversion, ElementKind, FieldAccess, LocalAccess, Plain, Target, ValueKind, What,
};
use link_types::{Operand, ValueType};
use step_wants::MethodWorld;

fn value_words(value: ValueType) -> u32
    ensures { length (on_stack (type_of_value value)) ≡ result }
{
    match value {
        ValueType::Long => 2,
        _ => 1,
    }
}

fn element_words(kind: ElementKind) -> u32
    ensures { (f : TypeFrame) → length (after.plain_pushes (plain.ArrayLoad kind) f) ≡ result }
{
    match kind {
        ElementKind::Long => 2,
        _ => 1,
    }
}

fn converted_words(conversion: Conversion) -> u32
    ensures { (f : TypeFrame) → length (after.plain_pushes (plain.Convert conversion) f) ≡ result }
{
    match conversion {
        Conversion::IntToLong => 2,
        _ => 1,
    }
}

fn plain_words(operation: Plain) -> u32
    ensures { (f : TypeFrame) → length (after.plain_pushes operation f) ≡ result }
{
    match operation {
        Plain::ArrayLoad(kind) => element_words(kind),
        Plain::Convert(conversion) => converted_words(conversion),
        Plain::LongArithmetic(_) | Plain::LongNegate | Plain::LongShift(_) => 2,
        Plain::Null
        | Plain::IntArithmetic(_)
        | Plain::IntNegate
        | Plain::IntShift(_)
        | Plain::LongCompare
        | Plain::ArrayLength => 1,
        Plain::Nop
        | Plain::ArrayStore(_)
        | Plain::Stack(_)
        | Plain::Return(_)
        | Plain::Throw
        | Plain::MonitorEnter
        | Plain::MonitorExit => 0,
    }
}

fn local_words(access: LocalAccess) -> u32
    ensures { (n : ℕ) (f : TypeFrame) → length (after.local_pushes access n f) ≡ result }
{
    match access {
        LocalAccess::Load(ValueKind::Long) => 2,
        LocalAccess::Load(_) => 1,
        LocalAccess::Store(_) => 0,
    }
}

fn constant_words(operand: Operand) -> u32
    ensures { length (after.constant_pushes operand) ≡ result }
{
    match operand {
        Operand::Int(_) | Operand::Text(_) | Operand::Class(_) => 1,
        _ => 0,
    }
}

fn field_words(access: FieldAccess, operand: Operand) -> u32
    ensures { length (after.field_pushes access operand) ≡ result }
{
    match operand {
        Operand::Field(field) => match access {
            FieldAccess::GetStatic | FieldAccess::GetField => value_words(field.kind),
            FieldAccess::PutStatic | FieldAccess::PutField => 0,
        },
        Operand::Out => match access {
            FieldAccess::GetStatic => 1,
            _ => 0,
        },
        _ => 0,
    }
}

fn result_words(value: Option<ValueType>) -> u32
    ensures { length (after.result_pushes value) ≡ result }
{
    match value {
        None => 0,
        Some(value) => value_words(value),
    }
}

fn call_words<W: MethodWorld>(world: &W, operand: Operand) -> u32
    ensures { length (after.call_pushes (W.environment world.now) operand) ≡ result }
{
    match operand {
        Operand::Method(method) => result_words(world.result_of(method.method)),
        _ => 0,
    }
}

fn class_words(operand: Operand) -> u32
    ensures { (purpose : ClassUse) (at : ℕ) → length (after.class_pushes purpose at operand) ≡ result }
{
    match operand {
        Operand::Class(_) => 1,
        _ => 0,
    }
}

/// How many words an instruction puts on the stack that doesn't move its words.
pub(crate) fn words_pushed<W: MethodWorld>(world: &W, what: &What<Target>) -> u32
    ensures { (at : ℕ) (f : TypeFrame) → length (after.pushes (W.environment world.now) at what.now f) ≡ result }
{
    match what {
        What::Plain(operation) => plain_words(*operation),
        What::Local(access, _) => local_words(*access),
        What::Int(_) | What::NewArray(_) => 1,
        What::Long(_) | What::LongConstant(_) => 2,
        What::Constant(index) => constant_words(world.operand(*index)),
        What::Field(access, index) => field_words(*access, world.operand(*index)),
        What::Call(_, index) | What::InterfaceCall(index) => call_words(
            world,
            world.operand(*index),
        ),
        What::Class(_, index) => class_words(world.operand(*index)),
        What::Increment { .. }
        | What::Branch(_, _)
        | What::TableSwitch { .. }
        | What::LookupSwitch { .. } => 0,
    }
}
