//! What each instruction wants.

ghost use Rattle.std.specs.Prelude.{◌≡◌, ◌++◌, ℕ};
ghost use Rattle.type_rules.specs.Wants as wants;
ghost use Rattle.step_wants.specs.Wanted.{want_meant, few_wanted, words_listed};
ghost use Rattle.instructions.specs.declared.operation.Plain.TheVariants as plain;
ghost use Rattle.instructions.specs.declared.what.What.TheVariants as whats;
ghost use Rattle.link_types.specs.declared.operands.Operand.TheVariants as operands;
ghost use Rattle.type_rules.specs.Environment.{Environment};

use crate::listed::{FewWants, WantedWords};
use crate::want::{Want, array_wanted, element_wanted, type_wanted, value_wanted};
use crate::world::MethodWorld;
use builtin_world::number::THROWABLE;
use instructions::{
    Call, ClassUse, Conversion, FieldAccess, LocalAccess, Plain, StackOperation, Target, Test,
    ValueKind, What,
};
use link_types::{FieldOperand, MethodOperand, ObjectType, Operand};

fn stack_wants(operation: StackOperation) -> FewWants
    ensures { few_wanted result ≡ wants.stack_wants operation }
{
    match operation {
        StackOperation::Pop | StackOperation::Dup => FewWants::One(Want::Whole),
        StackOperation::Pop2 | StackOperation::Dup2 => FewWants::Two(Want::Word, Want::Whole),
        StackOperation::DupX1 | StackOperation::Swap => FewWants::Two(Want::Whole, Want::Whole),
        StackOperation::DupX2 => FewWants::Three(Want::Whole, Want::Word, Want::Whole),
        StackOperation::Dup2X1 => FewWants::Three(Want::Word, Want::Whole, Want::Whole),
        StackOperation::Dup2X2 => FewWants::Four(Want::Word, Want::Whole, Want::Word, Want::Whole),
    }
}

fn return_wants(kind: Option<ValueKind>) -> FewWants
    ensures { few_wanted result ≡ wants.plain_wants (plain.Return kind) }
{
    match kind {
        None => FewWants::Nothing,
        Some(kind) => FewWants::One(value_wanted(kind)),
    }
}

fn conversion_wants(conversion: Conversion) -> FewWants
    ensures { few_wanted result ≡ wants.plain_wants (plain.Convert conversion) }
{
    match conversion {
        Conversion::LongToInt => FewWants::One(Want::Long),
        _ => FewWants::One(Want::Int),
    }
}

fn plain_wants(operation: Plain) -> FewWants
    ensures { few_wanted result ≡ wants.plain_wants operation }
{
    match operation {
        Plain::Nop | Plain::Null => FewWants::Nothing,
        Plain::ArrayLoad(kind) => FewWants::Two(Want::Int, array_wanted(kind)),
        Plain::ArrayStore(kind) => {
            FewWants::Three(element_wanted(kind), Want::Int, array_wanted(kind))
        }
        Plain::Stack(operation) => stack_wants(operation),
        Plain::IntArithmetic(_) | Plain::IntShift(_) => FewWants::Two(Want::Int, Want::Int),
        Plain::LongArithmetic(_) | Plain::LongCompare => FewWants::Two(Want::Long, Want::Long),
        Plain::LongShift(_) => FewWants::Two(Want::Int, Want::Long),
        Plain::IntNegate => FewWants::One(Want::Int),
        Plain::LongNegate => FewWants::One(Want::Long),
        Plain::Convert(conversion) => conversion_wants(conversion),
        Plain::Return(kind) => return_wants(kind),
        Plain::ArrayLength => FewWants::One(Want::Array),
        Plain::Throw => FewWants::One(Want::ReferenceTo(ObjectType::Class(THROWABLE))),
        Plain::MonitorEnter | Plain::MonitorExit => FewWants::One(Want::Reference),
    }
}

fn test_wants(test: Test) -> FewWants
    ensures { few_wanted result ≡ wants.test_wants test }
{
    match test {
        Test::Zero(_) => FewWants::One(Want::Int),
        Test::Ints(_) => FewWants::Two(Want::Int, Want::Int),
        Test::Same | Test::Different => FewWants::Two(Want::Reference, Want::Reference),
        Test::Null | Test::NonNull => FewWants::One(Want::Reference),
        Test::Always => FewWants::Nothing,
    }
}

fn local_wants(access: LocalAccess) -> FewWants
    ensures { few_wanted result ≡ wants.local_wants access }
{
    match access {
        LocalAccess::Load(_) => FewWants::Nothing,
        LocalAccess::Store(ValueKind::Int) => FewWants::One(Want::Int),
        LocalAccess::Store(ValueKind::Long) => FewWants::One(Want::Long),
        LocalAccess::Store(ValueKind::Reference) => FewWants::One(Want::StoredReference),
    }
}

fn class_wants(purpose: ClassUse) -> FewWants
    ensures { (env : Environment) (index : ℕ) → few_wanted result ≡ wants.wants env (whats.Class purpose index) }
{
    match purpose {
        ClassUse::New => FewWants::Nothing,
        ClassUse::NewArray => FewWants::One(Want::Int),
        ClassUse::CheckCast | ClassUse::InstanceOf => FewWants::One(Want::Reference),
    }
}

fn setter_wanted<W: MethodWorld>(world: &W, field: FieldOperand) -> Want
    ensures { want_meant result ≡ wants.setter_wanted (W.environment world.now) field }
{
    if field.owner == world.class() {
        Want::ReceiverToSet(field.named)
    } else {
        Want::ReferenceTo(field.named)
    }
}

fn field_wants<W: MethodWorld>(world: &W, access: FieldAccess, operand: Operand) -> FewWants
    ensures { few_wanted result ≡ wants.field_wants (W.environment world.now) access operand }
{
    let Operand::Field(field) = operand else {
        return FewWants::Nothing;
    };
    match access {
        FieldAccess::GetStatic => FewWants::Nothing,
        FieldAccess::PutStatic => FewWants::One(type_wanted(field.kind)),
        FieldAccess::GetField => FewWants::One(Want::ReferenceTo(field.named)),
        FieldAccess::PutField => {
            FewWants::Two(type_wanted(field.kind), setter_wanted(world, field))
        }
    }
}

fn receiver_wanted(call: Call, method: MethodOperand) -> FewWants
    ensures { (env : Environment)
        → wants.arguments_wanted env method ++ few_wanted result ≡ wants.call_wants env call (operands.Method method) }
{
    match call {
        Call::Static => FewWants::Nothing,
        Call::Virtual => FewWants::One(Want::ReferenceTo(method.named)),
        Call::Special if method.constructs => FewWants::One(Want::ToInitialize(method.named)),
        Call::Special => FewWants::One(Want::ReceiverHere(method.named)),
    }
}

fn call_wants<W: MethodWorld>(world: &W, call: Call, operand: Operand) -> WantedWords<'_>
    ensures { words_listed result ≡ wants.call_wants (W.environment world.now) call operand }
{
    match operand {
        Operand::Method(method) => WantedWords {
            arguments: world.parameters(method.method),
            others: receiver_wanted(call, method),
        },
        _ => only(FewWants::Nothing),
    }
}

fn only<'a>(others: FewWants) -> WantedWords<'a>
    ensures { words_listed result ≡ few_wanted others }
{
    WantedWords {
        arguments: &[],
        others,
    }
}

/// What an instruction takes off the stack, the top first: nothing where it pushes or jumps alone, and what is said of
/// its group where it computes. The operand that it names says the rest.
pub fn wants_of<'a, W: MethodWorld>(world: &'a W, what: &What<Target>) -> WantedWords<'a>
    ensures { words_listed result ≡ wants.wants (W.environment world.now) what.now }
{
    match what {
        What::Plain(operation) => only(plain_wants(*operation)),
        What::Local(access, _) => only(local_wants(*access)),
        What::Branch(test, _) => only(test_wants(*test)),
        What::TableSwitch { .. } | What::LookupSwitch { .. } | What::NewArray(_) => {
            only(FewWants::One(Want::Int))
        }
        What::Field(access, index) => only(field_wants(world, *access, world.operand(*index))),
        What::Call(call, index) => call_wants(world, *call, world.operand(*index)),
        What::InterfaceCall(index) => call_wants(world, Call::Virtual, world.operand(*index)),
        What::Class(purpose, _) => only(class_wants(*purpose)),
        _ => only(FewWants::Nothing),
    }
}
