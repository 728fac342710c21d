//! The words on top of the stack after an instruction.

ghost use Rattle.std.specs.Prelude.{◌≡◌, ◌≤◌, ◌<◌, [], ◌∷◌, ◌++◌, drop, length};
ghost use Rattle.type_rules.specs.FrameAfter as after;
ghost use Rattle.type_rules.specs.Environment.{TypeFrame, on_stack, type_of_value};
ghost use Rattle.instructions.specs.declared.operation.Plain.TheVariants as plain;
ghost use Rattle.type_rules.specs.declared.types.VerificationType.TheVariants as words;
ghost use Rattle.type_rules.specs.Wants.{wants, words_wanted};
ghost use Rattle.step_frames.specs.Arrays.{dimensions_of, MayMake, MakesArray};
ghost use Rattle.step_frames.specs.Tops.{words_on_top, moved_top};

use crate::words::TopWords;
use builtin_world::number::{CLASS, PRINT_STREAM, STRING};
use instructions::{
    ClassUse, Conversion, ElementKind, FieldAccess, LocalAccess, Plain, PrimitiveType,
    StackOperation, Target, ValueKind, What,
};
use link_types::{ElementType, ObjectType, Operand, ValueType};
use step_faults::{FrameWords, stack_operation};
use step_wants::MethodWorld;
use type_rules::VerificationType;

const TOP: VerificationType = VerificationType::Top;

fn nothing() -> TopWords
    ensures { words_on_top result ≡ [] }
{
    TopWords {
        words: [TOP; 6],
        count: 0,
    }
}

fn one(word: VerificationType) -> TopWords
    ensures { words_on_top result ≡ word ∷ [] }
{
    TopWords {
        words: [word, TOP, TOP, TOP, TOP, TOP],
        count: 1,
    }
}

fn a_long() -> TopWords
    ensures { words_on_top result ≡ on_stack words.Long }
{
    TopWords {
        words: [
            VerificationType::Second,
            VerificationType::Long,
            TOP,
            TOP,
            TOP,
            TOP,
        ],
        count: 2,
    }
}

fn moved(
    operation: StackOperation,
    a: VerificationType,
    b: VerificationType,
    c: VerificationType,
    d: VerificationType,
) -> TopWords
    ensures { words_on_top result ≡ moved_top operation a b c d }
{
    let (words, count) = match operation {
        StackOperation::Pop | StackOperation::Pop2 => ([TOP; 6], 0),
        StackOperation::Dup => ([a, a, TOP, TOP, TOP, TOP], 2),
        StackOperation::DupX1 => ([a, b, a, TOP, TOP, TOP], 3),
        StackOperation::DupX2 => ([a, b, c, a, TOP, TOP], 4),
        StackOperation::Dup2 => ([a, b, a, b, TOP, TOP], 4),
        StackOperation::Dup2X1 => ([a, b, c, a, b, TOP], 5),
        StackOperation::Dup2X2 => ([a, b, c, d, a, b], 6),
        StackOperation::Swap => ([b, a, TOP, TOP, TOP, TOP], 2),
    };
    TopWords { words, count }
}

fn value_words(value: ValueType) -> TopWords
    ensures { words_on_top result ≡ on_stack (type_of_value value) }
{
    match value {
        ValueType::Long => a_long(),
        ValueType::Object(t) => one(VerificationType::Object(t)),
        _ => one(VerificationType::Int),
    }
}

fn type_of_element(element: ElementType) -> VerificationType
    ensures { result ≡ after.type_of_element element }
{
    match element {
        ElementType::Class(class) => VerificationType::Object(ObjectType::Class(class)),
        ElementType::Other(name) => VerificationType::Object(ObjectType::Other(name)),
        _ => VerificationType::Null,
    }
}

// What is read from an array of references, and null from null.
fn element_of(word: VerificationType) -> VerificationType
    ensures { result ≡ after.element_of word }
{
    match word {
        VerificationType::Object(ObjectType::Array(1, element)) => type_of_element(element),
        VerificationType::Object(ObjectType::Array(dimensions, element)) => {
            VerificationType::Object(ObjectType::Array(dimensions.saturating_sub(1), element))
        }
        _ => VerificationType::Null,
    }
}

fn primitive_element(primitive: PrimitiveType) -> ElementType
    ensures { result ≡ after.primitive_element primitive }
{
    match primitive {
        PrimitiveType::Boolean => ElementType::Boolean,
        PrimitiveType::Char => ElementType::Char,
        PrimitiveType::Byte => ElementType::Byte,
        PrimitiveType::Short => ElementType::Short,
        PrimitiveType::Int => ElementType::Int,
        PrimitiveType::Long => ElementType::Long,
    }
}

// What is read from an array: of references the type of its elements.
fn loaded<F: FrameWords>(frame: &F, kind: ElementKind) -> TopWords
    ensures { words_on_top result ≡ after.plain_pushes (plain.ArrayLoad kind) (F.frame frame.now) }
{
    match kind {
        ElementKind::Reference => one(element_of(frame.stack_word(1))),
        ElementKind::Long => a_long(),
        _ => one(VerificationType::Int),
    }
}

fn converted(conversion: Conversion) -> TopWords
    ensures { (f : TypeFrame) → words_on_top result ≡ after.plain_pushes (plain.Convert conversion) f }
{
    match conversion {
        Conversion::IntToLong => a_long(),
        _ => one(VerificationType::Int),
    }
}

fn plain_pushed<F: FrameWords>(frame: &F, operation: Plain) -> TopWords
    ensures { words_on_top result ≡ after.plain_pushes operation (F.frame frame.now) }
{
    match operation {
        Plain::Null => one(VerificationType::Null),
        Plain::ArrayLoad(kind) => loaded(frame, kind),
        Plain::Convert(conversion) => converted(conversion),
        Plain::LongArithmetic(_) | Plain::LongNegate | Plain::LongShift(_) => a_long(),
        Plain::IntArithmetic(_)
        | Plain::IntNegate
        | Plain::IntShift(_)
        | Plain::LongCompare
        | Plain::ArrayLength => one(VerificationType::Int),
        Plain::Nop
        | Plain::ArrayStore(_)
        | Plain::Stack(_)
        | Plain::Return(_)
        | Plain::Throw
        | Plain::MonitorEnter
        | Plain::MonitorExit => nothing(),
    }
}

fn local_pushed<F: FrameWords>(frame: &F, access: LocalAccess, local: u16) -> TopWords
    ensures { words_on_top result ≡ after.local_pushes access local (F.frame frame.now) }
{
    match access {
        LocalAccess::Load(ValueKind::Int) => one(VerificationType::Int),
        LocalAccess::Load(ValueKind::Long) => a_long(),
        LocalAccess::Load(ValueKind::Reference) => one(frame.local(u32::from(local))),
        LocalAccess::Store(_) => nothing(),
    }
}

fn constant_pushed(operand: Operand) -> TopWords
    ensures { words_on_top result ≡ after.constant_pushes operand }
{
    match operand {
        Operand::Int(_) => one(VerificationType::Int),
        Operand::Text(_) => one(VerificationType::Object(ObjectType::Class(STRING))),
        Operand::Class(_) => one(VerificationType::Object(ObjectType::Class(CLASS))),
        _ => nothing(),
    }
}

fn field_pushed(access: FieldAccess, operand: Operand) -> TopWords
    ensures { words_on_top result ≡ after.field_pushes access operand }
{
    match operand {
        Operand::Field(field) => match access {
            FieldAccess::GetStatic | FieldAccess::GetField => value_words(field.kind),
            FieldAccess::PutStatic | FieldAccess::PutField => nothing(),
        },
        Operand::Out => match access {
            FieldAccess::GetStatic => {
                one(VerificationType::Object(ObjectType::Class(PRINT_STREAM)))
            }
            _ => nothing(),
        },
        _ => nothing(),
    }
}

fn result_pushed(value: Option<ValueType>) -> TopWords
    ensures { words_on_top result ≡ after.result_pushes value }
{
    match value {
        None => nothing(),
        Some(value) => value_words(value),
    }
}

fn call_pushed<W: MethodWorld>(world: &W, operand: Operand) -> TopWords
    ensures { words_on_top result ≡ after.call_pushes (W.environment world.now) operand }
{
    match operand {
        Operand::Method(method) => result_pushed(world.result_of(method.method)),
        _ => nothing(),
    }
}

fn array_type_of(element: ObjectType) -> ObjectType
    requires { dimensions_of element < 255 }
    ensures { result ≡ after.array_type_of element }
{
    match element {
        ObjectType::Class(class) => ObjectType::Array(1, ElementType::Class(class)),
        ObjectType::Other(name) => ObjectType::Array(1, ElementType::Other(name)),
        ObjectType::Array(dimensions, element) => ObjectType::Array(dimensions + 1, element),
    }
}

fn class_pushed(purpose: ClassUse, at: u32, operand: Operand) -> TopWords
    requires { MayMake purpose operand }
    ensures { words_on_top result ≡ after.class_pushes purpose at operand }
{
    let Operand::Class(class) = operand else {
        return nothing();
    };
    match purpose {
        ClassUse::New => one(VerificationType::Uninit(at)),
        ClassUse::NewArray => one(VerificationType::Object(array_type_of(class.kind))),
        ClassUse::CheckCast => one(VerificationType::Object(class.kind)),
        ClassUse::InstanceOf => one(VerificationType::Int),
    }
}

fn pushed<W: MethodWorld, F: FrameWords>(
    world: &W,
    frame: &F,
    at: u32,
    what: &What<Target>,
) -> TopWords
    requires { MakesArray (W.environment world.now) what.now }
    ensures { words_on_top result ≡ after.pushes (W.environment world.now) at what.now (F.frame frame.now) }
{
    match what {
        What::Plain(operation) => plain_pushed(frame, *operation),
        What::Local(access, local) => local_pushed(frame, *access, *local),
        What::Int(_) => one(VerificationType::Int),
        What::NewArray(element) => one(VerificationType::Object(ObjectType::Array(
            1,
            primitive_element(*element),
        ))),
        What::Long(_) | What::LongConstant(_) => a_long(),
        What::Constant(index) => constant_pushed(world.operand(*index)),
        What::Field(access, index) => field_pushed(*access, world.operand(*index)),
        What::Call(_, index) | What::InterfaceCall(index) => {
            call_pushed(world, world.operand(*index))
        }
        What::Class(purpose, index) => class_pushed(*purpose, at, world.operand(*index)),
        What::Increment { .. }
        | What::Branch(_, _)
        | What::TableSwitch { .. }
        | What::LookupSwitch { .. } => nothing(),
    }
}

/// The words that an instruction at an offset leaves on top of those that it doesn't take. Takes no memory.
pub(crate) fn top_behind<W: MethodWorld, F: FrameWords>(
    world: &W,
    frame: &F,
    at: u32,
    what: &What<Target>,
) -> TopWords
    requires array { MakesArray (W.environment world.now) what.now }
    requires wanted { words_wanted (wants (W.environment world.now) what.now) ≤ length (F.frame frame.now).stack }
    ensures { words_on_top result
        ++ drop (words_wanted (wants (W.environment world.now) what.now)) (F.frame frame.now).stack
        ≡ after.stack_with (W.environment world.now) at what.now (F.frame frame.now) }
{
    match stack_operation(what) {
        Some(operation) => moved(
            operation,
            frame.stack_word(0),
            frame.stack_word(1),
            frame.stack_word(2),
            frame.stack_word(3),
        ),
        None => pushed(world, frame, at, what),
    }
}
