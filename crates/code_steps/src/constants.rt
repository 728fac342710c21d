//! What an index of the constant pool makes of an instruction (JVMS 4.9.1).

ghost use Rattle.std.specs.Prelude.{◌≡◌, ◌↔◌, IsTrue, slice_get, bytes_eq, codes, option_map};
ghost use Rattle.class_walk.specs.declared.class.Constant.{Constant};
ghost use Rattle.code_steps.specs.Operands.{has_dimensions, IsInterfaceCall};
ghost use Rattle.class_pool.specs.Lookup.{utf8_of, name_and_type_of, both_texts};
ghost use Rattle.code_steps.specs.Reading.{loaded_class, constant_of, long_constant_of, field_of, may_call, named_call, call_of, may_use, class_named, class_of, interface_pair_in, has_words, IsCountIn, IsInterfaceMember, new_array_of};

use crate::fault::StepFault;
use class_names::ParameterSize;
use class_pool::{Pool, class_name_at, name_and_type_at, utf8_at};
use class_walk::Constant;
use instructions::{Call, ClassUse, FieldAccess, PrimitiveType, What};

/// Whether a class name begins with a `[`.
fn is_array_name(name: &[u8]) -> bool
    ensures { result ≡ has_dimensions 1 name.now }
{
    name.starts_with(b"[")
}

/// Whether a class name begins with 255 `[`.
fn has_all_dimensions(name: &[u8]) -> bool
    ensures { result ≡ has_dimensions 255 name.now }
{
    name.starts_with(&[b'['; 255])
}

fn loaded_class(at: u32, index: u16, name: Option<&[u8]>) -> Result<What<i64>, StepFault>
    ensures { result ≡ loaded_class at index (option_map (λ x. x.now) name.entry) }
{
    match name {
        None => Err(StepFault::Operand(at)),
        Some(name) if is_array_name(name) => Err(StepFault::Unsupported(at)),
        Some(_) => Ok(What::Constant(index)),
    }
}

/// The operand of ldc and ldc_w.
#[tactic(auto, unfolding(crate::specs::Reading::constant_of))]
pub fn constant(pool: &[Constant], at: u32, index: u16) -> Result<What<i64>, StepFault>
    ensures { result ≡ constant_of pool.now at index }
{
    match pool.get(usize::from(index)) {
        Some(Constant::Integer(_) | Constant::Str(_)) => Ok(What::Constant(index)),
        Some(Constant::Class(name)) => loaded_class(at, index, utf8_at(pool, *name)),
        Some(Constant::Float(_) | Constant::Handle(..) | Constant::MethodType(_)) => {
            Err(StepFault::Unsupported(at))
        }
        _ => Err(StepFault::Operand(at)),
    }
}

/// The operand of ldc2_w.
#[tactic(auto, unfolding(crate::specs::Reading::long_constant_of))]
pub fn long_constant(pool: &[Constant], at: u32, index: u16) -> Result<What<i64>, StepFault>
    ensures { result ≡ long_constant_of pool.now at index }
{
    match pool.get(usize::from(index)) {
        Some(Constant::Long(_)) => Ok(What::LongConstant(index)),
        Some(Constant::Double(_)) => Err(StepFault::Unsupported(at)),
        _ => Err(StepFault::Operand(at)),
    }
}

/// The operand of an instruction on a field.
#[tactic(auto, unfolding(crate::specs::Reading::field_of))]
pub fn field(
    pool: &[Constant],
    access: FieldAccess,
    at: u32,
    index: u16,
) -> Result<What<i64>, StepFault>
    ensures { result ≡ field_of pool.now access at index }
{
    match pool.get(usize::from(index)) {
        Some(Constant::Field(..)) => Ok(What::Field(access, index)),
        _ => Err(StepFault::Operand(at)),
    }
}

fn is_same(a: &[u8], b: &[u8]) -> bool
    ensures { result ≡ bytes_eq a.now b.now }
{
    a == b
}

/// Whether an instruction may call a method of this name: `<clinit>` is called by none, and `<init>` by
/// invokespecial alone (JVMS 2.9, 4.9.1).
fn may_call(call: Call, name: &[u8]) -> bool
    ensures { result ≡ may_call call name.now }
{
    match call {
        Call::Special => !is_same(name, b"<clinit>"),
        Call::Virtual | Call::Static => !is_same(name, b"<clinit>") && !is_same(name, b"<init>"),
    }
}

fn named_call(
    call: Call,
    at: u32,
    index: u16,
    member: Option<(&[u8], &[u8])>,
) -> Result<What<i64>, StepFault>
    ensures { result ≡ named_call call at index (option_map (λ x. (x.0.now, x.1.now)) member.entry) }
{
    match member {
        Some((name, _)) if may_call(call, name) => Ok(What::Call(call, index)),
        _ => Err(StepFault::Operand(at)),
    }
}

/// The operand of an instruction that calls a method of a class.
#[tactic(auto, unfolding(crate::specs::Reading::call_of))]
pub fn call(pool: &[Constant], call: Call, at: u32, index: u16) -> Result<What<i64>, StepFault>
    ensures { result ≡ call_of pool.now call at index }
{
    match pool.get(usize::from(index)) {
        Some(Constant::Method(_, pair)) => named_call(
            call,
            at,
            index,
            name_and_type_at(pool, *pair),
        ),
        _ => Err(StepFault::Operand(at)),
    }
}

/// Whether an instruction may use a class of this name. An array that is made has at most 255 dimensions.
fn may_use(purpose: ClassUse, name: &[u8]) -> bool
    ensures { result ≡ may_use purpose name.now }
{
    match purpose {
        ClassUse::NewArray => !has_all_dimensions(name),
        ClassUse::New | ClassUse::CheckCast | ClassUse::InstanceOf => true,
    }
}

fn class_named(
    purpose: ClassUse,
    at: u32,
    index: u16,
    name: Option<&[u8]>,
) -> Result<What<i64>, StepFault>
    ensures { result ≡ class_named purpose at index (option_map (λ x. x.now) name.entry) }
{
    match name {
        Some(name) if may_use(purpose, name) => Ok(What::Class(purpose, index)),
        _ => Err(StepFault::Operand(at)),
    }
}

/// The operand of an instruction on a class.
#[tactic(auto, unfolding(crate::specs::Reading::class_of))]
pub fn class(
    pool: &[Constant],
    purpose: ClassUse,
    at: u32,
    index: u16,
) -> Result<What<i64>, StepFault>
    ensures { result ≡ class_of pool.now purpose at index }
{
    class_named(purpose, at, index, class_name_at(pool, index))
}

/// The operand of newarray. The codes of float and double are 6 and 7.
#[tactic(auto, unfolding(crate::specs::Reading::new_array_of))]
pub fn new_array(at: u32, code: u8) -> Result<What<i64>, StepFault>
    ensures { result ≡ new_array_of at code }
{
    match code {
        4 => Ok(What::NewArray(PrimitiveType::Boolean)),
        5 => Ok(What::NewArray(PrimitiveType::Char)),
        6 | 7 => Err(StepFault::Unsupported(at)),
        8 => Ok(What::NewArray(PrimitiveType::Byte)),
        9 => Ok(What::NewArray(PrimitiveType::Short)),
        10 => Ok(What::NewArray(PrimitiveType::Int)),
        11 => Ok(What::NewArray(PrimitiveType::Long)),
        _ => Err(StepFault::Operand(at)),
    }
}

/// Whether parameters of this size and a receiver take `count` words.
fn has_words(parameters: Option<ParameterSize>, count: u8) -> bool
    ensures { result ≡ has_words parameters count }
{
    match parameters {
        Some(size) => u16::from(count) == u16::from(size.words) + 1,
        None => false,
    }
}

/// Whether the parameters of the method descriptor at an index and a receiver take `count` words.
fn is_count(pool: &Pool<'_>, descriptor: u16, count: u8) -> bool
    ensures { IsTrue result ↔ IsCountIn (utf8_of (slice_get pool.now descriptor)) count }
{
    match pool.text_use(descriptor) {
        Some(text) => has_words(text.parameters, count),
        None => false,
    }
}

/// The index of the name and descriptor of the interface method whose entry is at an index.
fn interface_pair(pool: &[Constant], index: u16) -> Option<u16>
    ensures { result ≡ interface_pair_in (slice_get pool.now index) }
{
    match pool.get(usize::from(index)) {
        Some(Constant::IfaceMethod(_, pair)) => Some(*pair),
        _ => None,
    }
}

/// Whether invokeinterface may call a member of this name and descriptor, with this count and this last byte.
fn is_interface_member(pool: &Pool<'_>, name: u16, descriptor: u16, count: u8, last: u8) -> bool
    ensures { IsTrue result ↔ IsInterfaceMember (both_texts (utf8_of (slice_get pool.now name)) (utf8_of (slice_get pool.now descriptor))) count last }
{
    match utf8_at(pool.constants(), name) {
        Some(name) => {
            may_call(Call::Virtual, name) && is_count(pool, descriptor, count) && last == 0
        }
        None => false,
    }
}

/// Whether invokeinterface may call the member at an index, with this count and this last byte.
fn is_interface_pair(pool: &Pool<'_>, pair: u16, count: u8, last: u8) -> bool
    ensures { IsTrue result ↔ IsInterfaceMember (name_and_type_of pool.now (slice_get pool.now pair)) count last }
{
    match pool.constants().get(usize::from(pair)) {
        Some(Constant::Pair(name, descriptor)) => {
            is_interface_member(pool, *name, *descriptor, count, last)
        }
        _ => false,
    }
}

/// Whether these are the index, the count and the last byte of an invokeinterface.
pub fn is_interface_call(pool: &Pool<'_>, index: u16, count: u8, last: u8) -> bool
    ensures { IsTrue result ↔ IsInterfaceCall pool.now index count last }
{
    match interface_pair(pool.constants(), index) {
        Some(pair) => is_interface_pair(pool, pair, count, last),
        None => false,
    }
}
