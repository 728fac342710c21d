//! Reading descriptors (JVMS 4.3).

ghost use Rattle.std.specs.Prelude.{◌≡◌, ◌≢◌, ◌↔◌, ◌≤◌, ◌++◌, ◌∷◌, ℕ, List, Option, None, Some, Ok, Err, IsTrue, IfOk, IfSome, IfNone, MatchOption, MatchResult, option_map};
ghost use Rattle.class_names.specs.declared.kind.BaseKind.{BaseKind};
ghost use Rattle.class_names.specs.declared.kind.Kind.{Kind};
ghost use Rattle.class_names.specs.declared.kind.Descriptor.{Descriptor};
ghost use Rattle.class_names.specs.Descriptor.{IsFieldDescriptor, IsMethodDescriptor, IsDescriptorOf, size_of, ParametersAt, IsReturn};
ghost use Rattle.class_names.specs.Kinds.{field_kind, method_kinds};
ghost use Rattle.class_names.specs.Shape.{kind_of};
ghost use Rattle.class_names.specs.MethodShape.{kinds_of, IsMethodShape};

use crate::kind::{Descriptor, Kind, NameRefusal, ParameterSize};
use crate::parameters::Parameters;
use crate::shape::{KindShape, kind_shape};
use rows::Rows;
use std::alloc::{AllocError, Global};

/// The kind of which the bytes are the descriptor (JVMS 4.3.2), or `None` where they are none. Takes no memory.
pub fn field_shape(bytes: &[u8]) -> Option<KindShape<'_>>
    ensures value { option_map kind_of result ≡ field_kind bytes.now }
    ensures found { IfSome result (λ shape. IsFieldDescriptor bytes.now (kind_of shape)) }
    ensures none { IfNone result ((kind : Kind) → ¬ IsFieldDescriptor bytes.now kind) }
{
    let (shape, rest) = kind_shape(bytes)?;
    if rest.is_empty() { Some(shape) } else { None }
}

/// Whether bytes are a field descriptor: one of the letters `B`, `C`, `D`, `F`, `I`, `J`, `S` and `Z`, or an
/// `L`, a class name and a `;`, or up to 255 `[` and one of these (JVMS 4.3.2).
pub fn is_field_descriptor(bytes: &[u8]) -> bool
    ensures { IsTrue result ↔ ((kind : Kind) × IsFieldDescriptor bytes.now kind) }
{
    field_shape(bytes).is_some()
}

/// Whether bytes are the field descriptor of an array (JVMS 4.3.2), by which a constant names an array class
/// (JVMS 4.4.1).
pub fn is_array_descriptor(bytes: &[u8]) -> bool
    ensures { IsTrue result ↔ ((dimensions : ℕ) × (base : BaseKind) × IsFieldDescriptor bytes.now (Kind.Array dimensions base)) }
{
    match field_shape(bytes) {
        Some(shape) => shape.dimensions > 0,
        None => false,
    }
}

/// What comes after a byte at the front.
fn after_byte(bytes: &[u8], byte: u8) -> Option<&[u8]>
    ensures { MatchOption result ((rest : List ℕ) → bytes.now ≢ byte ∷ rest) (λ rest. bytes.now ≡ byte ∷ rest.now) }
{
    let (first, rest) = bytes.split_first()?;
    if *first == byte { Some(rest) } else { None }
}

/// The size of the parameters at the front, up to their `)`, and what comes after it.
fn parameters(bytes: &[u8]) -> Option<(ParameterSize, &[u8])>
    ensures found { IfSome result (λ x. (kinds : List Kind) × ParametersAt bytes.now kinds x.1.now × (x.0 ≡ size_of kinds)) }
    ensures none { IfNone result ((kinds : List Kind) (rest : List ℕ) → ¬ ParametersAt bytes.now kinds rest) }
{
    let mut count = 0_u32;
    let mut words = 0;
    let mut rest = bytes;
    while let Some((shape, after)) = kind_shape(rest) {
        words += shape.words();
        if words > 255 {
            return None;
        }
        count += 1;
        rest = after;
    }
    let after = after_byte(rest, b')')?;
    let size = ParameterSize {
        count: count as u8,
        words: words as u8,
    };
    Some((size, after))
}

/// The kind of the result, which the bytes are up to their end: `None` in it where it is void.
fn returned_shape(bytes: &[u8]) -> Option<Option<KindShape<'_>>>
    ensures found { IfSome result (λ x. IsReturn bytes.now (option_map kind_of x)) }
    ensures none { IfNone result ((returned : Option Kind) → ¬ IsReturn bytes.now returned) }
{
    if bytes == b"V".as_slice() {
        return Some(None);
    }
    let shape = field_shape(bytes)?;
    Some(Some(shape))
}

/// A method descriptor as it is written (JVMS 4.3.3).
#[derive(Drop)]
pub struct MethodShape<'a> {
    /// How much the parameters are.
    pub size: ParameterSize,
    /// The kinds of the parameters in order.
    pub parameters: Parameters<'a>,
    /// The kind of the result, or `None` where it is void.
    pub returned: Option<KindShape<'a>>,
}

/// The parameters and the result of which the bytes are the method descriptor (JVMS 4.3.3), or `None` where they are
/// none. Takes no memory.
pub fn method_shape(bytes: &[u8]) -> Option<MethodShape<'_>>
    ensures value { option_map kinds_of result ≡ method_kinds bytes.now }
    ensures found { IfSome result (IsMethodShape bytes.now) }
    ensures none { IfNone result ((parameters : List Kind) (returned : Option Kind) → ¬ IsMethodDescriptor bytes.now parameters returned) }
{
    let text = after_byte(bytes, b'(')?;
    let (size, rest) = parameters(text)?;
    let returned = returned_shape(rest)?;
    Some(MethodShape {
        size,
        parameters: Parameters::new(text),
        returned,
    })
}

/// How many parameters a method descriptor has and how many words they take; the receiver isn't counted
/// (JVMS 4.3.3). `None` where the bytes are no method descriptor.
pub fn parameter_size(bytes: &[u8]) -> Option<ParameterSize>
    ensures found { IfSome result (λ size. (parameters : List Kind) × (returned : Option Kind)
        × IsMethodDescriptor bytes.now parameters returned × (size ≡ size_of parameters)) }
    ensures only { (parameters : List Kind) (returned : Option Kind) →
        IsMethodDescriptor bytes.now parameters returned → result ≡ Some (size_of parameters) }
{
    match method_shape(bytes) {
        Some(shape) => Some(shape.size),
        None => None,
    }
}

/// Whether bytes are a method descriptor: field descriptors in parentheses, of at most 255 words, and a field
/// descriptor or `V` (JVMS 4.3.3).
pub fn is_method_descriptor(bytes: &[u8]) -> bool
    ensures { IsTrue result ↔ ((parameters : List Kind) × (returned : Option Kind) × IsMethodDescriptor bytes.now parameters returned) }
{
    method_shape(bytes).is_some()
}

/// The kinds with memory of their own.
fn kinds(alloc: Global, parameters: Parameters<'_>) -> Result<Rows<Kind>, AllocError>
    ensures { IfOk result (λ kinds. kinds ≡ parameters.entry) }
{
    let mut kinds = Rows::new(alloc);
    for shape in parameters {
        kinds.push(shape.kind(alloc)?)?;
    }
    Ok(kinds)
}

fn returned_kind(alloc: Global, shape: Option<KindShape<'_>>) -> Result<Option<Kind>, AllocError>
    ensures { IfOk result (λ kind. kind ≡ option_map kind_of shape.entry) }
{
    match shape {
        Some(shape) => Ok(Some(shape.kind(alloc)?)),
        None => Ok(None),
    }
}

impl MethodShape<'_> {
    /// The descriptor with memory of its own.
    fn descriptor(self, alloc: Global) -> Result<Descriptor, AllocError>
        ensures { IfOk result (λ d. d ≡ Descriptor.Method self.entry.parameters (option_map kind_of self.entry.returned)) }
    {
        let parameters = kinds(alloc, self.parameters)?;
        let returned = returned_kind(alloc, self.returned)?;
        Ok(Descriptor::Method(parameters, returned))
    }
}

/// The descriptor that the bytes spell (JVMS 4.3). Of a method it counts the parameters alone and no
/// receiver. Where the bytes are none, the answer is `Bad`, and no memory is taken.
pub fn descriptor_of(alloc: Global, bytes: &[u8]) -> Result<Descriptor, NameRefusal>
    // What is read is spelled so.
    ensures found { IfOk result (IsDescriptorOf bytes.now) }
    // What is spelled so is read, unless memory runs out.
    ensures only { (descriptor : Descriptor) → IsDescriptorOf bytes.now descriptor →
        MatchResult result (λ read. read ≡ descriptor) (λ refusal. refusal ≡ NameRefusal.NoMemory) }
    // Bad exactly where nothing is spelled so.
    ensures bad { (result ≡ Err NameRefusal.Bad) ↔ ((descriptor : Descriptor) → ¬ IsDescriptorOf bytes.now descriptor) }
{
    if let Some(shape) = method_shape(bytes) {
        return Ok(shape.descriptor(alloc)?);
    }
    match field_shape(bytes) {
        Some(shape) => Ok(Descriptor::Field(shape.kind(alloc)?)),
        None => Err(NameRefusal::Bad),
    }
}
