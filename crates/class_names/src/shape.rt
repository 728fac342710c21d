//! Kinds as they are written in a descriptor, without memory of their own.

ghost use Rattle.std.specs.Prelude.{◌≡◌, ◌≤◌, ℕ, length, take, drop, None, Some, IfOk, MatchOption};
ghost use Rattle.std.specs.List.{prefix_len};
ghost use Rattle.class_names.specs.Descriptor.{words_of, kind_of_dimensions};
ghost use Rattle.class_names.specs.Reading.{split_at_semicolon, base_at, kind_at, is_bracket, class_from};
ghost use Rattle.class_names.specs.Shape.{base_of, kind_of};

use crate::kind::{BaseKind, Kind};
use crate::names::is_spelled_class_name;
use rows::Bytes;
use std::alloc::{AllocError, Global};

/// A kind that is no array (JVMS 4.3.2). The name of a class is lent.
#[derive(Clone, Copy)]
pub enum BaseShape<'a> {
    Int,
    Byte,
    Char,
    Short,
    Boolean,
    Long,
    Float,
    Double,
    Class(&'a [u8]),
}

/// A kind as it is written in a descriptor (JVMS 4.3.2). Without a dimension it is not an array.
#[derive(Clone, Copy)]
pub struct KindShape<'a> {
    /// How many `[` come before it, 0 to 255.
    pub dimensions: u8,
    /// The kind of the innermost elements.
    pub base: BaseShape<'a>,
}

impl BaseShape<'_> {
    fn base_kind(self, alloc: Global) -> Result<BaseKind, AllocError>
        ensures { IfOk result (λ base. base ≡ base_of self.entry) }
    {
        Ok(match self {
            BaseShape::Int => BaseKind::Int,
            BaseShape::Byte => BaseKind::Byte,
            BaseShape::Char => BaseKind::Char,
            BaseShape::Short => BaseKind::Short,
            BaseShape::Boolean => BaseKind::Boolean,
            BaseShape::Long => BaseKind::Long,
            BaseShape::Float => BaseKind::Float,
            BaseShape::Double => BaseKind::Double,
            BaseShape::Class(name) => BaseKind::Class(Bytes::from_slice(alloc, name)?),
        })
    }
}

impl KindShape<'_> {
    /// The words that a value takes among the parameters of a method (JVMS 4.3.3).
    pub fn words(self) -> u32
        ensures { result ≡ words_of (kind_of self.entry) }
    {
        match self.base {
            BaseShape::Long | BaseShape::Double if self.dimensions == 0 => 2,
            _ => 1,
        }
    }

    /// The kind with memory of its own. It fails only when memory runs out.
    pub fn kind(self, alloc: Global) -> Result<Kind, AllocError>
        ensures { IfOk result (λ kind. kind ≡ kind_of self.entry) }
    {
        let base = self.base.base_kind(alloc)?;
        Ok(if self.dimensions == 0 {
            Kind::Base(base)
        } else {
            Kind::Array(self.dimensions, base)
        })
    }
}

/// What comes before the first `;`, and what comes after it.
fn split_name(bytes: &[u8]) -> Option<(&[u8], &[u8])>
    ensures { MatchOption result (split_at_semicolon bytes.now ≡ None) (λ x. split_at_semicolon bytes.now ≡ Some (x.0.now, x.1.now)) }
{
    for (end, byte) in bytes.iter().enumerate() {
        if *byte == b';' {
            return Some((&bytes[..end], &bytes[end + 1..]));
        }
    }
    None
}

/// The class after an `L`.
fn class_shape(bytes: &[u8]) -> Option<(BaseShape<'_>, &[u8])>
    ensures { MatchOption result (class_from (split_at_semicolon bytes.now) ≡ None) (λ x. class_from (split_at_semicolon bytes.now) ≡ Some (base_of x.0, x.1.now)) }
{
    let (name, rest) = split_name(bytes)?;
    if is_spelled_class_name(name) {
        Some((BaseShape::Class(name), rest))
    } else {
        None
    }
}

/// The kind at the front that is not an array, and what comes after it.
#[tactic(auto, unfolding(crate::specs::Reading::base_at))]
fn base_shape(bytes: &[u8]) -> Option<(BaseShape<'_>, &[u8])>
    ensures { MatchOption result (base_at bytes.now ≡ None) (λ x. base_at bytes.now ≡ Some (base_of x.0, x.1.now)) }
{
    let (first, rest) = bytes.split_first()?;
    match *first {
        b'I' => Some((BaseShape::Int, rest)),
        b'B' => Some((BaseShape::Byte, rest)),
        b'C' => Some((BaseShape::Char, rest)),
        b'S' => Some((BaseShape::Short, rest)),
        b'Z' => Some((BaseShape::Boolean, rest)),
        b'J' => Some((BaseShape::Long, rest)),
        b'F' => Some((BaseShape::Float, rest)),
        b'D' => Some((BaseShape::Double, rest)),
        b'L' => class_shape(rest),
        _ => None,
    }
}

/// How many `[` are at the front.
fn leading_brackets(bytes: &[u8]) -> usize
    ensures value { result ≡ prefix_len is_bracket bytes.now }
    ensures bound { result ≤ length bytes.now }
{
    bytes.iter().take_while(|byte| **byte == b'[').count()
}

/// The kind at the front, which is up to 255 `[` and a kind that is not an array, and what comes after it. `None` where
/// there is no kind (JVMS 4.3.2).
#[tactic(auto, unfolding(crate::specs::Reading::kind_at))]
pub fn kind_shape(bytes: &[u8]) -> Option<(KindShape<'_>, &[u8])>
    ensures { MatchOption result (kind_at bytes.now ≡ None) (λ x. kind_at bytes.now ≡ Some (kind_of x.0, x.1.now)) }
{
    let dimensions = leading_brackets(bytes);
    if dimensions > 255 {
        return None;
    }
    let (base, rest) = base_shape(&bytes[dimensions..])?;
    let dimensions = dimensions as u8;
    Some((KindShape { dimensions, base }, rest))
}
