//! The types of innermost elements of a program.

ghost use Rattle.std.specs.Prelude.{◌≡◌, ◌≢◌, ◌<◌, ◌≤◌, ◌-◌, suc, option_map, slice_get, ◌++◌, ◌∷◌, [], ℕ, IfOk, OnOk, length};
ghost use Rattle.link_rules.specs.Classes.{classes_of, class_of_unit};
ghost use Rattle.base_order.specs.Bases.{name_of, class_type, primitive_bases, AreBasesOf};

use crate::sorting::in_order;
use crate::text::BaseText;
use builtin_world::builtin_at;
use builtin_world::number::COUNT;
use class_pool::class_name_at;
use class_supers::Supers;
use code_decode::ClassUnit;
use link_types::ElementType;
use rows::Bytes;
use std::alloc::{AllocError, Global};

fn primitive(alloc: Global, base: ElementType, letter: u8) -> Result<BaseText, AllocError>
    ensures { IfOk result (λ text. text ≡ record { text = letter ∷ []; base = base }) }
{
    Ok(BaseText {
        text: Bytes::from_slice(alloc, &[letter])?,
        base,
    })
}

fn primitive_texts(alloc: Global) -> Result<Vec<BaseText>, AllocError>
    ensures { IfOk result (λ texts. texts.items ≡ primitive_bases) }
{
    let mut texts = Vec::new(alloc);
    texts.push(primitive(alloc, ElementType::Boolean, b'Z')?)?;
    texts.push(primitive(alloc, ElementType::Byte, b'B')?)?;
    texts.push(primitive(alloc, ElementType::Char, b'C')?)?;
    texts.push(primitive(alloc, ElementType::Short, b'S')?)?;
    texts.push(primitive(alloc, ElementType::Int, b'I')?)?;
    texts.push(primitive(alloc, ElementType::Long, b'J')?)?;
    texts.push(primitive(alloc, ElementType::Float, b'F')?)?;
    texts.push(primitive(alloc, ElementType::Double, b'D')?)?;
    Ok(texts)
}

fn unit_name(unit: &ClassUnit) -> &[u8]
    ensures { result.now ≡ (class_of_unit unit.now).name }
{
    class_name_at(unit.file.pool.as_slice(), unit.file.this_class).unwrap_or(b"")
}

fn unit_of(units: &[ClassUnit], class: u32) -> Option<&ClassUnit>
    requires { COUNT < class }
    ensures { option_map (λ u. u.now) result ≡ slice_get units.now (class - suc COUNT) }
{
    units.get((class - COUNT - 1) as usize)
}

/// The name of the class of a file.
fn file_name(units: &[ClassUnit], class: u32) -> &[u8]
    requires { COUNT < class }
    ensures { result.now ≡ name_of (classes_of units.now) class }
{
    match unit_of(units, class) {
        Some(unit) => unit_name(unit),
        None => b"",
    }
}

/// The name of the class of a number.
fn class_name<'a>(supers: &Supers<'a>, class: u32) -> &'a [u8]
    requires { class ≢ 0 }
    ensures { result.now ≡ name_of (classes_of supers.now) class }
{
    match builtin_at(class) {
        Some(builtin) => builtin.name.as_bytes(),
        None => file_name(supers.units(), class),
    }
}

fn class_text(alloc: Global, name: &[u8], class: u32) -> Result<BaseText, AllocError>
    ensures { IfOk result (λ text. text ≡ record { text = 76 ∷ (name.now ++ 59 ∷ []); base = class_type class }) }
{
    let mut text = Vec::new(alloc);
    text.push(b'L')?;
    text.extend_from_slice(name)?;
    text.push(b';')?;
    Ok(BaseText {
        text: Bytes::from_vec(text),
        base: ElementType::Class(class),
    })
}

/// The types of innermost elements of a program in the order of their descriptors: the primitive ones, and its classes
/// and interfaces. It fails only when memory runs out.
pub fn program_bases(alloc: Global, supers: &Supers<'_>) -> Result<Vec<ElementType>, AllocError>
    requires { length supers.now ≤ 1024 }
    ensures { IfOk result (λ bases. AreBasesOf supers.now bases.items) }
{
    let mut texts = primitive_texts(alloc)?;
    let count = COUNT + supers.units().len() as u32;
    for class in 1..count + 1 {
        texts.push(class_text(alloc, class_name(supers, class), class)?)?;
    }
    let bases = in_order(alloc, &texts)?;
    Ok(bases)
}
