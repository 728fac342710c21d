//! Descriptors with a float or a double.

ghost use Rattle.std.specs.Prelude.{◌≡◌, ◌≢◌, ◌-◌, ℕ, false, IfOk, map, slice_index_or};
ghost use Rattle.std.specs.List.{list_any};
ghost use Rattle.std.specs.Option.{option_map_or};
ghost use Rattle.class_names.specs.Shape.{kind_of};
ghost use Rattle.link_rules.specs.Descriptors.{has_float, innermost, is_float_base};

use class_names::{BaseShape, KindShape, Parameters, field_shape, method_shape};
use class_texts::ClassTexts;
use std::alloc::{AllocError, Global};

fn is_float(shape: KindShape<'_>) -> bool
    ensures { result ≡ is_float_base (innermost (kind_of shape.entry)) }
{
    match shape.base {
        BaseShape::Float => true,
        BaseShape::Double => true,
        _ => false,
    }
}

fn is_float_result(shape: Option<KindShape<'_>>) -> bool
    ensures { result ≡ option_map_or (λ s. is_float_base (innermost (kind_of s))) shape.entry false }
{
    match shape {
        Some(shape) => is_float(shape),
        None => false,
    }
}

fn has_float_kind(kinds: Parameters<'_>) -> bool
    ensures { result ≡ list_any (λ kind. is_float_base (innermost kind)) kinds.entry }
{
    for shape in kinds {
        if is_float(shape) {
            return true;
        }
    }
    false
}

/// Whether a kind, an element, a parameter or the result in a descriptor is float or double.
fn has_float(descriptor: &[u8]) -> bool
    ensures { result ≡ has_float descriptor.now }
{
    if let Some(shape) = method_shape(descriptor) {
        let in_parameters = has_float_kind(shape.parameters);
        return in_parameters || is_float_result(shape.returned);
    }
    is_float_result(field_shape(descriptor))
}

/// For each text whether it is a descriptor with a float or a double.
pub fn float_texts(alloc: Global, texts: &ClassTexts<'_>) -> Result<Vec<bool>, AllocError>
    ensures { IfOk result (λ floats. floats.items ≡ map has_float texts.now.texts) }
{
    let mut floats = Vec::new(alloc);
    for text in texts.all() {
        floats.push(has_float(text))?;
    }
    Ok(floats)
}

/// Whether a text is a descriptor with a float or a double, by its number.
pub fn is_float_text(floats: &[bool], number: u32) -> bool
    requires { number ≢ 0 }
    ensures { result ≡ slice_index_or floats.now (number - 1) false }
{
    floats.get(number as usize - 1).copied().unwrap_or(false)
}
