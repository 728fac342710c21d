//! Texts in modified UTF-8 (JVMS SE 8, 4.4.7), as the constants of class files have them.
#![tactic(auto)]

ghost use Rattle.std.specs.Prelude.{◌≡◌, IfOk};
ghost use Rattle.encoded_texts.specs.Encoded.{encoded_text};

use class_names::encoded;
use std::alloc::{AllocError, Global};
use text_units::units_of_text;

/// A text in modified UTF-8: each of its UTF-16 code units in its shortest form, so that the character 0 is `C0 80` and
/// a character above U+FFFF is its pair of surrogates, three bytes each.
///
/// # Errors
/// It fails only when memory runs out.
pub fn encoded_text(alloc: Global, text: &str) -> Result<Vec<u8>, AllocError>
    ensures { IfOk result (λ bytes. bytes.items ≡ encoded_text text.now) }
{
    let units = units_of_text(alloc, text)?;
    encoded(alloc, units.as_slice())
}
