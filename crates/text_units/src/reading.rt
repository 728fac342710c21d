//! The units of a text.

ghost use Rattle.std.specs.Prelude.{◌≡◌, ◌++◌, IfOk, OnOk, OnErr};
ghost use Rattle.std.specs.Char.Escape.{encode_utf16};
ghost use Rattle.text_units.specs.Units.{units_of_text};

use std::alloc::{AllocError, Global};

fn push_character(units: &mut Vec<u16>, character: char) -> Result<(), AllocError>
    ensures { OnOk result (units.new.items ≡ units.old.items ++ encode_utf16 character) }
{
    let mut places = [0, 0];
    units.extend_from_slice(character.encode_utf16(&mut places))
}

/// The UTF-16 code units of a text, or an error where there is no memory for them.
pub fn units_of_text(alloc: Global, text: &str) -> Result<Vec<u16>, AllocError>
    ensures { IfOk result (λ units. units.items ≡ units_of_text text.now) }
{
    let mut units = Vec::new(alloc);
    for character in text.chars() {
        push_character(&mut units, character)?;
    }
    Ok(units)
}

/// Appends the UTF-16 code units of a text to other units. When memory runs out they stay as they are.
pub fn push_units(alloc: Global, units: &mut Vec<u16>, text: &str) -> Result<(), AllocError>
    ensures ok { OnOk result (units.new.items ≡ units.old.items ++ units_of_text text.now) }
    ensures err { OnErr result (units.new.items ≡ units.old.items) }
{
    let added = units_of_text(alloc, text)?;
    units.extend_from_slice(added.as_slice())
}
