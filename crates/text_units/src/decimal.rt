//! The units of numbers and of words.

ghost use Rattle.std.specs.Prelude.{◌≡◌, IfOk};
ghost use Rattle.std.specs.Fmt.{signed_decimal};

use std::alloc::{AllocError, Global};

/// The units of an ASCII text, which are its bytes.
pub fn ascii_units(alloc: Global, text: &[u8]) -> Result<Vec<u16>, AllocError>
    ensures { IfOk result (λ units. units.items ≡ text.now) }
{
    let mut units = Vec::new(alloc);
    for byte in text {
        units.push(u16::from(*byte))?;
    }
    Ok(units)
}

/// The units of a number in decimal, with `-` before one below 0 (`Integer.toString`, `Long.toString`).
pub fn decimal_units(alloc: Global, number: i64) -> Result<Vec<u16>, AllocError>
    ensures { IfOk result (λ units. units.items ≡ signed_decimal number) }
{
    ascii_units(alloc, number.to_string(alloc)?.as_bytes())
}
