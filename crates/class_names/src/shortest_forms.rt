//! Code units in modified UTF-8, each in its shortest form (JVMS 4.4.7).

ghost use Rattle.std.specs.Prelude.{◌≡◌, ◌++◌, OnOk, OnErr, IfOk};
ghost use Rattle.class_names.specs.ShortestForms.{form_of, encoded};

use std::alloc::{AllocError, Global};

/// Appends the shortest form of a UTF-16 code unit to the bytes. When memory runs out, they stay as they are.
pub fn put_unit(bytes: &mut Vec<u8>, unit: u16) -> Result<(), AllocError>
    ensures ok { OnOk result (bytes.new.items ≡ bytes.old.items ++ form_of unit) }
    ensures err { OnErr result (bytes.new.items ≡ bytes.old.items) }
{
    let last = 0x80 + (unit % 64) as u8;
    if matches!(unit, 0x01..=0x7f) {
        bytes.push(unit as u8)?;
    } else if unit <= 0x7ff {
        bytes.extend_from_slice(&[0xc0 + (unit / 64) as u8, last])?;
    } else {
        let middle = 0x80 + (unit / 64 % 64) as u8;
        bytes.extend_from_slice(&[0xe0 + (unit / 4096) as u8, middle, last])?;
    }
    Ok(())
}

/// UTF-16 code units in modified UTF-8, each in its shortest form. It fails only when memory runs out.
pub fn encoded(alloc: Global, units: &[u16]) -> Result<Vec<u8>, AllocError>
    ensures { IfOk result (λ bytes. bytes.items ≡ encoded units.now) }
{
    let mut bytes = Vec::new(alloc);
    for unit in units {
        put_unit(&mut bytes, *unit)?;
    }
    Ok(bytes)
}
