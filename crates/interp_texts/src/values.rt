//! The units of what is appended.

ghost use Rattle.std.specs.Prelude.{◌≡◌, IfOk};
ghost use Rattle.java_rows.specs.Units.{units_without_reading};
ghost use Rattle.interp_plans.specs.Jobs.{appended_of};

use frame_snapshot::Appended;
use interp_local::long;
use std::alloc::{AllocError, Global};
use text_units::{ascii_units, decimal_units};

/// The units of what is appended, where it isn't a String: `null` of one that is null.
pub fn value_units(alloc: Global, value: Appended) -> Result<Vec<u16>, AllocError>
    ensures { IfOk result (λ row. row.items ≡ units_without_reading (appended_of value)) }
{
    match value {
        Appended::Int(word) => decimal_units(alloc, i64::from(word.cast_signed())),
        Appended::Long { low, high } => decimal_units(alloc, long(low, high).cast_signed()),
        Appended::Char(word) => {
            let mut units = Vec::new(alloc);
            units.push((word % 0x1_0000) as u16)?;
            Ok(units)
        }
        Appended::Boolean(word) if word % 2 == 1 => ascii_units(alloc, b"true"),
        Appended::Boolean(_) => ascii_units(alloc, b"false"),
        Appended::Text(_) => ascii_units(alloc, b"null"),
    }
}
