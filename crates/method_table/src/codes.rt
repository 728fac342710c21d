//! The code of methods.

ghost use Rattle.std.specs.Prelude.{◌≡◌, option_map};
ghost use Rattle.link_rules.specs.Classes.{unit_numbered};
ghost use Rattle.link_rules.specs.Methods.{method_code};

use builtin_world::number::COUNT;
use code_decode::{ClassUnit, Code};
use link_types::MethodId;

/// The file of the class of a number.
fn unit_at(units: &[ClassUnit], class: u32) -> Option<&ClassUnit>
    ensures { option_map (λ u. u.now) result ≡ unit_numbered units.now class }
{
    let index = class.checked_sub(COUNT + 1)?;
    units.get(index as usize)
}

/// The code of a method by the files of its program (JVMS 4.7.3): `None` of a method that is abstract or built in, and
/// of what is no method. Takes no memory.
pub fn code(units: &[ClassUnit], id: MethodId) -> Option<&Code>
    ensures { option_map (λ c. c.now) result ≡ method_code units.now id }
{
    let unit = unit_at(units, id.class)?;
    let code = unit.codes.as_slice().get(usize::from(id.method))?;
    code.as_ref()
}
