//! The rules of the fields of a class file.

ghost use Rattle.std.specs.Prelude.{◌≡◌, ◌&&◌, List, Some, Err, map, slice_get, codes, bytes_eq};
ghost use Rattle.access_flags.specs.Flags.{has};
ghost use Rattle.access_flags.specs.declared.TheConstants.{VOLATILE as volatile_flag};
ghost use Rattle.rules.specs.Rules.{each};
ghost use Rattle.code_decode.specs.declared.code.ClassUnit.{ClassUnit};
ghost use Rattle.link_types.specs.declared.refusal.LinkRefusal.TheVariants.{At};
ghost use Rattle.link_rules.specs.Classes.{NamedClass, class_of_unit, member_of_file, utf8_at};
ghost use Rattle.link_rules.specs.Descriptors.{has_float};
ghost use Rattle.link_rules.specs.LinkRules.{declared_field_rules};
ghost use Rattle.class_supers.specs.Answers.{KeepsExactly};

use crate::floats::is_float_text;
use access_flags::{VOLATILE, has};
use class_pool::is_utf8_at;
use class_read::Member;
use class_texts::ClassTexts;
use class_walk::Constant;
use code_decode::ClassUnit;
use link_types::{LinkKind, LinkRefusal};

/// The refusal of a rule.
pub fn refuse(kind: LinkKind, class: u32, place: u16) -> Result<(), LinkRefusal>
    ensures { result ≡ Err (At kind class place) }
{
    Err(LinkRefusal::At { kind, class, place })
}

/// Whether the text there is a descriptor with a float or a double, by the numbers of texts.
pub fn has_float_at(texts: &ClassTexts<'_>, floats: &[bool], file: u32, index: u16) -> bool
    requires { floats.now ≡ map has_float texts.now.texts }
    ensures { (u : ClassUnit) → slice_get texts.now.units file ≡ Some u → result ≡ has_float (utf8_at u.file.pool index) }
{
    let number = texts.at(file, index);
    if number == 0 {
        return false;
    }
    is_float_text(floats, number)
}

/// Whether the text there is the descriptor of a long.
fn is_long_at(pool: &[Constant], index: u16) -> bool
    ensures { result ≡ bytes_eq (utf8_at pool.now index) (codes "J") }
{
    is_utf8_at(pool, index, b"J")
}

fn is_volatile_long(pool: &[Constant], field: &Member) -> bool
    ensures { result ≡ (has field.now.flags volatile_flag && bytes_eq (utf8_at pool.now field.now.descriptor) (codes "J")) }
{
    has(field.flags, VOLATILE) && is_long_at(pool, field.descriptor)
}

fn check_field(
    texts: &ClassTexts<'_>,
    floats: &[bool],
    place: u32,
    unit: &ClassUnit,
    field: &Member,
) -> Result<(), LinkRefusal>
    requires floats { floats.now ≡ map has_float texts.now.texts }
    requires there { slice_get texts.now.units place ≡ Some unit.now }
    ensures { (cs : List NamedClass) → KeepsExactly result (declared_field_rules cs place (member_of_file unit.now.file.pool field.now)) }
{
    if has_float_at(texts, floats, place, field.descriptor) {
        return refuse(LinkKind::FloatUse, place, field.name);
    }
    if is_volatile_long(unit.file.pool.as_slice(), field) {
        return refuse(LinkKind::VolatileLong, place, field.name);
    }
    Ok(())
}

/// The rules of the fields of the file at a place: no float or double occurs in their descriptors, and no volatile one
/// is a long. The refusal is that of the first field that breaks one.
pub fn check_fields(
    texts: &ClassTexts<'_>,
    floats: &[bool],
    place: u32,
    unit: &ClassUnit,
) -> Result<(), LinkRefusal>
    requires floats { floats.now ≡ map has_float texts.now.texts }
    requires there { slice_get texts.now.units place ≡ Some unit.now }
    ensures { (cs : List NamedClass) → KeepsExactly result (each (λ i f. declared_field_rules cs place f) (class_of_unit unit.now).fields) }
{
    for field in unit.file.fields.as_slice() {
        check_field(texts, floats, place, unit, field)?;
    }
    Ok(())
}
