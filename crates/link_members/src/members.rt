//! The rules of the fields and methods of all files.

ghost use Rattle.std.specs.Prelude.{◌≤◌, ◌≡◌, Some, IfOk, IfErr, length, map, slice_get};
ghost use Rattle.link_rules.specs.Classes.{classes_of, class_of_unit};
ghost use Rattle.link_rules.specs.Descriptors.{has_float};
ghost use Rattle.link_rules.specs.LinkRules.{members_rules};
ghost use Rattle.link_rules.specs.Units.{IsDecoded, AreUnits};
ghost use Rattle.link_types.specs.declared.refusal.LinkRefusal.{LinkRefusal};
ghost use Rattle.class_supers.specs.Answers.{Gives, KeepsExactly, Refuses, IsRefused};
ghost use Rattle.link_members.specs.Members.{all_members_rules};

use code_decode::ClassUnit;
use link_types::LinkRefusal;
use member_lookup::MemberLookup;
use member_rules::{check_fields, check_methods, float_texts};
use std::alloc::Global;

/// The rules of the fields and methods of the file at a place.
fn check_unit(
    lookup: &MemberLookup<'_>,
    floats: &[bool],
    place: u32,
    unit: &ClassUnit,
) -> Result<(), LinkRefusal>
    requires place { place ≤ 1024 }
    requires floats { floats.now ≡ map has_float lookup.now.texts }
    requires there { slice_get lookup.now.units place ≡ Some unit.now }
    requires decoded { IsDecoded unit.now }
    ensures { KeepsExactly result (members_rules (classes_of lookup.now.units) place (class_of_unit unit.now)) }
{
    check_fields(lookup.texts(), floats, place, unit)?;
    check_methods(lookup, floats, place, unit)
}

/// The rules of the fields and methods of all files, where it is known of each text whether it is a descriptor with a
/// float or a double.
fn check_declared(lookup: &MemberLookup<'_>, floats: &[bool]) -> Result<(), LinkRefusal>
    requires few { length lookup.now.units ≤ 1024 }
    requires floats { floats.now ≡ map has_float lookup.now.texts }
    requires decoded { AreUnits lookup.now.units }
    ensures { KeepsExactly result (all_members_rules lookup.now.units) }
{
    for (place, unit) in lookup.texts().units().iter().enumerate() {
        check_unit(lookup, floats, place as u32, unit)?;
    }
    Ok(())
}

fn check_texts(alloc: Global, lookup: &MemberLookup<'_>) -> Result<(), LinkRefusal>
    requires few { length lookup.now.units ≤ 1024 }
    requires decoded { AreUnits lookup.now.units }
    ensures { Gives result (all_members_rules lookup.now.units) (λ none. Unit {0}) }
{
    let floats = float_texts(alloc, lookup.texts())?;
    check_declared(lookup, &floats)
}

/// The rules of the fields and methods that files declare (JVMS 4.5, 4.6, 5.4.5): no float or double occurs in their
/// descriptors, no volatile field is a long, no method is native, overrides a final one, or is a method of an interface
/// that has code. The refusal is that of the first file that breaks one, and of its fields before its methods.
///
/// # Errors
/// That refusal, or `NoMemory` where memory runs out.
pub fn check_members(alloc: Global, lookup: &MemberLookup<'_>) -> Result<(), LinkRefusal>
    requires few { length lookup.now.units ≤ 1024 }
    requires decoded { AreUnits lookup.now.units }
    ensures kept { IfOk result (λ none. (all_members_rules lookup.now.units).Hold) }
    ensures exact { IfErr result (λ e. Refuses e (all_members_rules lookup.now.units)) }
    ensures first { (e : LinkRefusal) → (all_members_rules lookup.now.units).Refuse e → IsRefused result e }
{
    check_texts(alloc, lookup)
}
