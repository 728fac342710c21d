//! The rules of what is above the classes of files (JVMS 5.3.5).

ghost use Rattle.std.specs.Prelude.{◌≡◌, ◌≢◌, ◌↔◌, ◌≤◌, ℕ, Some, Err, IsTrue, length, slice_get, slice_index};
ghost use Rattle.rules.specs.Rules.{must, each};
ghost use Rattle.access_flags.specs.declared.TheConstants.{INTERFACE as interface_flag};
ghost use Rattle.link_types.specs.declared.refusal.LinkRefusal.TheVariants.{At};
ghost use Rattle.link_types.specs.declared.refusal.LinkKind.TheVariants as kinds;
ghost use Rattle.link_rules.specs.Classes.{classes_of, class_has};
ghost use Rattle.link_rules.specs.LinkRules.{MayExtend, named_class_rules, named_interface_rules, supers_rules, all_supers_rules};
ghost use Rattle.class_supers.specs.Answers.{KeepsExactly};

use crate::naming::number_of_file;
use crate::supers::Supers;
use access_flags::{FINAL, INTERFACE, has};
use builtin_world::number::OBJECT;
use code_decode::ClassUnit;
use link_types::{LinkKind, LinkRefusal};

fn refuse(kind: LinkKind, class: u32, place: u16) -> Result<(), LinkRefusal>
    ensures { result ≡ Err (At kind class place) }
{
    Err(LinkRefusal::At { kind, class, place })
}

/// Each index names a class that is there, by its number.
fn check_numbers(place: u32, indices: &[u16], numbers: &[u32]) -> Result<(), LinkRefusal>
    requires { length numbers.now ≡ length indices.now }
    ensures { KeepsExactly result (each (λ i at. must (slice_index numbers.now i ≢ 0) (At kinds.Missing place at)) indices.now) }
{
    for (i, index) in indices.iter().enumerate() {
        if numbers[i] == 0 {
            return refuse(LinkKind::Missing, place, *index);
        }
    }
    Ok(())
}

/// Each index names an interface, by its number.
fn check_kinds(
    supers: &Supers<'_>,
    place: u32,
    indices: &[u16],
    numbers: &[u32],
) -> Result<(), LinkRefusal>
    requires { length numbers.now ≡ length indices.now }
    ensures { KeepsExactly result (each (λ i at. must (IsTrue (class_has (classes_of supers.now) (slice_index numbers.now i) interface_flag)) (At kinds.NotInterface place at)) indices.now) }
{
    for (i, index) in indices.iter().enumerate() {
        if !supers.has_flag(numbers[i], INTERFACE) {
            return refuse(LinkKind::NotInterface, place, *index);
        }
    }
    Ok(())
}

/// The interfaces of a file are there.
fn check_interfaces(supers: &Supers<'_>, place: u32, unit: &ClassUnit) -> Result<(), LinkRefusal>
    requires place { place ≤ 1024 }
    requires there { slice_get supers.now place ≡ Some unit.now }
    ensures { KeepsExactly result (each (λ i at. named_class_rules (classes_of supers.now) place unit.now.file.pool at) unit.now.file.interfaces) }
{
    let numbers = supers.interfaces(number_of_file(place));
    check_numbers(place, unit.file.interfaces.as_slice(), numbers)
}

/// The interfaces of a file are interfaces.
fn check_interface_kinds(
    supers: &Supers<'_>,
    place: u32,
    unit: &ClassUnit,
) -> Result<(), LinkRefusal>
    requires place { place ≤ 1024 }
    requires there { slice_get supers.now place ≡ Some unit.now }
    ensures { KeepsExactly result (each (λ i at. named_interface_rules (classes_of supers.now) place unit.now.file.pool at) unit.now.file.interfaces) }
{
    let numbers = supers.interfaces(number_of_file(place));
    check_kinds(supers, place, unit.file.interfaces.as_slice(), numbers)
}

/// Whether a class of these flags may have this superclass.
fn may_extend(supers: &Supers<'_>, flags: u16, superclass: u32) -> bool
    ensures { (k : ℕ) → IsTrue result ↔ MayExtend (classes_of supers.now) k flags superclass }
{
    !supers.has_flag(superclass, INTERFACE) && (!has(flags, INTERFACE) || superclass == OBJECT)
}

/// The rules of the file at a place.
fn check_file(supers: &Supers<'_>, place: u32, unit: &ClassUnit) -> Result<(), LinkRefusal>
    requires place { place ≤ 1024 }
    requires there { slice_get supers.now place ≡ Some unit.now }
    ensures { KeepsExactly result (supers_rules (classes_of supers.now) place unit.now) }
{
    let class = number_of_file(place);
    let superclass = supers.superclass(class);
    if superclass == 0 {
        return refuse(LinkKind::Missing, place, unit.file.super_class);
    }
    check_interfaces(supers, place, unit)?;
    if !may_extend(supers, unit.file.flags, superclass) {
        return refuse(LinkKind::NotClass, place, unit.file.super_class);
    }
    check_interface_kinds(supers, place, unit)?;
    if supers.has_flag(superclass, FINAL) {
        return refuse(LinkKind::FinalSuper, place, unit.file.super_class);
    }
    if supers.is_above(class, class) {
        return refuse(LinkKind::Cycle, place, 0);
    }
    Ok(())
}

/// What is above the classes of the files is allowed there.
pub fn check_supers(supers: &Supers<'_>) -> Result<(), LinkRefusal>
    requires { length supers.now ≤ 1024 }
    ensures { KeepsExactly result (all_supers_rules (classes_of supers.now) supers.now) }
{
    for (place, unit) in supers.units().iter().enumerate() {
        check_file(supers, place as u32, unit)?;
    }
    Ok(())
}
