//! The rules of the methods of a class file.

ghost use Rattle.std.specs.Prelude.{◌≡◌, ◌≤◌, ◌||◌, ◌&&◌, ℕ, not, List, Some, map, slice_get, IsSome};
ghost use Rattle.std.specs.List.{list_any};
ghost use Rattle.access_flags.specs.Flags.{has};
ghost use Rattle.access_flags.specs.declared.TheConstants.{STATIC as static_flag, PRIVATE as private_flag, INTERFACE as interface_flag};
ghost use Rattle.class_pool.specs.Lookup.{utf8_of};
ghost use Rattle.link_rules.specs.Classes.{NamedClass, classes_of, superclass_of, number_of_file, class_of_unit, member_of_file};
ghost use Rattle.link_rules.specs.Supers.{superclasses};
ghost use Rattle.link_rules.specs.LinkRules.{is_default, is_closed, overrides_final, declared_method_rules};
ghost use Rattle.link_rules.specs.Descriptors.{has_float};
ghost use Rattle.class_supers.specs.Answers.{KeepsExactly};
ghost use Rattle.class_read.specs.declared.class_file.Member.{Member};
ghost use Rattle.rules.specs.Rules.{each};

use crate::fields::{has_float_at, refuse};
use access_flags::{ABSTRACT, INTERFACE, NATIVE, PRIVATE, STATIC, has};
use builtin_world::number::COUNT;
use class_pool::is_utf8_at;
use class_read::Member;
use class_walk::Constant;
use code_decode::ClassUnit;
use link_types::{LinkKind, LinkRefusal};
use member_lookup::MemberLookup;

/// Whether a method has code that an interface may not have.
fn has_code(pool: &[Constant], method: &Member) -> bool
    ensures { (cs : List NamedClass) (k : ℕ) → result ≡ is_default cs k (member_of_file pool.now method.now) }
{
    !has(method.flags, ABSTRACT) && !is_utf8_at(pool, method.name, b"<clinit>")
}

/// Whether a method of an interface has code that it may not have.
fn is_default_method(interface: bool, pool: &[Constant], method: &Member) -> bool
    ensures { (cs : List NamedClass) (k : ℕ) → result ≡ (interface && is_default cs k (member_of_file pool.now method.now)) }
{
    interface && has_code(pool, method)
}

fn is_virtual(method: &Member) -> bool
    ensures { result ≡ not (has method.now.flags static_flag || has method.now.flags private_flag) }
{
    !(has(method.flags, STATIC) || has(method.flags, PRIVATE))
}

/// Whether a superclass of the file at a place has a final method of the name and the descriptor of this one.
fn is_final_above(lookup: &MemberLookup<'_>, place: u32, unit: &ClassUnit, method: &Member) -> bool
    requires place { place ≤ 1024 }
    requires there { slice_get lookup.now.units place ≡ Some unit.now }
    requires name { IsSome (utf8_of (slice_get unit.now.file.pool method.now.name)) }
    requires descriptor { IsSome (utf8_of (slice_get unit.now.file.pool method.now.descriptor)) }
    ensures { result ≡ list_any (is_closed (classes_of lookup.now.units) place (member_of_file unit.now.file.pool method.now)) (superclasses (classes_of lookup.now.units) (superclass_of (classes_of lookup.now.units) (number_of_file place))) }
{
    let superclass = lookup.orders().supers().superclass(COUNT + 1 + place);
    let name = lookup.texts().at(place, method.name);
    let descriptor = lookup.texts().at(place, method.descriptor);
    lookup.has_final(superclass, name, descriptor)
}

/// Whether a method overrides a final one of a superclass (JVMS 5.4.5).
fn overrides_final(lookup: &MemberLookup<'_>, place: u32, unit: &ClassUnit, method: &Member) -> bool
    requires place { place ≤ 1024 }
    requires there { slice_get lookup.now.units place ≡ Some unit.now }
    requires name { IsSome (utf8_of (slice_get unit.now.file.pool method.now.name)) }
    requires descriptor { IsSome (utf8_of (slice_get unit.now.file.pool method.now.descriptor)) }
    ensures { result ≡ overrides_final (classes_of lookup.now.units) place (member_of_file unit.now.file.pool method.now) }
{
    is_virtual(method) && is_final_above(lookup, place, unit, method)
}

fn check_method(
    lookup: &MemberLookup<'_>,
    floats: &[bool],
    place: u32,
    unit: &ClassUnit,
    method: &Member,
) -> Result<(), LinkRefusal>
    requires place { place ≤ 1024 }
    requires floats { floats.now ≡ map has_float lookup.now.texts }
    requires there { slice_get lookup.now.units place ≡ Some unit.now }
    requires name { IsSome (utf8_of (slice_get unit.now.file.pool method.now.name)) }
    requires descriptor { IsSome (utf8_of (slice_get unit.now.file.pool method.now.descriptor)) }
    ensures { KeepsExactly result (declared_method_rules (classes_of lookup.now.units) place (has unit.now.file.flags interface_flag) (member_of_file unit.now.file.pool method.now)) }
{
    if has_float_at(lookup.texts(), floats, place, method.descriptor) {
        return refuse(LinkKind::FloatUse, place, method.name);
    }
    if has(method.flags, NATIVE) {
        return refuse(LinkKind::Native, place, method.name);
    }
    let interface = has(unit.file.flags, INTERFACE);
    if is_default_method(interface, unit.file.pool.as_slice(), method) {
        return refuse(LinkKind::DefaultMethod, place, method.name);
    }
    if overrides_final(lookup, place, unit, method) {
        return refuse(LinkKind::FinalMethod, place, method.name);
    }
    Ok(())
}

/// The rules of the methods of the file at a place: no float or double occurs in their descriptors, none is native or a
/// method of an interface that has code, and none overrides a final one. The refusal is that of the first method that
/// breaks one.
pub fn check_methods(
    lookup: &MemberLookup<'_>,
    floats: &[bool],
    place: u32,
    unit: &ClassUnit,
) -> Result<(), LinkRefusal>
    requires place { place ≤ 1024 }
    requires floats { floats.now ≡ map has_float lookup.now.texts }
    requires there { slice_get lookup.now.units place ≡ Some unit.now }
    requires names { (i : ℕ) (m : Member) → slice_get unit.now.file.methods i ≡ Some m → IsSome (utf8_of (slice_get unit.now.file.pool m.name)) }
    requires descriptors { (i : ℕ) (m : Member) → slice_get unit.now.file.methods i ≡ Some m → IsSome (utf8_of (slice_get unit.now.file.pool m.descriptor)) }
    ensures { KeepsExactly result (each (λ i m. declared_method_rules (classes_of lookup.now.units) place (has unit.now.file.flags interface_flag) m) (class_of_unit unit.now).methods) }
{
    for method in unit.file.methods.as_slice() {
        check_method(lookup, floats, place, unit, method)?;
    }
    Ok(())
}
