//! What is known of the fields and methods that the entries of a pool name.

ghost use Rattle.std.specs.Prelude.{◌≡◌, ◌≤◌, ℕ, not, false, Some, [], IfOk, length, map, slice_get, option_map};
ghost use Rattle.std.specs.Option.{option_map_or};
ghost use Rattle.access_flags.specs.Flags.{has};
ghost use Rattle.access_flags.specs.declared.TheConstants.{ABSTRACT as abstract_flag};
ghost use Rattle.class_pool.specs.Pool.{Reference};
ghost use Rattle.link_rules.specs.Classes.{classes_of, class_number, reference_at};
ghost use Rattle.link_rules.specs.Members.{Declared, found_method};
ghost use Rattle.member_lookup.specs.Found.{found_of, AreNumbers};
ghost use Rattle.use_rules.specs.Facts.{class_entry, class_facts, method_facts, member_facts, or_none, AreFactsOf};

use crate::classes::{ClassFacts, class_at};
use access_flags::{ABSTRACT, INTERFACE, has};
use builtin_world::number::COUNT;
use class_walk::Constant;
use code_decode::ClassUnit;
use member_lookup::{Found, MemberLookup, ReferenceNumbers};
use std::alloc::{AllocError, Global};

/// What is known of a method that look-up finds.
#[derive(Clone, Copy)]
pub struct MethodFacts {
    pub found: Found,
    /// Whether invokespecial calls a method that isn't abstract.
    pub is_special: bool,
}

/// What is known of a field or method that a class names.
#[derive(Clone, Copy)]
pub struct MemberFacts {
    /// Whether look-up begins in an interface.
    pub in_interface: bool,
    pub field: Option<Found>,
    pub method: Option<MethodFacts>,
}

/// The index of the Class entry that a Field, Method or InterfaceMethod entry has (JVMS 4.4.2).
fn class_index(pool: &[Constant], index: u16) -> u16
    ensures { result ≡ class_entry (slice_get pool.now index) }
{
    match pool.get(usize::from(index)) {
        Some(
            Constant::Field(class, _)
            | Constant::Method(class, _)
            | Constant::IfaceMethod(class, _),
        ) => *class,
        _ => 0,
    }
}

fn is_concrete(method: Option<Found>) -> bool
    ensures { result ≡ option_map_or (λ (m : Found). not (has m.flags abstract_flag)) method false }
{
    match method {
        Some(method) => !has(method.flags, ABSTRACT),
        None => false,
    }
}

/// What is known of a method that the class of the file at a place finds.
fn method_facts(
    lookup: &MemberLookup<'_>,
    place: u32,
    reference: ReferenceNumbers,
    found: Found,
) -> MethodFacts
    requires { place ≤ 1024 }
    ensures { (r : Reference) (d : Declared) → AreNumbers lookup.now reference r → found ≡ found_of d → result ≡ method_facts (classes_of lookup.now.units) place r d }
{
    MethodFacts {
        found,
        is_special: is_concrete(lookup.special(COUNT + 1 + place, reference, found)),
    }
}

fn found_method(
    lookup: &MemberLookup<'_>,
    place: u32,
    reference: ReferenceNumbers,
) -> Option<MethodFacts>
    requires place { place ≤ 1024 }
    requires holder { reference.holder ≤ length (classes_of lookup.now.units) }
    ensures { (r : Reference) → AreNumbers lookup.now reference r → result ≡ option_map (method_facts (classes_of lookup.now.units) place r) (found_method (classes_of lookup.now.units) r) }
{
    let found = lookup.found_method(reference)?;
    Some(method_facts(lookup, place, reference, found))
}

fn member_facts(lookup: &MemberLookup<'_>, place: u32, reference: ReferenceNumbers) -> MemberFacts
    requires place { place ≤ 1024 }
    requires holder { reference.holder ≤ length (classes_of lookup.now.units) }
    ensures { (r : Reference) → AreNumbers lookup.now reference r → result ≡ member_facts (classes_of lookup.now.units) place r }
{
    MemberFacts {
        in_interface: lookup
            .orders()
            .supers()
            .has_flag(reference.holder, INTERFACE),
        field: lookup.found_field(reference),
        method: found_method(lookup, place, reference),
    }
}

/// What is known of the member that the entry at an index of the pool of the file at a place names, if its class is
/// there.
fn member_at(
    lookup: &MemberLookup<'_>,
    classes: &[ClassFacts],
    place: u32,
    unit: &ClassUnit,
    index: u16,
) -> Option<MemberFacts>
    requires place { place ≤ 1024 }
    requires unnamed { class_number (classes_of lookup.now.units) [] ≡ 0 }
    requires classes { classes.now ≡ map (class_facts (classes_of lookup.now.units)) lookup.now.texts }
    requires there { slice_get lookup.now.units place ≡ Some unit.now }
    ensures { AreFactsOf (classes_of lookup.now.units) place (reference_at unit.now.file.pool index) result }
{
    let reference = lookup.reference(place, index)?;
    let class = class_index(unit.file.pool.as_slice(), index);
    if !class_at(lookup, classes, place, unit, class).is_there {
        return None;
    }
    Some(member_facts(lookup, place, reference))
}

/// What is known of the members that the entries of the pool of the file at a place name. Each entry is looked at once.
pub fn member_table(
    alloc: Global,
    lookup: &MemberLookup<'_>,
    classes: &[ClassFacts],
    place: u32,
    unit: &ClassUnit,
) -> Result<Vec<Option<MemberFacts>>, AllocError>
    requires place { place ≤ 1024 }
    requires unnamed { class_number (classes_of lookup.now.units) [] ≡ 0 }
    requires classes { classes.now ≡ map (class_facts (classes_of lookup.now.units)) lookup.now.texts }
    requires there { slice_get lookup.now.units place ≡ Some unit.now }
    ensures { IfOk result (λ table. (i : ℕ) → i ≤ 65535 → AreFactsOf (classes_of lookup.now.units) place (reference_at unit.now.file.pool i) (or_none (slice_get table.items i))) }
{
    let mut table = Vec::new(alloc);
    for index in 0..unit.file.pool.as_slice().len().min(65536) {
        table.push(member_at(lookup, classes, place, unit, index as u16))?;
    }
    Ok(table)
}
