//! The rules of one instruction.

ghost use Rattle.std.specs.Prelude.{◌≡◌, ◌≤◌, ◌↔◌, ℕ, List, Option, Some, Err, IsTrue, option_map};
ghost use Rattle.rules.specs.Rules.{given};
ghost use Rattle.class_pool.specs.Pool.{Reference};
ghost use Rattle.link_types.specs.declared.refusal.LinkRefusal.TheVariants.{At};
ghost use Rattle.link_types.specs.declared.refusal.LinkKind.TheVariants as kinds;
ghost use Rattle.link_rules.specs.Classes.{NamedClass};
ghost use Rattle.link_rules.specs.Members.{Declared};
ghost use Rattle.instructions.specs.declared.operation.ClassUse.TheVariants as uses;
ghost use Rattle.link_rules.specs.LinkRules.{MaySet, MayAccess, MayBeCalled, wants_static, is_static_call, there_rules, class_use_rules, field_use_rules, call_rules, interface_call_rules};
ghost use Rattle.class_supers.specs.Answers.{KeepsExactly};
ghost use Rattle.member_lookup.specs.Found.{found_of};
ghost use Rattle.use_rules.specs.Facts.{class_facts, method_facts, AreFactsOf};
ghost use Rattle.use_rules.specs.FoundRules.{found_field_rules, found_method_rules};

use crate::classes::ClassFacts;
use crate::members::{MemberFacts, MethodFacts};
use access_flags::{PRIVATE, STATIC, has};
use builtin_world::number::{COUNT, SYSTEM};
use instructions::{Call, ClassUse, FieldAccess};
use link_types::{LinkKind, LinkRefusal};
use member_lookup::Found;

/// The refusal of a kind at a place of a class.
pub fn refuse(kind: LinkKind, class: u32, place: u16) -> Result<(), LinkRefusal>
    ensures { result ≡ Err (At kind class place) }
{
    Err(LinkRefusal::At { kind, class, place })
}

/// A class is there.
pub fn check_there(place: u32, index: u16, class: ClassFacts) -> Result<(), LinkRefusal>
    ensures { (cs : List NamedClass) (name : List ℕ) → class ≡ class_facts cs name → KeepsExactly result (there_rules cs place index name) }
{
    if class.is_there {
        Ok(())
    } else {
        refuse(LinkKind::Missing, place, index)
    }
}

/// A class is there that `new` can make.
fn check_new(place: u32, index: u16, class: ClassFacts) -> Result<(), LinkRefusal>
    ensures { (cs : List NamedClass) (name : List ℕ) → class ≡ class_facts cs name → KeepsExactly result (class_use_rules cs place uses.New index name) }
{
    if !class.is_there {
        return refuse(LinkKind::Missing, place, index);
    }
    if class.cannot_be_made {
        return refuse(LinkKind::NotClass, place, index);
    }
    Ok(())
}

/// What an instruction asks of the class that it names, at a place of the class (JVMS 6.5).
pub fn check_class(
    purpose: ClassUse,
    place: u32,
    index: u16,
    class: ClassFacts,
) -> Result<(), LinkRefusal>
    ensures { (cs : List NamedClass) (name : List ℕ) → class ≡ class_facts cs name → KeepsExactly result (class_use_rules cs place purpose index name) }
{
    match purpose {
        ClassUse::New => check_new(place, index, class),
        ClassUse::NewArray => check_there(place, index, class),
        ClassUse::CheckCast => check_there(place, index, class),
        ClassUse::InstanceOf => check_there(place, index, class),
    }
}

fn wants_static(access: FieldAccess) -> bool
    ensures { result ≡ wants_static access }
{
    matches!(access, FieldAccess::GetStatic | FieldAccess::PutStatic)
}

fn is_static_call(call: Call) -> bool
    ensures { result ≡ is_static_call call }
{
    matches!(call, Call::Static)
}

/// Whether a field may be set, if it is.
fn may_set(access: FieldAccess, field: Found) -> bool
    ensures { (d : Declared) → field ≡ found_of d → IsTrue result ↔ MaySet access d }
{
    match access {
        FieldAccess::PutStatic => field.class != SYSTEM,
        _ => true,
    }
}

/// Whether the class of the file at a place may name a member.
fn may_access(place: u32, member: Found) -> bool
    requires { place ≤ 1024 }
    ensures { (cs : List NamedClass) (d : Declared) → member ≡ found_of d → IsTrue result ↔ MayAccess cs place d }
{
    !has(member.flags, PRIVATE) || member.class == COUNT + 1 + place
}

/// Whether an instruction may call a method.
fn may_be_called(call: Call, method: MethodFacts) -> bool
    ensures { (cs : List NamedClass) (k : ℕ) (r : Reference) (d : Declared) → method ≡ method_facts cs k r d → IsTrue result ↔ MayBeCalled cs k call r d }
{
    match call {
        Call::Special => has(method.found.flags, STATIC) || method.is_special,
        _ => true,
    }
}

fn check_found_field(
    access: FieldAccess,
    place: u32,
    index: u16,
    field: Found,
) -> Result<(), LinkRefusal>
    requires { place ≤ 1024 }
    ensures { (cs : List NamedClass) (d : Declared) → field ≡ found_of d → KeepsExactly result (found_field_rules cs place access index d) }
{
    if !may_set(access, field) {
        return refuse(LinkKind::NoField, place, index);
    }
    if has(field.flags, STATIC) != wants_static(access) {
        return refuse(LinkKind::StaticMismatch, place, index);
    }
    if !may_access(place, field) {
        return refuse(LinkKind::Private, place, index);
    }
    Ok(())
}

fn check_found_method(
    call: Call,
    place: u32,
    index: u16,
    method: MethodFacts,
) -> Result<(), LinkRefusal>
    requires { place ≤ 1024 }
    ensures { (cs : List NamedClass) (r : Reference) (d : Declared) → method ≡ method_facts cs place r d → KeepsExactly result (found_method_rules cs place call index r d) }
{
    if !may_be_called(call, method) {
        return refuse(LinkKind::NoMethod, place, index);
    }
    if has(method.found.flags, STATIC) != is_static_call(call) {
        return refuse(LinkKind::StaticMismatch, place, index);
    }
    if !may_access(place, method.found) {
        return refuse(LinkKind::Private, place, index);
    }
    Ok(())
}

/// The method that an instruction calls is there, and it may call that.
fn check_method(
    call: Call,
    place: u32,
    index: u16,
    method: Option<MethodFacts>,
) -> Result<(), LinkRefusal>
    requires { place ≤ 1024 }
    ensures { (cs : List NamedClass) (r : Reference) (o : Option Declared) → method ≡ option_map (method_facts cs place r) o → KeepsExactly result (given o (At kinds.NoMethod place index) (found_method_rules cs place call index r)) }
{
    match method {
        Some(method) => check_found_method(call, place, index, method),
        None => refuse(LinkKind::NoMethod, place, index),
    }
}

/// The field is there, and the instruction may do this with it.
fn check_field_there(
    access: FieldAccess,
    place: u32,
    index: u16,
    field: Option<Found>,
) -> Result<(), LinkRefusal>
    requires { place ≤ 1024 }
    ensures { (cs : List NamedClass) (o : Option Declared) → field ≡ option_map found_of o → KeepsExactly result (given o (At kinds.NoField place index) (found_field_rules cs place access index)) }
{
    match field {
        Some(field) => check_found_field(access, place, index, field),
        None => refuse(LinkKind::NoField, place, index),
    }
}

/// What getstatic, putstatic, getfield and putfield name.
pub fn check_field(
    access: FieldAccess,
    place: u32,
    index: u16,
    member: Option<MemberFacts>,
) -> Result<(), LinkRefusal>
    requires { place ≤ 1024 }
    ensures { (cs : List NamedClass) (r : Reference) → AreFactsOf cs place r member → KeepsExactly result (field_use_rules cs place access index r) }
{
    match member {
        Some(member) => check_field_there(access, place, index, member.field),
        None => refuse(LinkKind::Missing, place, index),
    }
}

fn check_class_method(
    call: Call,
    place: u32,
    index: u16,
    member: MemberFacts,
) -> Result<(), LinkRefusal>
    requires { place ≤ 1024 }
    ensures { (cs : List NamedClass) (r : Reference) → AreFactsOf cs place r (Some member) → KeepsExactly result (call_rules cs place call index r) }
{
    if member.in_interface {
        return refuse(LinkKind::NotClass, place, index);
    }
    check_method(call, place, index, member.method)
}

/// What invokevirtual, invokespecial and invokestatic name.
pub fn check_call(
    call: Call,
    place: u32,
    index: u16,
    member: Option<MemberFacts>,
) -> Result<(), LinkRefusal>
    requires { place ≤ 1024 }
    ensures { (cs : List NamedClass) (r : Reference) → AreFactsOf cs place r member → KeepsExactly result (call_rules cs place call index r) }
{
    match member {
        Some(member) => check_class_method(call, place, index, member),
        None => refuse(LinkKind::Missing, place, index),
    }
}

fn check_interface_method(place: u32, index: u16, member: MemberFacts) -> Result<(), LinkRefusal>
    requires { place ≤ 1024 }
    ensures { (cs : List NamedClass) (r : Reference) → AreFactsOf cs place r (Some member) → KeepsExactly result (interface_call_rules cs place index r) }
{
    if !member.in_interface {
        return refuse(LinkKind::NotInterface, place, index);
    }
    check_method(Call::Virtual, place, index, member.method)
}

/// What invokeinterface names.
pub fn check_interface_call(
    place: u32,
    index: u16,
    member: Option<MemberFacts>,
) -> Result<(), LinkRefusal>
    requires { place ≤ 1024 }
    ensures { (cs : List NamedClass) (r : Reference) → AreFactsOf cs place r member → KeepsExactly result (interface_call_rules cs place index r) }
{
    match member {
        Some(member) => check_interface_method(place, index, member),
        None => refuse(LinkKind::Missing, place, index),
    }
}
