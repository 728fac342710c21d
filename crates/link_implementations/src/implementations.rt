//! The rules of abstract methods of all files.

ghost use Rattle.std.specs.Prelude.{◌≡◌, ◌≤◌, ◌<◌, ◌&&◌, not, List, IfOk, IfErr, IfSome, Some, filter, flat_map, length, slice_get};
ghost use Rattle.std.specs.List.{list_any};
ghost use Rattle.access_flags.specs.Flags.{has};
ghost use Rattle.access_flags.specs.declared.TheConstants.{ABSTRACT as abstract_flag};
ghost use Rattle.link_rules.specs.Classes.{NamedMember, classes_of, methods_of, number_of_file};
ghost use Rattle.link_rules.specs.Supers.{method_order, superclasses, superinterfaces};
ghost use Rattle.link_rules.specs.LinkRules.{implementation_rules};
ghost use Rattle.link_rules.specs.Units.{AreUnits};
ghost use Rattle.link_types.specs.declared.refusal.LinkRefusal.{LinkRefusal};
ghost use Rattle.class_supers.specs.Answers.{Gives, KeepsExactly, Refuses, IsRefused};
ghost use Rattle.link_members.specs.declared.implementations.Asked.TheVariants as asks;
ghost use Rattle.link_members.specs.Members.{AreCandidates, is_answered};
ghost use Rattle.link_implementations.specs.Tested.{AreOfOne, AreTested, EachOfOne};
ghost use Rattle.link_implementations.specs.Implementations.{HaveCandidates, all_implementation_rules, candidate_table, is_open, leaves_open};

use crate::candidates::{Candidates, candidate_table};
use crate::memo::{Memo, Tested};
use access_flags::{ABSTRACT, has};
use builtin_world::number::COUNT;
use link_members::{Asked, is_answered, methods_have_numbers};
use link_types::{LinkKind, LinkRefusal};
use member_lookup::MemberLookup;
use member_table::MemberRow;
use rows::Rows;
use std::alloc::Global;

/// From 8 methods of the same signature on, a test is remembered.
const MANY: usize = 8;

/// The first of some methods, unless they are so few that a look among them is as cheap as one into the memo.
fn first_of_many(methods: &[MemberRow]) -> Option<&MemberRow>
    ensures { IfSome result (λ first. slice_get methods.now 0 ≡ Some first.now) }
{
    if methods.len() < MANY {
        return None;
    }
    methods.first()
}

/// Whether objects of a class answer as asked, where these are the methods of one signature.
fn is_kept(
    lookup: &MemberLookup<'_>,
    memo: &mut Memo,
    asked: Asked,
    class: u32,
    methods: &[MemberRow],
) -> bool
    requires class { class ≤ length (classes_of lookup.now.units) }
    requires methods { AreOfOne lookup.now methods.now }
    requires memo { AreTested lookup.now memo.old.tested.items }
    ensures memo { AreTested lookup.now memo.new.tested.items }
    ensures answer { (m : NamedMember) → AreCandidates lookup.now m methods.now → result ≡ is_answered asked (classes_of lookup.now.units) class m }
{
    let Some(first) = first_of_many(methods) else {
        return is_answered(lookup, asked, class, methods);
    };
    if memo.knows(asked, class, first) {
        return true;
    }
    if !is_answered(lookup, asked, class, methods) {
        return false;
    }
    let tested = Tested {
        asked,
        class,
        name: first.name,
        descriptor: first.descriptor,
    };
    memo.keep(tested, first);
    true
}

/// Whether objects of a class answer one of some methods otherwise than asked.
fn any_open(
    lookup: &MemberLookup<'_>,
    memo: &mut Memo,
    asked: Asked,
    class: u32,
    candidates: &[Candidates<'_>],
) -> bool
    requires class { class ≤ length (classes_of lookup.now.units) }
    requires candidates { EachOfOne lookup.now candidates.now }
    requires memo { AreTested lookup.now memo.old.tested.items }
    ensures memo { AreTested lookup.now memo.new.tested.items }
    ensures answer { (ms : List NamedMember) → HaveCandidates lookup.now ms candidates.now → result ≡ list_any (is_open asked (classes_of lookup.now.units) class) ms }
{
    for its in candidates {
        if !is_kept(lookup, memo, asked, class, its.methods()) {
            return true;
        }
    }
    false
}

/// Whether objects of a class answer an abstract method of another one otherwise than asked.
fn leaves_open(
    lookup: &MemberLookup<'_>,
    table: &[Rows<Candidates<'_>>],
    memo: &mut Memo,
    asked: Asked,
    class: u32,
    declarer: u32,
) -> bool
    requires decoded { AreUnits lookup.now.units }
    requires table { table.now ≡ candidate_table lookup.now }
    requires class { class ≤ length (classes_of lookup.now.units) }
    requires memo { AreTested lookup.now memo.old.tested.items }
    ensures memo { AreTested lookup.now memo.new.tested.items }
    ensures answer { result ≡ leaves_open asked (classes_of lookup.now.units) class declarer }
{
    methods_have_numbers(lookup);
    match table.get(declarer as usize) {
        Some(candidates) => any_open(lookup, memo, asked, class, candidates.as_slice()),
        None => false,
    }
}

/// The same of some classes.
fn any_leaves_open(
    lookup: &MemberLookup<'_>,
    table: &[Rows<Candidates<'_>>],
    memo: &mut Memo,
    asked: Asked,
    class: u32,
    declarers: &[u32],
) -> bool
    requires decoded { AreUnits lookup.now.units }
    requires table { table.now ≡ candidate_table lookup.now }
    requires class { class ≤ length (classes_of lookup.now.units) }
    requires memo { AreTested lookup.now memo.old.tested.items }
    ensures memo { AreTested lookup.now memo.new.tested.items }
    ensures answer { result ≡ list_any (leaves_open asked (classes_of lookup.now.units) class) declarers.now }
{
    for declarer in declarers {
        if leaves_open(lookup, table, memo, asked, class, *declarer) {
            return true;
        }
    }
    false
}

/// Whether the class of a file of these flags isn't abstract, and has or inherits an abstract method that it doesn't
/// implement.
fn lacks_method(
    lookup: &MemberLookup<'_>,
    table: &[Rows<Candidates<'_>>],
    memo: &mut Memo,
    place: u32,
    flags: u16,
) -> bool
    requires few { length lookup.now.units ≤ 1024 }
    requires there { place < length lookup.now.units }
    requires decoded { AreUnits lookup.now.units }
    requires table { table.now ≡ candidate_table lookup.now }
    requires memo { AreTested lookup.now memo.old.tested.items }
    ensures memo { AreTested lookup.now memo.new.tested.items }
    ensures answer { result ≡ (not (has flags abstract_flag) && list_any (leaves_open asks.Implemented (classes_of lookup.now.units) (number_of_file place)) (method_order (classes_of lookup.now.units) (number_of_file place))) }
{
    let class = COUNT + 1 + place;
    let order = lookup.orders().of(class).methods.numbers();
    !has(flags, ABSTRACT) && any_leaves_open(lookup, table, memo, Asked::Implemented, class, order)
}

/// Whether the class of a file implements a method of an interface by one that isn't public.
fn hides_method(
    lookup: &MemberLookup<'_>,
    table: &[Rows<Candidates<'_>>],
    memo: &mut Memo,
    place: u32,
) -> bool
    requires few { length lookup.now.units ≤ 1024 }
    requires there { place < length lookup.now.units }
    requires decoded { AreUnits lookup.now.units }
    requires table { table.now ≡ candidate_table lookup.now }
    requires memo { AreTested lookup.now memo.old.tested.items }
    ensures memo { AreTested lookup.now memo.new.tested.items }
    ensures answer { result ≡ list_any (leaves_open asks.Public (classes_of lookup.now.units) (number_of_file place)) (flat_map (superinterfaces (classes_of lookup.now.units)) (superclasses (classes_of lookup.now.units) (number_of_file place))) }
{
    let class = COUNT + 1 + place;
    let order = lookup.orders().of(class).all_interfaces.as_slice();
    any_leaves_open(lookup, table, memo, Asked::Public, class, order)
}

/// The rules of the class of a file of these flags.
fn check_class(
    lookup: &MemberLookup<'_>,
    table: &[Rows<Candidates<'_>>],
    memo: &mut Memo,
    place: u32,
    flags: u16,
) -> Result<(), LinkRefusal>
    requires few { length lookup.now.units ≤ 1024 }
    requires there { place < length lookup.now.units }
    requires decoded { AreUnits lookup.now.units }
    requires table { table.now ≡ candidate_table lookup.now }
    requires memo { AreTested lookup.now memo.old.tested.items }
    ensures memo { AreTested lookup.now memo.new.tested.items }
    ensures answer { KeepsExactly result (implementation_rules (classes_of lookup.now.units) place flags) }
{
    if lacks_method(lookup, table, memo, place, flags) {
        return Err(LinkRefusal::At {
            kind: LinkKind::NoMethod,
            class: place,
            place: 0,
        });
    }
    if hides_method(lookup, table, memo, place) {
        return Err(LinkRefusal::At {
            kind: LinkKind::Private,
            class: place,
            place: 0,
        });
    }
    Ok(())
}

/// The rules of the classes of all files.
fn check_classes(
    lookup: &MemberLookup<'_>,
    table: &[Rows<Candidates<'_>>],
    memo: &mut Memo,
) -> Result<(), LinkRefusal>
    requires few { length lookup.now.units ≤ 1024 }
    requires decoded { AreUnits lookup.now.units }
    requires table { table.now ≡ candidate_table lookup.now }
    requires memo { AreTested lookup.now memo.old.tested.items }
    ensures memo { AreTested lookup.now memo.new.tested.items }
    ensures answer { KeepsExactly result (all_implementation_rules lookup.now.units) }
{
    for (place, unit) in lookup.texts().units().iter().enumerate() {
        check_class(lookup, table, memo, place as u32, unit.file.flags)?;
    }
    Ok(())
}

fn check_all(alloc: Global, lookup: &MemberLookup<'_>) -> Result<(), LinkRefusal>
    requires few { length lookup.now.units ≤ 1024 }
    requires decoded { AreUnits lookup.now.units }
    ensures { Gives result (all_implementation_rules lookup.now.units) (λ none. Unit {0}) }
{
    let table = candidate_table(alloc, lookup)?;
    let mut memo = Memo::new(alloc, lookup.texts().units())?;
    check_classes(lookup, &table, &mut memo)
}

/// The rules of abstract methods (JVMS 5.4.5, 6.5): objects of a class that isn't abstract answer each abstract method of
/// the class and of all above it with one that isn't abstract, and what isn't abstract and answers a method of an
/// interface above a class is public. The refusal is that of the first file that breaks one, at the file's place and the
/// index 0: `NoMethod` where a method isn't implemented, else `Private`.
///
/// # Errors
/// That refusal, or `NoMemory` where memory runs out.
pub fn check_implementations(alloc: Global, lookup: &MemberLookup<'_>) -> Result<(), LinkRefusal>
    requires few { length lookup.now.units ≤ 1024 }
    requires decoded { AreUnits lookup.now.units }
    ensures kept { IfOk result (λ none. (all_implementation_rules lookup.now.units).Hold) }
    ensures exact { IfErr result (λ e. Refuses e (all_implementation_rules lookup.now.units)) }
    ensures first { (e : LinkRefusal) → (all_implementation_rules lookup.now.units).Refuse e → IsRefused result e }
{
    check_all(alloc, lookup)
}
