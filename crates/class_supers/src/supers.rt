//! The classes of a program by number: what each one names, and what is above it.

ghost use Rattle.std.specs.Prelude.{◌≡◌, ◌↔◌, ℕ, [], ◌≤◌, suc, false, IfOk, IfErr, IsTrue, length, map, option_map};
ghost use Rattle.std.specs.Option.{option_map_or};
ghost use Rattle.access_flags.specs.Flags.{has};
ghost use Rattle.transitive_closure.specs.Relation.{Relates};
ghost use Rattle.link_rules.specs.Classes.{classes_of, class_number, class_has, superclass_of, interfaces_of};
ghost use Rattle.link_rules.specs.Supers.{IsAbove, PutsSupersFirst};
ghost use Rattle.link_rules.specs.LinkRules.{all_twice_rules, hierarchy_rules};
ghost use Rattle.link_types.specs.declared.refusal.LinkRefusal.{LinkRefusal};
ghost use Rattle.class_supers.specs.Answers.{Gives, Refuses, IsRefused};
ghost use Rattle.class_supers.specs.Numbers.{number_named, AreNumbersOf};
ghost use Rattle.class_supers.specs.Headers.{header_by};
ghost use Rattle.class_supers.specs.Above.{header_numbered};

use crate::above::named_classes;
use crate::checks::check_supers;
use crate::headers::{ClassHeader, class_headers};
use crate::naming::class_numbers;
use crate::numbers::ClassNumbers;
use access_flags::has;
use code_decode::ClassUnit;
use link_types::{LinkKind, LinkRefusal};
use std::alloc::{AllocError, Global};
use std::marker::Model;
use transitive_closure::Relation;

/// The most files that a program has.
const MOST_FILES: usize = 1024;

/// The classes of a program by number, from 1: the built-in ones, then those of the files. Contracts see the files.
#[derive(Drop)]
pub struct Supers<'a> {
    units: &'a [ClassUnit],
    numbers: ClassNumbers<'a>,
    headers: Vec<ClassHeader>,
    above: Relation,
}

impl<'a> Model for Supers<'a> {
    ghost use Rattle.std.specs.Prelude.{List};
    ghost use Rattle.code_decode.specs.declared.code.ClassUnit.{ClassUnit};
    ghost use Rattle.class_supers.specs.Hierarchy.{IsHierarchy};

    ghost Value = { List ClassUnit };

    ghost view = { λ s. s.units.now };

    ghost invariant = { λ s. IsHierarchy s.units.now s.numbers s.headers.items s.above };
}

fn header_at(headers: &[ClassHeader], class: u32) -> Option<&ClassHeader>
    ensures { option_map (λ h. h.now) result ≡ header_numbered headers.now class }
{
    let index = class.checked_sub(1)?;
    headers.get(index as usize)
}

fn superclass_in(headers: &[ClassHeader], class: u32) -> u32
    ensures { result ≡ option_map_or (λ h. h.superclass) (header_numbered headers.now class) 0 }
{
    match header_at(headers, class) {
        Some(header) => header.superclass,
        None => 0,
    }
}

fn interfaces_in(headers: &[ClassHeader], class: u32) -> &[u32]
    ensures { result.now ≡ option_map_or (λ h. h.interfaces) (header_numbered headers.now class) [] }
{
    match header_at(headers, class) {
        Some(header) => header.interfaces.as_slice(),
        None => &[],
    }
}

fn has_in(headers: &[ClassHeader], class: u32, flag: u16) -> bool
    ensures { result ≡ option_map_or (λ h. has h.flags flag) (header_numbered headers.now class) false }
{
    match header_at(headers, class) {
        Some(header) => has(header.flags, flag),
        None => false,
    }
}

/// Relates each class to those above it.
fn above(
    alloc: Global,
    units: &[ClassUnit],
    headers: &[ClassHeader],
) -> Result<Relation, AllocError>
    requires few { length units.now ≤ 1024 }
    requires headers { headers.now ≡ map (header_by (class_number (classes_of units.now))) (classes_of units.now) }
    ensures size { IfOk result (λ above. length above ≡ suc (length (classes_of units.now))) }
    ensures above { IfOk result (λ above. (c d : ℕ) → Relates above c d ↔ IsAbove (classes_of units.now) c d) }
{
    let above = named_classes(alloc, headers)?.closure(alloc)?;
    Ok(above)
}

/// The tables, where no two classes have one name.
fn number_classes(alloc: Global, units: &[ClassUnit]) -> Result<Supers<'_>, LinkRefusal>
    requires { length units.now ≤ 1024 }
    ensures { Gives result (all_twice_rules (classes_of units.now) units.now) (λ supers. supers ≡ units.now) }
{
    let numbers = class_numbers(alloc, units)?;
    let headers = class_headers(alloc, &numbers, units)?;
    let above = above(alloc, units, &headers)?;
    Ok(Supers {
        units,
        numbers,
        headers,
        above,
    })
}

/// The tables, where all rules hold.
fn number_checked(alloc: Global, units: &[ClassUnit]) -> Result<Supers<'_>, LinkRefusal>
    ensures { Gives result (hierarchy_rules units.now) (λ supers. supers ≡ units.now) }
{
    if units.len() > MOST_FILES {
        return Err(LinkRefusal::At {
            kind: LinkKind::TooMany,
            class: MOST_FILES as u32,
            place: 0,
        });
    }
    let supers = number_classes(alloc, units)?;
    check_supers(&supers)?;
    Ok(supers)
}

impl<'a> Supers<'a> {
    /// Numbers the classes of a program and finds what is above each (JVMS 5.3.5), or refuses the first of these rules
    /// that is broken: there are at most 1,024 files, each defines a class of its own, superclasses and interfaces
    /// exist and may be used as such, and no class is above itself.
    ///
    /// # Errors
    /// That refusal, or `NoMemory` where memory runs out.
    pub fn new(alloc: Global, units: &'a [ClassUnit]) -> Result<Self, LinkRefusal>
        ensures linked { IfOk result (λ supers. (supers ≡ units.now) × (hierarchy_rules units.now).Hold) }
        ensures exact { IfErr result (λ e. Refuses e (hierarchy_rules units.now)) }
        ensures first { (e : LinkRefusal) → (hierarchy_rules units.now).Refuse e → IsRefused result e }
    {
        number_checked(alloc, units)
    }

    /// The files, whose numbers follow those of the built-in classes.
    pub fn units(&self) -> &'a [ClassUnit]
        ensures { result.now ≡ self.now }
    {
        self.units
    }

    /// The number of the class of a name, 0 where there is none. A search.
    pub fn class_number(&self, name: &[u8]) -> u32
        ensures { result ≡ class_number (classes_of self.now) name.now }
    {
        self.numbers.number(name)
    }

    /// The number of the superclass, 0 where there is none.
    pub fn superclass(&self, class: u32) -> u32
        ensures { result ≡ superclass_of (classes_of self.now) class }
    {
        superclass_in(&self.headers, class)
    }

    /// The numbers of the interfaces that a class names, in its order; 0 is the number of what isn't there.
    pub fn interfaces(&self, class: u32) -> &[u32]
        ensures { result.now ≡ interfaces_of (classes_of self.now) class }
    {
        interfaces_in(&self.headers, class)
    }

    /// Whether a class is there and has this flag.
    pub fn has_flag(&self, class: u32, flag: u16) -> bool
        ensures { result ≡ class_has (classes_of self.now) class flag }
    {
        has_in(&self.headers, class, flag)
    }

    /// Whether the second class is above the first one (JVMS 5.3.5). Takes no time to speak of.
    pub fn is_above(&self, class: u32, other: u32) -> bool
        ensures { IsTrue result ↔ IsAbove (classes_of self.now) class other }
    {
        self.above.relates(class, other)
    }

    /// All classes in an order in which each comes after those that it names as its superclass and interfaces.
    pub fn order(&self, alloc: Global) -> Result<Vec<u32>, AllocError>
        requires { (hierarchy_rules self.now).Hold }
        ensures { IfOk result (λ order. PutsSupersFirst (classes_of self.now) order.items) }
    {
        let order = self.above.order(alloc, 1)?;
        Ok(order)
    }
}
