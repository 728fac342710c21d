//! What is known of classes by the numbers of their names.

ghost use Rattle.std.specs.Prelude.{◌≡◌, ◌≢◌, ◌-◌, Some, [], IfOk, map, slice_get, slice_index_or, option_map};
ghost use Rattle.class_names.specs.Shape.{base_of};
ghost use Rattle.link_rules.specs.Classes.{classes_of, class_number, class_name_at};
ghost use Rattle.link_rules.specs.Descriptors.{base_class, named_kind, class_of_kind};
ghost use Rattle.link_rules.specs.LinkRules.{cannot_be_made};
ghost use Rattle.class_pool.specs.Lookup.{class_name_of};
ghost use Rattle.use_rules.specs.Facts.{is_class_there, class_facts, NumbersName, nothing_known};

use access_flags::{ABSTRACT, INTERFACE};
use class_names::{BaseShape, field_shape};
use class_supers::Supers;
use class_walk::Constant;
use code_decode::ClassUnit;
use member_lookup::MemberLookup;
use std::alloc::{AllocError, Global};

/// What is known of a class by its name.
#[derive(Clone, Copy)]
pub struct ClassFacts {
    /// Whether it is there; of an array class, the class of its innermost elements, if they have one.
    pub is_there: bool,
    /// Whether it is an array class, abstract or an interface.
    pub cannot_be_made: bool,
}

fn class_of_base(base: BaseShape<'_>) -> Option<&[u8]>
    ensures { option_map (λ n. n.now) result ≡ base_class (base_of base.entry) }
{
    match base {
        BaseShape::Class(name) => Some(name),
        _ => None,
    }
}

/// The class that a Class entry of this name names (JVMS 4.4.1); of an array class, that of its innermost elements.
fn named_class(name: &[u8]) -> Option<&[u8]>
    ensures { option_map (λ n. n.now) result ≡ class_of_kind (named_kind name.now) }
{
    if name.first() != Some(&b'[') {
        return Some(name);
    }
    match field_shape(name) {
        Some(shape) => class_of_base(shape.base),
        None => Some(name),
    }
}

fn is_class_there(supers: &Supers<'_>, name: &[u8]) -> bool
    ensures { result ≡ is_class_there (classes_of supers.now) name.now }
{
    match named_class(name) {
        Some(class) => supers.class_number(class) != 0,
        None => true,
    }
}

fn cannot_be_made(supers: &Supers<'_>, name: &[u8]) -> bool
    ensures { result ≡ cannot_be_made (classes_of supers.now) 0 name.now }
{
    let class = supers.class_number(name);
    name.first() == Some(&b'[')
        || (supers.has_flag(class, ABSTRACT) || supers.has_flag(class, INTERFACE))
}

/// For each text what is known of the class of that name. Two searches a text.
pub fn class_facts(alloc: Global, lookup: &MemberLookup<'_>) -> Result<Vec<ClassFacts>, AllocError>
    ensures { IfOk result (λ facts. facts.items ≡ map (class_facts (classes_of lookup.now.units)) lookup.now.texts) }
{
    let supers = lookup.orders().supers();
    let mut facts = Vec::new(alloc);
    for name in lookup.texts().all() {
        facts.push(ClassFacts {
            is_there: is_class_there(supers, name),
            cannot_be_made: cannot_be_made(supers, name),
        })?;
    }
    Ok(facts)
}

/// The number of the name of the Class entry at an index of the pool of the file at a place, 0 where there is none.
fn name_number(lookup: &MemberLookup<'_>, place: u32, unit: &ClassUnit, index: u16) -> u32
    requires { slice_get lookup.now.units place ≡ Some unit.now }
    ensures { NumbersName lookup.now.texts (class_name_of unit.now.file.pool (slice_get unit.now.file.pool index)) result }
{
    match unit.file.pool.as_slice().get(usize::from(index)) {
        Some(Constant::Class(name)) => lookup.texts().at(place, *name),
        _ => 0,
    }
}

/// What is known of the class whose name has this number.
fn facts_numbered(facts: &[ClassFacts], number: u32) -> ClassFacts
    requires { number ≢ 0 }
    ensures { result ≡ slice_index_or facts.now (number - 1) nothing_known }
{
    facts
        .get(number as usize - 1)
        .copied()
        .unwrap_or(ClassFacts {
            is_there: false,
            cannot_be_made: false,
        })
}

/// What is known of the class whose Class entry is at an index of the pool of the file at a place.
pub fn class_at(
    lookup: &MemberLookup<'_>,
    facts: &[ClassFacts],
    place: u32,
    unit: &ClassUnit,
    index: u16,
) -> ClassFacts
    requires unnamed { class_number (classes_of lookup.now.units) [] ≡ 0 }
    requires facts { facts.now ≡ map (class_facts (classes_of lookup.now.units)) lookup.now.texts }
    requires there { slice_get lookup.now.units place ≡ Some unit.now }
    ensures { result ≡ class_facts (classes_of lookup.now.units) (class_name_at unit.now.file.pool index) }
{
    let number = name_number(lookup, place, unit, index);
    if number == 0 {
        return ClassFacts {
            is_there: false,
            cannot_be_made: false,
        };
    }
    facts_numbered(facts, number)
}
