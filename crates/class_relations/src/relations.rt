//! What classes are to each other.

ghost use Rattle.std.specs.Prelude.{◌≡◌, ◌≤◌, ◌<◌, ◌^◌, ◌==◌, ℕ, List, IfOk, length, slice_index, slice_index_or, false};
ghost use Rattle.std.specs.List.{list_any};
ghost use Rattle.access_flags.specs.declared.TheConstants.{INTERFACE as interface_flag};
ghost use Rattle.code_decode.specs.declared.code.ClassUnit.{ClassUnit};
ghost use Rattle.link_rules.specs.Classes.{classes_of, class_has, superclass_of};
ghost use Rattle.link_rules.specs.Supers.{superclasses, is_class_below};
ghost use Rattle.link_rules.specs.LinkRules.{hierarchy_rules};
ghost use Rattle.link_types.specs.Subtypes.{is_element_below, is_object_element, is_object_below};
ghost use Rattle.class_relations.specs.Relations.{AreRelationsOf};

use crate::marks::class_marks;
use access_flags::INTERFACE;
use builtin_world::number::{COUNT, OBJECT};
use class_orders::ClassOrders;
use class_supers::Supers;
use link_types::{ElementType, ObjectType};
use std::alloc::{AllocError, Global};
use transitive_closure::Relation;

/// The superclasses, the interfaces and what is above each class of a program, by number. Of which program they are is
/// said by `AreRelationsOf`; the readers take no memory and no time to speak of.
#[derive(Drop)]
pub struct ClassRelations {
    count: u32,
    superclasses: Vec<u32>,
    interfaces: Vec<bool>,
    above: Relation,
    upward: Relation,
}

/// The superclasses of all classes by number; 0 has none.
fn superclass_list(alloc: Global, supers: &Supers<'_>, count: u32) -> Result<Vec<u32>, AllocError>
    requires count { count ≡ length (classes_of supers.now) }
    requires few { count < 2 ^ 31 }
    ensures { IfOk result (λ list. (c : ℕ) → slice_index list.items c ≡ superclass_of (classes_of supers.now) c) }
{
    let mut list = Vec::new(alloc);
    for class in 0..count + 1 {
        list.push(supers.superclass(class))?;
    }
    Ok(list)
}

/// Which classes are interfaces, by number.
fn interface_list(alloc: Global, supers: &Supers<'_>, count: u32) -> Result<Vec<bool>, AllocError>
    requires count { count ≡ length (classes_of supers.now) }
    requires few { count < 2 ^ 31 }
    ensures { IfOk result (λ list. (c : ℕ) → slice_index_or list.items c false ≡ class_has (classes_of supers.now) c interface_flag) }
{
    let mut list = Vec::new(alloc);
    for class in 0..count + 1 {
        list.push(supers.has_flag(class, INTERFACE))?;
    }
    Ok(list)
}

impl ClassRelations {
    /// What the classes of a program are to each other. It fails only when memory runs out.
    pub fn new(alloc: Global, orders: &ClassOrders<'_>) -> Result<Self, AllocError>
        requires few { length orders.now ≤ 1024 }
        ensures { IfOk result (λ relations. AreRelationsOf orders.now relations) }
    {
        let supers = orders.supers();
        let count = COUNT + supers.units().len() as u32;
        let (above, upward) = class_marks(alloc, orders, count)?;
        Ok(ClassRelations {
            count,
            superclasses: superclass_list(alloc, supers, count)?,
            interfaces: interface_list(alloc, supers, count)?,
            above,
            upward,
        })
    }

    /// How many classes there are.
    pub fn count(&self) -> u32
        ensures { (us : List ClassUnit) → AreRelationsOf us self.now → result ≡ length (classes_of us) }
    {
        self.count
    }

    /// The superclass of a class, 0 where there is none.
    pub fn superclass(&self, class: u32) -> u32
        ensures { (us : List ClassUnit) → AreRelationsOf us self.now → result ≡ superclass_of (classes_of us) class }
    {
        self.superclasses.get(class as usize).copied().unwrap_or(0)
    }

    /// Whether a class is there and is an interface.
    pub fn is_interface(&self, class: u32) -> bool
        ensures { (us : List ClassUnit) → AreRelationsOf us self.now → result ≡ class_has (classes_of us) class interface_flag }
    {
        self.interfaces
            .get(class as usize)
            .copied()
            .unwrap_or(false)
    }

    /// Whether the second class is the first one, or above it by superclasses.
    pub fn is_superclass(&self, low: u32, high: u32) -> bool
        ensures { (us : List ClassUnit) → AreRelationsOf us self.now → result ≡ list_any (λ d. d == high) (superclasses (classes_of us) low) }
    {
        if low <= self.count {
            self.upward.relates(low, high)
        } else {
            low == high
        }
    }

    /// Whether a class is the second one or below it, as instanceof sees it (JVMS 6.5).
    pub fn is_class_below(&self, low: u32, high: u32) -> bool
        ensures { (us : List ClassUnit) → AreRelationsOf us self.now → result ≡ is_class_below (classes_of us) low high }
    {
        if high == OBJECT {
            true
        } else if low <= self.count {
            self.above.relates(low, high)
        } else {
            low == high
        }
    }
}
