//! The places of types in their order.

ghost use Rattle.std.specs.Prelude.{◌≡◌, ◌≢◌, ◌<◌, ◌≤◌, ◌^◌, ℕ, List, None, Some, IsSome, Contains, IfOk, length, slice_get, replicate};
ghost use Rattle.code_decode.specs.declared.code.ClassUnit.{ClassUnit};
ghost use Rattle.base_order.specs.Slots.{slot_of, kept_at};
ghost use Rattle.base_order.specs.Places.{ArePlaces};
ghost use Rattle.base_order.specs.Order.{IsOrderOf};

use crate::bases::program_bases;
use builtin_world::number::COUNT;
use class_supers::Supers;
use link_types::ElementType;
use std::alloc::{AllocError, Global};

/// The types of innermost elements of a program in the order of their descriptors, and their places in it. Whose they
/// are is said by `IsOrderOf`; the readers take no memory and no time to speak of.
#[derive(Drop)]
pub struct BaseOrder {
    bases: Vec<ElementType>,
    places: Vec<Option<usize>>,
}

/// The place of a type among all by their numbers: the primitive ones, then the classes.
fn slot_of(base: ElementType) -> Option<usize>
    ensures { result ≡ slot_of base }
{
    match base {
        ElementType::Boolean => Some(0),
        ElementType::Byte => Some(1),
        ElementType::Char => Some(2),
        ElementType::Short => Some(3),
        ElementType::Int => Some(4),
        ElementType::Long => Some(5),
        ElementType::Float => Some(6),
        ElementType::Double => Some(7),
        ElementType::Class(class) => Some(8 + class as usize),
        ElementType::Other(_) => None,
    }
}

fn no_places(alloc: Global, count: usize) -> Result<Vec<Option<usize>>, AllocError>
    ensures { IfOk result (λ places. places.items ≡ replicate count None) }
{
    let mut places = Vec::new(alloc);
    for _ in 0..count {
        places.push(None)?;
    }
    Ok(places)
}

fn place_in(places: &[Option<usize>], base: ElementType) -> Option<usize>
    ensures { result ≡ kept_at places.now base }
{
    let slot = slot_of(base)?;
    places.get(slot).copied().flatten()
}

fn put_place(places: &mut Vec<Option<usize>>, base: ElementType, place: usize)
    ensures count { length places.new.items ≡ length places.old.items }
    ensures here { (slot : ℕ) → slot_of base ≡ Some slot → slot < length places.old.items → slice_get places.new.items slot ≡ Some (Some place) }
    ensures elsewhere { (slot : ℕ) → slot_of base ≢ Some slot → slice_get places.new.items slot ≡ slice_get places.old.items slot }
{
    if let Some(slot) = slot_of(base) {
        if slot < places.len() {
            places[slot] = Some(place);
        }
    }
}

/// The places of types by their numbers, in a table of `count` entries.
fn places_of(
    alloc: Global,
    bases: &[ElementType],
    count: usize,
) -> Result<Vec<Option<usize>>, AllocError>
    ensures { IfOk result (λ places. (length places.items ≡ count) × ArePlaces bases.now (length bases.now) places.items) }
{
    let mut places = no_places(alloc, count)?;
    for (place, base) in bases.iter().enumerate() {
        put_place(&mut places, *base, place);
    }
    Ok(places)
}

impl BaseOrder {
    /// The types of innermost elements of a program. It fails only when memory runs out.
    pub fn new(alloc: Global, supers: &Supers<'_>) -> Result<Self, AllocError>
        requires { length supers.now ≤ 1024 }
        ensures { IfOk result (λ order. IsOrderOf supers.now order) }
    {
        let bases = program_bases(alloc, supers)?;
        let places = places_of(alloc, &bases, 9 + COUNT as usize + supers.units().len())?;
        Ok(BaseOrder { bases, places })
    }

    /// The types in the order of their descriptors.
    pub fn bases(&self) -> &[ElementType]
        ensures { result.now ≡ self.now.bases.items }
    {
        &self.bases
    }

    /// The place of a type, where it is among them.
    pub fn place(&self, base: ElementType) -> Option<usize>
        ensures found { (us : List ClassUnit) → IsOrderOf us self.now → (place : ℕ) → result ≡ Some place → slice_get self.now.bases.items place ≡ Some base }
        ensures there { (us : List ClassUnit) → IsOrderOf us self.now → Contains self.now.bases.items base → IsSome result }
    {
        place_in(&self.places, base)
    }
}
