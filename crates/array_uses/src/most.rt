//! How many dimensions arrays have at most.

ghost use Rattle.std.specs.Prelude.{◌≡◌, ◌≢◌, ◌<◌, ◌∷◌, [], ℕ, List, Some, IfOk, length, slice_get, slice_index, max, replicate};
ghost use Rattle.code_decode.specs.declared.code.ClassUnit.{ClassUnit};
ghost use Rattle.link_rules.specs.Classes.{classes_of};
ghost use Rattle.link_rules.specs.Laws.{NamesHaveOneNumber};
ghost use Rattle.base_order.specs.Order.{IsOrderOf};
ghost use Rattle.array_uses.specs.Most.{IsArrayIn, AreUsed, MostGrows};

use array_kinds::ArrayKind;
use base_order::BaseOrder;
use std::alloc::{AllocError, Global};

/// No arrays, for `count` bases.
pub fn none_used(alloc: Global, count: usize) -> Result<Vec<u8>, AllocError>
    ensures { IfOk result (λ most. most.items ≡ replicate count 0) }
{
    let mut most = Vec::new(alloc);
    for _ in 0..count {
        most.push(0)?;
    }
    Ok(most)
}

/// The arrays of the base at a place have as many dimensions at least.
fn raise(most: &mut Vec<u8>, place: usize, dimensions: u8)
    ensures count { length most.new.items ≡ length most.old.items }
    ensures here { place < length most.old.items → slice_get most.new.items place ≡ Some (max (slice_index most.old.items place) dimensions) }
    ensures elsewhere { (i : ℕ) → i ≢ place → slice_get most.new.items i ≡ slice_get most.old.items i }
{
    if place < most.len() {
        most[place] = most[place].max(dimensions);
    }
}

/// Adds an array type of the program.
pub fn add_array(most: &mut Vec<u8>, order: &BaseOrder, array: ArrayKind)
    ensures { (us : List ClassUnit) (text : List ℕ) → IsOrderOf us order.now → NamesHaveOneNumber (classes_of us) → IsArrayIn (classes_of us) array text →
        MostGrows us order.now most.old.items most.new.items (text ∷ []) }
{
    if let Some(place) = order.place(array.base) {
        raise(most, place, array.dimensions);
    }
}

/// Adds an array type, where there is one.
pub fn add_used(most: &mut Vec<u8>, order: &BaseOrder, used: Option<ArrayKind>)
    ensures { (us : List ClassUnit) (texts : List (List ℕ)) → IsOrderOf us order.now → NamesHaveOneNumber (classes_of us) → AreUsed (classes_of us) used texts →
        MostGrows us order.now most.old.items most.new.items texts }
{
    if let Some(array) = used {
        add_array(most, order, array);
    }
}
