//! Numbers of methods.

ghost use Rattle.std.specs.Prelude.{◌≡◌, ◌≤◌, Some, IfOk, OnOk, length, slice_index};
ghost use Rattle.method_selection.specs.Numbers.{id_numbered, method_number, Keeps, AreNumbered, AreMethodNumbers};

use builtin_world::number::COUNT;
use link_types::MethodId;
use member_lookup::MemberLookup;
use member_table::MemberRow;
use rows::Rows;
use std::alloc::{AllocError, Global};

/// The methods of a program by numbers, from 1.
#[derive(Drop)]
pub struct MethodNumbers {
    /// The numbers, by class and place.
    pub numbers: Vec<Rows<u32>>,
    /// The methods in the order of their numbers.
    pub ids: Vec<MethodId>,
}

/// The method of a number.
pub fn id_at(ids: &[MethodId], number: u32) -> Option<MethodId>
    ensures { result ≡ id_numbered ids.now number }
{
    let place = number.checked_sub(1)?;
    ids.get(place as usize).copied()
}

fn number_in(row: &[u32], place: u16) -> u32
    ensures { result ≡ slice_index row.now place }
{
    row.get(usize::from(place)).copied().unwrap_or(0)
}

/// The number of a method, 0 where there is none.
pub fn number_of(numbers: &[Rows<u32>], class: u32, place: u16) -> u32
    ensures { result ≡ method_number numbers.now class place }
{
    match numbers.get(class as usize) {
        Some(row) => number_in(row.as_slice(), place),
        None => 0,
    }
}

/// Gives a method the next number.
fn add_id(ids: &mut Vec<MethodId>, id: MethodId) -> Result<u32, AllocError>
    ensures kept { OnOk result (Keeps ids.old.items ids.new.items) }
    ensures number { IfOk result (λ number. id_numbered ids.new.items number ≡ Some id) }
{
    let count = ids.len();
    if count >= u32::MAX as usize {
        return Err(AllocError);
    }
    ids.push(id)?;
    Ok(count as u32 + 1)
}

/// Gives the methods of a class the next numbers.
fn number_class(
    alloc: Global,
    ids: &mut Vec<MethodId>,
    members: &[MemberRow],
) -> Result<Vec<u32>, AllocError>
    ensures kept { OnOk result (Keeps ids.old.items ids.new.items) }
    ensures numbered { IfOk result (λ row. AreNumbered ids.new.items members.now row.items) }
{
    let mut row = Vec::new(alloc);
    for member in members {
        let id = MethodId {
            class: member.class,
            method: member.place,
        };
        row.push(add_id(ids, id)?)?;
    }
    Ok(row)
}

/// Gives the methods of all classes numbers.
pub fn number_methods(alloc: Global, lookup: &MemberLookup<'_>) -> Result<MethodNumbers, AllocError>
    requires few { length lookup.now.units ≤ 1024 }
    ensures { IfOk result (λ numbers. AreMethodNumbers lookup.now numbers.numbers.items numbers.ids.items) }
{
    let mut numbers = Vec::new(alloc);
    let mut ids = Vec::new(alloc);
    for class in 0..COUNT + lookup.texts().units().len() as u32 + 1 {
        let members = lookup.methods(alloc, class)?;
        let row = number_class(alloc, &mut ids, &members)?;
        numbers.push(Rows::from_vec(row))?;
    }
    Ok(MethodNumbers { numbers, ids })
}
