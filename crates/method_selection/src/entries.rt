//! What selection has to know of each method.

ghost use Rattle.std.specs.Prelude.{◌≡◌, ◌≤◌, suc, IfOk, length, map};
ghost use Rattle.std.specs.List.{range_with_len};
ghost use Rattle.link_rules.specs.Classes.{classes_of};
ghost use Rattle.method_selection.specs.Entries.{signature_number, entry_of, class_entries, entry_in};

use crate::numbers::number_of;
use builtin_world::number::COUNT;
use link_types::MethodId;
use member_lookup::MemberLookup;
use member_table::MemberRow;
use rows::Rows;
use std::alloc::{AllocError, Global};

/// What selection has to know of a method.
#[derive(Clone, Copy)]
pub struct MethodEntry {
    /// The number of its name and descriptor; 0 where no method has them that is neither static nor private.
    pub signature: u32,
    /// Its own number.
    pub number: u32,
    /// The access flags (JVMS 4.6).
    pub flags: u16,
}

/// The number of a name and a descriptor: that of the first method that has them and is neither static nor private.
fn signature_number(
    lookup: &MemberLookup<'_>,
    numbers: &[Rows<u32>],
    name: u32,
    descriptor: u32,
) -> u32
    ensures { result ≡ signature_number lookup.now numbers.now name descriptor }
{
    match lookup.first_virtual(name, descriptor) {
        Some(first) => number_of(numbers, first.class, first.place),
        None => 0,
    }
}

/// What selection has to know of the methods of a class.
fn class_entries(
    alloc: Global,
    lookup: &MemberLookup<'_>,
    numbers: &[Rows<u32>],
    members: &[MemberRow],
) -> Result<Vec<MethodEntry>, AllocError>
    ensures { IfOk result (λ entries. entries.items ≡ map (entry_of lookup.now numbers.now) members.now) }
{
    let mut entries = Vec::new(alloc);
    for member in members {
        entries.push(MethodEntry {
            signature: signature_number(lookup, numbers, member.name, member.descriptor),
            number: number_of(numbers, member.class, member.place),
            flags: member.flags,
        })?;
    }
    Ok(entries)
}

/// What selection has to know of the methods of each class by its number; 0, which is no class, has none.
pub fn method_entries(
    alloc: Global,
    lookup: &MemberLookup<'_>,
    numbers: &[Rows<u32>],
) -> Result<Vec<Rows<MethodEntry>>, AllocError>
    requires few { length lookup.now.units ≤ 1024 }
    ensures { IfOk result (λ entries. entries.items ≡ map (class_entries lookup.now numbers.now) (range_with_len 0 (suc (length (classes_of lookup.now.units))))) }
{
    let mut entries = Vec::new(alloc);
    for class in 0..COUNT + lookup.texts().units().len() as u32 + 1 {
        let members = lookup.methods(alloc, class)?;
        let row = class_entries(alloc, lookup, numbers, &members)?;
        entries.push(Rows::from_vec(row))?;
    }
    Ok(entries)
}

/// What selection has to know of a method.
pub fn entry_at(entries: &[Rows<MethodEntry>], id: MethodId) -> Option<MethodEntry>
    ensures { result ≡ entry_in entries.now id }
{
    match entries.get(id.class as usize) {
        Some(row) => row.as_slice().get(usize::from(id.method)).copied(),
        None => None,
    }
}
