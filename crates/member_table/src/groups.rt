//! The numbers of signatures, and the members of each.

ghost use Rattle.std.specs.Prelude.{◌≡◌, ◌≢◌, ◌+◌, ◌-◌, ◌≤◌, ◌==◌, ◌&&◌, if◌then◌else◌, ℕ, List, [], ◌∷◌, ◌++◌, filter, length, OnOk, OnErr, IfOk};
ghost use Rattle.member_table.specs.declared.table.MemberRow.{MemberRow};
ghost use Rattle.member_table.specs.Members.{has_signature, number_in, group_in, IsGrouped};

use crate::table::MemberRow;
use rows::Rows;
use std::alloc::{AllocError, Global};
use std::collections::BTreeMap;

/// The number of a signature, 0 where it has none. A search.
pub fn number_in(numbers: &BTreeMap<(u32, u32), u32>, name: u32, descriptor: u32) -> u32
    ensures { result ≡ number_in numbers.now name descriptor }
{
    numbers.get(&(name, descriptor)).copied().unwrap_or(0)
}

/// Gives a signature a number. After an error the numbers are as before.
fn insert(
    numbers: &mut BTreeMap<(u32, u32), u32>,
    name: u32,
    descriptor: u32,
    number: u32,
) -> Result<(), AllocError>
    ensures ok { OnOk result ((n d : ℕ) → number_in numbers.new n d ≡ (if name == n && descriptor == d then number else number_in numbers.old n d)) }
    ensures err { OnErr result ((n d : ℕ) → number_in numbers.new n d ≡ number_in numbers.old n d) }
{
    numbers.insert((name, descriptor), number)?;
    Ok(())
}

/// The members of a signature.
pub fn declarers_in<'a>(
    numbers: &BTreeMap<(u32, u32), u32>,
    groups: &'a [Rows<MemberRow>],
    name: u32,
    descriptor: u32,
) -> &'a [MemberRow]
    ensures { result.now ≡ group_in groups.now (number_in numbers.now name descriptor) }
{
    let Some(place) = number_in(numbers, name, descriptor).checked_sub(1) else {
        return &[];
    };
    match groups.get(place as usize) {
        Some(group) => group.as_slice(),
        None => &[],
    }
}

/// Adds a signature that has no number. After an error the groups are as before.
fn add_group(
    alloc: Global,
    numbers: &mut BTreeMap<(u32, u32), u32>,
    groups: &mut Vec<Rows<MemberRow>>,
    name: u32,
    descriptor: u32,
) -> Result<u32, AllocError>
    requires new { number_in numbers.old name descriptor ≡ 0 }
    ensures grouped { (rows : List MemberRow) → IsGrouped numbers.old groups.old.items rows → IsGrouped numbers.new groups.new.items rows }
    ensures number { IfOk result (λ number. number ≡ number_in numbers.new name descriptor) }
    ensures some { IfOk result (λ number. number ≢ 0) }
{
    let count = groups.len();
    if count >= u32::MAX as usize {
        return Err(AllocError);
    }
    let number = count as u32 + 1;
    groups.push(Rows::new(alloc))?;
    match insert(numbers, name, descriptor, number) {
        Ok(()) => Ok(number),
        Err(error) => {
            groups.truncate(count);
            Err(error)
        }
    }
}

/// The number of a signature, which gets one where it has none.
pub fn group_number(
    alloc: Global,
    numbers: &mut BTreeMap<(u32, u32), u32>,
    groups: &mut Vec<Rows<MemberRow>>,
    name: u32,
    descriptor: u32,
) -> Result<u32, AllocError>
    ensures grouped { (rows : List MemberRow) → IsGrouped numbers.old groups.old.items rows → IsGrouped numbers.new groups.new.items rows }
    ensures number { IfOk result (λ number. number ≡ number_in numbers.new name descriptor) }
    ensures some { IfOk result (λ number. number ≢ 0) }
{
    let number = number_in(numbers, name, descriptor);
    if number != 0 {
        return Ok(number);
    }
    add_group(alloc, numbers, groups, name, descriptor)
}
