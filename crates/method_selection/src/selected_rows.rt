//! The methods that objects select, a row of numbers for each class.

ghost use Rattle.std.specs.Prelude.{◌≡◌, ◌≢◌, ℕ, [], suc, Some, IfOk, length, map, slice_get, slice_index_or};
ghost use Rattle.std.specs.List.{range_with_len};
ghost use Rattle.link_rules.specs.Classes.{classes_of};
ghost use Rattle.link_rules.specs.Supers.{PutsSupersFirst};
ghost use Rattle.shared_rows.specs.Rows.{number_at};
ghost use Rattle.shared_rows.specs.declared.SharedRow.{SharedRow as row_type};
ghost use Rattle.method_selection.specs.Entries.{class_entries};
ghost use Rattle.method_selection.specs.Numbers.{AreMethodNumbers};
ghost use Rattle.method_selection.specs.Rows.{answer_of, is_virtual_entry, row_number, with_own, AreSelectedRows};

use crate::entries::MethodEntry;
use crate::numbers::MethodNumbers;
use access_flags::{ABSTRACT, PRIVATE, STATIC, has};
use member_lookup::MemberLookup;
use rows::Rows;
use shared_rows::SharedRow;
use std::alloc::{AllocError, Global};

/// Whether a method is neither static nor private.
fn is_virtual(entry: MethodEntry) -> bool
    ensures { result ≡ is_virtual_entry entry }
{
    !(has(entry.flags, STATIC) || has(entry.flags, PRIVATE))
}

/// The number that a row has for a method: its own, and 0 where it is abstract.
fn answer_of(entry: MethodEntry) -> u32
    ensures { result ≡ answer_of entry }
{
    if has(entry.flags, ABSTRACT) {
        0
    } else {
        entry.number
    }
}

/// The row of a class, from that of its superclass and its own methods. Where two have one name and descriptor, the
/// first one counts.
fn class_row(inherited: &SharedRow, entries: &[MethodEntry]) -> Result<SharedRow, AllocError>
    ensures { IfOk result (λ row. number_at row ≡ with_own entries.now (number_at inherited.now)) }
{
    let mut row = inherited.copy()?;
    for place in (0..entries.len()).rev() {
        let entry = entries[place];
        if is_virtual(entry) {
            row.set(entry.signature, answer_of(entry))?;
        }
    }
    Ok(row)
}

/// What selection has to know of the methods of a class; of what is no class nothing.
fn entries_of(entries: &[Rows<MethodEntry>], class: u32) -> &[MethodEntry]
    ensures { result.now ≡ slice_index_or entries.now class [] }
{
    match entries.get(class as usize) {
        Some(row) => row.as_slice(),
        None => &[],
    }
}

/// A row of zeros that has pages for `numbers` numbers. The rows that begin as it share these pages.
fn first_row(alloc: Global, numbers: usize) -> Result<SharedRow, AllocError>
    ensures { IfOk result (λ row. (place : ℕ) → number_at row place ≡ 0) }
{
    let mut row = SharedRow::new(alloc);
    if numbers > u32::MAX as usize {
        return Err(AllocError);
    }
    row.set(numbers as u32, 0)?;
    Ok(row)
}

/// For each class a row of zeros.
fn first_rows(alloc: Global, classes: usize, numbers: usize) -> Result<Vec<SharedRow>, AllocError>
    ensures count { IfOk result (λ rows. length rows.items ≡ suc classes) }
    ensures zeros { IfOk result (λ rows. (row : row_type) → slice_get rows.items 0 ≡ Some row → (place : ℕ) → number_at row place ≡ 0) }
{
    let mut rows = Vec::new(alloc);
    rows.push(first_row(alloc, numbers)?)?;
    for _ in 0..classes {
        rows.push(SharedRow::new(alloc))?;
    }
    Ok(rows)
}

/// Puts the row of a class into the table, if that has one for it.
fn put_row(rows: &mut Vec<SharedRow>, class: u32, row: SharedRow)
    ensures count { length rows.new.items ≡ length rows.old.items }
    ensures here { (there : row_type) → slice_get rows.new.items class ≡ Some there → there ≡ row }
    ensures elsewhere { (c : ℕ) → c ≢ class → slice_get rows.new.items c ≡ slice_get rows.old.items c }
{
    if (class as usize) < rows.len() {
        rows[class as usize] = row;
    }
}

/// The row of each class by its number, made in an order in which superclasses come first.
pub fn selected_rows(
    alloc: Global,
    lookup: &MemberLookup<'_>,
    order: &[u32],
    numbers: &MethodNumbers,
    entries: &[Rows<MethodEntry>],
) -> Result<Vec<SharedRow>, AllocError>
    requires order { PutsSupersFirst (classes_of lookup.now.units) order.now }
    requires numbers { AreMethodNumbers lookup.now numbers.now.numbers.items numbers.now.ids.items }
    requires entries { entries.now ≡ map (class_entries lookup.now numbers.now.numbers.items) (range_with_len 0 (suc (length (classes_of lookup.now.units)))) }
    ensures { IfOk result (λ rows. AreSelectedRows lookup.now numbers.now.numbers.items rows.items) }
{
    let supers = lookup.orders().supers();
    let mut rows = first_rows(alloc, entries.len() - 1, numbers.ids.len())?;
    for class in order {
        let superclass = supers.superclass(*class);
        let row = class_row(&rows[superclass as usize], entries_of(entries, *class))?;
        put_row(&mut rows, *class, row);
    }
    Ok(rows)
}

/// The number that the row of a class has for a name and a descriptor.
pub fn number_selected(rows: &[SharedRow], class: u32, signature: u32) -> u32
    ensures { result ≡ row_number rows.now class signature }
{
    match rows.get(class as usize) {
        Some(row) => row.get(signature),
        None => 0,
    }
}
