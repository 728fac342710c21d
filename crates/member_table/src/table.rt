//! Members in the order in which they were added, and by signature.

ghost use Rattle.std.specs.Prelude.{◌≡◌, ◌≢◌, ◌≤◌, ◌-◌, [], ◌∷◌, ◌++◌, filter, length, slice_set, OnOk, OnErr};
ghost use Rattle.member_table.specs.Members.{has_signature, number_in, group_in, IsGrouped};

use crate::groups::{declarers_in, group_number, number_in};
use rows::Rows;
use std::alloc::{AllocError, Global};
use std::collections::BTreeMap;
use std::marker::Model;

/// A field or a method where it is declared. Its name and its descriptor are numbers of texts.
#[derive(Clone, Copy)]
pub struct MemberRow {
    /// The number of the class that declares it.
    pub class: u32,
    /// Its place among the fields or the methods of that class, from 0.
    pub place: u16,
    pub name: u32,
    pub descriptor: u32,
    /// The access flags (JVMS 4.5, 4.6).
    pub flags: u16,
}

/// Members in the order in which they were added, which contracts see. Those of one name and descriptor are together.
#[derive(Drop)]
pub struct MemberTable {
    alloc: Global,
    rows: Vec<MemberRow>,
    numbers: BTreeMap<(u32, u32), u32>,
    groups: Vec<Rows<MemberRow>>,
}

impl Model for MemberTable {
    ghost use Rattle.std.specs.Prelude.{List};
    ghost use Rattle.member_table.specs.declared.table.MemberRow.{MemberRow};
    ghost use Rattle.member_table.specs.Members.{IsGrouped};

    ghost Value = { List MemberRow };

    ghost view = { λ t. t.rows.items };

    ghost invariant = { λ t. IsGrouped t.numbers t.groups.items t.rows.items };
}

/// Puts a member into the group of a number.
fn push_to(groups: &mut Vec<Rows<MemberRow>>, number: u32, row: MemberRow) -> Result<(), AllocError>
    requires some { number ≢ 0 }
    requires within { number ≤ length groups.old.items }
    ensures ok { OnOk result (groups.new.items ≡ slice_set groups.old.items (number - 1) (group_in groups.old.items number ++ row ∷ [])) }
    ensures err { OnErr result (groups.new.items ≡ groups.old.items) }
{
    groups[number as usize - 1].push(row)
}

/// Puts a member at the end. After an error the members are as before.
fn put(
    rows: &mut Vec<MemberRow>,
    numbers: &BTreeMap<(u32, u32), u32>,
    groups: &mut Vec<Rows<MemberRow>>,
    row: MemberRow,
) -> Result<(), AllocError>
    requires grouped { IsGrouped numbers.now groups.old.items rows.old.items }
    requires numbered { number_in numbers.now row.name row.descriptor ≢ 0 }
    ensures grouped { IsGrouped numbers.now groups.new.items rows.new.items }
    ensures ok { OnOk result (rows.new.items ≡ rows.old.items ++ row ∷ []) }
    ensures err { OnErr result (rows.new.items ≡ rows.old.items) }
{
    let count = rows.len();
    rows.push(row)?;
    let number = number_in(numbers, row.name, row.descriptor);
    match push_to(groups, number, row) {
        Ok(()) => Ok(()),
        Err(error) => {
            rows.truncate(count);
            Err(error)
        }
    }
}

impl MemberTable {
    /// No members. Takes no memory.
    pub fn new(alloc: Global) -> Self
        ensures { result ≡ [] }
    {
        MemberTable {
            alloc,
            rows: Vec::new(alloc),
            numbers: BTreeMap::new(alloc),
            groups: Vec::new(alloc),
        }
    }

    /// The members in the order in which they were added.
    pub fn rows(&self) -> &[MemberRow]
        ensures { result.now ≡ self.now }
    {
        &self.rows
    }

    /// The members of a name and a descriptor, in the order in which they were added. A search of numbers.
    pub fn declarers(&self, name: u32, descriptor: u32) -> &[MemberRow]
        ensures { result.now ≡ filter (has_signature name descriptor) self.now }
    {
        declarers_in(&self.numbers, &self.groups, name, descriptor)
    }

    /// Adds a member. After an error the members are as before.
    pub fn add(&mut self, row: MemberRow) -> Result<(), AllocError>
        ensures ok { OnOk result (self.new ≡ self.old ++ row ∷ []) }
        ensures err { OnErr result (self.new ≡ self.old) }
    {
        group_number(
            self.alloc,
            &mut self.numbers,
            &mut self.groups,
            row.name,
            row.descriptor,
        )?;
        put(&mut self.rows, &self.numbers, &mut self.groups, row)
    }
}
