//! What the pool of a file names.

ghost use Rattle.std.specs.Prelude.{◌≡◌, ◌≤◌, [], Some, IfOk, map, slice_get};
ghost use Rattle.link_rules.specs.Classes.{classes_of, class_number, class_name_at, reference_at};
ghost use Rattle.use_rules.specs.Facts.{class_facts, or_none, AreFactsOf};
ghost use Rattle.use_rules.specs.Names.{named_pool};

use crate::classes::{ClassFacts, class_at};
use crate::members::{MemberFacts, member_table};
use class_walk::Constant;
use code_decode::ClassUnit;
use member_lookup::MemberLookup;
use std::alloc::{AllocError, Global};
use std::marker::Model;

/// What the entries of the pool of a file name. Contracts see the classes of the program, the file's place and the pool.
#[derive(Drop)]
pub struct FileNames<'a, 'b> {
    lookup: &'a MemberLookup<'b>,
    classes: &'a [ClassFacts],
    place: u32,
    unit: &'a ClassUnit,
    members: Vec<Option<MemberFacts>>,
}

impl<'a, 'b> Model for FileNames<'a, 'b> {
    ghost use Rattle.use_rules.specs.Names.{NamedPool, named_pool, AreNames};

    ghost Value = { NamedPool };

    ghost view = { λ n. named_pool n.lookup.now n.place n.unit.now };

    ghost invariant = { λ n. AreNames n.lookup.now n.classes.now n.place n.unit.now n.members.items };
}

fn entry(members: &[Option<MemberFacts>], index: u16) -> Option<MemberFacts>
    ensures { result ≡ or_none (slice_get members.now index) }
{
    members.get(usize::from(index)).copied().flatten()
}

impl<'a, 'b> FileNames<'a, 'b> {
    /// Looks at each entry of the pool of the file at a place once.
    pub fn new(
        alloc: Global,
        lookup: &'a MemberLookup<'b>,
        classes: &'a [ClassFacts],
        place: u32,
        unit: &'a ClassUnit,
    ) -> Result<Self, AllocError>
        requires place { place ≤ 1024 }
        requires unnamed { class_number (classes_of lookup.now.units) [] ≡ 0 }
        requires classes { classes.now ≡ map (class_facts (classes_of lookup.now.units)) lookup.now.texts }
        requires there { slice_get lookup.now.units place ≡ Some unit.now }
        ensures { IfOk result (λ names. names ≡ named_pool lookup.now place unit.now) }
    {
        let members = member_table(alloc, lookup, classes, place, unit)?;
        Ok(FileNames {
            lookup,
            classes,
            place,
            unit,
            members,
        })
    }

    /// The place of the class among the classes, at most 1024.
    pub fn place(&self) -> u32
        ensures place { result ≡ self.now.place }
        ensures within { result ≤ 1024 }
    {
        self.place
    }

    /// The constant pool of the class.
    pub fn pool(&self) -> &'a [Constant]
        ensures { result.now ≡ self.now.pool }
    {
        self.unit.file.pool.as_slice()
    }

    /// What is known of the class whose Class entry is at an index.
    pub fn class(&self, index: u16) -> ClassFacts
        ensures { result ≡ class_facts self.now.classes (class_name_at self.now.pool index) }
    {
        class_at(self.lookup, self.classes, self.place, self.unit, index)
    }

    /// What is known of the member whose entry is at an index, if its class is there.
    pub fn member(&self, index: u16) -> Option<MemberFacts>
        ensures { AreFactsOf self.now.classes self.now.place (reference_at self.now.pool index) result }
    {
        entry(self.members.as_slice(), index)
    }
}
