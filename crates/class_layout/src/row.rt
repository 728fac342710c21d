//! The words of a class.

ghost use Rattle.std.specs.Prelude.{◌≡◌, ◌+◌, ◌<◌, ◌≤◌, ◌^◌, ◌++◌, ◌∷◌, [], Bool, IfOk, OnOk, map, length, if◌then◌else◌};
ghost use Rattle.link_rules.specs.Classes.{member_of_file};
ghost use Rattle.link_rules.specs.Layout.{field_words};
ghost use Rattle.class_layout.specs.Row.{IsJustPlaced, ArePlaced};

use access_flags::{STATIC, has};
use class_pool::is_utf8_at;
use class_read::Member;
use class_walk::Constant;
use rows::Rows;
use std::alloc::{AllocError, Global};

/// The words of a class, and where each of its fields begins.
#[derive(Drop)]
pub struct ClassRow {
    /// The first word of each field: in the class object where the field is static, and else in an object.
    pub places: Rows<u32>,
    /// The words of the static fields.
    pub static_words: u32,
    /// The words of an object, the inherited ones among them.
    pub instance_words: u32,
}

impl ClassRow {
    /// A class without fields, whose objects have `inherited` words.
    pub fn new(alloc: Global, inherited: u32) -> Self
        ensures { result ≡ record { places = []; static_words = 0; instance_words = inherited } }
    {
        ClassRow {
            places: Rows::new(alloc),
            static_words: 0,
            instance_words: inherited,
        }
    }

    /// Places one more field.
    fn place(&mut self, is_static: bool, words: u32) -> Result<(), AllocError>
        requires words { words ≤ 2 }
        requires static_room { self.old.static_words < 2 ^ 31 }
        requires instance_room { self.old.instance_words < 2 ^ 31 }
        ensures { OnOk result (IsJustPlaced self.old is_static words self.new) }
    {
        if is_static {
            self.places.push(self.static_words)?;
            self.static_words += words;
        } else {
            self.places.push(self.instance_words)?;
            self.instance_words += words;
        }
        Ok(())
    }
}

/// The words of a field: a long takes two.
fn field_words(pool: &[Constant], field: &Member) -> u32
    ensures value { result ≡ field_words (member_of_file pool.now field.now) }
    ensures few { result ≤ 2 }
{
    if is_utf8_at(pool, field.descriptor, b"J") {
        2
    } else {
        1
    }
}

/// Places the fields of a class, and those of its objects after the inherited words.
pub fn place_fields(
    alloc: Global,
    pool: &[Constant],
    fields: &[Member],
    inherited: u32,
) -> Result<ClassRow, AllocError>
    requires few { length fields.now < 2 ^ 16 }
    requires room { inherited < 2 ^ 30 }
    ensures { IfOk result (λ placed. ArePlaced (map (member_of_file pool.now) fields.now) inherited placed) }
{
    let mut placed = ClassRow::new(alloc, inherited);
    for field in fields {
        let words = field_words(pool, field);
        placed.place(has(field.flags, STATIC), words)?;
    }
    Ok(placed)
}
