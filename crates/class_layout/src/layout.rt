//! The layout of the classes of a program.

ghost use Rattle.std.specs.Prelude.{◌≡◌, ◌+◌, ◌*◌, ◌<◌, ◌≤◌, ◌^◌, ℕ, List, IfOk, length, slice_get};
ghost use Rattle.code_decode.specs.declared.code.ClassUnit.{ClassUnit};
ghost use Rattle.link_rules.specs.Classes.{classes_of};
ghost use Rattle.link_rules.specs.Names.{program_names, class_count};
ghost use Rattle.link_rules.specs.Supers.{PutsSupersFirst};
ghost use Rattle.link_rules.specs.Units.{AreUnits};
ghost use Rattle.link_rules.specs.Layout.{instance_words, static_words};
ghost use Rattle.link_rules.specs.FixedObjects.{class_object};
ghost use Rattle.link_rules.specs.Readers.{layout};
ghost use Rattle.class_layout.specs.Rows.{statics_in, place_numbered};
ghost use Rattle.class_layout.specs.Layout.{IsLayoutOf};

use crate::object_places::ObjectPlaces;
use crate::objects::place_objects;
use crate::row::ClassRow;
use crate::table::{class_rows, instance_words_in, row_at};
use class_supers::Supers;
use link_types::Layout;
use std::alloc::{AllocError, Global};

/// The words of the classes of a program by their numbers, and where its class objects lie. What it is the layout of
/// is said by `IsLayoutOf`; the readers take no memory and no time to speak of.
#[derive(Drop)]
pub struct ClassLayout {
    rows: Vec<ClassRow>,
    places: ObjectPlaces,
}

/// The words of a class object by the row of its class, 0 where there is none.
fn static_words_in(rows: &[ClassRow], class: u32) -> u32
    ensures { result ≡ statics_in rows.now class }
{
    match row_at(rows, class) {
        Some(row) => row.static_words,
        None => 0,
    }
}

fn object_at(objects: &[u32], index: usize) -> Option<u32>
    ensures { result ≡ slice_get objects.now index }
{
    objects.get(index).copied()
}

impl ClassLayout {
    /// The layout of the classes of a program, made in an order in which superclasses come first. It fails only when
    /// memory runs out.
    pub fn new(alloc: Global, supers: &Supers<'_>, order: &[u32]) -> Result<Self, AllocError>
        requires decoded { AreUnits supers.now }
        requires few { length supers.now ≤ 1024 }
        requires order { PutsSupersFirst (classes_of supers.now) order.now }
        ensures { IfOk result (λ layout. IsLayoutOf supers.now layout) }
    {
        let rows = class_rows(alloc, supers, order)?;
        let places = place_objects(alloc, &rows)?;
        Ok(ClassLayout { rows, places })
    }

    /// The words of an object of a class, those of its superclasses among them; 0 of an array class and of what is no
    /// class.
    pub fn instance_words(&self, class: u32) -> u32
        ensures { (us : List ClassUnit) → IsLayoutOf us self.now → result ≡ instance_words (classes_of us) class }
    {
        instance_words_in(&self.rows, class)
    }

    /// The words of the static fields of a class; 0 of an array class and of what is no class.
    pub fn static_words(&self, class: u32) -> u32
        ensures { (us : List ClassUnit) → IsLayoutOf us self.now → result ≡ static_words (classes_of us) class }
    {
        static_words_in(&self.rows, class)
    }

    /// The first word of the field at a place of a class, from 0: in the class object where the field is static, and
    /// else in each object. 0 where there is no such field.
    pub fn field_place(&self, class: u32, field: u16) -> u32
        ensures { (us : List ClassUnit) → IsLayoutOf us self.now → result ≡ place_numbered (classes_of us) class field }
    {
        match row_at(&self.rows, class) {
            Some(row) => row.places.get(usize::from(field)).copied().unwrap_or(0),
            None => 0,
        }
    }

    /// The reference of the class object of a class or array class. A number past those of the classes is that of an
    /// array class, so the number after the last class has the first place after the class objects.
    pub fn class_object(&self, class: u32) -> u32
        requires { class < 2 ^ 24 }
        ensures value { (us : List ClassUnit) → IsLayoutOf us self.now → result ≡ class_object (program_names us) class }
        ensures small { (us : List ClassUnit) → IsLayoutOf us self.now → result < 2 ^ 28 + 2 * class + 1 }
    {
        let index = class.saturating_sub(1) as usize;
        match object_at(&self.places.objects, index) {
            Some(object) => object,
            None => self.places.behind + 2 * (index - self.places.objects.len()) as u32,
        }
    }

    /// The words of a class and its class object, where `classes` classes and array classes have numbers; for any other
    /// number all are 0.
    pub fn layout(&self, class: u32, classes: u32) -> Layout
        requires { classes < 2 ^ 24 }
        ensures { (us : List ClassUnit) → IsLayoutOf us self.now → classes ≡ class_count (program_names us) → result ≡ layout (program_names us) class }
    {
        let is_class = class >= 1 && class <= classes;
        Layout {
            instance_words: self.instance_words(class),
            static_words: self.static_words(class),
            object: if is_class {
                self.class_object(class)
            } else {
                0
            },
        }
    }
}
