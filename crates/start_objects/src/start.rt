//! The objects that are there as a program begins.

ghost use Rattle.std.specs.Prelude.{◌≡◌, ◌≤◌, ◌<◌, ◌^◌, ℕ, List, IfOk, length};
ghost use Rattle.code_decode.specs.declared.code.ClassUnit.{ClassUnit};
ghost use Rattle.link_rules.specs.Names.{program_names, class_count};
ghost use Rattle.link_rules.specs.FixedObjects.{system_out_object, main_thread_object, arguments_object, string_object, first_free};
ghost use Rattle.link_rules.specs.Readers.{static_value};
ghost use Rattle.class_layout.specs.Layout.{IsLayoutOf};
ghost use Rattle.string_literals.specs.Literals.{IsLiteralsOf};
ghost use Rattle.start_objects.specs.Start.{AreStartObjectsOf, kept_word};

use crate::places::StartPlaces;
use crate::statics::static_words;
use builtin_world::number::COUNT;
use class_layout::ClassLayout;
use code_decode::ClassUnit;
use rows::Rows;
use std::alloc::{AllocError, Global};
use string_literals::StringLiterals;

/// Where the objects lie that are there as a program begins, and the words that class objects have then. Whose they
/// are is said by `AreStartObjectsOf`; the readers take no memory and no time to speak of.
#[derive(Drop)]
pub struct StartObjects {
    places: StartPlaces,
    statics: Vec<Rows<u32>>,
}

fn word_in(files: &[Rows<u32>], class: u32, place: u32) -> u32
    ensures { result ≡ kept_word files.now class place }
{
    let Some(file) = class.checked_sub(COUNT + 1) else {
        return 0;
    };
    match files.get(file as usize) {
        Some(words) => words.get(place as usize).copied().unwrap_or(0),
        None => 0,
    }
}

impl StartObjects {
    /// The objects at the start of a program with `classes` class numbers, those of array classes among them. It fails
    /// only when memory runs out.
    pub fn new(
        alloc: Global,
        units: &[ClassUnit],
        layout: &ClassLayout,
        literals: &StringLiterals,
        classes: u32,
    ) -> Result<Self, AllocError>
        requires few { length units.now ≤ 1024 }
        requires layout { IsLayoutOf units.now layout.now }
        requires literals { IsLiteralsOf units.now literals.now }
        requires classes { classes ≡ class_count (program_names units.now) }
        requires small { classes < 2 ^ 20 }
        ensures { IfOk result (λ objects. AreStartObjectsOf units.now objects) }
    {
        let system_out = layout.class_object(classes + 1);
        let first_string = system_out + 9;
        let statics = static_words(alloc, units, literals, first_string)?;
        let free = first_string + 3 * literals.count();
        Ok(StartObjects {
            places: StartPlaces { system_out, free },
            statics,
        })
    }

    /// The reference of `System.out`.
    pub fn system_out(&self) -> u32
        ensures { (us : List ClassUnit) → AreStartObjectsOf us self.now → result ≡ system_out_object (program_names us) }
    {
        self.places.system_out
    }

    /// The reference of the Thread that executes `main`.
    pub fn main_thread(&self) -> u32
        ensures { (us : List ClassUnit) → AreStartObjectsOf us self.now → result ≡ main_thread_object (program_names us) }
    {
        self.places.system_out + 2
    }

    /// The reference of the empty array of `main`'s arguments.
    pub fn arguments(&self) -> u32
        ensures { (us : List ClassUnit) → AreStartObjectsOf us self.now → result ≡ arguments_object (program_names us) }
    {
        self.places.system_out + 7
    }

    /// The reference of the string of a literal, by its number from 0. The number after the last has the first free
    /// place.
    pub fn string(&self, number: u32) -> u32
        requires { number < 2 ^ 30 }
        ensures { (us : List ClassUnit) → AreStartObjectsOf us self.now → result ≡ string_object (program_names us) number }
    {
        self.places.system_out + 9 + 3 * number
    }

    /// The first place after the objects at the start, less than 2^30.
    pub fn first_free(&self) -> u32
        ensures value { (us : List ClassUnit) → AreStartObjectsOf us self.now → result ≡ first_free (program_names us) }
        ensures small { result < 2 ^ 30 }
    {
        self.places.free
    }

    /// A word of the class object of a class as the program begins, 0 where it has no such word.
    pub fn static_value(&self, class: u32, place: u32) -> u32
        ensures { (us : List ClassUnit) → AreStartObjectsOf us self.now → result ≡ static_value (program_names us) us class place }
    {
        word_in(&self.statics, class, place)
    }
}
