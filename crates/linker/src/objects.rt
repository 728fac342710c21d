//! What is asked of the objects that are there as a program begins.

ghost use Rattle.std.specs.Prelude.{◌≡◌, ◌<◌, ◌^◌, length, option_map, slice_get};
ghost use Rattle.link_rules.specs.FixedObjects.{system_out_object, main_thread_object, arguments_object, string_object, first_free};
ghost use Rattle.link_rules.specs.Names.{program_names};
ghost use Rattle.link_rules.specs.Readers.{static_value};
ghost use Rattle.link_rules.specs.Strings.{string_texts};

use crate::world::World;

impl World {
    /// How many string literals there are: they have the numbers from 0 on.
    pub fn strings(&self) -> u32
        ensures { result ≡ length (string_texts self.now) }
    {
        self.tables.classes.literals.count()
    }

    /// The text of a string literal.
    pub fn string_at(&self, string: u32) -> Option<&str>
        ensures { option_map (λ text. text.now) result ≡ slice_get (string_texts self.now) string }
    {
        self.tables.classes.literals.text(string)
    }

    /// The reference of the String of a literal.
    pub fn string_reference(&self, string: u32) -> u32
        requires { string < 2 ^ 30 }
        ensures { result ≡ string_object (program_names self.now) string }
    {
        self.tables.classes.start.string(string)
    }

    /// The reference of `System.out`.
    pub fn system_out(&self) -> u32
        ensures { result ≡ system_out_object (program_names self.now) }
    {
        self.tables.classes.start.system_out()
    }

    /// The reference of the Thread that executes `main`.
    pub fn main_thread(&self) -> u32
        ensures { result ≡ main_thread_object (program_names self.now) }
    {
        self.tables.classes.start.main_thread()
    }

    /// The reference of the empty array of `main`'s arguments.
    pub fn arguments(&self) -> u32
        ensures { result ≡ arguments_object (program_names self.now) }
    {
        self.tables.classes.start.arguments()
    }

    /// The first place after the objects that are there as the program begins, less than 2^30.
    pub fn first_free(&self) -> u32
        ensures value { result ≡ first_free (program_names self.now) }
        ensures small { result < 2 ^ 30 }
    {
        self.tables.classes.start.first_free()
    }

    /// A word of the class object of a class as the program begins, 0 where it has no such word.
    pub fn static_value(&self, class: u32, place: u32) -> u32
        ensures { result ≡ static_value (program_names self.now) self.now class place }
    {
        self.tables.classes.start.static_value(class, place)
    }
}
