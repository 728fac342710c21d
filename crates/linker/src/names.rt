//! The names of the classes of a linked program.

ghost use Rattle.std.specs.Prelude.{◌≡◌, option_map, slice_get};
ghost use Rattle.builtin_world.specs.Library.{library, Class as LibraryClass};
ghost use Rattle.code_decode.specs.declared.code.ClassUnit.{ClassUnit};
ghost use Rattle.link_rules.specs.Classes.{class_name_at, classes_of};
ghost use Rattle.linker.specs.Names.{name_of_class, is_named, class_of_name};

use crate::world::World;
use builtin_world::number::COUNT;
use builtin_world::{BuiltinClass, builtins};
use class_pool::class_name_at;
use code_decode::ClassUnit;

fn class_at(classes: &[BuiltinClass], place: u32) -> Option<&BuiltinClass>
    ensures { option_map (λ class. class.now) result ≡ slice_get classes.now place }
{
    classes.get(place as usize)
}

// The name of the built-in class at a place.
fn name_of_builtin(place: u32) -> Option<&'static [u8]>
    ensures { option_map (λ name. name.now) result
        ≡ option_map (λ (c : LibraryClass). c.name) (slice_get library place) }
{
    match class_at(builtins(), place) {
        Some(class) => Some(class.name.as_bytes()),
        None => None,
    }
}

// The name of the class of the file at a place.
fn name_of_file(units: &[ClassUnit], place: u32) -> Option<&[u8]>
    ensures { option_map (λ name. name.now) result
        ≡ option_map (λ (u : ClassUnit). class_name_at u.file.pool u.file.this_class) (slice_get units.now place) }
{
    let unit = units.get(place as usize)?;
    match class_name_at(unit.file.pool.as_slice(), unit.file.this_class) {
        Some(name) => Some(name),
        None => Some(&[]),
    }
}

impl World {
    /// The name of a class in its internal form, as java/lang/Object (JVMS 4.2.1). `None` of an array class, and of
    /// what is no class. Takes no memory.
    pub fn class_name(&self, class: u32) -> Option<&[u8]>
        ensures { option_map (λ name. name.now) result ≡ name_of_class (classes_of self.now) class }
    {
        let place = class.checked_sub(1)?;
        match place.checked_sub(COUNT) {
            Some(file) => name_of_file(&self.units, file),
            None => name_of_builtin(place),
        }
    }

    // A class is there and has this name.
    fn is_class_named(&self, class: u32, name: &[u8]) -> bool
        ensures { result ≡ is_named (classes_of self.now) class name.now }
    {
        match self.class_name(class) {
            Some(own) => own == name,
            None => false,
        }
    }

    /// The class of a name in its internal form. `None` where the program has none, and of the descriptors of array
    /// classes. It compares the names of the classes one by one, and takes no memory.
    pub fn class_named(&self, name: &[u8]) -> Option<u32>
        ensures { result ≡ class_of_name (classes_of self.now) name.now }
    {
        for place in 0..self.named_classes() {
            if self.is_class_named(place + 1, name) {
                return Some(place + 1);
            }
        }
        None
    }
}
