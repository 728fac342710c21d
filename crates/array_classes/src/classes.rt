//! The array classes of a program and their numbers.

ghost use Rattle.std.specs.Prelude.{◌≡◌, ◌<◌, ◌^◌, ◌==◌, ◌≤◌, ℕ, List, Some, IfOk, codes, bytes_eq, length, option_map};
ghost use Rattle.code_decode.specs.declared.code.ClassUnit.{ClassUnit};
ghost use Rattle.code_laws.specs.File.{IsClassOrArray};
ghost use Rattle.link_types.specs.declared.types.ObjectType.TheVariants.{Array as array_variant};
ghost use Rattle.link_rules.specs.Units.{AreUnits};
ghost use Rattle.link_rules.specs.LinkRules.{link_rules};
ghost use Rattle.link_rules.specs.Arrays.{array_of};
ghost use Rattle.link_rules.specs.Names.{program_names, class_count, array_number, array_numbered, type_named};
ghost use Rattle.link_rules.specs.Readers.{primitive_array_number, array_type, element_class};
ghost use Rattle.pool_types.specs.Types.{ArePoolTypes};
ghost use Rattle.array_classes.specs.ArrayClasses.{AreArraysOf, has_longs, class_in};

use crate::arrays::ArrayNumbers;
use array_kinds::{ArrayKind, array_of, primitive_array};
use class_supers::Supers;
use instructions::PrimitiveType;
use link_types::{ElementType, ObjectType};
use pool_types::PoolTypes;
use std::alloc::{AllocError, Global};

/// The array classes of a linked program with their numbers, which follow those of the classes: those that newarray and
/// anewarray make, that checkcast and instanceof name, and that own a member that is named; the array of the arguments
/// of `main`; and the array classes of all their elements. `AreArraysOf` says which program they belong to; the readers
/// take no memory, and next to no time.
#[derive(Drop)]
pub struct ArrayClasses {
    numbers: ArrayNumbers,
}

/// Whether the elements of an array are longs, of two words each.
fn has_longs(array: ArrayKind) -> bool
    ensures { result ≡ has_longs array }
{
    array.dimensions == 1 && matches!(array.base, ElementType::Long)
}

/// The number of the class of innermost elements, where they are of a class of the program.
fn class_in(base: ElementType) -> Option<u32>
    ensures { result ≡ class_in base }
{
    match base {
        ElementType::Class(class) => Some(class),
        _ => None,
    }
}

impl ArrayClasses {
    /// The array classes of a linked program. Each instruction is looked at once. It fails only when memory runs out.
    pub fn new(alloc: Global, supers: &Supers<'_>, types: &PoolTypes) -> Result<Self, AllocError>
        requires few { length supers.now ≤ 1024 }
        requires decoded { AreUnits supers.now }
        requires linked { (link_rules supers.now).Hold }
        requires types { ArePoolTypes supers.now types.now }
        ensures { IfOk result (λ arrays. AreArraysOf supers.now arrays) }
    {
        let numbers = ArrayNumbers::new(alloc, supers, types)?;
        Ok(ArrayClasses { numbers })
    }

    /// How many classes and array classes there are, fewer than 2^20.
    pub fn class_count(&self) -> u32
        ensures value { (us : List ClassUnit) → AreArraysOf us self.now → result ≡ class_count (program_names us) }
        ensures few { (us : List ClassUnit) → AreArraysOf us self.now → result < 2 ^ 20 }
    {
        self.numbers.count()
    }

    /// The number of an array class by its type: by how many dimensions it has and the type of its innermost elements;
    /// `None` where the program has no such array class.
    pub fn number(&self, dimensions: u8, base: ElementType) -> Option<u32>
        ensures { (us : List ClassUnit) → AreArraysOf us self.now → (name : List ℕ) → type_named (program_names us) name ≡ array_variant dimensions base →
            result ≡ array_number (program_names us) name }
    {
        self.numbers.number(ArrayKind { dimensions, base })
    }

    /// The type of the arrays of a number; `None` where that is no array class.
    pub fn array_type(&self, class: u32) -> Option<ObjectType>
        ensures { (us : List ClassUnit) → AreArraysOf us self.now → result ≡ array_type (program_names us) class }
    {
        let kind = self.numbers.kind(class)?;
        Some(ObjectType::Array(kind.dimensions, kind.base))
    }

    /// The number of the class or array class of the elements of an array class; `None` where they are numbers or
    /// booleans, and of what is no array class.
    pub fn element_class(&self, class: u32) -> Option<u32>
        ensures { (us : List ClassUnit) → AreArraysOf us self.now → result ≡ element_class (program_names us) class }
    {
        let kind = self.numbers.kind(class)?;
        if kind.dimensions > 1 {
            return self.numbers.number(ArrayKind {
                dimensions: kind.dimensions - 1,
                base: kind.base,
            });
        }
        class_in(kind.base)
    }

    /// The array class that newarray makes (JVMS 6.5); `None` where no instruction of the program makes, tests or names
    /// it.
    pub fn primitive_array(&self, kind: PrimitiveType) -> Option<u32>
        ensures { (us : List ClassUnit) → AreArraysOf us self.now → result ≡ primitive_array_number (program_names us) kind }
    {
        self.numbers.number(primitive_array(kind))
    }

    /// The array class whose elements are of a type: what anewarray makes of a Class entry (JVMS 6.5); `None` where the
    /// program has no such array class, and for elements of 255 dimensions.
    pub fn array_of(&self, element: ObjectType) -> Option<u32>
        ensures { (us : List ClassUnit) → AreArraysOf us self.now → (name : List ℕ) → IsClassOrArray name → type_named (program_names us) name ≡ element →
            result ≡ array_number (program_names us) (array_of name) }
    {
        self.numbers.number(array_of(element)?)
    }

    /// Whether the elements of an array class are longs, of two words each; `None` where it is no array class.
    pub fn has_long_elements(&self, class: u32) -> Option<bool>
        ensures { (us : List ClassUnit) → AreArraysOf us self.now → result ≡ option_map (λ name. bytes_eq name (codes "[J")) (array_numbered (program_names us) class) }
    {
        let kind = self.numbers.kind(class)?;
        Some(has_longs(kind))
    }
}
