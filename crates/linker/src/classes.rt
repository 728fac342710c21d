//! What is asked of the classes of a linked program.

ghost use Rattle.std.specs.Prelude.{◌≡◌, ◌==◌, length};
ghost use Rattle.access_flags.specs.declared.TheConstants.{INTERFACE as interface_flag};
ghost use Rattle.link_rules.specs.Classes.{classes_of, class_has, superclass_of};
ghost use Rattle.link_rules.specs.Supers.{superclasses};
ghost use Rattle.link_rules.specs.Names.{program_names, class_count, is_class_number, super_number, type_numbered, is_subclass};
ghost use Rattle.link_rules.specs.Layout.{object_words};
ghost use Rattle.link_rules.specs.Readers.{layout, array_type, element_class, primitive_array_number};
ghost use Rattle.std.specs.List.{list_any};

use crate::world::World;
use builtin_world::number::OBJECT;
use instructions::PrimitiveType;
use link_types::{Layout, ObjectType};
use type_relations::{ClassRelation, is_object_below};

impl ClassRelation for World {
    ghost use Rattle.link_rules.specs.Classes.{classes_of};
    ghost use Rattle.link_rules.specs.Supers.{is_class_below};

    ghost is_below = { λ us. is_class_below (classes_of us) };

    fn is_class_below(&self, low: u32, high: u32) -> bool {
        self.tables.classes.relations.is_class_below(low, high)
    }
}

impl World {
    /// How many classes and array classes there are: they have the numbers from 1 on.
    pub fn classes(&self) -> u32
        ensures { result ≡ class_count (program_names self.now) }
    {
        self.tables.classes.arrays.class_count()
    }

    /// How many classes there are that are no array classes.
    pub fn named_classes(&self) -> u32
        ensures { result ≡ length (classes_of self.now) }
    {
        self.tables.classes.relations.count()
    }

    /// Whether a class is there and is an interface.
    pub fn is_interface(&self, class: u32) -> bool
        ensures { result ≡ class_has (classes_of self.now) class interface_flag }
    {
        self.tables.classes.relations.is_interface(class)
    }

    /// The superclass of a class: 0 of java/lang/Object and of what is no class, Object of an array class.
    pub fn super_class(&self, class: u32) -> u32
        ensures { result ≡ super_number (program_names self.now) class }
    {
        match self.tables.classes.arrays.array_type(class) {
            Some(_) => OBJECT,
            None => self.tables.classes.relations.superclass(class),
        }
    }

    /// Whether the second class is the first one, or above it by superclasses. Neither is an array class.
    pub fn is_superclass(&self, low: u32, high: u32) -> bool
        ensures { result ≡ list_any (λ d. d == high) (superclasses (classes_of self.now) low) }
    {
        self.tables.classes.relations.is_superclass(low, high)
    }

    /// The type of the objects of a class or array class.
    pub fn type_numbered(&self, class: u32) -> ObjectType
        ensures { result ≡ type_numbered (program_names self.now) class }
    {
        match self.tables.classes.arrays.array_type(class) {
            Some(kind) => kind,
            None => ObjectType::Class(class),
        }
    }

    /// Whether a number is that of a class or array class.
    fn is_class(&self, number: u32) -> bool
        ensures { result ≡ is_class_number (program_names self.now) number }
    {
        1 <= number && number <= self.classes()
    }

    /// Whether an object of the first class or array class is one of the second, as instanceof has it (JVMS 6.5): by
    /// superclasses and interfaces, and of arrays by their elements. What is no class is below none, and none below it.
    pub fn is_subclass(&self, low: u32, high: u32) -> bool
        ensures { result ≡ is_subclass (program_names self.now) low high }
    {
        self.is_class(low)
            && (self.is_class(high)
                && is_object_below(self, self.type_numbered(low), self.type_numbered(high)))
    }

    /// The words of a class or array class, and the reference of its class object; 0 of what is no class.
    pub fn layout(&self, class: u32) -> Layout
        ensures { result ≡ layout (program_names self.now) class }
    {
        let classes = self.tables.classes.arrays.class_count();
        self.tables.classes.layout.layout(class, classes)
    }

    /// The words of a new object of a class, or of a new array of `elements` elements, without header and monitor.
    pub fn words(&self, class: u32, elements: u32) -> u64
        ensures { result ≡ object_words (program_names self.now) class elements }
    {
        match self.tables.classes.arrays.has_long_elements(class) {
            Some(true) => 2 * u64::from(elements),
            Some(false) => u64::from(elements),
            None => u64::from(self.tables.classes.layout.instance_words(class)),
        }
    }

    /// The type of the arrays of a number; `None` where that is no array class.
    pub fn array_type(&self, class: u32) -> Option<ObjectType>
        ensures { result ≡ array_type (program_names self.now) class }
    {
        self.tables.classes.arrays.array_type(class)
    }

    /// The class or array class of the elements of an array class; `None` where they are no references, and of what is
    /// no array class.
    pub fn element_class(&self, class: u32) -> Option<u32>
        ensures { result ≡ element_class (program_names self.now) class }
    {
        self.tables.classes.arrays.element_class(class)
    }

    /// The array class that newarray makes (JVMS 6.5); `None` where no instruction of the program makes, tests or names
    /// it.
    pub fn primitive_array(&self, kind: PrimitiveType) -> Option<u32>
        ensures { result ≡ primitive_array_number (program_names self.now) kind }
    {
        self.tables.classes.arrays.primitive_array(kind)
    }
}
