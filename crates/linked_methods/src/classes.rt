//! The classes of a linked program.

ghost use Rattle.std.specs.Prelude.{◌≡◌};
ghost use Rattle.link_rules.specs.Classes.{classes_of};
ghost use Rattle.type_rules.specs.Environments.{hierarchy_of};

use linker::World;
use word_types::ClassHierarchy;

/// The classes of a linked program, as assignability sees them.
#[derive(Clone, Copy)]
pub struct LinkedClasses<'a> {
    pub(crate) world: &'a World,
}

impl<'a> LinkedClasses<'a> {
    ghost use Rattle.linked_methods.specs.Classes.{hierarchy_of_classes};

    /// The classes of a program.
    pub fn new(world: &'a World) -> Self
        ensures { hierarchy_of_classes result ≡ hierarchy_of (classes_of world.now) }
    {
        LinkedClasses { world }
    }
}

impl<'a> ClassHierarchy for LinkedClasses<'a> {
    ghost use Rattle.linked_methods.specs.Classes.{hierarchy_of_classes};

    ghost hierarchy = { hierarchy_of_classes };

    fn is_interface(&self, class: u32) -> bool {
        self.world.is_interface(class)
    }

    fn is_superclass(&self, low: u32, high: u32) -> bool {
        self.world.is_superclass(low, high)
    }
}
