//! The classes of a program, as assignability sees them.

/// Says how the classes of a program are related, by their numbers.
pub trait ClassHierarchy {
    ghost use Rattle.std.specs.Prelude.{◌≡◌};
    ghost use Rattle.type_rules.specs.Assignable.{Hierarchy};

    /// The classes.
    ghost hierarchy: { Self → Hierarchy };

    /// Tests whether a class is an interface. Takes no memory.
    fn is_interface(&self, class: u32) -> bool
        ensures { result ≡ (hierarchy self.now).is_interface class };

    /// Tests whether the second class is the first one, or above it by superclasses. Takes no memory.
    fn is_superclass(&self, low: u32, high: u32) -> bool
        ensures { result ≡ (hierarchy self.now).is_superclass low high };
}
