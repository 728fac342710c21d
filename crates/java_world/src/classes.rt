//! What is asked of array classes.

ghost use Rattle.std.specs.Prelude.{◌≡◌};
ghost use Rattle.java_rows.specs.Program as program;

use instructions::PrimitiveType;
use program_accept::World;

/// Whether the elements of an array class of references take objects of a class.
pub fn takes_element(world: &World, array: u32, class: u32) -> bool
    ensures { result ≡ program.takes_element world.now array class }
{
    match world.element_class(array) {
        Some(element) => world.is_subclass(class, element),
        None => false,
    }
}

/// Whether a class is that of the arrays of boolean.
pub fn is_boolean_array(world: &World, class: u32) -> bool
    ensures { result ≡ program.is_boolean_array world.now class }
{
    match world.primitive_array(PrimitiveType::Boolean) {
        Some(booleans) => booleans == class,
        None => false,
    }
}
