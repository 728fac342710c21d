//! The classes that are initialized with a class.

ghost use Rattle.std.specs.Prelude.{◌≡◌, ◌<◌, ◌^◌, IfSome, slice_get};
ghost use Rattle.java_rows.specs.Program.{initialized_with};

use builtin_world::number::COUNT;
use program_accept::World;

/// The class at a place of those that are initialized with a class, from that class at place 0 upward (JVMS 5.5): it
/// goes up as many superclasses. Those of a built-in class are built-in, and ready.
pub fn initialized_at(world: &World, class: u32, place: u32) -> Option<u32>
    ensures is { result ≡ slice_get (initialized_with world.now class) place }
    ensures few { IfSome result (λ c. place < 2 ^ 16) }
{
    world.is_linked();
    if class > world.named_classes() {
        return None;
    }
    let mut above = class;
    for _ in 0..place {
        if above <= COUNT {
            return None;
        }
        above = world.super_class(above);
    }
    if above <= COUNT {
        return None;
    }
    Some(above)
}
