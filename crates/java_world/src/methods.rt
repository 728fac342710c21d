//! What is asked of methods.

ghost use Rattle.std.specs.Prelude.{◌≡◌, true};
ghost use Rattle.access_flags.specs.declared.TheConstants.{SYNCHRONIZED};
ghost use Rattle.java_rows.specs.Program as program;
ghost use Rattle.link_rules.specs.FixedObjects.{class_object};
ghost use Rattle.link_rules.specs.Names.{program_names};

use access_flags::has;
use link_types::{MethodBody, MethodId};
use program_accept::World;

/// What a call of a method executes.
pub fn body_of(world: &World, method: MethodId) -> Option<MethodBody>
    ensures { result ≡ program.body_of world.now method }
{
    match world.method(method) {
        Some(called) => Some(called.body),
        None => None,
    }
}

/// Whether a method has an access flag (JVMS 4.6).
pub fn method_has(world: &World, method: MethodId, flag: u16) -> bool
    ensures { result ≡ program.method_has world.now method flag }
{
    match world.method(method) {
        Some(called) => has(called.flags, flag),
        None => false,
    }
}

/// The words of a method's parameters without the receiver.
pub fn argument_words(world: &World, method: MethodId) -> u8
    ensures { result ≡ program.argument_words world.now method }
{
    match world.method(method) {
        Some(called) => called.kind.words,
        None => 0,
    }
}

/// The class object whose monitor a static synchronized method enters.
pub fn class_monitor(world: &World, method: MethodId) -> u32
    ensures { program.method_has world.now method SYNCHRONIZED ≡ true
        → result ≡ class_object (program_names world.now) method.class }
{
    world.layout(method.class).object
}

/// The method that a call of a method executes on an object of a class.
pub fn select(world: &World, class: u32, method: MethodId) -> Option<MethodId>
    ensures { result ≡ program.select world.now class method }
{
    if class >= 1 && class <= world.classes() {
        world.select_virtual(class, method)
    } else {
        None
    }
}
