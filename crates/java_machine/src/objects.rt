//! The objects that are there as a program begins (JVMS 5.1, 5.5).

ghost use Rattle.std.specs.Prelude.{◌≡◌, ◌≤◌, ◌++◌, [], ◌∷◌, false, IfOk, OnOk, length, map};
ghost use Rattle.std.specs.List.{range_with_len};
ghost use Rattle.std.specs.Option.{option_map_or};
ghost use Rattle.builtin_world.specs.declared.number.TheConstants.{PRINT_STREAM as print_stream, STRING as string_class};
ghost use Rattle.link_rules.specs.FixedObjects.{object_at_start, class_object_at_start, main_thread_at_start, string_at_start, objects_at_start, system_out_object, arguments_object, arguments_class};
ghost use Rattle.link_rules.specs.Names.{program_names, class_count};
ghost use Rattle.link_rules.specs.Readers.{array_type};
ghost use Rattle.link_rules.specs.Strings.{string_texts};
ghost use Rattle.java_rows.specs.Start.{fixed_object};
ghost use Rattle.java_machine.specs.Arguments.{is_string_array};

use builtin_world::number::{CLASS, PRINT_STREAM, STRING, THREAD};
use fixed_objects::FixedObject;
use link_types::{ElementType, ObjectType};
use linker::World;
use op_core::Rows;
use std::alloc::{AllocError, Global};

/// An object without words that has started no thread.
fn plain_object(alloc: Global, reference: u32, class: u32, length: u32) -> FixedObject
    ensures { result ≡ fixed_object (object_at_start reference class length []) }
{
    FixedObject {
        reference,
        class,
        length,
        words: Rows::new(alloc),
        started: 0,
    }
}

/// What the static fields of a class begin with.
fn class_words(alloc: Global, world: &World, class: u32) -> Result<Rows<u32>, AllocError>
    requires some { 1 ≤ class }
    requires there { class ≤ class_count (program_names world.now) }
    ensures { IfOk result (λ words. words ≡ (class_object_at_start (program_names world.now) world.now class).words) }
{
    let mut words = Rows::new(alloc);
    for place in 0..world.layout(class).static_words {
        words.push(world.static_value(class, place))?;
    }
    Ok(words)
}

fn class_object(alloc: Global, world: &World, class: u32) -> Result<FixedObject, AllocError>
    requires some { 1 ≤ class }
    requires there { class ≤ class_count (program_names world.now) }
    ensures { IfOk result (λ object. object ≡ fixed_object (class_object_at_start (program_names world.now) world.now class)) }
{
    Ok(FixedObject {
        reference: world.layout(class).object,
        class: CLASS,
        length: 0,
        words: class_words(alloc, world, class)?,
        started: 0,
    })
}

/// The class objects by number.
fn class_objects(alloc: Global, world: &World) -> Result<Rows<FixedObject>, AllocError>
    ensures { IfOk result (λ objects. objects
        ≡ map (λ c. fixed_object (class_object_at_start (program_names world.now) world.now c)) (range_with_len 1 (class_count (program_names world.now)))) }
{
    let mut objects = Rows::new(alloc);
    for place in 0..world.classes() {
        objects.push(class_object(alloc, world, place + 1)?)?;
    }
    Ok(objects)
}

/// `System.out`.
fn system_out(alloc: Global, world: &World) -> FixedObject
    ensures { result ≡ fixed_object (object_at_start (system_out_object (program_names world.now)) print_stream 0 []) }
{
    plain_object(alloc, world.system_out(), PRINT_STREAM, 0)
}

/// The Thread that executes `main`.
fn main_thread(alloc: Global, world: &World) -> Result<FixedObject, AllocError>
    ensures { IfOk result (λ object. object ≡ fixed_object (main_thread_at_start (program_names world.now))) }
{
    FixedObject::main_thread(alloc, world.main_thread(), THREAD)
}

/// Whether a type is that of arrays of Strings.
fn is_string_array(kind: ObjectType) -> bool
    ensures { result ≡ is_string_array kind }
{
    match kind {
        ObjectType::Array(dimensions, ElementType::Class(class)) => {
            dimensions == 1 && class == STRING
        }
        _ => false,
    }
}

/// Whether a class is that of arrays of Strings.
fn is_array_of_strings(world: &World, class: u32) -> bool
    ensures { result ≡ option_map_or is_string_array (array_type (program_names world.now) class) false }
{
    match world.array_type(class) {
        Some(kind) => is_string_array(kind),
        None => false,
    }
}

/// The class of the array of `main`'s arguments.
fn arguments_class(world: &World) -> u32
    ensures { result ≡ arguments_class (program_names world.now) }
{
    world.is_linked();
    let named = world.named_classes();
    for place in 0..world.classes().saturating_sub(named) {
        let class = named + 1 + place;
        if is_array_of_strings(world, class) {
            return class;
        }
    }
    0
}

/// The empty array of `main`'s arguments.
fn arguments(alloc: Global, world: &World) -> FixedObject
    ensures { result ≡ fixed_object (object_at_start (arguments_object (program_names world.now)) (arguments_class (program_names world.now)) 0 []) }
{
    plain_object(alloc, world.arguments(), arguments_class(world), 0)
}

/// The String of a literal: its one word is null.
fn literal_object(alloc: Global, reference: u32, string: u32) -> Result<FixedObject, AllocError>
    ensures { IfOk result (λ object. object ≡ fixed_object (object_at_start reference string_class string (0 ∷ []))) }
{
    let mut words = Rows::new(alloc);
    words.push(0)?;
    Ok(FixedObject {
        reference,
        class: STRING,
        length: string,
        words,
        started: 0,
    })
}

/// Appends the Strings of the literals to the other objects. The length of each is the number of its text.
fn push_strings(
    alloc: Global,
    world: &World,
    objects: &mut Rows<FixedObject>,
) -> Result<(), AllocError>
    ensures { OnOk result (objects.new ≡ objects.old
        ++ map (λ n. fixed_object (string_at_start (program_names world.now) n)) (range_with_len 0 (length (string_texts world.now)))) }
{
    // No literal has a number of 2^30 or more, since their places are less.
    let _first = world.first_free();
    for string in 0..world.strings() {
        objects.push(literal_object(alloc, world.string_reference(string), string)?)?;
    }
    Ok(())
}

/// The objects that are there as a program begins, in the order in which they lie.
pub(crate) fn objects_at_start(
    alloc: Global,
    world: &World,
) -> Result<Rows<FixedObject>, AllocError>
    ensures { IfOk result (λ objects. objects ≡ map fixed_object (objects_at_start (program_names world.now) world.now)) }
{
    let mut objects = class_objects(alloc, world)?;
    objects.push(system_out(alloc, world))?;
    objects.push(main_thread(alloc, world)?)?;
    objects.push(arguments(alloc, world))?;
    push_strings(alloc, world, &mut objects)?;
    Ok(objects)
}
