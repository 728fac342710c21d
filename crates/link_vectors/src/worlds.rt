//! The numbers of a linked program.

use crate::members::{show_methods, show_operands, show_selected};
use crate::values::{show_method, show_number, show_object};
use builtin_world::number::{COUNT, OBJECT, RUNNABLE};
use instructions::PrimitiveType;
use linker::World;
use std::io;

/// How many string literals are looked at.
const MOST_STRINGS: u32 = 1000;

/// The superclass of a class, its words and the reference of its class object.
fn show_layout<R: Print>(rt: &R, world: &World, class: u32) -> io::Result<()> {
    let superclass = world.super_class(class);
    let layout = world.layout(class);
    let instance = layout.instance_words;
    let statics = layout.static_words;
    let object = layout.object;
    println!(rt;
        "class {class} super {superclass} words {instance} static {statics} object {object}"
    )
}

/// The words of a class object as the program begins.
fn show_statics<R: Print>(rt: &R, world: &World, class: u32) -> io::Result<()> {
    print!(rt; "statics {class}:")?;
    for place in 0..world.layout(class).static_words {
        let word = world.static_value(class, place);
        print!(rt; " {word}")?;
    }
    println!(rt; "")
}

/// The class itself and its superclasses, by number.
fn show_superclasses<R: Print>(rt: &R, world: &World, class: u32) -> io::Result<()> {
    print!(rt; "superclasses {class}:")?;
    for high in 1..=world.named_classes() {
        if world.is_superclass(class, high) {
            print!(rt; " {high}")?;
        }
    }
    println!(rt; "")
}

/// The classes of which an object of a class is an instance, by number (JVMS 6.5, instanceof).
fn show_supertypes<R: Print>(rt: &R, world: &World, class: u32) -> io::Result<()> {
    print!(rt; "supertypes {class}:")?;
    for high in 1..=world.classes() {
        if world.is_subclass(class, high) {
            print!(rt; " {high}")?;
        }
    }
    println!(rt; "")
}

fn show_class<R: Print>(rt: &R, world: &World, class: u32) -> io::Result<()> {
    show_layout(rt, world, class)?;
    if world.is_interface(class) {
        println!(rt; "interface {class}")?;
    }
    show_statics(rt, world, class)?;
    show_superclasses(rt, world, class)?;
    print!(rt; "initializer {class}:")?;
    show_method(rt, world.initializer(class))?;
    println!(rt; "")?;
    show_methods(rt, world, class)
}

/// The type of the arrays of a class, the class of their elements, and how many words one of three elements has.
fn show_array<R: Print>(rt: &R, world: &World, class: u32) -> io::Result<()> {
    let words = world.words(class, 3);
    print!(rt; "array {class}")?;
    if let Some(kind) = world.array_type(class) {
        show_object(rt, kind)?;
    }
    print!(rt; " of")?;
    show_number(rt, world.element_class(class))?;
    println!(rt; " three {words}")?;
    show_layout(rt, world, class)
}

fn show_primitive_arrays<R: Print>(rt: &R, world: &World) -> io::Result<()> {
    print!(rt; "newarray:")?;
    for kind in [
        PrimitiveType::Boolean,
        PrimitiveType::Char,
        PrimitiveType::Byte,
        PrimitiveType::Short,
        PrimitiveType::Int,
        PrimitiveType::Long,
    ] {
        show_number(rt, world.primitive_array(kind))?;
    }
    println!(rt; "")
}

fn show_fixed<R: Print>(rt: &R, world: &World) -> io::Result<()> {
    let out = world.system_out();
    let thread = world.main_thread();
    let arguments = world.arguments();
    println!(rt; "out {out} thread {thread} arguments {arguments}")?;
    for string in 0..world.strings().min(MOST_STRINGS) {
        let text = world.string_at(string).unwrap_or("");
        let reference = world.string_reference(string);
        println!(rt; "string {string} at {reference} {text}")?;
    }
    let free = world.first_free();
    println!(rt; "free {free}")
}

/// The methods that an object of a class selects.
fn show_calls<R: Print>(rt: &R, world: &World, class: u32) -> io::Result<()> {
    show_selected(rt, world, class, OBJECT)?;
    show_selected(rt, world, class, RUNNABLE)?;
    for owner in COUNT + 1..=world.named_classes() {
        show_selected(rt, world, class, owner)?;
    }
    Ok(())
}

/// Prints the numbers of a program: of the classes of its files, of its array classes, of what is there as it begins,
/// of the methods that objects and arrays select, and of what the indices of the pools stand for.
pub fn show_world<R: Print>(rt: &R, world: &World) -> io::Result<()> {
    let named = world.named_classes();
    let all = world.classes();
    println!(rt; "classes {named} and arrays {all}")?;
    for class in COUNT + 1..=named {
        show_class(rt, world, class)?;
    }
    for class in named..all {
        show_array(rt, world, class + 1)?;
    }
    for class in COUNT..all {
        show_supertypes(rt, world, class + 1)?;
    }
    show_primitive_arrays(rt, world)?;
    show_fixed(rt, world)?;
    for class in COUNT + 1..=named {
        show_calls(rt, world, class)?;
    }
    if named < all {
        show_calls(rt, world, named + 1)?;
    }
    for class in COUNT..named {
        show_operands(rt, world, class + 1)?;
    }
    Ok(())
}
