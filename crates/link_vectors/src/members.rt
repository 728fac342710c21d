//! The members of a linked program.

use crate::values::{show_method, show_number, show_object, show_value};
use link_types::{
    ClassOperand, FieldOperand, Method, MethodBody, MethodId, MethodOperand, Operand,
};
use linker::World;
use std::io;

/// How many indices of a pool are looked at.
const MOST_INDICES: u16 = 300;

fn show_signature<R: Print>(rt: &R, method: &Method<'_>) -> io::Result<()> {
    let flags = method.flags;
    let words = method.kind.words;
    print!(rt; " flags {flags} words {words} takes")?;
    for kind in method.kind.parameters.as_slice() {
        show_value(rt, *kind)?;
    }
    print!(rt; " gives")?;
    match method.kind.result {
        Some(kind) => show_value(rt, kind)?,
        None => print!(rt; " nothing")?,
    }
    match method.body {
        MethodBody::Code => println!(rt; " code"),
        MethodBody::Native(_) => println!(rt; " built in"),
        MethodBody::Abstract => println!(rt; " abstract"),
    }
}

/// The methods that a class declares.
pub fn show_methods<R: Print>(rt: &R, world: &World, class: u32) -> io::Result<()> {
    for method in 0..u16::MAX {
        let Some(found) = world.method(MethodId { class, method }) else {
            return Ok(());
        };
        print!(rt; "method {class}.{method}")?;
        show_signature(rt, &found)?;
    }
    Ok(())
}

/// Which methods an object of a class selects for those that a class declares.
pub fn show_selected<R: Print>(rt: &R, world: &World, class: u32, owner: u32) -> io::Result<()> {
    print!(rt; "object {class} calls of {owner}:")?;
    for method in 0..u16::MAX {
        let id = MethodId {
            class: owner,
            method,
        };
        if world.method(id).is_none() {
            return println!(rt; "");
        }
        show_method(rt, world.select_virtual(class, id))?;
    }
    println!(rt; "")
}

fn show_class_operand<R: Print>(rt: &R, operand: ClassOperand) -> io::Result<()> {
    print!(rt; "class")?;
    show_object(rt, operand.kind)?;
    print!(rt; " number")?;
    show_number(rt, operand.number)?;
    print!(rt; " array")?;
    show_number(rt, operand.array)?;
    println!(rt; "")
}

fn show_field_operand<R: Print>(rt: &R, operand: FieldOperand) -> io::Result<()> {
    let owner = operand.owner;
    let place = operand.place;
    print!(rt; "field of")?;
    show_object(rt, operand.named)?;
    print!(rt; " in {owner}")?;
    if operand.is_static {
        print!(rt; " static")?;
    }
    show_value(rt, operand.kind)?;
    println!(rt; " place {place}")
}

fn show_method_operand<R: Print>(rt: &R, operand: MethodOperand) -> io::Result<()> {
    print!(rt; "method of")?;
    show_object(rt, operand.named)?;
    print!(rt; " is")?;
    show_method(rt, Some(operand.method))?;
    print!(rt; " special")?;
    show_method(rt, operand.special)?;
    if operand.constructs {
        print!(rt; " constructs")?;
    }
    println!(rt; "")
}

fn show_operand<R: Print>(rt: &R, operand: Operand) -> io::Result<()> {
    match operand {
        Operand::Nothing => println!(rt; "nothing"),
        Operand::Int(number) => println!(rt; "int {number}"),
        Operand::Long(number) => println!(rt; "long {number}"),
        Operand::Text(string) => println!(rt; "string {string}"),
        Operand::Class(operand) => show_class_operand(rt, operand),
        Operand::Out => println!(rt; "out"),
        Operand::Field(operand) => show_field_operand(rt, operand),
        Operand::Method(operand) => show_method_operand(rt, operand),
    }
}

/// What the indices of the pool of a class stand for, those that stand for something.
pub fn show_operands<R: Print>(rt: &R, world: &World, class: u32) -> io::Result<()> {
    for index in 0..MOST_INDICES {
        match world.operand(class, index) {
            Operand::Nothing => {}
            operand => {
                print!(rt; "pool {class} {index} ")?;
                show_operand(rt, operand)?;
            }
        }
    }
    Ok(())
}
