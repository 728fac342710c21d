//! Types, methods and numbers as words.

use link_types::{ElementType, MethodId, ObjectType, ValueType};
use std::io;

/// A number, where there is one.
pub fn show_number<R: Print>(rt: &R, number: Option<u32>) -> io::Result<()> {
    match number {
        Some(number) => print!(rt; " {number}"),
        None => print!(rt; " none"),
    }
}

/// A method by the number of its class and its place there, where there is one.
pub fn show_method<R: Print>(rt: &R, method: Option<MethodId>) -> io::Result<()> {
    match method {
        Some(MethodId { class, method }) => print!(rt; " {class}.{method}"),
        None => print!(rt; " none"),
    }
}

fn show_element<R: Print>(rt: &R, kind: ElementType) -> io::Result<()> {
    match kind {
        ElementType::Boolean => print!(rt; "boolean"),
        ElementType::Byte => print!(rt; "byte"),
        ElementType::Char => print!(rt; "char"),
        ElementType::Short => print!(rt; "short"),
        ElementType::Int => print!(rt; "int"),
        ElementType::Long => print!(rt; "long"),
        ElementType::Float => print!(rt; "float"),
        ElementType::Double => print!(rt; "double"),
        ElementType::Class(class) => print!(rt; "{class}"),
        ElementType::Other(name) => print!(rt; "other{name}"),
    }
}

/// A class by its number, an absent class by that of its name, and an array by its dimensions and innermost elements.
pub fn show_object<R: Print>(rt: &R, kind: ObjectType) -> io::Result<()> {
    match kind {
        ObjectType::Class(class) => print!(rt; " {class}"),
        ObjectType::Other(name) => print!(rt; " other{name}"),
        ObjectType::Array(dimensions, kind) => {
            print!(rt; " {dimensions}x")?;
            show_element(rt, kind)
        }
    }
}

/// The type of a field, by its name or as that of a reference.
pub fn show_value<R: Print>(rt: &R, kind: ValueType) -> io::Result<()> {
    match kind {
        ValueType::Boolean => print!(rt; " boolean"),
        ValueType::Byte => print!(rt; " byte"),
        ValueType::Char => print!(rt; " char"),
        ValueType::Short => print!(rt; " short"),
        ValueType::Int => print!(rt; " int"),
        ValueType::Long => print!(rt; " long"),
        ValueType::Object(kind) => show_object(rt, kind),
    }
}
