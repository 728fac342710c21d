//! Each built-in class, with what it declares.

use builtin_world::{BuiltinClass, builtins};
use std::io;

fn print_class<R: Print>(rt: &R, class: &BuiltinClass) -> io::Result<()> {
    let (number, name, extends) = (class.number, class.name, class.super_number);
    let (flags, words) = (class.flags, class.words);
    println!(rt; "class {number} {name} extends {extends} flags {flags} words {words}")?;
    for interface in class.interfaces {
        println!(rt; "    implements {interface}")?;
    }
    for field in class.fields {
        let (name, descriptor, flags) = (field.name, field.descriptor, field.flags);
        println!(rt; "    field {name} {descriptor} flags {flags}")?;
    }
    for method in class.methods {
        let (name, descriptor, flags) = (method.name, method.descriptor, method.flags);
        println!(rt; "    method {name} {descriptor} flags {flags}")?;
    }
    Ok(())
}

/// Prints the classes in the order of their numbers.
pub fn print_classes<R: Print>(rt: &R) -> io::Result<()> {
    for class in builtins() {
        print_class(rt, class)?;
    }
    Ok(())
}
