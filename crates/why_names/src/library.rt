//! What a program uses of a class that is not there, or not with this member, and what is built in.

ghost use Rattle.std.specs.Prelude.{List, ℕ};
ghost use Rattle.class_read.specs.ClassFile.{IsFile};

use crate::naming::{class_name_index, show_entry, show_pair};
use crate::no_memory;
use builtin_world::{builtin, builtins};
use class_read::{ClassFile, Constant, NameRefusal, ReadRefusal, read_class, text_of};
use rows::Text;
use std::alloc::Global;
use std::io;

/// The index of the name of the class that an entry names, or whose member it names.
fn owner_index(file: &ClassFile, index: u16) -> Option<u16> {
    match file.pool.get(usize::from(index)) {
        Some(Constant::Class(name)) => Some(*name),
        Some(
            Constant::Field(class, _)
            | Constant::Method(class, _)
            | Constant::IfaceMethod(class, _),
        ) => class_name_index(file, *class),
        _ => None,
    }
}

/// The name of the class that an entry names, or whose member it names, and `None` where it names neither.
///
/// # Errors
/// It fails only when memory runs out.
pub(crate) fn owner_name(alloc: Global, file: &ClassFile, index: u16) -> io::Result<Option<Text>>
    requires { (bytes : List ℕ) × IsFile bytes file.now }
{
    match owner_index(file, index) {
        Some(name) => match text_of(alloc, file, name) {
            Ok(text) => Ok(Some(text)),
            Err(NameRefusal::Bad) => Ok(None),
            Err(NameRefusal::NoMemory) => Err(no_memory()),
        },
        None => Ok(None),
    }
}

/// Prints the members of a class that a file names.
fn show_used<R: Print + AllocGlobal>(
    rt: &R,
    name: &str,
    file: &ClassFile,
    owner: &str,
) -> io::Result<()>
    requires { (bytes : List ℕ) × IsFile bytes file.now }
{
    for (index, constant) in (0u16..).zip(file.pool.as_slice().iter()) {
        let pair = match constant {
            Constant::Field(_, pair) | Constant::Method(_, pair) | Constant::IfaceMethod(_, pair) =>
                *pair,
            _ => continue,
        };
        match owner_name(rt.alloc(), file, index)? {
            Some(text) if text.as_str() == owner => {
                print!(rt; "used in {name:?}:")?;
                show_pair(rt, file, pair)?;
                println!(rt; "")?;
            }
            _ => {}
        }
    }
    Ok(())
}

/// Prints what the files of these names and bytes name of a class. A file that is no class file names nothing.
///
/// # Errors
/// It fails where nothing can be printed, and where there is no memory.
pub(crate) fn show_uses<R: Print + AllocGlobal>(
    rt: &R,
    names: &[String],
    files: &[Vec<u8>],
    owner: &str,
) -> io::Result<()> {
    for (name, bytes) in names.iter().zip(files.iter()) {
        match read_class(rt.alloc(), bytes.as_slice()) {
            Ok(file) => show_used(rt, name.as_str(), &file, owner)?,
            Err(ReadRefusal::NoMemory) => return Err(no_memory()),
            Err(_) => {}
        }
    }
    Ok(())
}

/// Prints what is built in in the place of a class: of a built-in class its own members, and otherwise the names of all
/// built-in classes.
///
/// # Errors
/// It fails where nothing can be printed.
pub(crate) fn show_built_in<R: Print>(rt: &R, owner: &str) -> io::Result<()> {
    match builtin(owner) {
        Some(class) => {
            let name = class.name;
            for field in class.fields {
                let (field, descriptor) = (field.name, field.descriptor);
                println!(rt; "built in: {name} {field} {descriptor}")?;
            }
            for method in class.methods {
                let (method, descriptor) = (method.name, method.descriptor);
                println!(rt; "built in: {name} {method} {descriptor}")?;
            }
            Ok(())
        }
        None => {
            for class in builtins() {
                let name = class.name;
                println!(rt; "built in: {name}")?;
            }
            Ok(())
        }
    }
}

/// Prints what the entry of a refusal of linking names. Where it is a class of the Java API, or a member of one, prints what
/// the program uses of the class and what is built in.
///
/// # Errors
/// It fails where nothing can be printed, and where there is no memory.
pub fn show_linked<R: Print + AllocGlobal>(
    rt: &R,
    names: &[String],
    files: &[Vec<u8>],
    file: &ClassFile,
    place: u16,
) -> io::Result<()>
    requires { (bytes : List ℕ) × IsFile bytes file.now }
{
    print!(rt; "it names:")?;
    show_entry(rt, file, place)?;
    println!(rt; "")?;
    match owner_name(rt.alloc(), file, place)? {
        Some(owner) if is_of_java(owner.as_str()) => {
            show_uses(rt, names, files, owner.as_str())?;
            show_built_in(rt, owner.as_str())
        }
        _ => Ok(()),
    }
}

/// Whether a class is one of the Java API, by its name.
fn is_of_java(name: &str) -> bool {
    name.as_bytes().starts_with(b"java/") || builtin(name).is_some()
}
