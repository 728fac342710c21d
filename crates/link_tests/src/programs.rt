//! Programs of class files without members.

use class_read::{ClassFile, Constant};
use code_decode::ClassUnit;
use rows::{Bytes, Rows};
use std::alloc::{AllocError, Global};

/// A class file: its access flags, its name, the superclass, and two interfaces at most, the others empty.
pub type File<'a> = (u16, &'a str, &'a str, [&'a str; 2]);

/// Adds a name, which gets an index of the pool, and its Class entry.
fn add_class(
    alloc: Global,
    pool: &mut Vec<Constant>,
    at: u16,
    name: &str,
) -> Result<(), AllocError> {
    pool.push(Constant::Utf8(Bytes::from_slice(alloc, name.as_bytes())?))?;
    pool.push(Constant::Class(at))?;
    Ok(())
}

/// The pool of a file: the Class entries of its name, its superclass and its interfaces are at 2, 4, 6 and 8.
fn pool(alloc: Global, file: File<'_>) -> Result<Vec<Constant>, AllocError> {
    let (_, name, superclass, named) = file;
    let mut pool = Vec::new(alloc);
    pool.push(Constant::Gap)?;
    add_class(alloc, &mut pool, 1, name)?;
    add_class(alloc, &mut pool, 3, superclass)?;
    add_class(alloc, &mut pool, 5, named[0])?;
    add_class(alloc, &mut pool, 7, named[1])?;
    Ok(pool)
}

fn interfaces(alloc: Global, file: File<'_>) -> Result<Vec<u16>, AllocError> {
    let (_, _, _, named) = file;
    let mut interfaces = Vec::new(alloc);
    if !named[0].is_empty() {
        interfaces.push(6)?;
    }
    if !named[1].is_empty() {
        interfaces.push(8)?;
    }
    Ok(interfaces)
}

/// The decoded file, which has no members.
pub fn unit(alloc: Global, file: File<'_>) -> Result<ClassUnit, AllocError> {
    let (flags, _, _, _) = file;
    let pool = pool(alloc, file)?;
    let interfaces = interfaces(alloc, file)?;
    Ok(ClassUnit {
        file: ClassFile {
            major: 52,
            flags,
            this_class: 2,
            super_class: 4,
            interfaces: Rows::from_vec(interfaces),
            pool: Rows::from_vec(pool),
            fields: Rows::new(alloc),
            methods: Rows::new(alloc),
        },
        codes: Rows::new(alloc),
    })
}

/// The decoded files of a program.
pub fn program(alloc: Global, files: &[File<'_>]) -> Result<Vec<ClassUnit>, AllocError> {
    let mut units = Vec::new(alloc);
    for file in files {
        units.push(unit(alloc, *file)?)?;
    }
    Ok(units)
}
