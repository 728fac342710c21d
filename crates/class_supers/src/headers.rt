//! What classes name as their superclasses and interfaces, by numbers.

ghost use Rattle.std.specs.Prelude.{◌≡◌, ℕ, List, [], IfOk, map, slice_get};
ghost use Rattle.std.specs.Option.{option_map_or};
ghost use Rattle.class_pool.specs.Lookup.{class_name_of};
ghost use Rattle.builtin_world.specs.BuiltinClass.{shown_class, rows};
ghost use Rattle.link_rules.specs.Classes.{class_name_at, class_of_unit, classes_of, class_number};
ghost use Rattle.class_supers.specs.Numbers.{number_named, AreNumbersOf};
ghost use Rattle.class_supers.specs.Headers.{text_number, header_by, header_of_row};

use crate::numbers::ClassNumbers;
use builtin_world::{BuiltinClass, builtins};
use class_pool::class_name_at;
use class_read::ClassFile;
use class_walk::Constant;
use code_decode::ClassUnit;
use rows::Rows;
use std::alloc::{AllocError, Global};

/// The flags of a class, and what it names by class numbers; 0 is the number of what isn't there.
#[derive(Drop)]
pub struct ClassHeader {
    /// The access flags (JVMS 4.1).
    pub flags: u16,
    /// The superclass.
    pub superclass: u32,
    /// The interfaces in the order in which they are named.
    pub interfaces: Rows<u32>,
}

fn text_number(numbers: &ClassNumbers<'_>, constant: &Constant) -> u32
    ensures { result ≡ text_number (number_named numbers.now) constant.now }
{
    match constant {
        Constant::Utf8(text) => numbers.number(text.as_slice()),
        _ => numbers.number(b""),
    }
}

/// For each entry of a pool the number of the class of its text. One search for each text.
fn text_numbers(
    alloc: Global,
    numbers: &ClassNumbers<'_>,
    pool: &[Constant],
) -> Result<Vec<u32>, AllocError>
    ensures { IfOk result (λ texts. texts.items ≡ map (text_number (number_named numbers.now)) pool.now) }
{
    let mut texts = Vec::new(alloc);
    for constant in pool {
        texts.push(text_number(numbers, constant))?;
    }
    Ok(texts)
}

/// The number of the class that a Class entry names. Takes the same time for any name.
fn class_number_at(pool: &[Constant], texts: &[u32], unnamed: u32, index: u16) -> u32
    ensures { (f : List ℕ → ℕ) → texts.now ≡ map (text_number f) pool.now → unnamed ≡ f [] → result ≡ f (class_name_at pool.now index) }
{
    match pool.get(usize::from(index)) {
        Some(Constant::Class(name)) => texts.get(usize::from(*name)).copied().unwrap_or(unnamed),
        _ => unnamed,
    }
}

/// The numbers of the classes that Class entries name.
fn class_numbers_at(
    alloc: Global,
    numbers: &ClassNumbers<'_>,
    pool: &[Constant],
    texts: &[u32],
    indices: &[u16],
) -> Result<Vec<u32>, AllocError>
    requires { texts.now ≡ map (text_number (number_named numbers.now)) pool.now }
    ensures { IfOk result (λ named. named.items ≡ map (λ at. number_named numbers.now (class_name_at pool.now at)) indices.now) }
{
    let unnamed = numbers.number(b"");
    let mut named = Vec::new(alloc);
    for index in indices {
        named.push(class_number_at(pool, texts, unnamed, *index))?;
    }
    Ok(named)
}

/// The numbers of the interfaces of a file.
fn interface_numbers(
    alloc: Global,
    numbers: &ClassNumbers<'_>,
    file: &ClassFile,
) -> Result<Vec<u32>, AllocError>
    ensures { IfOk result (λ named. named.items ≡ map (λ at. number_named numbers.now (class_name_at file.now.pool at)) file.now.interfaces) }
{
    let pool = file.pool.as_slice();
    let texts = text_numbers(alloc, numbers, pool)?;
    let named = class_numbers_at(alloc, numbers, pool, &texts, file.interfaces.as_slice())?;
    Ok(named)
}

/// The number of the superclass of a file.
fn superclass_number(numbers: &ClassNumbers<'_>, file: &ClassFile) -> u32
    ensures { result ≡ option_map_or (number_named numbers.now) (class_name_of file.now.pool (slice_get file.now.pool file.now.super_class)) 0 }
{
    match class_name_at(file.pool.as_slice(), file.super_class) {
        Some(name) => numbers.number(name),
        None => 0,
    }
}

fn file_header(
    alloc: Global,
    numbers: &ClassNumbers<'_>,
    unit: &ClassUnit,
) -> Result<ClassHeader, AllocError>
    ensures { IfOk result (λ header. header ≡ header_by (number_named numbers.now) (class_of_unit unit.now)) }
{
    let interfaces = interface_numbers(alloc, numbers, &unit.file)?;
    Ok(ClassHeader {
        flags: unit.file.flags,
        superclass: superclass_number(numbers, &unit.file),
        interfaces: Rows::from_vec(interfaces),
    })
}

fn builtin_header(alloc: Global, class: &BuiltinClass) -> Result<ClassHeader, AllocError>
    ensures { IfOk result (λ header. header ≡ header_of_row (shown_class class.now)) }
{
    Ok(ClassHeader {
        flags: class.flags,
        superclass: class.super_number,
        interfaces: Rows::from_vec(Vec::from_slice(alloc, class.interfaces)?),
    })
}

fn builtin_headers(alloc: Global) -> Result<Vec<ClassHeader>, AllocError>
    ensures { IfOk result (λ headers. headers.items ≡ map header_of_row rows) }
{
    let mut headers = Vec::new(alloc);
    for class in builtins() {
        headers.push(builtin_header(alloc, class)?)?;
    }
    Ok(headers)
}

/// The headers of all classes, by number from 1.
pub fn class_headers(
    alloc: Global,
    numbers: &ClassNumbers<'_>,
    units: &[ClassUnit],
) -> Result<Vec<ClassHeader>, AllocError>
    requires { AreNumbersOf (number_named numbers.now) (classes_of units.now) }
    ensures { IfOk result (λ headers. headers.items ≡ map (header_by (class_number (classes_of units.now))) (classes_of units.now)) }
{
    let mut headers = builtin_headers(alloc)?;
    for unit in units {
        headers.push(file_header(alloc, numbers, unit)?)?;
    }
    Ok(headers)
}
