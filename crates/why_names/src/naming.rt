//! Printing what an entry of the constant pool names, and what an instruction is.

ghost use Rattle.std.specs.Prelude.{List, ℕ};
ghost use Rattle.class_read.specs.ClassFile.{IsFile};

use crate::no_memory;
use class_read::{ClassFile, Constant, Member, NameRefusal, text_of};
use instructions::row;
use std::io;

/// Prints the text of a Utf8 entry, quoted and with escapes, and `?` where the index has no such text.
pub(crate) fn show_text<R: Print + AllocGlobal>(
    rt: &R,
    file: &ClassFile,
    index: u16,
) -> io::Result<()>
    requires { (bytes : List ℕ) × IsFile bytes file.now }
{
    match text_of(rt.alloc(), file, index) {
        Ok(text) => {
            let text = text.as_str();
            print!(rt; " {text:?}")
        }
        Err(NameRefusal::Bad) => print!(rt; " ?"),
        Err(NameRefusal::NoMemory) => Err(no_memory()),
    }
}

/// The index of the name of a Class entry.
pub(crate) fn class_name_index(file: &ClassFile, index: u16) -> Option<u16> {
    match file.pool.get(usize::from(index)) {
        Some(Constant::Class(name)) => Some(*name),
        _ => None,
    }
}

/// Prints the name of a Class entry, quoted, and `?` where the index has none.
///
/// # Errors
/// It fails where nothing can be printed, and where there is no memory.
pub(crate) fn show_class<R: Print + AllocGlobal>(
    rt: &R,
    file: &ClassFile,
    index: u16,
) -> io::Result<()>
    requires { (bytes : List ℕ) × IsFile bytes file.now }
{
    match class_name_index(file, index) {
        Some(name) => show_text(rt, file, name),
        None => print!(rt; " ?"),
    }
}

/// Prints the name and the descriptor of a NameAndType entry.
pub(crate) fn show_pair<R: Print + AllocGlobal>(
    rt: &R,
    file: &ClassFile,
    index: u16,
) -> io::Result<()>
    requires { (bytes : List ℕ) × IsFile bytes file.now }
{
    match file.pool.get(usize::from(index)) {
        Some(Constant::Pair(name, descriptor)) => {
            show_text(rt, file, *name)?;
            show_text(rt, file, *descriptor)
        }
        _ => print!(rt; " ?"),
    }
}

fn show_member<R: Print + AllocGlobal>(
    rt: &R,
    file: &ClassFile,
    class: u16,
    pair: u16,
) -> io::Result<()>
    requires { (bytes : List ℕ) × IsFile bytes file.now }
{
    print!(rt; " of class")?;
    show_class(rt, file, class)?;
    show_pair(rt, file, pair)
}

/// Prints what an entry names: a class, or a member with its class, its name and its descriptor. Of any other entry it prints
/// the index.
///
/// # Errors
/// It fails where nothing can be printed, and where there is no memory.
pub(crate) fn show_entry<R: Print + AllocGlobal>(
    rt: &R,
    file: &ClassFile,
    index: u16,
) -> io::Result<()>
    requires { (bytes : List ℕ) × IsFile bytes file.now }
{
    match file.pool.get(usize::from(index)) {
        Some(Constant::Class(name)) => {
            print!(rt; " class")?;
            show_text(rt, file, *name)
        }
        Some(Constant::Field(class, pair)) => {
            print!(rt; " field")?;
            show_member(rt, file, *class, *pair)
        }
        Some(Constant::Method(class, pair) | Constant::IfaceMethod(class, pair)) => {
            print!(rt; " method")?;
            show_member(rt, file, *class, *pair)
        }
        Some(Constant::Dynamic(_, pair)) => {
            print!(rt; " call site")?;
            show_pair(rt, file, *pair)
        }
        Some(Constant::Utf8(_)) => show_text(rt, file, index),
        _ => print!(rt; " entry {index} of the constant pool"),
    }
}

/// The name of the instruction of a number; of one that isn't executed, what it is for.
fn mnemonic(number: u8) -> &'static str {
    match row(number) {
        Some(row) => row.mnemonic,
        None => match number {
            168 | 169 | 201 => "jsr or ret, of compilers before Java 6",
            186 => "invokedynamic, of a lambda, a method reference or a joined text",
            197 => "multianewarray, of several dimensions at once",
            203..=u8::MAX => "no instruction",
            _ => "an instruction of float or double, or none",
        },
    }
}

/// The index of the constant pool that the instruction at a place of a code has, if it has one.
fn operand_at(bytes: &[u8], at: usize) -> Option<u16> {
    let number = *bytes.get(at)?;
    let first = *bytes.get(at.checked_add(1)?)?;
    match number {
        18 => Some(u16::from(first)),
        19 | 20 | 178..=187 | 189 | 192 | 193 | 197 => {
            let second = *bytes.get(at.checked_add(2)?)?;
            Some((u16::from(first) << 8) | u16::from(second))
        }
        _ => None,
    }
}

/// Prints the instruction at an offset of a method's code, and what it names. It prints nothing where the method has no code there.
///
/// # Errors
/// It fails where nothing can be printed, and where there is no memory.
pub fn show_instruction<R: Print + AllocGlobal>(
    rt: &R,
    file: &ClassFile,
    method: &Member,
    at: u32,
) -> io::Result<()>
    requires { (bytes : List ℕ) × IsFile bytes file.now }
{
    let bytes = match &method.code {
        Some(code) => code.bytes.as_slice(),
        None => return Ok(()),
    };
    let Some(number) = bytes.get(at as usize) else {
        return Ok(());
    };
    let name = mnemonic(*number);
    println!(rt; "instruction: at {at}, number {number}: {name}")?;
    match operand_at(bytes, at as usize) {
        Some(index) => {
            print!(rt; "it names:")?;
            show_entry(rt, file, index)?;
            println!(rt; "")
        }
        None => Ok(()),
    }
}

/// Prints the name and the descriptor of a method.
///
/// # Errors
/// It fails where nothing can be printed, and where there is no memory.
pub fn show_method<R: Print + AllocGlobal>(
    rt: &R,
    file: &ClassFile,
    method: &Member,
) -> io::Result<()>
    requires { (bytes : List ℕ) × IsFile bytes file.now }
{
    print!(rt; "method:")?;
    show_text(rt, file, method.name)?;
    show_text(rt, file, method.descriptor)?;
    println!(rt; "")
}

/// Prints the class of a file, with its version.
///
/// # Errors
/// It fails where nothing can be printed, and where there is no memory.
pub fn show_file_class<R: Print + AllocGlobal>(rt: &R, file: &ClassFile) -> io::Result<()>
    requires { (bytes : List ℕ) × IsFile bytes file.now }
{
    print!(rt; "class:")?;
    show_class(rt, file, file.this_class)?;
    let major = file.major;
    println!(rt; ", version {major}")
}
