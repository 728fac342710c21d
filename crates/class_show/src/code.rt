//! Printing the code of methods.

use class_read::ClassFile;
use code_decode::{
    ClassUnit, Code, Handler, Instr, LocalsChange, MapFrame, PrimitiveType, Target, VType, What,
};
use instructions::{Form, row};
use rows::Rows;
use std::io;

/// The number of the instruction wide (JVMS 6.5).
const WIDE: u8 = 196;

/// The name of an instruction, as JVMS 6.5 writes it. That of one that is widened ends in `_w`.
struct InstructionName {
    name: &'static str,
    suffix: &'static str,
    form: Option<Form>,
}

fn name_of(number: u8, suffix: &'static str) -> InstructionName {
    match row(number) {
        Some(row) => InstructionName {
            name: row.mnemonic,
            suffix,
            form: Some(row.form),
        },
        None => InstructionName {
            name: "unknown",
            suffix,
            form: None,
        },
    }
}

/// The name of the instruction at an offset of a code.
fn mnemonic(bytes: &[u8], at: u32) -> InstructionName {
    let at = at as usize;
    match (bytes.get(at), bytes.get(at + 1)) {
        (Some(&WIDE), Some(&number)) => name_of(number, "_w"),
        (Some(&number), _) => name_of(number, ""),
        (None, _) => name_of(WIDE, ""),
    }
}

fn element_word(element: PrimitiveType) -> &'static str {
    match element {
        PrimitiveType::Boolean => "boolean",
        PrimitiveType::Char => "char",
        PrimitiveType::Byte => "byte",
        PrimitiveType::Short => "short",
        PrimitiveType::Int => "int",
        PrimitiveType::Long => "long",
    }
}

/// Prints the operands after the name of an instruction, and ends the line.
fn show_operands<R: Print>(rt: &R, form: Option<Form>, what: &What<Target>) -> io::Result<()> {
    match what {
        What::Int(value) if matches!(form, Some(Form::ByteInt | Form::ShortInt)) => {
            println!(rt; " {value}")
        }
        What::Local(_, local) if matches!(form, Some(Form::Local(_))) => println!(rt; " {local}"),
        What::Increment { local, by } => println!(rt; " {local} {by}"),
        What::Constant(index)
        | What::LongConstant(index)
        | What::Field(_, index)
        | What::Call(_, index)
        | What::InterfaceCall(index)
        | What::Class(_, index) => println!(rt; " #{index}"),
        What::Branch(_, target) => {
            let at = target.at;
            println!(rt; " {at}")
        }
        What::NewArray(element) => {
            let word = element_word(*element);
            println!(rt; " {word}")
        }
        What::Plain(_)
        | What::Int(_)
        | What::Long(_)
        | What::Local(_, _)
        | What::TableSwitch { .. }
        | What::LookupSwitch { .. } => println!(rt; ""),
    }
}

/// Prints the targets of a switch, a line for each.
fn show_targets<R: Print>(rt: &R, what: &What<Target>) -> io::Result<()> {
    match what {
        What::TableSwitch {
            default,
            low,
            targets,
        } => {
            for (key, target) in (i64::from(*low)..).zip(targets.as_slice().iter()) {
                let at = target.at;
                println!(rt; "          {key}: {at}")?;
            }
            let at = default.at;
            println!(rt; "          default: {at}")
        }
        What::LookupSwitch { default, cases } => {
            for case in cases.as_slice() {
                let (key, at) = (case.key, case.target.at);
                println!(rt; "          {key}: {at}")?;
            }
            let at = default.at;
            println!(rt; "          default: {at}")
        }
        _ => Ok(()),
    }
}

fn show_step<R: Print>(rt: &R, bytes: &[u8], step: &Instr<Target>) -> io::Result<()> {
    let InstructionName { name, suffix, form } = mnemonic(bytes, step.at);
    let at = step.at;
    print!(rt; "    {at}: {name}{suffix}")?;
    show_operands(rt, form, &step.what)?;
    show_targets(rt, &step.what)
}

fn show_handler<R: Print>(rt: &R, handler: &Handler) -> io::Result<()> {
    let (from, to, at, kind) = (handler.from, handler.to, handler.at, handler.kind);
    println!(rt; "    handler from {from} to {to} at {at} kind {kind}")
}

fn show_type<R: Print>(rt: &R, item: VType) -> io::Result<()> {
    match item {
        VType::Top => print!(rt; " top"),
        VType::Int => print!(rt; " int"),
        VType::Float => print!(rt; " float"),
        VType::Double => print!(rt; " double"),
        VType::Long => print!(rt; " long"),
        VType::Null => print!(rt; " null"),
        VType::UninitThis => print!(rt; " this"),
        VType::Object(index) => print!(rt; " #{index}"),
        VType::Uninit(at) => print!(rt; " new:{at}"),
        VType::Entry(local) => print!(rt; " entry:{local}"),
    }
}

fn show_types<R: Print>(rt: &R, items: &Rows<VType>) -> io::Result<()> {
    for item in items.as_slice() {
        show_type(rt, *item)?;
    }
    Ok(())
}

fn show_frame<R: Print>(rt: &R, frame: &MapFrame) -> io::Result<()> {
    let at = frame.at;
    print!(rt; "    frame at {at}")?;
    match &frame.locals {
        LocalsChange::Same => print!(rt; " same")?,
        LocalsChange::Chop(count) => print!(rt; " chop {count}")?,
        LocalsChange::Append(added) => {
            print!(rt; " append")?;
            show_types(rt, added)?;
        }
        LocalsChange::Full(locals) => {
            print!(rt; " full")?;
            show_types(rt, locals)?;
        }
    }
    print!(rt; " /")?;
    show_types(rt, &frame.stack)?;
    println!(rt; "")
}

fn show_code<R: Print>(rt: &R, bytes: &[u8], code: &Code) -> io::Result<()> {
    let (stack, locals) = (code.max_stack, code.max_locals);
    println!(rt; "    stack {stack}, locals {locals}")?;
    for step in code.steps.as_slice() {
        show_step(rt, bytes, step)?;
    }
    for handler in code.handlers.as_slice() {
        show_handler(rt, handler)?;
    }
    for frame in code.frames.as_slice() {
        show_frame(rt, frame)?;
    }
    Ok(())
}

/// The bytes of the code of a method, or none where it has no code.
fn code_bytes(file: &ClassFile, method: usize) -> &[u8] {
    match file.methods.get(method) {
        Some(member) => match &member.code {
            Some(code) => code.bytes.as_slice(),
            None => &[],
        },
        None => &[],
    }
}

/// Prints the code of each method that has one.
pub(crate) fn show_codes<R: Print>(rt: &R, unit: &ClassUnit) -> io::Result<()> {
    for (method, code) in unit.codes.as_slice().iter().enumerate() {
        match code {
            Some(code) => {
                println!(rt; "code of method {method}")?;
                show_code(rt, code_bytes(&unit.file, method), code)?;
            }
            None => {}
        }
    }
    Ok(())
}
