//! Printing codes: each place as its offset, and after a `/` the number of the instruction there.

use code_decode::{Code, Handler, LocalsChange, MapFrame, Target, VType, What};
use std::io;

fn show_target<R: Print>(rt: &R, target: Target) -> io::Result<()> {
    let (at, step) = (target.at, target.step);
    print!(rt; " >{at}/{step}")
}

/// Prints the targets of an instruction, that of a switch's default first.
fn show_targets<R: Print>(rt: &R, what: &What<Target>) -> io::Result<()> {
    match what {
        What::Branch(_, target) => show_target(rt, *target),
        What::TableSwitch {
            default,
            low,
            targets,
        } => {
            show_target(rt, *default)?;
            print!(rt; " {low}..")?;
            for target in targets.as_slice() {
                show_target(rt, *target)?;
            }
            Ok(())
        }
        What::LookupSwitch { default, cases } => {
            show_target(rt, *default)?;
            for case in cases.as_slice() {
                let key = case.key;
                print!(rt; " {key}:")?;
                show_target(rt, case.target)?;
            }
            Ok(())
        }
        _ => Ok(()),
    }
}

fn show_handler<R: Print>(rt: &R, handler: &Handler) -> io::Result<()> {
    let (from, to, at, kind) = (handler.from, handler.to, handler.at, handler.kind);
    let (first, end, entry) = (handler.first, handler.end, handler.entry);
    println!(rt; "  handler from {from}/{first} to {to}/{end} at {at}/{entry} of #{kind}")
}

fn show_type<R: Print>(rt: &R, item: VType) -> io::Result<()> {
    match item {
        VType::Top => print!(rt; " top"),
        VType::Int => print!(rt; " int"),
        VType::Float => print!(rt; " float"),
        VType::Double => print!(rt; " double"),
        VType::Long => print!(rt; " long"),
        VType::Null => print!(rt; " null"),
        VType::UninitThis => print!(rt; " this"),
        VType::Object(index) => print!(rt; " #{index}"),
        VType::Uninit(at) => print!(rt; " new:{at}"),
        VType::Entry(local) => print!(rt; " entry:{local}"),
    }
}

fn show_types<R: Print>(rt: &R, change: &str, types: &[VType]) -> io::Result<()> {
    print!(rt; " {change}")?;
    for item in types {
        show_type(rt, *item)?;
    }
    Ok(())
}

/// Prints a frame, whose number is found by its instruction.
fn show_frame<R: Print>(rt: &R, number: Option<u32>, frame: &MapFrame) -> io::Result<()> {
    let (at, step) = (frame.at, frame.step);
    match number {
        Some(number) => print!(rt; "  frame {number} at {at}/{step}")?,
        None => print!(rt; "  frame that isn't found at {at}/{step}")?,
    }
    match &frame.locals {
        LocalsChange::Same => print!(rt; " same")?,
        LocalsChange::Chop(count) => print!(rt; " chop {count}")?,
        LocalsChange::Append(added) => show_types(rt, "append", added.as_slice())?,
        LocalsChange::Full(locals) => show_types(rt, "full", locals.as_slice())?,
    }
    show_types(rt, "stack", frame.stack.as_slice())?;
    println!(rt; "")
}

/// Prints the offsets of the instructions, each with its targets after it, the handlers and the frames.
pub(crate) fn show_code<R: Print>(rt: &R, code: &Code) -> io::Result<()> {
    let (stack, locals) = (code.max_stack, code.max_locals);
    println!(rt; ": stack {stack}, locals {locals}")?;
    print!(rt; " ")?;
    for step in code.steps.as_slice() {
        let at = step.at;
        print!(rt; " {at}")?;
        show_targets(rt, &step.what)?;
    }
    println!(rt; "")?;
    for handler in code.handlers.as_slice() {
        show_handler(rt, handler)?;
    }
    for frame in code.frames.as_slice() {
        show_frame(rt, code.frames.number_at(frame.step), frame)?;
    }
    Ok(())
}

/// Prints how many instructions, handlers and frames a code has.
pub(crate) fn show_counts<R: Print>(rt: &R, code: &Option<Code>) -> io::Result<()> {
    match code {
        Some(code) => {
            let (steps, handlers) = (code.steps.len(), code.handlers.len());
            let frames = code.frames.len();
            print!(rt; " {steps}/{handlers}/{frames}")
        }
        None => print!(rt; " none"),
    }
}
