//! The rules of all instructions and handlers.

ghost use Rattle.std.specs.Prelude.{◌≡◌, ◌≤◌, ⊤, [], Some, length, map, slice_get};
ghost use Rattle.rules.specs.Rules.{each};
ghost use Rattle.link_rules.specs.Classes.{classes_of, class_number};
ghost use Rattle.link_rules.specs.LinkRules.{constant_rules, what_rules, caught_rules, code_use_rules, uses_rules};
ghost use Rattle.class_supers.specs.Answers.{Gives, KeepsExactly};
ghost use Rattle.use_rules.specs.Facts.{class_facts};

use crate::checks::{check_call, check_class, check_field, check_interface_call, check_there};
use crate::classes::{ClassFacts, class_facts};
use crate::file::FileNames;
use class_walk::Constant;
use code_decode::{ClassUnit, Code, Handler};
use instructions::{Instr, Target, What};
use link_types::LinkRefusal;
use member_lookup::MemberLookup;
use std::alloc::Global;

/// A class that ldc names is there.
fn check_constant(names: &FileNames<'_, '_>, index: u16) -> Result<(), LinkRefusal>
    ensures { KeepsExactly result (constant_rules names.now.classes names.now.place names.now.pool index (slice_get names.now.pool index)) }
{
    match names.pool().get(usize::from(index)) {
        Some(Constant::Class(_)) => check_there(names.place(), index, names.class(index)),
        _ => Ok(()),
    }
}

/// What an instruction names is there, and the instruction may do this with it.
fn check_what(names: &FileNames<'_, '_>, what: &What<Target>) -> Result<(), LinkRefusal>
    ensures { KeepsExactly result (what_rules names.now.classes names.now.place names.now.pool what.now) }
{
    let place = names.place();
    match what {
        What::Constant(index) => check_constant(names, *index),
        What::Class(purpose, index) => check_class(*purpose, place, *index, names.class(*index)),
        What::Field(access, index) => check_field(*access, place, *index, names.member(*index)),
        What::Call(call, index) => check_call(*call, place, *index, names.member(*index)),
        What::InterfaceCall(index) => check_interface_call(place, *index, names.member(*index)),
        _ => Ok(()),
    }
}

/// The class that a handler catches is there.
fn check_handler(names: &FileNames<'_, '_>, handler: &Handler) -> Result<(), LinkRefusal>
    ensures { KeepsExactly result (caught_rules names.now.classes names.now.place names.now.pool handler.now) }
{
    if handler.kind == 0 {
        return Ok(());
    }
    check_there(names.place(), handler.kind, names.class(handler.kind))
}

fn check_steps(names: &FileNames<'_, '_>, steps: &[Instr<Target>]) -> Result<(), LinkRefusal>
    ensures { KeepsExactly result (each (λ i s. what_rules names.now.classes names.now.place names.now.pool s.what) steps.now) }
{
    for step in steps {
        check_what(names, &step.what)?;
    }
    Ok(())
}

fn check_handlers(names: &FileNames<'_, '_>, handlers: &[Handler]) -> Result<(), LinkRefusal>
    ensures { KeepsExactly result (each (λ i h. caught_rules names.now.classes names.now.place names.now.pool h) handlers.now) }
{
    for handler in handlers {
        check_handler(names, handler)?;
    }
    Ok(())
}

fn check_code(names: &FileNames<'_, '_>, code: &Option<Code>) -> Result<(), LinkRefusal>
    ensures { KeepsExactly result (code_use_rules names.now.classes names.now.place names.now.pool code.now) }
{
    match code {
        Some(code) => {
            check_steps(names, code.steps.as_slice())?;
            check_handlers(names, code.handlers.as_slice())
        }
        None => Ok(()),
    }
}

fn check_codes(names: &FileNames<'_, '_>, codes: &[Option<Code>]) -> Result<(), LinkRefusal>
    ensures { KeepsExactly result (each (λ j code. code_use_rules names.now.classes names.now.place names.now.pool code) codes.now) }
{
    for code in codes {
        check_code(names, code)?;
    }
    Ok(())
}

/// What the code of the file at a place names.
fn check_file<'a>(
    alloc: Global,
    lookup: &'a MemberLookup<'_>,
    classes: &'a [ClassFacts],
    place: u32,
    unit: &'a ClassUnit,
) -> Result<(), LinkRefusal>
    requires place { place ≤ 1024 }
    requires unnamed { class_number (classes_of lookup.now.units) [] ≡ 0 }
    requires classes { classes.now ≡ map (class_facts (classes_of lookup.now.units)) lookup.now.texts }
    requires there { slice_get lookup.now.units place ≡ Some unit.now }
    ensures { Gives result (uses_rules (classes_of lookup.now.units) place unit.now) (λ done. ⊤) }
{
    let names = FileNames::new(alloc, lookup, classes, place, unit)?;
    check_codes(&names, unit.codes.as_slice())
}

/// The rules of what instructions and handlers name (JVMS 5.4.3, 5.4.4, 6.5): classes, fields and methods are there, and
/// of the kind that the instruction wants; those that are private are named by their own class alone. Each entry of a
/// pool is looked at once. The refusal is that of the first instruction or handler that breaks a rule.
///
/// # Errors
/// That refusal, or `NoMemory` where memory runs out.
pub fn check_uses(alloc: Global, lookup: &MemberLookup<'_>) -> Result<(), LinkRefusal>
    requires few { length lookup.now.units ≤ 1024 }
    requires unnamed { class_number (classes_of lookup.now.units) [] ≡ 0 }
    ensures { Gives result (each (uses_rules (classes_of lookup.now.units)) lookup.now.units) (λ done. ⊤) }
{
    let classes = class_facts(alloc, lookup)?;
    for (place, unit) in lookup.texts().units().iter().enumerate() {
        check_file(alloc, &*lookup, classes.as_slice(), place as u32, unit)?;
    }
    Ok(())
}
