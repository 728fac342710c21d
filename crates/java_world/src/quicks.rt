//! The quick forms of the instructions of a program.

ghost use Rattle.std.specs.Prelude.{◌≡◌, IfOk, map};
ghost use Rattle.java_world.specs.Quicks.{quicks_of_code, quicks_of_unit, quicks_in, quicks_of_id};

use builtin_world::number::COUNT;
use code_decode::{ClassUnit, Code};
use interp_local::{Quick, make_quicks};
use link_types::MethodId;
use rows::Rows;
use std::alloc::{AllocError, Global};

fn method_quicks(alloc: Global, code: &Option<Code>) -> Result<Rows<Quick>, AllocError>
    ensures { IfOk result (λ quicks. quicks ≡ quicks_of_code code.now) }
{
    match code {
        Some(code) => {
            let quicks = make_quicks(alloc, code.steps.as_slice())?;
            Ok(Rows::from_vec(quicks))
        }
        None => Ok(Rows::new(alloc)),
    }
}

fn unit_quicks(alloc: Global, unit: &ClassUnit) -> Result<Rows<Rows<Quick>>, AllocError>
    ensures { IfOk result (λ quicks. quicks ≡ quicks_of_unit unit.now) }
{
    let mut quicks = Vec::with_capacity(alloc, unit.codes.len())?;
    for code in unit.codes.as_slice() {
        quicks.push(method_quicks(alloc, code)?)?;
    }
    Ok(Rows::from_vec(quicks))
}

/// The quick forms of the instructions of all methods, by the file of the class and the place of the method there. It
/// fails only when memory runs out.
pub fn make_program_quicks(
    alloc: Global,
    units: &[ClassUnit],
) -> Result<Vec<Rows<Rows<Quick>>>, AllocError>
    ensures { IfOk result (λ quicks. quicks.items ≡ map quicks_of_unit units.now) }
{
    let mut quicks = Vec::with_capacity(alloc, units.len())?;
    for unit in units {
        quicks.push(unit_quicks(alloc, unit)?)?;
    }
    Ok(quicks)
}

// Those of the method at a place of a file.
fn quicks_of_place(methods: &[Rows<Quick>], place: u16) -> &[Quick]
    ensures { result.now ≡ quicks_in methods.now place }
{
    match methods.get(usize::from(place)) {
        Some(quicks) => quicks.as_slice(),
        None => &[],
    }
}

/// Those of a method, none where it has no code.
pub fn quicks_of_method(files: &[Rows<Rows<Quick>>], method: MethodId) -> &[Quick]
    ensures { result.now ≡ quicks_of_id files.now method }
{
    let Some(file) = method.class.checked_sub(COUNT + 1) else {
        return &[];
    };
    match files.get(file as usize) {
        Some(methods) => quicks_of_place(methods.as_slice(), method.method),
        None => &[],
    }
}
