//! What the tests of the machine begin with.

ghost use Rattle.std.specs.Prelude.{◌≡◌, IfOk, Ok};

use fixed_objects::{FixedObject, Opening};
use op_core::{NoMemory, Op, Rows, Script, ScriptStep};
use ordinary_machine::Ordinary;
use std::alloc::{AllocError, Global};
use std::test::Fail;

/// What is answered where there is memory.
pub fn ample<T: Drop>(answer: Result<T, NoMemory>) -> Result<T, Fail>
    ensures { IfOk result (λ value. answer ≡ Ok value) }
{
    match answer {
        Ok(value) => Ok(value),
        Err(NoMemory) => Err(Fail::from("there is memory")),
    }
}

/// An opening with objects of class 7 with two words each, and the object of main's thread at 1.
pub fn opening(
    alloc: Global,
    references: &[u32],
    ready: &[u32],
    first: u32,
) -> Result<Opening, AllocError> {
    let mut objects = Vec::new(alloc);
    objects.push(FixedObject::main_thread(alloc, 1, 7)?)?;
    for reference in references {
        let words = Rows::from_vec(vec![in alloc; 0; 2]?);
        objects.push(FixedObject {
            reference: *reference,
            class: 7,
            length: 0,
            words,
            started: 0,
        })?;
    }
    let ready = Rows::from_vec(Vec::from_slice(alloc, ready)?);
    Ok(Opening {
        objects: Rows::from_vec(objects),
        ready,
        classes: 8,
        first,
        main_thread: 1,
    })
}

/// A machine whose first thread makes the steps of a script.
pub fn machine<'a>(
    alloc: Global,
    opening: &Opening,
    steps: &'a [ScriptStep],
) -> Result<Ordinary<Script<'a>>, Fail> {
    if !opening.lies_below_first() {
        return Err(Fail::from("the first reference is no free one"));
    }
    ample(Ordinary::start(alloc, opening, Script::new(alloc, steps)))
}

/// Thread 1 starts thread 2 at step 7 and waits; thread 2 notifies it and prints.
pub const HAND_OVER: [ScriptStep; 12] = [
    ScriptStep::Operation(Op::Start(7, 5)),
    ScriptStep::Operation(Op::Enter(9)),
    ScriptStep::Operation(Op::Wait(9)),
    ScriptStep::Operation(Op::Rewake(9)),
    ScriptStep::Operation(Op::Exit(9)),
    ScriptStep::Operation(Op::Join(7)),
    ScriptStep::Operation(Op::End(None)),
    ScriptStep::Operation(Op::Enter(9)),
    ScriptStep::Operation(Op::Notify(9)),
    ScriptStep::Pass,
    ScriptStep::Operation(Op::Exit(9)),
    ScriptStep::Operation(Op::End(Some(3))),
];
