//! A program of two threads, and the machine before its first step.

use fixed_objects::{FixedObject, Opening};
use op_core::{Line, Op, Rows};
use ordinary_machine::Ordinary;
use std::alloc::{AllocError, Global};
use std::test::Fail;
use toy_code::{Toy, ToyScript, ToyStep};

/// Main starts the thread of object 7, waits on object 9, joins that thread and prints 7. The other thread notifies object
/// 9, and makes a silent step before it leaves the monitor. Both then end.
static SCRIPTS: [ToyScript<'static>; 2] = [
    ToyScript {
        object: 1,
        steps: &[
            ToyStep::Do(Op::Start(7, 5)),
            ToyStep::Do(Op::Enter(9)),
            ToyStep::WaitOn(9),
            ToyStep::Do(Op::Exit(9)),
            ToyStep::Do(Op::Join(7)),
            ToyStep::Do(Op::Print(Line::Int(7))),
        ],
    },
    ToyScript {
        object: 7,
        steps: &[
            ToyStep::Do(Op::Enter(9)),
            ToyStep::Do(Op::Notify(9)),
            ToyStep::Pass,
            ToyStep::Do(Op::Exit(9)),
        ],
    },
];

fn opening(alloc: Global) -> Result<Opening, AllocError> {
    let mut objects = Vec::new(alloc);
    objects.push(FixedObject::main_thread(alloc, 1, 7)?)?;
    for reference in [7, 9] {
        objects.push(FixedObject {
            reference,
            class: 7,
            length: 0,
            words: Rows::new(alloc),
            started: 0,
        })?;
    }
    Ok(Opening {
        objects: Rows::from_vec(objects),
        ready: Rows::new(alloc),
        classes: 7,
        first: 10,
        main_thread: 1,
    })
}

/// The machine of the program before its first step.
pub fn machine(alloc: Global) -> Result<Ordinary<Toy<'static>>, Fail> {
    let opening = opening(alloc)?;
    if !opening.lies_below_first() {
        return Err(Fail::from("the first reference is no free one"));
    }
    match Ordinary::start(alloc, &opening, Toy::new(alloc, &SCRIPTS, 1)) {
        Ok(machine) => Ok(machine),
        Err(_) => Err(Fail::from("there is memory")),
    }
}
