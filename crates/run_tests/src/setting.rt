//! What the tests begin with, and how an outcome is shown.

ghost use Rattle.std.specs.Prelude.{◌≡◌, IfOk, Ok};

use fixed_objects::{FixedObject, Opening};
use op_core::{How, Limit, Limits, Line, NoMemory, Outcome, Rows, ThreadCode};
use ordinary_machine::Ordinary;
use ordinary_runs::run_picks;
use schedules::{OrderItem, Schedule};
use std::alloc::{AllocError, Global};
use std::test::Fail;

pub const AMPLE: Limits = Limits {
    turns: 1000,
    heap: 1000,
    sections: 1000,
};

/// What is answered where there is memory.
fn ample<T: Drop>(answer: Result<T, NoMemory>) -> Result<T, Fail>
    ensures { IfOk result (λ value. answer ≡ Ok value) }
{
    match answer {
        Ok(value) => Ok(value),
        Err(NoMemory) => Err(Fail::from("there is memory")),
    }
}

/// An opening with the object of main's thread at 1, and objects of class 7 with two words each.
fn opening(alloc: Global, references: &[u32]) -> Result<Opening, AllocError> {
    let mut objects = Vec::new(alloc);
    objects.push(FixedObject::main_thread(alloc, 1, 7)?)?;
    for reference in references {
        objects.push(FixedObject {
            reference: *reference,
            class: 7,
            length: 0,
            words: Rows::from_vec(vec![in alloc; 0; 2]?),
            started: 0,
        })?;
    }
    Ok(Opening {
        objects: Rows::from_vec(objects),
        ready: Rows::new(alloc),
        classes: 8,
        first: 1000,
        main_thread: 1,
    })
}

/// The outcome of a run in which main begins with this code.
pub fn run<C: ThreadCode + Drop>(
    alloc: Global,
    objects: &[u32],
    main: C,
    order: &[OrderItem],
    seed: Option<u64>,
    limits: &Limits,
    events: bool,
) -> Result<Outcome, Fail> {
    let opening = opening(alloc, objects)?;
    if !opening.lies_below_first() {
        return Err(Fail::from("the first reference is no free one"));
    }
    let machine = ample(Ordinary::start(alloc, &opening, main))?;
    let schedule = Schedule {
        order: Rows::from_vec(Vec::from_slice(alloc, order)?),
        seed,
    };
    ample(run_picks(alloc, machine, &schedule, limits, events))
}

/// How a run ended as a word, and the thread that met the limit, or 0.
pub fn shown(how: How) -> (&'static str, u8) {
    match how {
        How::Done => ("done", 0),
        How::Died => ("died", 0),
        How::Stuck => ("stuck", 0),
        How::Limit(thread, Limit::Turns) => ("turns", thread),
        How::Limit(thread, Limit::Heap) => ("heap", thread),
        How::Limit(thread, Limit::Threads) => ("threads", thread),
        How::Limit(thread, Limit::Frames) => ("frames", thread),
        How::Limit(thread, Limit::Depth) => ("depth", thread),
        How::Limit(thread, _) => ("other", thread),
    }
}

/// Whether these numbers were printed.
pub fn printed(outcome: &Outcome, lines: &[i32]) -> bool {
    outcome.lines.len() == lines.len()
        && outcome.lines.iter().zip(lines).all(|(
            line,
            number,
        )| matches!(line, Line::Int(printed) if printed == number))
}

/// Whether these threads ended, each with the class of its exception.
pub fn ended(outcome: &Outcome, ends: &[(u8, Option<u32>)]) -> bool {
    outcome.ends.len() == ends.len()
        && outcome.ends.iter().zip(ends).all(|(end, (thread, class))| end.thread == *thread
            && end.class == *class)
}
