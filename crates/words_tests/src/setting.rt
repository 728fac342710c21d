//! What the tests of words begin with.

ghost use Rattle.std.specs.Prelude.{◌≡◌, IfOk, Ok};

use fixed_objects::{FixedObject, Opening};
use op_core::{Limits, NoMemory, Rows};
use plain_words::{PlainWords, has_place};
use std::alloc::{AllocError, Global};
use std::test::Fail;

/// What is answered where there is memory.
pub fn ample<T: Drop>(answer: Result<T, NoMemory>) -> Result<T, Fail>
    ensures { IfOk result (λ value. answer ≡ Ok value) }
{
    match answer {
        Ok(value) => Ok(value),
        Err(NoMemory) => Err(Fail::from("there is memory")),
    }
}

pub const LIMITS: Limits = Limits {
    turns: 1000,
    heap: 10,
    sections: 3,
};

/// The object of main's thread at 1, a lock without words at 6, an object with the words 1 and 2 at 8, and at 12 the
/// object of a thread that isn't started. The first free place is 17. Of the 30 classes 1 and 7 are ready.
fn opening(alloc: Global) -> Result<Opening, AllocError> {
    let mut objects = Vec::new(alloc);
    objects.push(FixedObject::main_thread(alloc, 1, 7)?)?;
    for (reference, class, words) in [
        (6, 1, &[][..]),
        (8, 30, &[1, 2][..]),
        (12, 7, &[5, 0, 0][..]),
    ] {
        let words = Rows::from_vec(Vec::from_slice(alloc, words)?);
        objects.push(FixedObject {
            reference,
            class,
            length: 0,
            words,
            started: 0,
        })?;
    }
    let ready = Rows::from_vec(Vec::from_slice(alloc, &[1, 7])?);
    Ok(Opening {
        objects: Rows::from_vec(objects),
        ready,
        classes: 30,
        first: 17,
        main_thread: 1,
    })
}

/// The words with which a run begins from there.
pub fn opened(alloc: Global) -> Result<PlainWords, Fail> {
    let opening = opening(alloc)?;
    if !has_place(&opening, &LIMITS) {
        return Err(Fail::from("the fixed objects have a place"));
    }
    ample(PlainWords::open(alloc, &opening, &LIMITS))
}
