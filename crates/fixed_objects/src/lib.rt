//! What is there as a program begins: its fixed objects, the classes that need no initialization, and the
//! first thread. `specs/Opening.antt` says which ordinary state of `op_core` that makes.
#![tactic(auto)]

ghost use Rattle.std.specs.Prelude.{◌≡◌, ◌<◌, ◌↔◌, IfOk, IsTrue};
ghost use Rattle.std.specs.List.{All};
ghost use Rattle.fixed_objects.specs.Fixed.{main_thread_at};
ghost use Rattle.fixed_objects.specs.Opening.{LiesBelow, LiesBelowFirst};

pub mod laws;

use op_core::Rows;
use std::alloc::{AllocError, Global};

/// An object that is there from the start, as a class object or a string literal is.
#[derive(Drop)]
pub struct FixedObject {
    /// Its reference, from 1.
    pub reference: u32,
    /// The number of its class.
    pub class: u32,
    /// The length, 0 for an object that is no array.
    pub length: u32,
    /// The first value of each of its words.
    pub words: Rows<u32>,
    /// The number of the thread that it has started, or 0 where it has started none.
    pub started: u8,
}

impl FixedObject {
    /// The object of the thread that executes `main`: its priority is 5 (`Thread.NORM_PRIORITY`), it has started
    /// thread 1, and it has no target.
    pub fn main_thread(alloc: Global, reference: u32, class: u32) -> Result<Self, AllocError>
        ensures { IfOk result (λ object. object ≡ main_thread_at reference class) }
    {
        let words = Vec::from_slice(alloc, &[5, 0, 0])?;
        Ok(FixedObject {
            reference,
            class,
            length: 0,
            words: Rows::from_vec(words),
            started: 1,
        })
    }
}

/// What is there as a program begins.
#[derive(Drop)]
pub struct Opening {
    /// The fixed objects. Where two have one reference, the last of them counts.
    pub objects: Rows<FixedObject>,
    /// The numbers of the classes that need no initialization.
    pub ready: Rows<u32>,
    /// How many classes the program has. They have the numbers from 1 to it.
    pub classes: u32,
    /// The first reference that a new object can have.
    pub first: u32,
    /// The reference of the object of the thread that executes `main`: the one fixed object that has started a
    /// thread, number 1 (`StartsMain`).
    pub main_thread: u32,
}

impl Opening {
    /// Whether the first free reference is above 0 and above the references of the fixed objects, which are
    /// above 0 too.
    pub fn lies_below_first(&self) -> bool
        ensures { IsTrue result ↔ LiesBelowFirst self.now }
    {
        self.first > 0 && are_below(self.objects.as_slice(), self.first)
    }
}

fn are_below(objects: &[FixedObject], first: u32) -> bool
    ensures { IsTrue result ↔ All (LiesBelow first) objects.now }
{
    objects
        .iter()
        .all(|object| 0 < object.reference && object.reference < first)
}
