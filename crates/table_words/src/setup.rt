//! What a table is told as it is made, and the parts of a run that its seats have.

use core_runs::{Birth, StepMade};
use fixed_objects::Opening;
use op_core::Limits;
use std::collections::LinkedList;
use std::snapshot::Snapshot;

/// A program as it begins, its limits, and the code of its first thread. No value of it is made: only contracts speak of it.
pub struct Setup<C> {
    /// The program as it begins.
    pub opening: Opening,
    /// Its limits.
    pub limits: Limits,
    /// The code of its first thread.
    pub code: C,
}

/// What a thread has done of a run. No value of it is made: only contracts speak of it.
pub struct ThreadPart<C> {
    /// The program of the run.
    pub setup: Setup<C>,
    /// How the thread began.
    pub birth: Birth,
    /// Its steps and their answers, the newest first.
    pub steps: LinkedList<StepMade>,
}

/// What a seat knows: its parts. The first of them is the one that grows.
pub type SeatView<C> = LinkedList<ThreadPart<C>>;

/// What a table is told once, as it is made. Its snapshots take no memory.
#[derive(Drop)]
pub struct TableKey<C> {
    /// The program as it begins.
    pub opening: Snapshot<Opening>,
    /// Its limits.
    pub limits: Limits,
    /// The code of its first thread.
    pub code: Snapshot<C>,
}
