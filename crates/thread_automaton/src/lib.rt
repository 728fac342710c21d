//! What a thread does next on the words that threads share, and what it makes of each answer.
//!
//! A thread makes each operation of its code out of steps on shared words ([`Step`]). This crate has the definitions
//! by which it goes: from the state of a thread (`specs/ThreadState.antt`) its next move (`specs/NextMove.antt`), and
//! from a step and its answer the state after it (`specs/Answers.antt`) and what is reported to others
//! (`specs/Told.antt`). A section opens as a thread that has none open enters a monitor, and its next level opens with
//! each further monitor. Its levels are pinned before anything is done in them that can't be taken back, and those that
//! another thread has revoked are undone.
#![tactic(auto)]

pub mod laws;

use op_core::{Limit, Limits};
use step_port::Step;

/// How far a thread is with what it does next: a silent step, an operation, or undoing levels of its section.
#[derive(Clone, Copy)]
pub enum Attempt {
    /// Between two attempts: nothing of the next one is made.
    Begin,
    /// Between two attempts. The last one lost an exchange on the own section's word, so the next one begins with a look
    /// at that word, also where the thread has seen all its levels pinned.
    Look,
    /// The attempt goes on, and the thread has looked whether its own section was revoked.
    Checked,
    /// This step of the attempt comes next.
    Fixed(Step),
    /// The attempt goes on with a look at this section, which holds the wanted monitor since this level of it opened, or
    /// wrote the wanted word in it.
    Meets(u32, u8),
    /// The thread undoes its section to the level to which it is revoked. The section's word was this as it saw that.
    Undoing(u64),
    /// The thread met this limit, and goes on no more.
    Full(Limit),
}

/// A monitor that a thread holds.
#[derive(Clone, Copy)]
pub struct Held {
    /// The object whose monitor it is.
    pub object: u32,
    /// The innermost level of the section as the monitor was taken: the one that was opened with it.
    pub level: u8,
    /// How often it was entered and not left.
    pub depth: u16,
}

/// What a thread does next.
#[derive(Clone, Copy)]
pub enum Move {
    /// Nothing: it has ended.
    Over,
    /// A silent step of its code, which touches no shared word. A step that would make a 1,025th frame isn't made.
    Quiet,
    /// Nothing: it has met this limit.
    Stop(Limit),
    /// This step on the shared words.
    Make(Step),
}

/// What bounds the threads of a run, and isn't known to their code.
#[derive(Clone, Copy)]
pub struct Bounds {
    /// The limits of the run.
    pub limits: Limits,
    /// The first place of the objects that a new object can have.
    pub first: u32,
}
