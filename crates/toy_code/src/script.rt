//! Toy scripts: their steps, and where a thread is in one.

use op_core::Op;

/// One step of a [`ToyScript`].
#[derive(Clone, Copy)]
pub enum ToyStep {
    /// A silent step that changes no frame.
    Pass,
    /// A silent step that makes a frame.
    Call,
    /// A silent step that ends the top frame.
    Return,
    /// Wants this operation. Whatever the reply is, the next step follows. For a wait there is
    /// [`ToyStep::WaitOn`], and a thread ends after its last step.
    Do(Op),
    /// Prints the word that was read last, 0 before the first, as a Java int.
    Show,
    /// Waits in the object's wait set until it is notified, and enters the monitor again (JLS 17.2.1).
    /// Where the thread doesn't own the monitor, the next step follows at once.
    WaitOn(u32),
}

/// What the thread does that an object starts.
#[derive(Clone, Copy)]
pub struct ToyScript<'a> {
    /// The object's reference.
    pub object: u32,
    /// The thread's steps, in order.
    pub steps: &'a [ToyStep],
}

/// Where a thread is in its script.
#[derive(Clone, Copy)]
pub struct ToyPlace {
    /// The number of the step that comes next, from 0.
    pub step: usize,
    /// How many frames the thread has.
    pub frames: u32,
    /// The word that was read last, 0 before the first.
    pub value: u32,
    /// Whether the first half of this step's wait was done.
    pub waits: bool,
}
