//! A gate that the host threads of a parallel run pass between two epochs.

/// A place where the host threads of a parallel run pass between two epochs, for tests of their order.
pub trait Gate {
    /// A worker is about to begin an epoch.
    fn pass(&self, worker: u32, epoch: u64);
}

/// A gate that does nothing.
#[derive(Clone, Copy)]
pub struct NoGate;

impl Gate for NoGate {
    fn pass(&self, _worker: u32, _epoch: u64) {}
}
