//! Where a thread is.

use frame_snapshot::Frames;

/// Where a thread is: its program, its own object, and its frames.
#[derive(Clone, Copy)]
pub struct Here<'a, P> {
    pub program: &'a P,
    pub thread: u32,
    pub frames: &'a Frames,
}
