//! What describes the handlers of a method.

use code_decode::Handler;
use code_frames::Frames;
use map_frames::MapFrames;

/// The handlers of a method, and the map frames at which they begin. Contracts say what they are to the rules
/// (`AreHandlersOf`).
#[derive(Clone, Copy)]
pub struct MethodHandlers<'a> {
    /// In the order in which they are tried.
    pub handlers: &'a [Handler],
    /// The table of the stack map frames.
    pub frames: &'a Frames,
    /// The map frames that are made of it.
    pub maps: &'a MapFrames,
}
