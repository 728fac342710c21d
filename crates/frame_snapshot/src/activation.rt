//! Where a frame lies.

use crate::stage::FrameStage;
use link_types::MethodId;

/// A frame: what it executes, and where its words lie. Its locals are those from `base` on, its operand stack those from
/// `floor` on, up to `top`; the stack may grow up to `limit`.
#[derive(Clone, Copy)]
pub struct Activation {
    pub method: MethodId,
    pub step: usize,
    pub stage: FrameStage,
    pub monitor: u32,
    pub base: usize,
    pub floor: usize,
    pub top: usize,
    pub limit: usize,
}

/// A copy of the top frame: its words begin at the place `from` of the kept words, and `depth` frames lay below it.
#[derive(Clone, Copy)]
pub struct Save {
    pub here: Activation,
    pub from: usize,
    pub depth: usize,
}
