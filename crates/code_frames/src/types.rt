//! Frames and the types in them.

ghost use Rattle.std.specs.Prelude.{◌≡◌, ◌<◌, ◌^◌};
ghost use Rattle.code_frames.specs.Locals.{count_after};

use rows::Rows;

/// A verification type (JVMS 4.7.4).
#[derive(Clone, Copy)]
pub enum VType {
    Top,
    Int,
    Float,
    Double,
    Long,
    Null,
    /// The object that a constructor has yet to initialize.
    UninitThis,
    /// A reference to a class, by the index of its Class entry.
    Object(u16),
    /// What the `new` at an offset made, not yet initialized.
    Uninit(u32),
    /// The type that the method's entry frame has at a local: its receiver or a parameter, by the local's
    /// number. No map frame spells it.
    Entry(u16),
}

/// How the locals of a frame come from those of the frame before it (JVMS 4.7.4).
#[derive(Drop)]
pub enum LocalsChange {
    /// They are the same.
    Same,
    /// These come after them.
    Append(Rows<VType>),
    /// This many are removed at the end.
    Chop(u8),
    /// These take their place.
    Full(Rows<VType>),
}

impl LocalsChange {
    /// How many locals there are after the change, where there were `count` before.
    pub fn count_after(&self, count: u32) -> u32
        requires { count_after count self.now < 2 ^ 32 }
        ensures { result ≡ count_after count self.now }
    {
        match self {
            LocalsChange::Same => count,
            LocalsChange::Append(added) => count + added.len() as u32,
            LocalsChange::Chop(removed) => count.saturating_sub(u32::from(*removed)),
            LocalsChange::Full(locals) => locals.len() as u32,
        }
    }
}

/// A stack map frame (JVMS 4.7.4).
#[derive(Drop)]
pub struct MapFrame {
    /// The offset of the instruction that the frame is at.
    pub at: u32,
    /// The number of that instruction, from 0.
    pub step: u32,
    /// How its locals come from those of the frame before it; the first frame's from those of the method's
    /// entry.
    pub locals: LocalsChange,
    /// The types on the operand stack, the deepest first.
    pub stack: Rows<VType>,
}
