//! Stack map frames as they are written.

use rows::Bytes;

/// The verification type of a local or of an operand (JVMS 4.7.4).
#[derive(Drop)]
pub enum FrameItem {
    /// `top`
    Top,
    /// `int`
    Int,
    /// `long`
    Long,
    /// `null`
    Null,
    /// `this`: the object under construction, before its superclass's constructor was called
    This,
    /// `new:LABEL`: the object that the instruction at the label made, before its constructor was called
    New(Bytes),
    /// `NAME`, a class
    Class(Bytes),
}
