//! The forms of a frame.

ghost use Rattle.std.specs.Prelude.{◌≡◌};
ghost use Rattle.code_frames.specs.Reading.{form_of};

/// The form of a frame, which its kind decides (JVMS 4.7.4).
#[derive(Clone, Copy)]
pub enum FrameForm {
    /// The same locals, and an empty stack.
    Same,
    /// The same locals, and one item on the stack.
    OneItem,
    /// This many locals fewer, and an empty stack.
    Chop(u8),
    /// This many locals more, and an empty stack.
    Append(u8),
    /// All locals, and the whole stack.
    Full,
}

impl FrameForm {
    /// The form of a kind, or `None` where no frame has it.
    #[tactic(auto, unfolding(crate::specs::Reading::form_of))]
    pub fn of_kind(kind: u8) -> Option<FrameForm>
        ensures { result ≡ form_of kind }
    {
        match kind {
            0..64 | 251 => Some(FrameForm::Same),
            64..128 | 247 => Some(FrameForm::OneItem),
            128..247 => None,
            248..251 => Some(FrameForm::Chop(251 - kind)),
            252..255 => Some(FrameForm::Append(kind - 251)),
            255 => Some(FrameForm::Full),
        }
    }
}
