//! What a wanted word is.

/// What a word is to an instruction that wants one (JVMS 4.10.1.9).
#[derive(Clone, Copy)]
pub enum Verdict {
    Right,
    /// Of a wrong type.
    Wrong,
    /// An object that isn't initialized, where an initialized one is wanted.
    Uninitialized,
}
