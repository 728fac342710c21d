//! What an instruction puts into a local.

use type_rules::VerificationType;

/// What is put into the locals.
#[derive(Clone, Copy)]
pub enum LocalChange {
    Nothing,
    /// A word is put into a local.
    Word(u16, VerificationType),
    /// A long is put into a local and the next one.
    Long(u16),
}
