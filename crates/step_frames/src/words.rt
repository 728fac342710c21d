//! The words that are put on top of a stack.

ghost use Rattle.std.specs.Prelude.{◌≤◌};

use type_rules::VerificationType;

/// Up to six words, the top one first.
#[derive(Clone, Copy)]
pub struct TopWords {
    pub words: [VerificationType; 6],
    pub count: usize,
    ghost within: { count ≤ 6 },
}
