//! What a method begins with.

ghost use Rattle.std.specs.Prelude.{◌≡◌};
ghost use Rattle.type_rules.specs.Environments.{words_of_values};

use type_rules::VerificationType;

/// A method as its map frames see it.
#[derive(Drop)]
pub struct MethodEntry {
    /// Its receiver and its parameters, a long being one value.
    pub values: Vec<VerificationType>,
    /// Their words, as they lie in the locals.
    pub words: Vec<VerificationType>,
    /// Whether it is a constructor.
    pub constructs: bool,
    pub max_locals: u16,
    pub max_stack: u16,
    ghost words_are: { words.items ≡ words_of_values values.items },
}
