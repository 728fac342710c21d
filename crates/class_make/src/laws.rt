//! What a text is assembled to.

ghost use Rattle.std.specs.Prelude.{◌≡◌, ℕ, List, Result};
ghost use Rattle.class_make.specs.Texts.{IsAssembled};

/// A text is assembled to one class file, or refused at one line.
pub fn texts_have_one_answer()
    ensures { (text : List ℕ) (answer other : Result (List ℕ) ℕ) → IsAssembled text answer → IsAssembled text other → answer ≡ other }
{}
