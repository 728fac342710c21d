//! The words of a line, and their texts.

ghost use Rattle.std.specs.Prelude.{◌≡◌, ◌<◌, ◌^◌, ℕ, List, map};
ghost use Rattle.std.specs.List.{AllByRecursion};
ghost use Rattle.class_names.specs.ModifiedUtf8.{AreForms, unit_of};
ghost use Rattle.class_names.specs.ShortestForms.{form_of, encoded};
ghost use Rattle.assembler_lines.specs.declared.word.Word.{Word};
ghost use Rattle.assembler_lines.specs.Words.{AreWords, IsPlain};

/// A line is one list of words at most.
pub fn line_has_one_list_of_words()
    ensures { (text : List ℕ) (words others : List Word) → AreWords text words → AreWords text others → words ≡ others }
{}

/// The text of a plain word is in modified UTF-8, and stands for the word's characters, as that of any list of
/// code units stands for them.
pub fn plain_words_have_their_characters()
    ensures formed { (word : List ℕ) → IsPlain word → AreForms (encoded word) (map form_of word) }
    ensures characters { (word : List ℕ) → AllByRecursion (λ u. u < 2 ^ 16) word → map unit_of (map form_of word) ≡ word }
{}
