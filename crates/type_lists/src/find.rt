//! Words that are sought in lists.

ghost use Rattle.std.specs.Prelude.{◌≡◌, ◌<◌, ℕ, false, true};
ghost use Rattle.type_rules.specs.Assignable as assignable;
ghost use Rattle.type_rules.specs.declared.types.VerificationType.TheVariants.{Top};
ghost use Rattle.type_lists.specs.Marks.{AreMarked};
ghost use Rattle.type_lists.specs.Parts.{leaf_word, room, word_of};

use crate::marks::{mark_of_word, may_have};
use crate::parts::{Part, children_of, leaf_words};
use type_rules::VerificationType;
use word_types::is_same_type;

// Tests whether a leaf has a word.
fn has_leaf(parts: &[Part], part: u32, word: VerificationType) -> bool
    requires { assignable.is_same_type word Top ≡ false }
    ensures found { result ≡ true → (n : ℕ) × (n < 8) × (assignable.is_same_type word (leaf_word parts.now part n) ≡ true) }
    ensures absent { result ≡ false → (n : ℕ) → n < 8 → assignable.is_same_type word (leaf_word parts.now part n) ≡ false }
{
    for found in leaf_words(parts, part) {
        if is_same_type(word, *found) {
            return true;
        }
    }
    false
}

// Tests whether a part at a height has a word that isn't Top.
pub(crate) fn has_in(
    parts: &[Part],
    marks: &[u64],
    height: u8,
    part: u32,
    word: VerificationType,
) -> bool
    requires marked { AreMarked parts.now marks.now }
    requires word { assignable.is_same_type word Top ≡ false }
    ensures found { result ≡ true → (n : ℕ) × (n < room height) × (assignable.is_same_type word (word_of parts.now height part n) ≡ true) }
    ensures absent { result ≡ false → (n : ℕ) → n < room height → assignable.is_same_type word (word_of parts.now height part n) ≡ false }
{
    if part == 0 {
        return false;
    }
    if height == 0 {
        return has_leaf(parts, part, word);
    }
    let mark = mark_of_word(word);
    let children = children_of(parts, part);
    for digit in 0..32 {
        let below = children[digit];
        if may_have(marks, below, mark) && has_in(parts, marks, height - 1, below, word) {
            return true;
        }
    }
    false
}
