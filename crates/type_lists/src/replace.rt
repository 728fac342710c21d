//! Lists in which one word is replaced by another.

ghost use Rattle.std.specs.Prelude.{◌≡◌, ◌+◌, ◌≤◌, ◌<◌, ℕ, false, true, slice_index_or, IfOk, length};
ghost use Rattle.type_rules.specs.Assignable as assignable;
ghost use Rattle.type_rules.specs.declared.types.VerificationType.TheVariants.{Top};
ghost use Rattle.type_lists.specs.Marks.{AreMarked};
ghost use Rattle.type_lists.specs.Parts.{leaf_word, most_parts, replaced_type, room, word_of, IsClosed, Grows};

use crate::marks::{mark_of_word, may_have};
use crate::parts::{CHILDREN, Part, children_of, leaf_words, push, words_of_leaf};
use std::alloc::AllocError;
use type_rules::VerificationType;
use word_types::is_same_type;

// Tests whether a word is the old one. Where there is much to compare, the old word is an uninitialized object: so
// that case is decided without a call.
#[inline(always)]
fn is_old(word: VerificationType, old: VerificationType) -> bool
    ensures { result ≡ assignable.is_same_type word old }
{
    match (word, old) {
        (VerificationType::Uninit(made), VerificationType::Uninit(other)) => made == other,
        (_, VerificationType::Uninit(_)) => false,
        _ => is_same_type(word, old),
    }
}

// Tests whether a leaf hasn't got a word.
fn is_without(parts: &[Part], part: u32, old: VerificationType) -> bool
    requires { assignable.is_same_type Top old ≡ false }
    ensures { result ≡ true → (n : ℕ) → assignable.is_same_type (leaf_word parts.now part n) old ≡ false }
{
    for word in leaf_words(parts, part) {
        if is_old(*word, old) {
            return false;
        }
    }
    true
}

// Replaces a word.
fn replace_words(words: &mut [VerificationType; 8], old: VerificationType, new: VerificationType)
    requires { assignable.is_same_type Top old ≡ false }
    ensures { (n : ℕ) → slice_index_or words.new n Top ≡ replaced_type old new (slice_index_or words.old n Top) }
{
    for place in 0..8 {
        if is_old(words[place], old) {
            words[place] = new;
        }
    }
}

// A leaf in which one word is replaced by another.
fn replaced_leaf(
    parts: &mut Vec<Part>,
    marks: &mut Vec<u64>,
    part: u32,
    old: VerificationType,
    new: VerificationType,
) -> Result<u32, AllocError>
    requires closed { IsClosed parts.old.items (length parts.old.items) }
    requires marked { AreMarked parts.old.items marks.old.items }
    requires list { part ≤ length parts.old.items }
    requires old { assignable.is_same_type Top old ≡ false }
    ensures grows { Grows parts.old.items parts.new.items }
    ensures one { length parts.new.items ≤ length parts.old.items + 1 }
    ensures closed { IsClosed parts.new.items (length parts.new.items) }
    ensures marked { AreMarked parts.new.items marks.new.items }
    ensures list { IfOk result (λ made. made ≤ length parts.new.items) }
    ensures words { IfOk result (λ made.
        (n : ℕ)
        → word_of parts.new.items 0 made n ≡ replaced_type old new (word_of parts.old.items 0 part n)) }
{
    if is_without(parts, part, old) {
        return Ok(part);
    }
    let mut words = words_of_leaf(parts, part);
    replace_words(&mut words, old, new);
    push(parts, marks, Part::Leaf(words))
}

// A part at a height in which a word that isn't Top is replaced by another one.
pub(crate) fn replaced_in(
    parts: &mut Vec<Part>,
    marks: &mut Vec<u64>,
    height: u8,
    part: u32,
    old: VerificationType,
    new: VerificationType,
) -> Result<u32, AllocError>
    requires closed { IsClosed parts.old.items (length parts.old.items) }
    requires marked { AreMarked parts.old.items marks.old.items }
    requires list { part ≤ length parts.old.items }
    requires old { assignable.is_same_type Top old ≡ false }
    ensures grows { Grows parts.old.items parts.new.items }
    ensures few { length parts.new.items ≤ length parts.old.items + most_parts height }
    ensures closed { IsClosed parts.new.items (length parts.new.items) }
    ensures marked { AreMarked parts.new.items marks.new.items }
    ensures list { IfOk result (λ made. made ≤ length parts.new.items) }
    ensures words { IfOk result (λ made.
        (n : ℕ)
        → n < room height → word_of parts.new.items height made n ≡ replaced_type old new (word_of parts.old.items height part n)) }
{
    if part == 0 {
        return Ok(0);
    }
    if height == 0 {
        return replaced_leaf(parts, marks, part, old, new);
    }
    let mark = mark_of_word(old);
    let mut children = children_of(parts, part);
    let mut is_changed = false;
    for digit in 0..32 {
        let below = children[digit];
        if !may_have(marks, below, mark) {
            continue;
        }
        let made = replaced_in(parts, marks, height - 1, below, old, new)?;
        is_changed = is_changed || made != below;
        children[digit] = made;
    }
    if !is_changed {
        return Ok(part);
    }
    push(parts, marks, Part::Node(children))
}
