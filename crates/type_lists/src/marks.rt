//! Marks of parts: which uninitialized words a part may have, in 64 bits. A part may have fewer words than its mark
//! says, never more.

ghost use Rattle.std.specs.Prelude.{◌≡◌, ◌<◌, ℕ, false, slice_index, slice_index_or};
ghost use Rattle.std.specs.Bool.{Decides};
ghost use Rattle.type_rules.specs.declared.types.VerificationType.TheVariants.{Top};
ghost use Rattle.type_lists.specs.Marks.{mark_at, spread_bit, word_mark, Covers, HasBits};

use crate::parts::Part;
use type_rules::VerificationType;

/// An odd number by which offsets are spread over the bits.
const SPREAD: u32 = 2_654_435_769;

fn spread_bit(offset: u32, at: u32) -> u64
    requires { at < 32 }
    ensures { result ≡ spread_bit offset at }
{
    1 << ((offset.wrapping_mul(SPREAD) >> at) % 64)
}

// The bits of an uninitialized word, or no bits.
pub(crate) fn mark_of_word(word: VerificationType) -> u64
    ensures { result ≡ word_mark word }
{
    match word {
        VerificationType::Uninit(offset) => {
            spread_bit(offset, 26) | spread_bit(offset, 20) | spread_bit(offset, 14)
        }
        VerificationType::UninitThis => 1,
        _ => 0,
    }
}

// The mark of a part.
pub(crate) fn mark_of_part(marks: &[u64], part: u32) -> u64
    ensures { result ≡ mark_at marks.now part }
{
    if part == 0 {
        return 0;
    }
    marks.get(part as usize - 1).copied().unwrap_or(0)
}

// Tests whether a mark has each bit of another one.
pub(crate) fn has_bits(mark: u64, bits: u64) -> bool
    ensures { Decides result (HasBits mark bits) }
{
    mark & bits == bits
}

// Tests whether a part may have a word with a mark.
pub(crate) fn may_have(marks: &[u64], part: u32, mark: u64) -> bool
    ensures { result ≡ false → ¬ HasBits (mark_at marks.now part) mark }
{
    has_bits(mark_of_part(marks, part), mark)
}

fn mark_of_words(words: &[VerificationType; 8]) -> u64
    ensures { (n : ℕ) → HasBits result (word_mark (slice_index_or words.now n Top)) }
{
    let mut mark = 0;
    for place in 0..8 {
        mark |= mark_of_word(words[place]);
    }
    mark
}

fn mark_of_children(marks: &[u64], children: &[u32; 32]) -> u64
    ensures { (j : ℕ) → HasBits result (mark_at marks.now (slice_index children.now j)) }
{
    let mut mark = 0;
    for digit in 0..32 {
        mark |= mark_of_part(marks, children[digit]);
    }
    mark
}

// The mark of what is to be a part.
pub(crate) fn mark_for(marks: &[u64], part: &Part) -> u64
    ensures { Covers marks.now result part.now }
{
    match part {
        Part::Leaf(words) => mark_of_words(words),
        Part::Node(children) => mark_of_children(marks, children),
    }
}
