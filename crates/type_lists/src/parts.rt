//! The parts of lists.

ghost use Rattle.std.specs.Prelude.{◌≡◌, ◌+◌, ◌≤◌, ◌<◌, ℕ, [], IfOk, length, slice_index, slice_index_or, unwrap_or};
ghost use Rattle.std.specs.Option.{option_copied};
ghost use Rattle.type_lists.specs.Parts.{child_at, leaf_word, node_children, part_at, room, word_of, IsClosed, Grows};
ghost use Rattle.type_lists.specs.Marks.{AreMarked};
ghost use Rattle.type_rules.specs.declared.types.VerificationType.TheVariants.{Top};

use crate::marks::mark_for;
use std::alloc::AllocError;
use type_rules::VerificationType;

/// The children of a node.
pub(crate) const CHILDREN: u32 = 32;

/// A part of lists: the words of a leaf, or the parts below a node by their numbers, 0 for words that are all Top.
#[derive(Clone, Copy)]
pub(crate) enum Part {
    Leaf([VerificationType; 8]),
    Node([u32; 32]),
}

// The part of a number, from 1.
fn part_numbered(parts: &[Part], part: u32) -> Option<&Part>
    ensures { unwrap_or (option_copied result) (Part.Leaf []) ≡ part_at parts.now part }
{
    if part == 0 {
        return None;
    }
    parts.get(part as usize - 1)
}

// The word at a place of a leaf.
pub(crate) fn word_in_leaf(parts: &[Part], part: u32, place: u32) -> VerificationType
    ensures { result ≡ leaf_word parts.now part place }
{
    match part_numbered(parts, part) {
        Some(Part::Leaf(words)) => words
            .get(place as usize)
            .copied()
            .unwrap_or(VerificationType::Top),
        Some(Part::Node(_)) | None => VerificationType::Top,
    }
}

// The child of a node by its digit.
pub(crate) fn child(parts: &[Part], part: u32, digit: u32) -> u32
    ensures { result ≡ child_at parts.now part digit }
{
    match part_numbered(parts, part) {
        Some(Part::Node(children)) => children.get(digit as usize).copied().unwrap_or(0),
        Some(Part::Leaf(_)) | None => 0,
    }
}

fn all_top() -> [VerificationType; 8]
    ensures { (n : ℕ) → slice_index_or result n Top ≡ Top }
{
    [VerificationType::Top; 8]
}

fn no_children() -> [u32; 32]
    ensures { (n : ℕ) → slice_index result n ≡ 0 }
{
    [0; 32]
}

// The words of a leaf, as they are: none where there is no leaf.
pub(crate) fn leaf_words(parts: &[Part], part: u32) -> &[VerificationType]
    ensures few { length result.now ≤ 8 }
    ensures words { (n : ℕ) → slice_index_or result.now n Top ≡ leaf_word parts.now part n }
{
    match part_numbered(parts, part) {
        Some(Part::Leaf(words)) => words,
        Some(Part::Node(_)) | None => &[],
    }
}

// All words of a leaf.
pub(crate) fn words_of_leaf(parts: &[Part], part: u32) -> [VerificationType; 8]
    ensures { (n : ℕ) → slice_index_or result n Top ≡ leaf_word parts.now part n }
{
    match part_numbered(parts, part) {
        Some(Part::Leaf(words)) => *words,
        Some(Part::Node(_)) | None => all_top(),
    }
}

// All children of a node.
pub(crate) fn children_of(parts: &[Part], part: u32) -> [u32; 32]
    ensures { (n : ℕ) → slice_index result n ≡ child_at parts.now part n }
{
    match part_numbered(parts, part) {
        Some(Part::Node(children)) => *children,
        Some(Part::Leaf(_)) | None => no_children(),
    }
}

// A new part, and its number. A mark that is left over after an error is cut the next time.
pub(crate) fn push(
    parts: &mut Vec<Part>,
    marks: &mut Vec<u64>,
    part: Part,
) -> Result<u32, AllocError>
    requires closed { IsClosed parts.old.items (length parts.old.items) }
    requires marked { AreMarked parts.old.items marks.old.items }
    requires children { (j : ℕ) → slice_index (node_children part) j ≤ length parts.old.items }
    ensures grows { Grows parts.old.items parts.new.items }
    ensures one { length parts.new.items ≤ length parts.old.items + 1 }
    ensures closed { IsClosed parts.new.items (length parts.new.items) }
    ensures marked { AreMarked parts.new.items marks.new.items }
    ensures made { IfOk result (λ made.
        (made ≤ length parts.new.items) × (part_at parts.new.items made ≡ part) × (length parts.old.items < made)) }
{
    if parts.len() >= u32::MAX as usize {
        return Err(AllocError);
    }
    let mark = mark_for(marks, &part);
    marks.truncate(parts.len());
    marks.push(mark)?;
    parts.push(part)?;
    Ok(parts.len() as u32)
}

// The words of a part at a height.
pub(crate) fn room_of(height: u8) -> u32
    requires { height ≤ 3 }
    ensures room { result ≡ room height }
    ensures some { 0 < result }
{
    match height {
        0 => 8,
        1 => 256,
        2 => 8192,
        _ => 262144,
    }
}

// The word at a place of a part at height 1.
fn word_in_low(parts: &[Part], part: u32, place: u32) -> VerificationType
    ensures { result ≡ word_of parts.now 1 part place }
{
    word_in_leaf(parts, child(parts, part, place / 8), place % 8)
}

// .. at height 2.
fn word_in_middle(parts: &[Part], part: u32, place: u32) -> VerificationType
    ensures { result ≡ word_of parts.now 2 part place }
{
    word_in_low(parts, child(parts, part, place / 256), place % 256)
}

// .. at height 3.
fn word_in_high(parts: &[Part], part: u32, place: u32) -> VerificationType
    ensures { result ≡ word_of parts.now 3 part place }
{
    word_in_middle(parts, child(parts, part, place / 8192), place % 8192)
}

// The word at a place of a part at a height.
pub(crate) fn word_in(parts: &[Part], height: u8, part: u32, place: u32) -> VerificationType
    requires { height ≤ 3 }
    ensures { result ≡ word_of parts.now height part place }
{
    match height {
        0 => word_in_leaf(parts, part, place),
        1 => word_in_low(parts, part, place),
        2 => word_in_middle(parts, part, place),
        _ => word_in_high(parts, part, place),
    }
}
