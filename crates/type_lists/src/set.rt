//! Lists of which one word is changed.

ghost use Rattle.std.specs.Prelude.{◌≡◌, ◌+◌, ◌≤◌, ◌<◌, ◌==◌, ℕ, IfOk, length, slice_index, if◌then◌else◌};
ghost use Rattle.type_lists.specs.Parts.{child_at, most_parts, node_children, part_at, room, IsClosed};
ghost use Rattle.type_lists.specs.Marks.{mark_at, AreMarked, Covers, HasBits};
ghost use Rattle.type_lists.specs.Trees.{IsTree, IsSet, IsPut, Touches, LeavesOthers};

use crate::marks::{has_bits, mark_of_part, mark_of_word};
use crate::parts::{Part, child, children_of, push, room_of, words_of_leaf};
use std::alloc::AllocError;
use type_rules::VerificationType;

// A part in place of another one: in its place, if that one isn't kept and its mark has the bits that the new part has
// more. So no mark grows.
fn put(
    parts: &mut Vec<Part>,
    marks: &mut Vec<u64>,
    kept: usize,
    part: u32,
    new: Part,
    more: u64,
) -> Result<u32, AllocError>
    requires closed { IsClosed parts.old.items (length parts.old.items) }
    requires marked { AreMarked parts.old.items marks.old.items }
    requires list { part ≤ length parts.old.items }
    requires children { (j : ℕ) → slice_index (node_children new) j ≤ length parts.old.items }
    requires covers { HasBits (mark_at marks.old.items part) more
        → Covers marks.old.items (mark_at marks.old.items part) new }
    ensures others { LeavesOthers parts.old.items parts.new.items kept part }
    ensures one { length parts.new.items ≤ length parts.old.items + 1 }
    ensures closed { IsClosed parts.new.items (length parts.new.items) }
    ensures marked { AreMarked parts.new.items marks.new.items }
    ensures made { IfOk result (λ made. (made ≤ length parts.new.items) × (part_at parts.new.items made ≡ new)) }
    ensures which { IfOk result (λ made. IsPut parts.old.items kept part made) }
{
    if (part as usize) <= kept || !has_bits(mark_of_part(marks, part), more) {
        return push(parts, marks, new);
    }
    parts[part as usize - 1] = new;
    Ok(part)
}

// A leaf with another word at a place.
fn leaf_with(
    parts: &mut Vec<Part>,
    marks: &mut Vec<u64>,
    kept: usize,
    part: u32,
    place: u32,
    word: VerificationType,
) -> Result<u32, AllocError>
    requires closed { IsClosed parts.old.items (length parts.old.items) }
    requires marked { AreMarked parts.old.items marks.old.items }
    requires list { part ≤ length parts.old.items }
    requires place { place < 8 }
    ensures touches { Touches parts.old.items parts.new.items kept 0 part }
    ensures one { length parts.new.items ≤ length parts.old.items + 1 }
    ensures closed { IsClosed parts.new.items (length parts.new.items) }
    ensures marked { AreMarked parts.new.items marks.new.items }
    ensures set { IfOk result (λ made. IsSet parts.old.items parts.new.items kept 0 part made place word) }
{
    let mut words = words_of_leaf(parts, part);
    words[place as usize] = word;
    put(
        parts,
        marks,
        kept,
        part,
        Part::Leaf(words),
        mark_of_word(word),
    )
}

// A node with another child at a digit.
fn node_with(
    parts: &mut Vec<Part>,
    marks: &mut Vec<u64>,
    kept: usize,
    part: u32,
    digit: u32,
    made: u32,
) -> Result<u32, AllocError>
    requires closed { IsClosed parts.old.items (length parts.old.items) }
    requires marked { AreMarked parts.old.items marks.old.items }
    requires list { part ≤ length parts.old.items }
    requires child { made ≤ length parts.old.items }
    requires digit { digit < 32 }
    ensures others { LeavesOthers parts.old.items parts.new.items kept part }
    ensures one { length parts.new.items ≤ length parts.old.items + 1 }
    ensures closed { IsClosed parts.new.items (length parts.new.items) }
    ensures marked { AreMarked parts.new.items marks.new.items }
    ensures list { IfOk result (λ node. node ≤ length parts.new.items) }
    ensures which { IfOk result (λ node. IsPut parts.old.items kept part node) }
    ensures children { IfOk result (λ node.
        (j : ℕ) → child_at parts.new.items node j ≡ (if j == digit then made else child_at parts.old.items part j)) }
{
    let mut children = children_of(parts, part);
    children[digit as usize] = made;
    let more = mark_of_part(marks, made);
    put(parts, marks, kept, part, Part::Node(children), more)
}

// A part at a height with another word at a place, in place of the part. Parts that aren't kept change in their places.
pub(crate) fn set_in(
    parts: &mut Vec<Part>,
    marks: &mut Vec<u64>,
    kept: usize,
    height: u8,
    part: u32,
    place: u32,
    word: VerificationType,
) -> Result<u32, AllocError>
    requires closed { IsClosed parts.old.items (length parts.old.items) }
    requires marked { AreMarked parts.old.items marks.old.items }
    requires closed_kept { IsClosed parts.old.items kept }
    requires within { kept ≤ length parts.old.items }
    requires list { part ≤ length parts.old.items }
    requires tree { IsTree parts.old.items kept height part }
    requires low { height ≤ 3 }
    requires place { place < room height }
    ensures touches { Touches parts.old.items parts.new.items kept height part }
    ensures few { length parts.new.items ≤ length parts.old.items + most_parts height }
    ensures closed { IsClosed parts.new.items (length parts.new.items) }
    ensures marked { AreMarked parts.new.items marks.new.items }
    ensures set { IfOk result (λ made. IsSet parts.old.items parts.new.items kept height part made place word) }
{
    if height == 0 {
        return leaf_with(parts, marks, kept, part, place, word);
    }
    let room = room_of(height - 1);
    let digit = place / room;
    let below = child(parts, part, digit);
    let made = set_in(parts, marks, kept, height - 1, below, place % room, word)?;
    node_with(parts, marks, kept, part, digit, made)
}
