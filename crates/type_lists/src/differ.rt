//! Places at which lists differ.

ghost use Rattle.std.specs.Prelude.{◌≤◌};
ghost use Rattle.type_lists.specs.Parts.{leaf_word, room, word_of};
ghost use Rattle.type_lists.specs.Differ.{FirstWithin};

use crate::parts::{CHILDREN, Part, child, room_of, words_of_leaf};
use word_types::is_same_type;

// The first place of a leaf, from one on, at which it differs from another one.
fn leaf_difference(parts: &[Part], before: u32, after: u32, from: u32) -> Option<u32>
    ensures { FirstWithin (leaf_word parts.now before) (leaf_word parts.now after) from 8 result }
{
    let olds = words_of_leaf(parts, before);
    let news = words_of_leaf(parts, after);
    for place in from..8 {
        if !is_same_type(olds[place as usize], news[place as usize]) {
            return Some(place);
        }
    }
    None
}

// The same of parts at a height. What the parts share isn't looked at.
pub(crate) fn part_difference(
    parts: &[Part],
    height: u8,
    before: u32,
    after: u32,
    from: u32,
) -> Option<u32>
    requires { height ≤ 3 }
    ensures { FirstWithin (word_of parts.now height before) (word_of parts.now height after) from (room height) result }
{
    if before == after {
        return None;
    }
    if height == 0 {
        return leaf_difference(parts, before, after, from);
    }
    let room = room_of(height - 1);
    for digit in from / room..CHILDREN {
        let start = room * digit;
        let below = child(parts, before, digit);
        let other = child(parts, after, digit);
        let found = part_difference(parts, height - 1, below, other, from.saturating_sub(start));
        if let Some(place) = found {
            return Some(start + place);
        }
    }
    None
}
