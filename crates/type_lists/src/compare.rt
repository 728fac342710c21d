//! Lists that are compared word by word.

ghost use Rattle.std.specs.Prelude.{◌≡◌, ◌≤◌, IfOk, length};
ghost use Rattle.std.specs.Bool.{MatchBool};
ghost use Rattle.type_lists.specs.Parts.{IsClosed};
ghost use Rattle.type_lists.specs.Compared.{AreAssignable, AreApart, KnowsRightly};

use crate::known::KnownPairs;
use crate::parts::{CHILDREN, Part, child, words_of_leaf};
use std::alloc::AllocError;
use word_types::{ClassHierarchy, is_assignable};

// Tests whether the words of a leaf are assignable to those of another one.
fn are_leaves_assignable<H: ClassHierarchy>(
    parts: &[Part],
    hierarchy: &H,
    low: u32,
    high: u32,
) -> bool
    ensures { MatchBool result (AreAssignable (H.hierarchy hierarchy.now) parts.now 0 low high)
        (AreApart (H.hierarchy hierarchy.now) parts.now 0 low high) }
{
    let lows = words_of_leaf(parts, low);
    let highs = words_of_leaf(parts, high);
    for place in 0..8 {
        if !is_assignable(hierarchy, lows[place], highs[place]) {
            return false;
        }
    }
    true
}

// The same, and makes the pair known where they are.
fn are_leaves_known<H: ClassHierarchy>(
    parts: &[Part],
    known: &mut KnownPairs,
    hierarchy: &H,
    low: u32,
    high: u32,
) -> Result<bool, AllocError>
    requires known { KnowsRightly (H.hierarchy hierarchy.now) parts.now (length parts.now) known.old }
    requires low { low ≤ length parts.now }
    requires high { high ≤ length parts.now }
    ensures known { KnowsRightly (H.hierarchy hierarchy.now) parts.now (length parts.now) known.new }
    ensures told { IfOk result (λ b.
        MatchBool b (AreAssignable (H.hierarchy hierarchy.now) parts.now 0 low high)
        (AreApart (H.hierarchy hierarchy.now) parts.now 0 low high)) }
{
    if !are_leaves_assignable(parts, hierarchy, low, high) {
        return Ok(false);
    }
    known.add(0, low, high)?;
    Ok(true)
}

// Tests whether the words of a part at a height are assignable to those of another one. Only what isn't known is
// looked at.
pub(crate) fn are_parts_assignable<H: ClassHierarchy>(
    parts: &[Part],
    known: &mut KnownPairs,
    hierarchy: &H,
    height: u8,
    low: u32,
    high: u32,
) -> Result<bool, AllocError>
    requires closed { IsClosed parts.now (length parts.now) }
    requires known { KnowsRightly (H.hierarchy hierarchy.now) parts.now (length parts.now) known.old }
    requires low { low ≤ length parts.now }
    requires high { high ≤ length parts.now }
    ensures known { KnowsRightly (H.hierarchy hierarchy.now) parts.now (length parts.now) known.new }
    ensures told { IfOk result (λ b.
        MatchBool b (AreAssignable (H.hierarchy hierarchy.now) parts.now height low high)
        (AreApart (H.hierarchy hierarchy.now) parts.now height low high)) }
{
    if high == 0 {
        return Ok(true);
    }
    if known.has(height, low, high) {
        return Ok(true);
    }
    if height == 0 {
        return are_leaves_known(parts, known, hierarchy, low, high);
    }
    for digit in 0..CHILDREN {
        let low_child = child(parts, low, digit);
        let high_child = child(parts, high, digit);
        if !are_parts_assignable(parts, known, hierarchy, height - 1, low_child, high_child)? {
            return Ok(false);
        }
    }
    known.add(height, low, high)?;
    Ok(true)
}
