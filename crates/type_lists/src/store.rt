//! The lists of one method.

ghost use Rattle.std.specs.Prelude.{◌≡◌, ◌+◌, ◌≤◌, ◌<◌, ℕ, false, max, IfOk, length};
ghost use Rattle.type_lists.specs.Parts.{room, IsClosed};
ghost use Rattle.type_lists.specs.Marks.{AreMarked};

use crate::compare::are_parts_assignable;
use crate::differ::part_difference;
use crate::find::has_in;
use crate::known::KnownPairs;
use crate::parts::{Part, room_of, word_in};
use crate::replace::replaced_in;
use crate::set::set_in;
use std::alloc::{AllocError, Global};
use type_rules::VerificationType;
use word_types::{ClassHierarchy, is_same_type};

/// A list in a [`WordStore`].
#[derive(Clone, Copy)]
pub struct Words {
    root: u32,
}

impl Words {
    ghost use Rattle.type_lists.specs.Store.{list_number};

    /// The number of the list. Lists of one number are the same.
    pub fn number(self) -> u32
        ensures { result ≡ list_number self }
    {
        self.root
    }
}

/// Lists of words that share their parts: a list begins as another one and is changed in places, at the cost of what
/// changes. Contracts see a list as a function of places from 0 (`word_at`), with Top past its end, and say which
/// lists are there (`IsList`). A change replaces the list that it is made of: after it there are its result and the
/// lists that are kept (`IsKept`), which stay as they are. Lists that are fixed (`IsFixed`) stay too, until those
/// that aren't kept are given back: that happens where a kept list is changed and the others have much memory.
///
/// The store remembers which of its parts were found assignable to which, so it serves the classes of one program
/// (`Remembers`).
#[derive(Drop)]
pub struct WordStore {
    parts: Vec<Part>,
    /// Which uninitialized words each part may have.
    marks: Vec<u64>,
    height: u8,
    /// How many words a list may have.
    most: u32,
    kept: usize,
    /// The parts up to here aren't changed in their places.
    fixed: usize,
    /// How often lists were given back.
    given_back: u64,
    known: KnownPairs,
    ghost closed: { IsClosed parts.items (length parts.items) },
    ghost closed_kept: { IsClosed parts.items kept },
    ghost closed_fixed: { IsClosed parts.items fixed },
    ghost marked: { AreMarked parts.items marks.items },
    ghost kept_fixed: { kept ≤ fixed },
    ghost within: { fixed ≤ length parts.items },
    ghost low: { height ≤ 3 },
    ghost fits: { most ≤ room height },
}

/// How many parts of lists that aren't kept stay in any case.
const FEW: usize = 65_536;

// The height of lists of at most `most` words.
fn height_for(most: u32) -> u8
    requires { most ≤ 65536 }
    ensures low { result ≤ 3 }
    ensures fits { most ≤ room result }
{
    if most <= 8 {
        0
    } else if most <= 256 {
        1
    } else if most <= 8192 {
        2
    } else {
        3
    }
}

impl WordStore {
    ghost use Rattle.std.specs.List.{list_any};
    ghost use Rattle.type_rules.specs.Assignable as assignable;
    ghost use Rattle.type_rules.specs.declared.types.VerificationType.TheVariants.{Top};
    ghost use Rattle.type_lists.specs.Parts.{replaced_type, with_word};
    ghost use Rattle.type_lists.specs.Shown.{first_words, stack_words, EndsBy};
    ghost use Rattle.type_lists.specs.Store.{word_at, IsList, IsKept, IsMarked, IsFixed, HasFewOthers, Remembers, Follows};
    ghost use Rattle.type_lists.specs.Differ.{FirstDifference};

    /// A store for lists of at most `most` words. Takes no memory.
    pub fn new(alloc: Global, most: u32) -> Self
        requires { most ≤ 65536 }
        ensures most { result.most ≡ most }
        ensures remembered { (h : assignable.Hierarchy) → Remembers h result }
    {
        WordStore {
            parts: Vec::new(alloc),
            marks: Vec::new(alloc),
            height: height_for(most),
            most,
            kept: 0,
            fixed: 0,
            given_back: 0,
            known: KnownPairs::new(alloc),
        }
    }

    /// The list whose words are all Top. It is kept. Takes no memory.
    pub fn tops(&self) -> Words
        ensures kept { IsKept self.now result }
        ensures words { word_at self.now result ≡ (λ _. Top) }
    {
        Words { root: 0 }
    }

    /// The first place, from one on, at which two lists have words of different types; `None` where there is none. What
    /// the lists share isn't looked at. Takes no memory.
    pub fn next_difference(&self, before: Words, after: Words, from: u32) -> Option<u32>
        ensures { FirstDifference (word_at self.now before) (word_at self.now after) from result }
    {
        part_difference(&self.parts, self.height, before.root, after.root, from)
    }

    /// The word of a list at a place. Takes no memory.
    pub fn word(&self, words: Words, at: u32) -> VerificationType
        ensures { result ≡ word_at self.now words at }
    {
        if at >= room_of(self.height) {
            return VerificationType::Top;
        }
        word_in(&self.parts, self.height, words.root, at)
    }

    /// Tests whether a list has a word that isn't Top. Takes no memory. Where the word is an uninitialized one, few parts
    /// without it are looked at.
    pub fn has(&self, words: Words, word: VerificationType) -> bool
        requires { assignable.is_same_type word Top ≡ false }
        ensures first { (count : ℕ) → EndsBy (word_at self.now words) count
            → result ≡ list_any (assignable.is_same_type word) (first_words (word_at self.now words) count) }
        ensures stack { (depth : ℕ) → EndsBy (word_at self.now words) depth
            → result ≡ list_any (assignable.is_same_type word) (stack_words (word_at self.now words) depth) }
    {
        has_in(&self.parts, &self.marks, self.height, words.root, word)
    }

    /// Keeps all lists that there are: no change changes them.
    pub fn keep(&mut self)
        ensures follows { Follows self.old self.new }
        ensures remembered { (h : assignable.Hierarchy) → Remembers h self.old → Remembers h self.new }
        ensures kept { (words : Words) → IsList self.old words → IsKept self.new words }
        ensures words { (words : Words) → IsList self.old words → word_at self.new words ≡ word_at self.old words }
    {
        self.kept = self.parts.len();
        self.fixed = self.kept;
    }

    /// Fixes all lists that there are: no change changes them, until lists are given back.
    pub fn fix(&mut self)
        ensures follows { Follows self.old self.new }
        ensures remembered { (h : assignable.Hierarchy) → Remembers h self.old → Remembers h self.new }
        ensures given_back { self.new.given_back ≡ self.old.given_back }
        ensures fixed { (words : Words) → IsList self.old words → IsFixed self.new words }
        ensures words { (words : Words) → IsList self.old words → word_at self.new words ≡ word_at self.old words }
    {
        self.fixed = self.parts.len();
    }

    /// How often lists were given back: a fixed list is there as long as this is the same.
    pub fn given_back(&self) -> u64
        ensures { result ≡ self.now.given_back }
    {
        self.given_back
    }

    // Before a change of a list, which stays: gives back the lists that aren't kept, where it is a kept one and they have
    // many parts.
    fn give_back_before(&mut self, words: Words) -> Result<(), AllocError>
        requires list { IsList self.old words }
        ensures follows { Follows self.old self.new }
        ensures remembered { (h : assignable.Hierarchy) → Remembers h self.old → Remembers h self.new }
        ensures list { IsList self.new words }
        ensures words { word_at self.new words ≡ word_at self.old words }
        ensures few { IsMarked self.old words → IfOk result (λ _.
            length self.new.parts.items ≤ self.new.kept + max 65536 self.new.kept) }
    {
        let others = self.parts.len() - self.kept;
        if self.kept < words.root as usize || others <= FEW.max(self.kept) {
            return Ok(());
        }
        let Some(given_back) = self.given_back.checked_add(1) else {
            return Err(AllocError);
        };
        self.given_back = given_back;
        self.parts.truncate(self.kept);
        self.known.forget();
        self.fixed = self.kept;
        Ok(())
    }

    /// A list with another word at a place, in place of the given list. What isn't fixed is changed in place. Each kept
    /// list stays as it was, also after an error. Where the list is a kept one, little is left of lists that aren't.
    pub fn set(
        &mut self,
        words: Words,
        at: u32,
        word: VerificationType,
    ) -> Result<Words, AllocError>
        requires list { IsList self.old words }
        requires place { at < self.old.most }
        ensures follows { Follows self.old self.new }
        ensures remembered { (h : assignable.Hierarchy) → Remembers h self.old → Remembers h self.new }
        ensures list { IfOk result (λ made. IsList self.new made) }
        ensures words { IfOk result (λ made. word_at self.new made ≡ with_word (word_at self.old words) at word) }
        ensures few { IsKept self.old words → IfOk result (λ _. HasFewOthers self.new) }
    {
        self.give_back_before(words)?;
        if is_same_type(self.word(words, at), word) {
            return Ok(words);
        }
        let root = set_in(
            &mut self.parts,
            &mut self.marks,
            self.fixed,
            self.height,
            words.root,
            at,
            word,
        )?;
        Ok(Words { root })
    }

    /// A list in which each word that is the old one, which isn't Top, is replaced by the new one, in place of the
    /// given list. Each kept list stays as it was, also after an error. Where the list is a kept one, little is left of
    /// lists that aren't.
    pub fn replaced(
        &mut self,
        words: Words,
        old: VerificationType,
        new: VerificationType,
    ) -> Result<Words, AllocError>
        requires list { IsList self.old words }
        requires old { assignable.is_same_type Top old ≡ false }
        ensures follows { Follows self.old self.new }
        ensures remembered { (h : assignable.Hierarchy) → Remembers h self.old → Remembers h self.new }
        ensures list { IfOk result (λ made. IsList self.new made) }
        ensures words { IfOk result (λ made.
            word_at self.new made ≡ (λ n. replaced_type old new (word_at self.old words n))) }
        ensures few { IsKept self.old words → IfOk result (λ _. HasFewOthers self.new) }
    {
        self.give_back_before(words)?;
        let made = replaced_in(
            &mut self.parts,
            &mut self.marks,
            self.height,
            words.root,
            old,
            new,
        );
        self.fixed = self.parts.len();
        Ok(Words { root: made? })
    }

    /// Tests whether each word of a list is assignable to that of another one at its place. All lists are fixed. Only
    /// parts are looked at that weren't found assignable before. After an error nothing is lost but what was remembered.
    pub fn are_assignable<H: ClassHierarchy>(
        &mut self,
        hierarchy: &H,
        low: Words,
        high: Words,
    ) -> Result<bool, AllocError>
        requires low { IsList self.old low }
        requires high { IsList self.old high }
        requires remembered { Remembers (H.hierarchy hierarchy.now) self.old }
        ensures follows { Follows self.old self.new }
        ensures remembered { Remembers (H.hierarchy hierarchy.now) self.new }
        ensures given_back { self.new.given_back ≡ self.old.given_back }
        ensures fixed { (words : Words) → IsList self.old words → IsFixed self.new words }
        ensures words { (words : Words) → IsList self.old words → word_at self.new words ≡ word_at self.old words }
        ensures locals { (n m : ℕ) → EndsBy (word_at self.old low) n → EndsBy (word_at self.old high) m
            → IfOk result (λ b.
            b ≡ assignable.are_locals_assignable (H.hierarchy hierarchy.now)
            (first_words (word_at self.old low) n) (first_words (word_at self.old high) m)) }
        ensures stacks { (depth : ℕ) → EndsBy (word_at self.old high) depth
            → IfOk result (λ b.
            b ≡ assignable.are_assignable (H.hierarchy hierarchy.now)
            (stack_words (word_at self.old low) depth) (stack_words (word_at self.old high) depth)) }
    {
        self.fixed = self.parts.len();
        are_parts_assignable(
            &self.parts,
            &mut self.known,
            hierarchy,
            self.height,
            low.root,
            high.root,
        )
    }
}
