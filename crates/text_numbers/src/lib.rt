//! Numbers of texts: equal texts have one number, and others have others.
#![tactic(auto)]

ghost use Rattle.std.specs.Prelude.{◌≡◌, ◌≢◌, ◌+◌, ◌-◌, ℕ, List, [], ◌∷◌, ◌++◌, map, length, OnOk, OnErr, IfOk, slice_get, option_map, bytes_eq, if◌then◌else◌};
ghost use Rattle.text_numbers.specs.Numbers.{number_of, with_text, number_in, IsNumbering};

use std::alloc::{AllocError, Global};
use std::collections::BTreeMap;
use std::marker::Model;

/// Numbers of texts, from 1 in the order in which they were added. Contracts see the texts in this order.
#[derive(Drop)]
pub struct TextNumbers<'a> {
    texts: Vec<&'a [u8]>,
    numbers: BTreeMap<&'a [u8], u32>,
}

impl<'a> Model for TextNumbers<'a> {
    ghost use Rattle.std.specs.Prelude.{List, ℕ, map};
    ghost use Rattle.text_numbers.specs.Numbers.{IsNumbering};

    ghost Value = { List (List ℕ) };

    ghost view = { λ n. map (λ t. t.now) n.texts.items };

    ghost invariant = { λ n. IsNumbering n.numbers (map (λ t. t.now) n.texts.items) };
}

/// Gives a text a number in a map. After an error the map is as before.
fn insert<'a>(
    numbers: &mut BTreeMap<&'a [u8], u32>,
    text: &'a [u8],
    number: u32,
) -> Result<(), AllocError>
    ensures ok { OnOk result ((other : List ℕ) → number_in numbers.new other ≡ (if bytes_eq text.now other then number else number_in numbers.old other)) }
    ensures err { OnErr result ((other : List ℕ) → number_in numbers.new other ≡ number_in numbers.old other) }
{
    numbers.insert(text, number)?;
    Ok(())
}

/// Adds a text that has no number. After an error the numbers are as before.
fn add_new<'a>(
    texts: &mut Vec<&'a [u8]>,
    numbers: &mut BTreeMap<&'a [u8], u32>,
    text: &'a [u8],
) -> Result<u32, AllocError>
    requires numbers { IsNumbering numbers.old (map (λ t. t.now) texts.old.items) }
    requires new { number_of (map (λ t. t.now) texts.old.items) text.now ≡ 0 }
    ensures numbers { IsNumbering numbers.new (map (λ t. t.now) texts.new.items) }
    ensures ok { OnOk result (map (λ t. t.now) texts.new.items ≡ map (λ t. t.now) texts.old.items ++ text.now ∷ []) }
    ensures number { IfOk result (λ number. number ≡ number_of (map (λ t. t.now) texts.new.items) text.now) }
    ensures some { IfOk result (λ number. number ≢ 0) }
    ensures err { OnErr result (map (λ t. t.now) texts.new.items ≡ map (λ t. t.now) texts.old.items) }
{
    let count = texts.len();
    if count >= u32::MAX as usize {
        return Err(AllocError);
    }
    let number = count as u32 + 1;
    texts.push(text)?;
    match insert(numbers, text, number) {
        Ok(()) => Ok(number),
        Err(error) => {
            texts.truncate(count);
            Err(error)
        }
    }
}

impl<'a> TextNumbers<'a> {
    /// No text has a number. Takes no memory.
    pub fn new(alloc: Global) -> Self
        ensures { result ≡ [] }
    {
        TextNumbers {
            texts: Vec::new(alloc),
            numbers: BTreeMap::new(alloc),
        }
    }

    /// How many texts have numbers.
    pub fn len(&self) -> usize
        ensures { result ≡ length self.now }
    {
        self.texts.len()
    }

    /// The texts in the order of their numbers.
    pub fn texts(&self) -> &[&'a [u8]]
        ensures { map (λ t. t.now) result.now ≡ self.now }
    {
        &self.texts
    }

    /// The number of a text, 0 where it has none. A search.
    pub fn number(&self, text: &[u8]) -> u32
        ensures { result ≡ number_of self.now text.now }
    {
        self.numbers.get(text).copied().unwrap_or(0)
    }

    /// The text of a number, or `None` where it is no text's.
    pub fn text(&self, number: u32) -> Option<&'a [u8]>
        ensures { number ≢ 0 → option_map (λ t. t.now) result ≡ slice_get self.now (number - 1) }
    {
        let place = number.checked_sub(1)?;
        self.texts.get(place as usize).copied()
    }

    /// The number of a text, which gets the next one where it has none. A search. After an error the numbers are as
    /// before.
    pub fn add(&mut self, text: &'a [u8]) -> Result<u32, AllocError>
        ensures number { IfOk result (λ number. number ≡ number_of self.new text.now) }
        ensures some { IfOk result (λ number. number ≢ 0) }
        ensures ok { OnOk result (self.new ≡ with_text self.old text.now) }
        ensures err { OnErr result (self.new ≡ self.old) }
    {
        let number = self.number(text);
        if number != 0 {
            return Ok(number);
        }
        add_new(&mut self.texts, &mut self.numbers, text)
    }
}
