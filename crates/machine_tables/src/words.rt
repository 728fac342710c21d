//! The 32-bit words of an object.

ghost use Rattle.std.specs.Prelude.{◌≡◌, ◌<◌, ◌%◌, ◌^◌, OnOk, OnErr, IfOk, IfSome, map, slice_get, slice_set, length, replicate, ◌==◌};

use op_core::{NoMemory, Units};
use std::alloc::{AllocError, Global};
use std::marker::Model;

/// The 32-bit words of an object, by place from 0: its fields or elements, of which a `long` takes two words
/// (JLS 17.7), or the static fields of a class where the object is the class's. Contracts see the list of them.
#[derive(Drop)]
pub struct Words {
    words: Vec<u32>,
}

impl Model for Words {
    ghost use Rattle.std.specs.Prelude.{List, ℕ};

    ghost Value = { List ℕ };

    ghost view = { λ words. words.words.items };
}

// The low 16 bits of each word.
fn low_halves(alloc: Global, words: &[u32]) -> Result<Vec<u16>, AllocError>
    ensures { IfOk result (λ halves. halves.items ≡ map (λ word. word % 2 ^ 16) words.now) }
{
    let mut halves = Vec::with_capacity(alloc, words.len())?;
    for word in words {
        halves.push((*word % 65_536) as u16)?;
    }
    Ok(halves)
}

impl Words {
    /// A copy of some words, or an error where there is no memory for it.
    pub fn copy_of(alloc: Global, words: &[u32]) -> Result<Self, NoMemory>
        ensures { IfOk result (λ copy. copy ≡ words.now) }
    {
        let words = Vec::from_slice(alloc, words)?;
        Ok(Words { words })
    }

    /// `count` words, all 0 as in a new object (JLS 4.12.5), or an error where there is no memory for them.
    pub fn zeros(alloc: Global, count: u64) -> Result<Self, NoMemory>
        ensures { IfOk result (λ words. words ≡ replicate count 0) }
    {
        let words = vec![in alloc; 0; count as usize]?;
        Ok(Words { words })
    }

    /// How many words there are.
    pub fn len(&self) -> usize
        ensures { result ≡ length self.now }
    {
        self.words.len()
    }

    /// Whether there are no words.
    pub fn is_empty(&self) -> bool
        ensures { result ≡ (length self.now == 0) }
    {
        self.words.is_empty()
    }

    /// The word at a place, or `None` past the end.
    pub fn get(&self, place: u32) -> Option<u32>
        ensures { result ≡ slice_get self.now place }
    {
        self.words.get(place as usize).copied()
    }

    /// The UTF-16 code units that they are as the elements of an array of chars: the low 16 bits of each (JVMS 2.3.1). It
    /// fails where memory runs out alone.
    pub fn units(&self, alloc: Global) -> Result<Units, NoMemory>
        ensures { IfOk result (λ units. units ≡ map (λ word. word % 2 ^ 16) self.now) }
    {
        let units = low_halves(alloc, self.words.as_slice())?;
        Ok(Units::from_vec(units))
    }

    /// Sets the word at a place. Past the end it does nothing.
    pub fn set(&mut self, place: u32, value: u32)
        ensures { self.new ≡ slice_set self.old place value }
    {
        let place = place as usize;
        if place < self.words.len() {
            self.words[place] = value;
        }
    }
}
