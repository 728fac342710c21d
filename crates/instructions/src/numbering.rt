//! Numbers that are found by a key.

ghost use Rattle.std.specs.Prelude.{◌≡◌, ◌≢◌, ◌==◌, ◌<◌, ◌^◌, [], ◌∷◌, ◌++◌, length, OnOk, OnErr};
ghost use Rattle.std.specs.List.{All, position_from};
ghost use Rattle.instructions.specs.Numbering.{IsSameAt};

use crate::table::at;
use std::alloc::{AllocError, Global};
use std::marker::Model;

/// Keys in order, each of which has its number, from 0, and is found by a table: the offsets of instructions, or
/// the instructions at which there are stack map frames. Contracts see the list of the keys.
#[derive(Drop)]
pub struct Numbering {
    keys: Vec<u32>,
    /// By key: its number.
    numbers: Vec<Option<u32>>,
}

impl Model for Numbering {
    ghost use Rattle.std.specs.Prelude.{List, ℕ};
    ghost use Rattle.instructions.specs.Numbering.{AreNumbersOf};

    ghost Value = { List ℕ };

    ghost view = { λ o. o.keys.items };

    ghost invariant = { λ o. AreNumbersOf o.keys.items o.numbers.items };
}

impl Numbering {
    /// No keys. Takes no memory.
    pub fn new(alloc: Global) -> Self
        ensures { result ≡ [] }
    {
        Numbering {
            keys: Vec::new(alloc),
            numbers: Vec::new(alloc),
        }
    }

    /// How many keys there are.
    pub fn len(&self) -> usize
        ensures { result ≡ length self.now }
    {
        self.keys.len()
    }

    /// Whether there are no keys.
    pub fn is_empty(&self) -> bool
        ensures { result ≡ (length self.now == 0) }
    {
        self.keys.is_empty()
    }

    /// The number of a key, from 0, or `None` where it isn't there.
    pub fn number_at(&self, key: u32) -> Option<u32>
        ensures { result ≡ position_from (λ k. k == key) 0 self.now }
    {
        at(&self.numbers, key as usize)
    }

    /// Appends a key to the others. An error leaves them as they were.
    pub fn push(&mut self, key: u32) -> Result<(), AllocError>
        requires count { length self.old < 2 ^ 32 }
        requires apart { All (λ k. k ≢ key) self.old }
        ensures ok { OnOk result (self.new ≡ self.old ++ key ∷ []) }
        ensures err { OnErr result (self.new ≡ self.old) }
    {
        let number = self.keys.len() as u32;
        make_room(&mut self.numbers, key as usize)?;
        self.keys.push(key)?;
        self.numbers[key as usize] = Some(number);
        Ok(())
    }
}

/// Makes the numbers long enough for a key.
fn make_room(numbers: &mut Vec<Option<u32>>, key: usize) -> Result<(), AllocError>
    ensures room { OnOk result (key < length numbers.new.items) }
    ensures same { IsSameAt numbers.old.items numbers.new.items }
{
    for _ in numbers.len()..=key {
        numbers.push(None)?;
    }
    Ok(())
}
