//! The numbers of classes by their names.

ghost use Rattle.std.specs.Prelude.{◌≡◌, ℕ, List, OnOk, OnErr};
ghost use Rattle.class_supers.specs.Numbers.{number_named, with_number};

use std::alloc::{AllocError, Global};
use std::collections::BTreeMap;

/// Numbers of names. Contracts see them as a function of names (`number_named`).
#[derive(Drop)]
pub struct ClassNumbers<'a> {
    numbers: BTreeMap<&'a [u8], u32>,
}

impl<'a> ClassNumbers<'a> {
    /// No name has a number.
    pub fn new(alloc: Global) -> Self
        ensures { (name : List ℕ) → number_named result name ≡ 0 }
    {
        ClassNumbers {
            numbers: BTreeMap::new(alloc),
        }
    }

    /// The number of a name, 0 where it has none. A search.
    pub fn number(&self, name: &[u8]) -> u32
        ensures { result ≡ number_named self.now name.now }
    {
        self.numbers.get(name).copied().unwrap_or(0)
    }

    /// Gives a name a number, where it has none. After an error the numbers are as before.
    pub fn add(&mut self, name: &'a [u8], number: u32) -> Result<(), AllocError>
        ensures ok { OnOk result ((other : List ℕ) → number_named self.new other ≡ with_number (number_named self.old) name.now number other) }
        ensures err { OnErr result ((other : List ℕ) → number_named self.new other ≡ number_named self.old other) }
    {
        if self.number(name) == 0 {
            self.numbers.insert(name, number)?;
        }
        Ok(())
    }
}
