//! Class names by their places.

ghost use Rattle.std.specs.Prelude.{◌≡◌, ◌∷◌, [], ℕ, List, Option, OnOk, unwrap_or};
ghost use Rattle.named_types.specs.Others.{place_in, first_place, with_place, AreNames, HasMore};

use std::alloc::{AllocError, Global};
use std::collections::BTreeMap;

/// The places at which class names first occur in a list of them. Contracts say which list it is (`AreNames`).
#[derive(Drop)]
pub struct ClassNames<'a> {
    places: BTreeMap<&'a [u8], u32>,
    count: u32,
}

impl<'a> ClassNames<'a> {
    /// No names.
    pub fn new(alloc: Global) -> Self
        ensures { AreNames result [] }
    {
        ClassNames {
            places: BTreeMap::new(alloc),
            count: 0,
        }
    }

    fn find(&self, name: &[u8]) -> Option<u32>
        ensures { result ≡ place_in self.now.places name.now }
    {
        self.places.get(name).copied()
    }

    /// The place of a name, 0 where it isn't there. A search.
    pub fn place(&self, name: &[u8]) -> u32
        ensures { (names : List (List ℕ)) → AreNames self.now names → result ≡ unwrap_or (first_place names name.now) 0 }
    {
        self.find(name).unwrap_or(0)
    }

    // Gives a name the next place, if it has none.
    fn put(&mut self, name: &'a [u8]) -> Result<(), AllocError>
        ensures places { OnOk result ((other : List ℕ) → place_in self.new.places other ≡ with_place (place_in self.old.places) name.now self.old.count other) }
        ensures count { self.new.count ≡ self.old.count }
    {
        match self.find(name) {
            Some(_) => {}
            None => {
                self.places.insert(name, self.count)?;
            }
        }
        Ok(())
    }

    /// Adds a name. There is room for 2^32 of them.
    pub fn add(&mut self, name: &'a [u8]) -> Result<(), AllocError>
        ensures { OnOk result (HasMore self.old self.new (name.now ∷ [])) }
    {
        let count = self.count.checked_add(1).ok_or(AllocError)?;
        self.put(name)?;
        self.count = count;
        Ok(())
    }
}
