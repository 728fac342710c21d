//! Pairs of parts that were found assignable.

ghost use Rattle.std.specs.Prelude.{◌≡◌, ◌⊎◌, ℕ, true, false};
ghost use Rattle.type_rules.specs.Assignable.{Hierarchy};
ghost use Rattle.type_lists.specs.Compared.{KnowsRightly, AreAssignable, knows};

use crate::parts::Part;
use std::alloc::{AllocError, Global};
use std::collections::HashSet;

/// How many pairs are kept at most: where there are more, all are forgotten.
const MOST: usize = 1_000_000;

/// Pairs of parts of one height of which the first is assignable to the second.
#[derive(Drop)]
pub(crate) struct KnownPairs {
    pairs: HashSet<(u8, u32, u32)>,
}

impl KnownPairs {
    // No pairs. Takes no memory.
    pub(crate) fn new(alloc: Global) -> Self
        ensures { (height low high : ℕ) → knows result height low high ≡ false }
    {
        KnownPairs {
            pairs: HashSet::new(alloc),
        }
    }

    // Tests whether a pair is known.
    pub(crate) fn has(&self, height: u8, low: u32, high: u32) -> bool
        ensures { result ≡ knows self.now height low high }
    {
        self.pairs.contains(&(height, low, high))
    }

    // Forgets all pairs, and gives back their memory.
    pub(crate) fn forget(&mut self)
        ensures { (height low high : ℕ) → knows self.new height low high ≡ false }
    {
        self.pairs.clear();
        self.pairs.shrink_to_fit();
    }

    // Forgets all pairs where there are too many.
    fn make_room(&mut self)
        ensures { (h l g : ℕ) → knows self.new h l g ≡ true → knows self.old h l g ≡ true }
    {
        if self.pairs.len() >= MOST {
            self.pairs.clear();
        }
    }

    // Makes a pair known. It may make others unknown, also where there is an error.
    pub(crate) fn add(&mut self, height: u8, low: u32, high: u32) -> Result<(), AllocError>
        ensures { (h l g : ℕ)
            → knows self.new h l g ≡ true
            → (knows self.old h l g ≡ true) ⊎ ((h ≡ height) × (l ≡ low) × (g ≡ high)) }
    {
        self.make_room();
        self.pairs.insert((height, low, high))?;
        Ok(())
    }
}
