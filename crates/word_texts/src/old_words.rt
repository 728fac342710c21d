//! Words that are put back, by their places.

ghost use Rattle.std.specs.Prelude.{◌≡◌, ◌≤◌, ◌^◌, ℕ, None, OnOk, reverse, nat_eq};
ghost use Rattle.std.specs.Option.{option_or};
ghost use Rattle.std.specs.HashMap.{get};

use op_core::NoMemory;
use std::alloc::Global;
use std::collections::HashMap;
use write_log::Noted;

/// Words by their places. Contracts see the word of each place, if there is one (`old_at`).
#[derive(Drop)]
pub(crate) struct OldWords {
    table: HashMap<u32, u64>,
    ghost below: { (p : ℕ) → 2 ^ 32 ≤ p → get nat_eq table p ≡ None },
}

impl OldWords {
    ghost use Rattle.word_texts.specs.OldWords.{old_at, noted_at, oldest_at};

    /// No words. Takes no memory.
    pub(crate) fn new(alloc: Global) -> Self
        ensures { (p : ℕ) → old_at result p ≡ None }
    {
        OldWords {
            table: HashMap::new(alloc),
        }
    }

    // Adds a word at its place, where none is there yet.
    fn add(&mut self, noted: Noted) -> Result<(), NoMemory>
        ensures { OnOk result ((p : ℕ) → old_at self.new p ≡ option_or (old_at self.old p) (noted_at noted p)) }
    {
        if self.table.contains_key(&noted.at) {
            return Ok(());
        }
        match self.table.insert(noted.at, noted.old) {
            Ok(_) => Ok(()),
            Err(_) => Err(NoMemory),
        }
    }

    /// Adds the words of a log, which comes with its oldest first: for each place where no word is yet the oldest one.
    pub(crate) fn add_log(&mut self, log: &[Noted]) -> Result<(), NoMemory>
        ensures { OnOk result ((p : ℕ) → old_at self.new p ≡ option_or (old_at self.old p) (oldest_at (reverse log.now) p)) }
    {
        for noted in log {
            self.add(*noted)?;
        }
        Ok(())
    }

    /// The word of a place, if there is one.
    pub(crate) fn get(&self, place: u64) -> Option<u64>
        ensures { result ≡ old_at self.now place }
    {
        match u32::try_from(place) {
            Ok(place) => self.table.get(&place).copied(),
            Err(_) => None,
        }
    }
}
