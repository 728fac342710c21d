//! Rows of numbers that share their pages: a row begins as another one and is changed in places, at the cost of
//! the pages that change. Many rows that differ little therefore take the memory of one.
#![tactic(auto)]

ghost use Rattle.std.specs.Prelude.{◌≡◌, ◌<◌, ◌+◌, IfOk, OnOk, OnErr, length, slice_set};
ghost use Rattle.shared_rows.specs.Rows.{number_at, set_at};

use std::alloc::{AllocError, Global};
use std::sync::Arc;

/// The numbers of a page.
const PAGE: usize = 64;

/// A row of numbers of 32 bits, by place from 0. Past the places that were set it has zeros. Contracts see it as a
/// function of places (`number_at`).
#[derive(Drop)]
pub struct SharedRow {
    alloc: Global,
    pages: Vec<Arc<[u32; 64]>>,
}

impl SharedRow {
    /// A row of zeros. Takes no memory.
    pub fn new(alloc: Global) -> Self
        ensures { number_at result ≡ (λ _. 0) }
    {
        SharedRow {
            alloc,
            pages: Vec::new(alloc),
        }
    }

    /// A row of the same numbers. The two share their pages until one of them is changed there.
    pub fn copy(&self) -> Result<Self, AllocError>
        ensures { IfOk result (λ copy. number_at copy ≡ number_at self.now) }
    {
        let mut pages = Vec::new(self.alloc);
        for page in &self.pages {
            pages.push(Arc::try_clone(page)?)?;
        }
        Ok(SharedRow {
            alloc: self.alloc,
            pages,
        })
    }

    /// The number at a place. Takes no memory.
    pub fn get(&self, place: u32) -> u32
        ensures { result ≡ number_at self.now place }
    {
        match self.pages.get(place as usize / PAGE) {
            Some(page) => page[place as usize % PAGE],
            None => 0,
        }
    }

    /// Sets the number at a place. The rows that share the page keep theirs. After an error the row is as before.
    pub fn set(&mut self, place: u32, number: u32) -> Result<(), AllocError>
        ensures ok { OnOk result (number_at self.new ≡ set_at (number_at self.old) place number) }
        ensures err { OnErr result (number_at self.new ≡ number_at self.old) }
    {
        let page = place as usize / PAGE;
        self.reach(page)?;
        let numbers = with_number(&self.pages[page], place as usize % PAGE, number);
        self.pages[page] = Arc::new(self.alloc, numbers)?;
        Ok(())
    }

    // Adds pages of zeros until there is one of this number.
    fn reach(&mut self, page: usize) -> Result<(), AllocError>
        requires { page < 67108864 }
        ensures numbers { number_at self.new ≡ number_at self.old }
        ensures page { OnOk result (page < length self.new.pages.items) }
    {
        for _ in self.pages.len()..page + 1 {
            self.pages.push(Arc::new(self.alloc, [0; 64])?)?;
        }
        Ok(())
    }
}

// The page with another number at one place.
fn with_number(page: &[u32; 64], place: usize, number: u32) -> [u32; 64]
    requires { place < 64 }
    ensures page { result ≡ slice_set page.now place number }
    ensures inside { place < length page.now }
{
    let mut numbers = *page;
    numbers[place] = number;
    numbers
}
