//! The texts that a program made, by the reference of their array.

ghost use Rattle.std.specs.Prelude.{◌≡◌, IfOk};
ghost use Rattle.java_machine.specs.Made.{kept_at, AreKept};

use op_core::{Bytes, MadeText, NoMemory};
use std::alloc::Global;
use std::collections::HashMap;
use text_units::text_of_units;

/// The texts that a program made, in UTF-8, by the reference of their array.
#[derive(Drop)]
pub struct MadeLines {
    table: HashMap<u32, Bytes>,
}

impl MadeLines {
    /// The texts in UTF-8: a pair of surrogates is one character, a surrogate in no pair is `?`. It fails where memory runs
    /// out alone.
    pub fn new(alloc: Global, made: &[MadeText]) -> Result<Self, NoMemory>
        ensures { IfOk result (AreKept made.now) }
    {
        let mut table = HashMap::new(alloc);
        for text in made {
            let bytes = text_of_units(alloc, text.units.as_slice())?;
            match table.insert(text.at, bytes) {
                Ok(_) => {}
                Err(_) => return Err(NoMemory),
            }
        }
        Ok(MadeLines { table })
    }

    /// The text of the array at a reference, empty where there is none.
    pub(crate) fn text(&self, at: u32) -> &[u8]
        ensures { result.now ≡ kept_at self.now at }
    {
        match self.table.get(&at) {
            Some(bytes) => bytes.as_slice(),
            None => &[],
        }
    }
}
