//! The units of a text.

ghost use Rattle.std.specs.Prelude.{◌≡◌, IfOk, unwrap_or};
ghost use Rattle.heap_words.specs.declared.areas.Area.{Area};
ghost use Rattle.plain_words.specs.Table.{words_in};
ghost use Rattle.word_texts.specs.OldWords.{old_at, unit_then, units_then};

use crate::old_words::OldWords;
use heap_words::{Area, Header, HeapWord};
use op_core::{NoMemory, Rows, ThreadCode, Units};
use std::alloc::Global;
use word_machine::WordMachine;

// The word at a place of the objects once old words are put back.
fn word_then<C: ThreadCode + Drop>(machine: &WordMachine<C>, old: &OldWords, place: u64) -> u64
    ensures { result ≡ unwrap_or (old_at old.now place) (words_in machine.now.words (Area.Object place)) }
{
    match old.get(place) {
        Some(word) => word,
        None => machine.object_word(place),
    }
}

// Unit number i of an array once old words are put back.
fn unit_then<C: ThreadCode + Drop>(
    machine: &WordMachine<C>,
    old: &OldWords,
    array: u32,
    i: u32,
) -> u16
    ensures { result ≡ unit_then (old_at old.now) (words_in machine.now.words) array i }
{
    let word = word_then(machine, old, array as u64 + 2 + i as u64);
    (HeapWord::unpack(word).value % 0x1_0000) as u16
}

/// The units of an array once old words are put back: as many as its header says.
pub(crate) fn units_then<C: ThreadCode + Drop>(
    alloc: Global,
    machine: &WordMachine<C>,
    old: &OldWords,
    array: u32,
) -> Result<Units, NoMemory>
    ensures { IfOk result (λ units. units ≡ units_then (old_at old.now) (words_in machine.now.words) array) }
{
    let count = Header::unpack(machine.word(Area::Object(array))).length;
    let mut units = Rows::new(alloc);
    for i in 0..count {
        units.push(unit_then(machine, old, array, i))?;
    }
    Ok(units)
}
