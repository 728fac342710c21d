//! The texts of printed lines that a program made.

ghost use Rattle.std.specs.Prelude.{◌≡◌, All, IfOk};
ghost use Rattle.core_runs.specs.Cores.{Core};
ghost use Rattle.op_core.specs.MadeTexts.{references_of};
ghost use Rattle.plain_words.specs.Table.{words_in};
ghost use Rattle.thread_moves.specs.Thread.{thread_of};
ghost use Rattle.word_machine.specs.Machine.{IsCoreOf};
ghost use Rattle.word_texts.specs.OldWords.{old_at, AreUnitsThen};
ghost use Rattle.word_texts.specs.Texts.{AreTextsOf};

use crate::back::old_words;
use crate::named::named_once;
use crate::old_words::OldWords;
use crate::units::units_then;
use op_core::{Line, MadeText, NoMemory, Rows, ThreadCode};
use std::alloc::Global;
use word_machine::WordMachine;

// The texts of arrays once old words are put back.
fn texts_then<C: ThreadCode + Drop>(
    alloc: Global,
    machine: &WordMachine<C>,
    old: &OldWords,
    arrays: &[u32],
) -> Result<Rows<MadeText>, NoMemory>
    ensures references { IfOk result (λ made. references_of made ≡ arrays.now) }
    ensures units { IfOk result (All (AreUnitsThen (old_at old.now) (words_in machine.now.words))) }
{
    let mut made = Rows::new(alloc);
    for array in arrays {
        let units = units_then(alloc, machine, old, *array)?;
        made.push(MadeText { at: *array, units })?;
    }
    Ok(made)
}

/// The texts of the lines that name arrays, as they will be once each thread has undone what it is to undo: each array once, by
/// rising reference, with its units. Where no line names an array there are none, and no thread is looked at.
///
/// # Errors
///
/// `NoMemory` where there was no memory.
pub fn made_texts<C: ThreadCode + Drop>(
    alloc: Global,
    machine: &WordMachine<C>,
    lines: &[Line],
) -> Result<Rows<MadeText>, NoMemory>
    ensures { IfOk result (λ made. (core : Core C.State) → IsCoreOf (thread_of C.state C.saved) machine.now.words machine.now.seats.places.items core → AreTextsOf core lines.now made) }
{
    let arrays = named_once(alloc, lines)?;
    if arrays.is_empty() {
        return Ok(Rows::new(alloc));
    }
    let old = old_words(alloc, machine)?;
    texts_then(alloc, machine, &old, &arrays)
}
