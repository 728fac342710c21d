//! What turns tell the rows of a journal.

ghost use Rattle.std.specs.Prelude.{◌≡◌, ◌<◌, ◌≤◌, OnOk};
ghost use Rattle.core_runs.specs.Cores.{Core};
ghost use Rattle.journal_rows.specs.Rows.{AreRowsTold};
ghost use Rattle.journal_rows.specs.Told.{RowsTold, after_row_calls};
ghost use Rattle.plain_words.specs.Table.{words_in};
ghost use Rattle.thread_moves.specs.Thread.{thread_of};
ghost use Rattle.core_law.specs.Calls.{end_call_told, end_calls_told};
ghost use Rattle.word_machine.specs.Machine.{threads_in, IsCoreOf};
ghost use Rattle.word_texts.specs.PutBack.{levels_back};
ghost use Rattle.traced_runs.specs.Calls.{calls_of_shown, calls_of_levels, calls_of_turn};

use heap_words::Area;
use journal_rows::JournalRows;
use op_core::{NoMemory, ThreadCode};
use section_state::{State, revoke_of};
use thread_moves::{JThread, is_in};
use word_machine::{ToldTurn, WordMachine};

/// The number of the kind of the step that puts a word back.
const RESTORE_WORD: u8 = 3;

/// The number of the kind of the step that marks levels undone.
const MARK_UNDONE: u8 = 10;

// Tells the rows of the event that others see of a thread's turn, or of the word that the turn put back.
fn tell_shown(rows: &mut JournalRows, thread: u8, turn: &ToldTurn) -> Result<(), NoMemory>
    ensures { OnOk result ((s : RowsTold) → AreRowsTold rows.old s → AreRowsTold rows.new (after_row_calls (calls_of_shown thread turn.now) s)) }
{
    if turn.kind == RESTORE_WORD {
        return rows.put_back(thread);
    }
    match turn.event {
        Some(event) => rows.add_event(event),
        None => Ok(()),
    }
}

// Tells the rows which levels a thread's turn opened, closed or undid.
fn tell_levels(rows: &mut JournalRows, thread: u8, turn: &ToldTurn) -> Result<(), NoMemory>
    requires { turn.now.kind ≡ 10 → turn.now.levels_after < 255 }
    ensures { OnOk result ((s : RowsTold) → AreRowsTold rows.old s → AreRowsTold rows.new (after_row_calls (calls_of_levels thread turn.now) s)) }
{
    if turn.kind == MARK_UNDONE {
        return rows.undo_levels(thread, turn.levels_after);
    }
    if turn.levels_before < turn.levels_after {
        return rows.open_level(thread);
    }
    if turn.levels_after < turn.levels_before {
        rows.close_levels(thread, turn.levels_after);
    }
    Ok(())
}

/// Tells the rows what a turn of a thread shows.
///
/// # Errors
/// `NoMemory` where memory runs out, and where `JournalRows` gives it for numbers that have no room.
pub(crate) fn tell_turn(rows: &mut JournalRows, thread: u8, turn: &ToldTurn) -> Result<(), NoMemory>
    requires { turn.now.kind ≡ 10 → turn.now.levels_after < 255 }
    ensures { OnOk result ((s : RowsTold) → AreRowsTold rows.old s → AreRowsTold rows.new (after_row_calls (calls_of_turn thread turn.now) s)) }
{
    tell_shown(rows, thread, turn)?;
    tell_levels(rows, thread, turn)
}

// How many of its open levels a thread has to undo.
fn levels_back<C: ThreadCode + Drop>(machine: &WordMachine<C>, thread: &JThread<C>) -> u16
    ensures { result ≡ levels_back (words_in machine.now.words) (thread_of C.state C.saved thread.now) }
{
    let section = thread.section();
    let word = machine.word(Area::Section(section));
    if section != 0 && is_in(State::Revoking, word) {
        (thread.levels() as u16 + 1).saturating_sub(revoke_of(word) as u16)
    } else {
        0
    }
}

// Tells the rows which levels the thread of a number is to undo, where it is there and is to undo some.
fn tell_end<C: ThreadCode + Drop>(machine: &WordMachine<C>, rows: &mut JournalRows, number: u8)
    ensures { (s : RowsTold) → AreRowsTold rows.old s → AreRowsTold rows.new
        (after_row_calls (end_call_told (words_in machine.now.words) number (threads_in (thread_of C.state C.saved) machine.now.seats.places.items number)) s) }
{
    if let Some(thread) = machine.thread(number) {
        let back = levels_back(machine, thread);
        if back > 0 {
            let outermost = (thread.levels() as u16).saturating_sub(back);
            rows.leave_levels_out(number, outermost as u8);
        }
    }
}

/// Tells the rows which levels threads are to undo where the run ends: those of the threads below a number.
pub(crate) fn tell_ends<C: ThreadCode + Drop>(
    machine: &WordMachine<C>,
    rows: &mut JournalRows,
    count: u16,
)
    requires { count ≤ 256 }
    ensures { (core : Core C.State) → IsCoreOf (thread_of C.state C.saved) machine.now.words machine.now.seats.places.items core
        → (s : RowsTold) → AreRowsTold rows.old s → AreRowsTold rows.new (after_row_calls (end_calls_told core count) s) }
{
    for number in 0..count {
        tell_end(machine, rows, number as u8);
    }
}
