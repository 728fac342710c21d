//! What is left of runs in which levels are undone, as the text of their journals.

use journal_rows::JournalRows;
use op_core::NoMemory;
use std::alloc::Global;
use std::test::Fail;
use trace_journal::{JournalItem, item_in, write_journal};

/// What rows are told. Threads are numbers, and levels are the number of the outermost ones that stay.
#[derive(Clone, Copy)]
enum Call {
    /// The event of this line.
    Event(&'static str),
    Open(u8),
    Close(u8, u8),
    PutBack(u8),
    Undo(u8, u8),
    Leave(u8, u8),
}

/// Calls, and the journal of what is left.
const RUNS: [(&[Call], &str); 6] = [
    (&[], "jrev-trace 2\nend 0\n"),
    // An inner level is undone to its entry, with one word put back.
    (
        &[
            Call::Open(2),
            Call::Event("2 0 enter 30"),
            Call::Event("2 1 write 40 0 5"),
            Call::Open(2),
            Call::Event("2 0 enter 31"),
            Call::Event("2 2 write 40 1 6"),
            Call::PutBack(2),
            Call::Undo(2, 1),
            Call::Open(3),
            Call::Event("3 0 enter 31"),
        ],
        "jrev-trace 2\n2 0 enter 30\n2 1 write 40 0 5\nundone 2 2 1\n3 0 enter 31\nend 3\n",
    ),
    // A section is undone with its inner level; what the other thread did meanwhile stays.
    (
        &[
            Call::Event("2 4 read 40 0 0"),
            Call::Open(2),
            Call::Event("2 0 enter 30"),
            Call::Event("3 0 read 40 0 0"),
            Call::Open(2),
            Call::Event("2 0 enter 31"),
            Call::PutBack(2),
            Call::PutBack(2),
            Call::Event("3 1 read 40 1 0"),
            Call::Undo(2, 0),
            Call::Open(2),
            Call::Event("2 0 enter 30"),
        ],
        "jrev-trace 2\n2 4 read 40 0 0\n3 0 read 40 0 0\n3 1 read 40 1 0\nundone 2 1 2\n2 0 enter 30\nend 4\n",
    ),
    // What was done in a level that has closed is undone with the level outside of it.
    (
        &[
            Call::Open(2),
            Call::Event("2 0 enter 30"),
            Call::Open(2),
            Call::Event("2 0 enter 31"),
            Call::Event("2 0 exit 31"),
            Call::Close(2, 1),
            Call::Event("2 1 write 40 0 5"),
            Call::Undo(2, 0),
        ],
        "jrev-trace 2\nundone 2 1 0\nend 0\n",
    ),
    // What was done in a section that has ended stays, whatever its thread undoes later.
    (
        &[
            Call::Open(2),
            Call::Event("2 0 enter 30"),
            Call::PutBack(2),
            Call::Undo(2, 0),
            Call::Open(2),
            Call::Event("2 0 enter 30"),
            Call::Event("2 0 exit 30"),
            Call::Close(2, 0),
            Call::Open(2),
            Call::Event("2 3 enter 30"),
            Call::Undo(2, 0),
        ],
        "jrev-trace 2\nundone 2 1 1\n2 0 enter 30\n2 0 exit 30\nundone 2 1 0\nend 2\n",
    ),
    // Where the run ends, one thread is to undo its inner level.
    (
        &[
            Call::Open(2),
            Call::Event("2 0 enter 30"),
            Call::Open(3),
            Call::Event("3 0 enter 32"),
            Call::Open(2),
            Call::Event("2 0 enter 31"),
            Call::Event("3 0 read 40 0 0"),
            Call::PutBack(2),
            Call::Leave(2, 1),
        ],
        "jrev-trace 2\n2 0 enter 30\n3 0 enter 32\n3 0 read 40 0 0\nend 3\n",
    ),
];

fn tell(rows: &mut JournalRows, call: Call) -> Result<(), NoMemory> {
    match call {
        Call::Event(line) => match item_in(2, line.as_bytes()) {
            Some(JournalItem::Event(event)) => rows.add_event(event),
            _ => Ok(()),
        },
        Call::Open(thread) => rows.open_level(thread),
        Call::Close(thread, outermost) => {
            rows.close_levels(thread, outermost);
            Ok(())
        }
        Call::PutBack(thread) => rows.put_back(thread),
        Call::Undo(thread, outermost) if outermost < 255 => rows.undo_levels(thread, outermost),
        Call::Undo(_, _) => Ok(()),
        Call::Leave(thread, outermost) => {
            rows.leave_levels_out(thread, outermost);
            Ok(())
        }
    }
}

// The text of the journal that is left of these calls.
fn left(alloc: Global, calls: &[Call]) -> Result<String, NoMemory> {
    let mut rows = JournalRows::new(alloc)?;
    for call in calls {
        tell(&mut rows, *call)?;
    }
    let kept = rows.finish(alloc)?;
    if kept.events.as_slice().len() > 4_194_304 {
        return Err(NoMemory);
    }
    write_journal(alloc, kept.events.as_slice(), kept.undos.as_slice())
}

#[test]
fn what_is_left_of_runs_is_their_journal(rt: HostRuntime) -> Result<(), Fail> {
    for (calls, journal) in &RUNS {
        match left(rt.alloc(), calls) {
            Ok(text) => assert!(rt; text.as_str() == *journal),
            Err(NoMemory) => return Err(Fail::from("there is memory")),
        }
    }
    Ok(())
}
