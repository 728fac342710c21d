//! The program of the tests.

ghost use Rattle.std.specs.Prelude.{◌≡◌, ◌+◌, ◌≤◌, ◌^◌, [], IfOk};
ghost use Rattle.table_cases.specs.Program.{program_opening, program_limits, plain_at};

use fixed_objects::{FixedObject, Opening};
use op_core::{Limits, Line, Op, Rows, ScriptStep};
use std::alloc::{AllocError, Global};

/// Main starts the thread that begins at step 8, enters two monitors, one inside the other, writes a word, exits both, prints a
/// line and ends. The other thread enters and exits both, one after another, and ends.
pub const STEPS: [ScriptStep; 13] = [
    ScriptStep::Operation(Op::Start(8, 9)),
    ScriptStep::Operation(Op::Enter(13)),
    ScriptStep::Operation(Op::Enter(15)),
    ScriptStep::Operation(Op::Write(17, 0, 7)),
    ScriptStep::Operation(Op::Exit(15)),
    ScriptStep::Operation(Op::Exit(13)),
    ScriptStep::Operation(Op::Print(Line::Empty)),
    ScriptStep::Operation(Op::End(None)),
    ScriptStep::Operation(Op::Enter(15)),
    ScriptStep::Operation(Op::Exit(15)),
    ScriptStep::Operation(Op::Enter(13)),
    ScriptStep::Operation(Op::Exit(13)),
    ScriptStep::Operation(Op::End(None)),
];

/// Between them the two threads make steps of each kind that a script can make. Main starts the thread that begins at step 8,
/// enters a monitor, writes a word, enters a second monitor, exits both, waits for the end of the other thread, and ends. The other
/// thread initializes a class, makes an object, enters main's first monitor twice, prints a line, notifies nobody, exits twice,
/// reads the word that main writes, and ends.
pub const KIND_STEPS: [ScriptStep; 19] = [
    ScriptStep::Operation(Op::Start(8, 9)),
    ScriptStep::Operation(Op::Enter(13)),
    ScriptStep::Operation(Op::Write(17, 0, 7)),
    ScriptStep::Operation(Op::Enter(15)),
    ScriptStep::Operation(Op::Exit(15)),
    ScriptStep::Operation(Op::Exit(13)),
    ScriptStep::Operation(Op::Join(8)),
    ScriptStep::Operation(Op::End(None)),
    ScriptStep::Operation(Op::Init(2)),
    ScriptStep::Operation(Op::InitDone(2, true)),
    ScriptStep::Operation(Op::New(2, 1)),
    ScriptStep::Operation(Op::Enter(13)),
    ScriptStep::Operation(Op::Enter(13)),
    ScriptStep::Operation(Op::Print(Line::Empty)),
    ScriptStep::Operation(Op::Notify(13)),
    ScriptStep::Operation(Op::Exit(13)),
    ScriptStep::Operation(Op::Exit(13)),
    ScriptStep::Operation(Op::Read(17, 0)),
    ScriptStep::Operation(Op::End(None)),
];

/// Main waits for its own end, which never comes.
pub const WAITING_STEPS: [ScriptStep; 2] = [
    ScriptStep::Operation(Op::Join(1)),
    ScriptStep::Operation(Op::End(None)),
];

/// The limits of the programs.
pub const LIMITS: Limits = Limits {
    turns: 1000,
    heap: 8,
    sections: 1000,
};

// An object that is no thread.
fn plain(alloc: Global, reference: u32, words: &[u32]) -> Result<FixedObject, AllocError>
    ensures { IfOk result (λ o. o ≡ plain_at reference words.now) }
{
    let words = Rows::from_vec(Vec::from_slice(alloc, words)?);
    Ok(FixedObject {
        reference,
        class: 1,
        length: 0,
        words,
        started: 0,
    })
}

/// What is there as it begins: main's Thread, the other Thread, whose priority is 9, the objects whose monitors are entered, and
/// the one that is written.
pub fn opening(alloc: Global) -> Result<Opening, AllocError>
    ensures { IfOk result (λ o. o ≡ program_opening) }
{
    let main = FixedObject::main_thread(alloc, 1, 3)?;
    let other = FixedObject {
        reference: 8,
        class: 3,
        length: 0,
        words: Rows::from_vec(Vec::from_slice(alloc, &[9, 0, 0])?),
        started: 0,
    };
    let mut objects = Vec::new(alloc);
    objects.push(main)?;
    objects.push(other)?;
    objects.push(plain(alloc, 13, &[])?)?;
    objects.push(plain(alloc, 15, &[])?)?;
    objects.push(plain(alloc, 17, &[0])?)?;
    Ok(Opening {
        objects: Rows::from_vec(objects),
        ready: Rows::new(alloc),
        classes: 3,
        first: 20,
        main_thread: 1,
    })
}
