//! What a worker does in an epoch.

ghost use Rattle.std.specs.Prelude.{◌≡◌, ℕ, [], ◌∷◌, ◌++◌, List, IfOk};
ghost use Rattle.std.specs.List.{All};
ghost use Rattle.table_words.specs.Tables.{setup_in};
ghost use Rattle.table_hosts.specs.declared.seated.SeatedThread.{SeatedThread};
ghost use Rattle.table_hosts.specs.Standing.{ThreadsCanGoOn};
ghost use Rattle.table_hosts.specs.Seated.{StandsOn};
ghost use Rattle.epoch_host.specs.Work.{BecameBy, IsWorkOf};

use crate::chunks::Chunk;
use crate::worked::Worked;
use jr_ports::Gate;
use op_core::{NoMemory, ThreadCode};
use std::alloc::Global;
use table_hosts::{SeatedThread, Slice, load_stop, run_slice, set_stop};
use table_words::TableWords;

// Sets the stop word after a slice whose last turn met a limit.
fn stop_after<C: ThreadCode + Drop>(table: &TableWords<C>, slice: Slice<C>) -> Slice<C>
    requires { StandsOn C.state C.saved C.code table.now slice.seated }
    ensures thread { result.seated.thread ≡ slice.seated.thread }
    ensures tally { result.tally ≡ slice.tally }
    ensures became { (threads : List (SeatedThread C)) (opened undone : ℕ) → BecameBy C.state C.saved C.code table.now threads (slice.seated ∷ slice.born.items) opened undone
        → BecameBy C.state C.saved C.code table.now threads (result.seated ∷ result.born.items) opened undone }
{
    if slice.tally.limit.is_none() {
        return slice;
    }
    let Slice {
        seated,
        born,
        tally,
    } = slice;
    let seated = set_stop(table, seated);
    Slice {
        seated,
        born,
        tally,
    }
}

// Works on one thread, and answers whether the worker goes on: where the stop word is set, it gives the thread no turn and ends.
fn work_on<C: ThreadCode + Drop>(
    table: &TableWords<C>,
    alloc: Global,
    seated: SeatedThread<C>,
    most: u32,
    worked: &mut Worked<C>,
) -> Result<bool, NoMemory>
    requires can { ThreadsCanGoOn C.state C.code (setup_in table.now) }
    requires stands { StandsOn C.state C.saved C.code table.now seated }
    ensures { IfOk result (λ _. (threads : List (SeatedThread C)) → IsWorkOf C.state C.saved C.code table.now threads worked.old
        → IsWorkOf C.state C.saved C.code table.now (threads ++ seated ∷ []) worked.new) }
{
    let (seated, is_set) = load_stop(table, seated);
    if is_set {
        worked.keep(seated)?;
        return Ok(false);
    }
    let slice = run_slice(table, alloc, seated, most)?;
    worked.add(stop_after(table, slice))?;
    Ok(true)
}

/// Works on the threads of a chunk in an epoch: passes the gate, and then gives each thread a slice of at most `most` turns. Before
/// each thread it looks at the stop word, and ends where that is set: the other threads are handed back as they are. After a limit
/// it sets the stop word.
///
/// # Errors
///
/// `NoMemory` where there was no memory. The threads are then gone.
pub(crate) fn work<C: ThreadCode + Drop, G: Gate>(
    table: &TableWords<C>,
    alloc: Global,
    chunk: Chunk<C>,
    most: u32,
    gate: &G,
    epoch: u64,
) -> Result<Worked<C>, NoMemory>
    requires can { ThreadsCanGoOn C.state C.code (setup_in table.now) }
    requires stand { All (StandsOn C.state C.saved C.code table.now) chunk.threads.items }
    ensures { IfOk result (IsWorkOf C.state C.saved C.code table.now chunk.threads.items) }
{
    gate.pass(chunk.worker, epoch);
    let mut worked = Worked::untouched(Vec::new(alloc));
    let mut goes_on = true;
    for seated in chunk.threads {
        if goes_on {
            goes_on = work_on(table, alloc, seated, most, &mut worked)?;
        } else {
            worked.keep(seated)?;
        }
    }
    Ok(worked)
}
