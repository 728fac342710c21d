//! An epoch.

ghost use Rattle.std.specs.Prelude.{◌≡◌, ◌<◌, ◌++◌, [], None, List, IfOk};
ghost use Rattle.std.specs.List.{All, AllZip};
ghost use Rattle.table_words.specs.declared.table.TableWords.{TableWords};
ghost use Rattle.table_words.specs.Tables.{setup_in};
ghost use Rattle.table_hosts.specs.declared.seated.SeatedThread.{SeatedThread};
ghost use Rattle.table_hosts.specs.Standing.{ThreadsCanGoOn};
ghost use Rattle.table_hosts.specs.Seated.{StandsOn};
ghost use Rattle.epoch_host.specs.declared.chunks.Chunk.{Chunk};
ghost use Rattle.epoch_host.specs.Work.{threads_of_chunks, AreSameThreads, IsWorkOf, AreWorkOf};

use crate::chunks::{Chunk, cut, part};
use crate::order::in_order;
use crate::work::work;
use crate::worked::Worked;
use jr_ports::Gate;
use op_core::{NoMemory, ThreadCode};
use std::alloc::Global;
use std::thread::{Threads, map_vec};
use table_hosts::SeatedThread;
use table_words::TableWords;

// Adds the threads of all workers to some others.
fn gather<C: ThreadCode + Drop>(
    others: Worked<C>,
    results: Vec<Result<Worked<C>, NoMemory>>,
) -> Result<Worked<C>, NoMemory>
    ensures { IfOk result (λ all. (table : TableWords C) (threads : List (SeatedThread C)) (chunks : List (Chunk C))
        → IsWorkOf C.state C.saved C.code table threads others → AreWorkOf C.state C.saved C.code table chunks results.items
        → IsWorkOf C.state C.saved C.code table (threads ++ threads_of_chunks chunks) all) }
{
    let mut all = others;
    for result in results {
        all.absorb(result?)?;
    }
    Ok(all)
}

/// The same threads in order of their numbers.
pub(crate) fn ordered<C: ThreadCode + Drop>(
    alloc: Global,
    worked: Worked<C>,
) -> Result<Worked<C>, NoMemory>
    ensures threads { IfOk result (λ r. AreSameThreads worked.threads.items r.threads.items) }
    ensures counts { IfOk result (λ r. (r.opened ≡ worked.opened) × (r.undone ≡ worked.undone) × (r.met ≡ worked.met)) }
{
    let Worked {
        threads,
        opened,
        undone,
        counted,
        met,
    } = worked;
    let threads = in_order(alloc, threads)?;
    Ok(Worked {
        threads,
        opened,
        undone,
        counted,
        met,
    })
}

// Has a worker work on each chunk, all at once, each on a host thread of its own.
fn work_on_all<C: ThreadCode + Drop + Send, R: Threads + Sync, G: Gate + Sync>(
    rt: &R,
    table: &TableWords<C>,
    alloc: Global,
    chunks: Vec<Chunk<C>>,
    most: u32,
    gate: &G,
    epoch: u64,
) -> Result<Vec<Result<Worked<C>, NoMemory>>, NoMemory>
    requires can { ThreadsCanGoOn C.state C.code (setup_in table.now) }
    requires stand { All (StandsOn C.state C.saved C.code table.now) (threads_of_chunks chunks.items) }
    ensures { IfOk result (λ r. AreWorkOf C.state C.saved C.code table.now chunks.items r.items) }
{
    let on_chunk = |chunk: Chunk<C>| -> Result<Worked<C>, NoMemory>
        requires { ThreadsCanGoOn C.state C.code (setup_in table.now) × All (StandsOn C.state C.saved C.code table.now) chunk.threads.items }
        ensures { IfOk result (IsWorkOf C.state C.saved C.code table.entry.now chunk.threads.items) }
    { work(table, alloc, chunk, most, gate, epoch) };
    Ok(map_vec(rt, chunks, &on_chunk)?)
}

/// Runs an epoch of threads: those that haven't ended are cut into chunks, and a worker works on each. Answers all threads, in order
/// of their numbers.
///
/// # Errors
///
/// `NoMemory` where there was no memory. The threads are then gone.
pub(crate) fn run_epoch<C: ThreadCode + Drop + Send, R: Threads + Sync, G: Gate + Sync>(
    rt: &R,
    table: &TableWords<C>,
    alloc: Global,
    threads: Vec<SeatedThread<C>>,
    workers: u32,
    most: u32,
    gate: &G,
    epoch: u64,
) -> Result<Worked<C>, NoMemory>
    requires workers { 0 < workers }
    requires can { ThreadsCanGoOn C.state C.code (setup_in table.now) }
    requires stand { All (StandsOn C.state C.saved C.code table.now) threads.items }
    ensures { IfOk result (IsWorkOf C.state C.saved C.code table.now threads.items) }
{
    let (live, over) = part(alloc, threads)?;
    let chunks = cut(alloc, live, workers)?;
    let results = work_on_all(rt, table, alloc, chunks, most, gate, epoch)?;
    let all = gather(Worked::untouched(over), results)?;
    ordered(alloc, all)
}
