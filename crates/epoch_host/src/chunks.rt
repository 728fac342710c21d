//! The chunks of an epoch.

ghost use Rattle.std.specs.Prelude.{◌≡◌, ◌≤◌, ◌<◌, [], ◌∷◌, ◌++◌, List, length, IfOk, OnOk};
ghost use Rattle.table_hosts.specs.declared.seated.SeatedThread.{SeatedThread};
ghost use Rattle.epoch_host.specs.Work.{threads_of_chunks, AreSameThreads};

use crate::push::push;
use op_core::{NoMemory, ThreadCode};
use std::alloc::Global;
use table_hosts::SeatedThread;

/// The threads on which a worker works in an epoch.
#[derive(Drop)]
pub(crate) struct Chunk<C: ThreadCode> {
    /// The worker's number, from 1.
    pub(crate) worker: u32,
    /// The threads.
    pub(crate) threads: Vec<SeatedThread<C>>,
}

// Puts a thread at the end of its list.
fn put_apart<C: ThreadCode + Drop>(
    seated: SeatedThread<C>,
    live: &mut Vec<SeatedThread<C>>,
    over: &mut Vec<SeatedThread<C>>,
) -> Result<(), NoMemory>
    ensures { OnOk result ((threads : List (SeatedThread C)) → AreSameThreads threads (over.old.items ++ live.old.items)
        → AreSameThreads (threads ++ seated ∷ []) (over.new.items ++ live.new.items)) }
{
    if seated.thread.thread().is_over() {
        return push(over, seated);
    }
    push(live, seated)
}

/// Parts the threads into those that haven't ended and those that have, each in the order in which they were.
pub(crate) fn part<C: ThreadCode + Drop>(
    alloc: Global,
    threads: Vec<SeatedThread<C>>,
) -> Result<(Vec<SeatedThread<C>>, Vec<SeatedThread<C>>), NoMemory>
    ensures { IfOk result (λ r. AreSameThreads threads.items (r.1.items ++ r.0.items)) }
{
    let mut live = Vec::new(alloc);
    let mut over = Vec::new(alloc);
    for seated in threads {
        put_apart(seated, &mut live, &mut over)?;
    }
    Ok((live, over))
}

/// Cuts the threads into at most `workers` chunks, of which all but the last have the same length.
pub(crate) fn cut<C: ThreadCode + Drop>(
    alloc: Global,
    threads: Vec<SeatedThread<C>>,
    workers: u32,
) -> Result<Vec<Chunk<C>>, NoMemory>
    requires { 0 < workers }
    ensures threads { IfOk result (λ chunks. threads_of_chunks chunks.items ≡ threads.items) }
    ensures most { IfOk result (λ chunks. length chunks.items ≤ workers) }
{
    let size = threads.len().div_ceil(workers as usize);
    let mut rest = threads;
    let mut chunks = Vec::new(alloc);
    let mut last = 1;
    for worker in 1..workers {
        if rest.len() <= size {
            break;
        }
        let behind = rest.split_off(size)?;
        let chunk = Chunk {
            worker,
            threads: rest,
        };
        push(&mut chunks, chunk)?;
        rest = behind;
        last = worker + 1;
    }
    let chunk = Chunk {
        worker: last,
        threads: rest,
    };
    push(&mut chunks, chunk)?;
    Ok(chunks)
}
