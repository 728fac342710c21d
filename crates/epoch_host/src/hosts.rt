//! Runs on host threads.

ghost use Rattle.std.specs.Prelude.{◌≡◌, ◌<◌, true, None, [], ◌∷◌, List, length, map, IfOk};
ghost use Rattle.std.specs.List.{All};
ghost use Rattle.plain_words.specs.Opening.{HasPlace};
ghost use Rattle.table_words.specs.Setups.{setup};
ghost use Rattle.table_words.specs.Tables.{setup_in};
ghost use Rattle.table_hosts.specs.declared.seated.SeatedThread.{SeatedThread};
ghost use Rattle.table_hosts.specs.Standing.{ThreadsCanGoOn};
ghost use Rattle.table_hosts.specs.Seated.{StandsOn};
ghost use Rattle.epoch_host.specs.Work.{BecameBy, IsWorkOf};
ghost use Rattle.epoch_host.specs.Runs.{how_of, HasEndedOrIdles, IsHostRun};

use crate::alone::try_alone;
use crate::epoch::{ordered, run_epoch};
use crate::push::push;
use crate::worked::Worked;
use fixed_objects::Opening;
use going_threads::Going;
use jr_ports::Gate;
use op_core::{How, Limits, NoMemory, ThreadCode};
use std::alloc::Global;
use std::thread::Threads;
use table_hosts::{SeatedThread, begin};
use table_words::{TableSeat, TableWords};

/// A run on host threads, as it is handed over.
#[derive(Drop)]
pub struct HostRun<C: ThreadCode> {
    /// The table of its words.
    pub table: TableWords<C>,
    /// The seat of the first thread of `going`, whose number is the lowest.
    pub first: TableSeat<C>,
    /// The seats of the others, in the same order.
    pub rest: Vec<TableSeat<C>>,
    /// All threads, in order of their numbers. `how` says which limit was met, if one was. It is `None` where all threads have
    /// ended, and where none of them can go on: what goes on with them finds out which.
    pub going: Going<C>,
}

// Whether all of them have ended.
fn all_over<C: ThreadCode>(threads: &[SeatedThread<C>]) -> bool
    ensures { result ≡ true → All (λ x. x.thread.own.over ≡ true) threads.now }
{
    for seated in threads {
        if !seated.thread.thread().is_over() {
            return false;
        }
    }
    true
}

// Whether the run is over after an epoch: a limit was met, or all threads have ended.
fn is_over<C: ThreadCode>(all: &Worked<C>) -> bool
    ensures { result ≡ true → all.now.met ≡ None → All (λ x. x.thread.own.over ≡ true) all.now.threads.items }
{
    all.met.is_some() || all_over(all.threads.as_slice())
}

// Whether the run is over after the turns that the host alone gave: a limit was met, or all of these were idle.
fn is_through<C: ThreadCode>(idle: bool, all: &Worked<C>) -> bool
    ensures { result ≡ true → all.now.met ≡ None → idle ≡ true }
{
    all.met.is_some() || idle
}

// An epoch, and where none of its turns counted, turns that the host alone gives. Answers all threads with the counts since the
// run began, and whether the run is over.
fn run_round<C: ThreadCode + Drop + Send, R: Threads + Sync, G: Gate + Sync>(
    rt: &R,
    table: &TableWords<C>,
    alloc: Global,
    all: Worked<C>,
    workers: u32,
    most: u32,
    gate: &G,
    epoch: u64,
) -> Result<(Worked<C>, bool), NoMemory>
    requires workers { 0 < workers }
    requires can { ThreadsCanGoOn C.state C.code (setup_in table.now) }
    requires stand { All (StandsOn C.state C.saved C.code table.now) all.threads.items }
    ensures work { IfOk result (λ r. (threads : List (SeatedThread C)) → BecameBy C.state C.saved C.code table.now threads all.threads.items all.opened all.undone
        → IsWorkOf C.state C.saved C.code table.now threads r.0) }
    ensures over { IfOk result (λ r. r.1 ≡ true → r.0.met ≡ None → All (HasEndedOrIdles C.state C.saved C.code table.now) r.0.threads.items) }
{
    let Worked {
        threads,
        opened,
        undone,
        counted: _,
        met: _,
    } = all;
    let worked = run_epoch(rt, table, alloc, threads, workers, most, gate, epoch)?;
    let worked = worked.after(opened, undone)?;
    if is_over(&worked) {
        return Ok((worked, true));
    }
    if worked.counted {
        return Ok((worked, false));
    }
    let Worked {
        threads,
        opened,
        undone,
        counted: _,
        met: _,
    } = worked;
    let (tried, idle) = try_alone(table, alloc, threads)?;
    let tried = tried.after(opened, undone)?;
    let tried = ordered(alloc, tried)?;
    let over = is_through(idle, &tried);
    Ok((tried, over))
}

// Runs epochs until the run is over.
fn run_epochs<C: ThreadCode + Drop + Send, R: Threads + Sync, G: Gate + Sync>(
    rt: &R,
    table: &TableWords<C>,
    alloc: Global,
    first: SeatedThread<C>,
    workers: u32,
    most: u32,
    gate: &G,
) -> Result<Worked<C>, NoMemory>
    requires workers { 0 < workers }
    requires can { ThreadsCanGoOn C.state C.code (setup_in table.now) }
    requires stands { StandsOn C.state C.saved C.code table.now first }
    ensures work { IfOk result (IsWorkOf C.state C.saved C.code table.now (first ∷ [])) }
    ensures over { IfOk result (λ r. r.met ≡ None → All (HasEndedOrIdles C.state C.saved C.code table.now) r.threads.items) }
{
    let mut threads = Vec::new(alloc);
    push(&mut threads, first)?;
    let mut all = Worked::untouched(threads);
    for epoch in 1..u64::MAX {
        let (more, over) = run_round(rt, table, alloc, all, workers, most, gate, epoch)?;
        if over {
            return Ok(more);
        }
        all = more;
    }
    Err(NoMemory)
}

// Hands over the threads, each with its seat.
fn hand_over<C: ThreadCode + Drop>(
    alloc: Global,
    table: TableWords<C>,
    all: Worked<C>,
) -> Result<HostRun<C>, NoMemory>
    requires { 0 < length all.threads.items }
    ensures table { IfOk result (λ run. run.table ≡ table) }
    ensures threads { IfOk result (λ run. run.going.threads.items ≡ map (λ x. x.thread) all.threads.items) }
    ensures seats { IfOk result (λ run. run.first ∷ run.rest.items ≡ map (λ x. x.seat) all.threads.items) }
    ensures counts { IfOk result (λ run. (run.going.opened ≡ all.opened) × (run.going.undone ≡ all.undone)) }
    ensures how { IfOk result (λ run. run.going.how ≡ how_of all.met) }
{
    let Worked {
        threads: seated,
        opened,
        undone,
        counted: _,
        met,
    } = all;
    let mut threads = Vec::new(alloc);
    let mut rest = Vec::new(alloc);
    for one in seated {
        let SeatedThread { thread, seat } = one;
        push(&mut threads, thread)?;
        push(&mut rest, seat)?;
    }
    let first = rest.remove(0);
    let how = met.map(|met| How::Limit(met.thread, met.limit));
    let going = Going {
        threads,
        opened,
        undone,
        how,
    };
    Ok(HostRun {
        table,
        first,
        rest,
        going,
    })
}

/// Runs the program on at most `workers` host threads at once (0 counts as 1), by epochs, and hands over all its threads with the
/// table of their words. In an epoch each thread that hasn't ended is given turns until it has had `slice` turns, has ended, has met
/// a limit or has to wait; each worker passes the gate before. After a limit no thread is given more turns, and the run is over.
/// After an epoch in which no turn counted, the host alone gives each thread that hasn't ended up to eight turns, one thread after
/// another, until one counts; where none does and none meets a limit, the run is over. So it is where all threads have ended.
///
/// The fixed objects must have their places within the limits, of the code nothing must be saved, and whatever threads of the
/// program want must be possible (`ThreadsCanGoOn`).
///
/// # Errors
///
/// `NoMemory` where there was no memory. The run is then gone.
pub fn run_hosts<C: ThreadCode + Drop + Send, R: Threads + Sync, G: Gate + Sync>(
    rt: &R,
    alloc: Global,
    opening: &Opening,
    limits: &Limits,
    code: C,
    workers: u32,
    slice: u32,
    gate: &G,
) -> Result<HostRun<C>, NoMemory>
    requires place { HasPlace opening.now limits.now }
    requires saved { C.saved code ≡ [] }
    requires can { ThreadsCanGoOn C.state C.code (setup opening.now limits.now code) }
    ensures { IfOk result (IsHostRun C.state C.saved C.code (setup opening.now limits.now code)) }
{
    let (table, first) = begin(alloc, opening, limits, code)?;
    let all = run_epochs(rt, &table, alloc, first, workers.max(1), slice, gate)?;
    hand_over(alloc, table, all)
}
