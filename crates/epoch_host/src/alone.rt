//! The turns that the host alone gives.

ghost use Rattle.std.specs.Prelude.{◌≡◌, true, [], ◌∷◌, ◌++◌, List, IfOk};
ghost use Rattle.std.specs.List.{All};
ghost use Rattle.table_words.specs.Tables.{setup_in};
ghost use Rattle.table_hosts.specs.declared.seated.SeatedThread.{SeatedThread};
ghost use Rattle.table_hosts.specs.Standing.{ThreadsCanGoOn};
ghost use Rattle.table_hosts.specs.Seated.{StandsOn};
ghost use Rattle.epoch_host.specs.Work.{IsWorkOf};
ghost use Rattle.epoch_host.specs.Runs.{HasEndedOrIdles};

use crate::worked::Worked;
use op_core::{NoMemory, ThreadCode};
use std::alloc::Global;
use table_hosts::{SeatedThread, Slice, try_thread};
use table_words::TableWords;

/// A thread that can go on has a turn that counts among this number of turns, or meets a limit.
const ENOUGH: u32 = 8;

// Whether the slice had enough turns, which were all idle. Such turns hand nobody out.
fn is_idle<C: ThreadCode>(slice: &Slice<C>) -> bool
    ensures idle { result ≡ true → slice.now.tally.idle ≡ 8 }
    ensures none { result ≡ true → slice.now.born.items ≡ [] }
{
    slice.born.is_empty() && slice.tally.idle == ENOUGH
}

// Gives the thread turns, if those of all threads before it were idle and it hasn't ended. Answers whether all turns were idle.
fn try_one<C: ThreadCode + Drop>(
    table: &TableWords<C>,
    alloc: Global,
    seated: SeatedThread<C>,
    idle: bool,
    worked: &mut Worked<C>,
) -> Result<bool, NoMemory>
    requires can { ThreadsCanGoOn C.state C.code (setup_in table.now) }
    requires stands { StandsOn C.state C.saved C.code table.now seated }
    ensures work { IfOk result (λ _. (threads : List (SeatedThread C)) → IsWorkOf C.state C.saved C.code table.now threads worked.old
        → IsWorkOf C.state C.saved C.code table.now (threads ++ seated ∷ []) worked.new) }
    ensures before { IfOk result (λ r. r ≡ true → idle ≡ true) }
    ensures idle { IfOk result (λ r. r ≡ true → All (HasEndedOrIdles C.state C.saved C.code table.now) worked.old.threads.items
        → All (HasEndedOrIdles C.state C.saved C.code table.now) worked.new.threads.items) }
{
    if !idle {
        worked.keep(seated)?;
        return Ok(false);
    }
    if seated.thread.thread().is_over() {
        worked.keep(seated)?;
        return Ok(true);
    }
    let slice = try_thread(table, alloc, seated, ENOUGH)?;
    let idle = is_idle(&slice);
    worked.add(slice)?;
    Ok(idle)
}

/// Gives each thread that hasn't ended some turns, one thread after another, until a turn isn't idle. Answers all threads, and
/// whether all turns were idle.
///
/// # Errors
///
/// `NoMemory` where there was no memory. The threads are then gone.
pub(crate) fn try_alone<C: ThreadCode + Drop>(
    table: &TableWords<C>,
    alloc: Global,
    threads: Vec<SeatedThread<C>>,
) -> Result<(Worked<C>, bool), NoMemory>
    requires can { ThreadsCanGoOn C.state C.code (setup_in table.now) }
    requires stand { All (StandsOn C.state C.saved C.code table.now) threads.items }
    ensures work { IfOk result (λ r. IsWorkOf C.state C.saved C.code table.now threads.items r.0) }
    ensures idle { IfOk result (λ r. r.1 ≡ true → All (HasEndedOrIdles C.state C.saved C.code table.now) r.0.threads.items) }
{
    let mut worked = Worked::untouched(Vec::new(alloc));
    let mut idle = true;
    for seated in threads {
        idle = try_one(table, alloc, seated, idle, &mut worked)?;
    }
    Ok((worked, idle))
}
