//! The thread that a schedule gives the next turn.

ghost use Rattle.std.specs.Prelude.{IfOk, OnOk};
ghost use Rattle.thread_moves.specs.Thread.{thread_of};
ghost use Rattle.schedules.specs.Run.{AreThose};
ghost use Rattle.sched_core.specs.ScheduledRun.{CanGoOn};
ghost use Rattle.traced_runs.specs.TracedRun.{IsNextOf};

use op_core::{NoMemory, ThreadCode};
use sched_core::list_enabled;
use schedules::{Remaining, pick};
use word_machine::WordMachine;

/// The thread that has the next turn, or `None` where the order is through and no thread can go on. `enabled` is room for the
/// threads that can go on.
pub(crate) fn next_thread<C: ThreadCode + Drop>(
    machine: &WordMachine<C>,
    rest: &mut Remaining<'_>,
    enabled: &mut Vec<u8>,
) -> Result<Option<u8>, NoMemory>
    ensures { IfOk result (λ next. IsNextOf C.code (thread_of C.state C.saved) machine.now.bounds machine.now.words machine.now.seats.places.items
        rest.old next rest.new) }
{
    if let Some(thread) = rest.due(machine) {
        return Ok(Some(thread));
    }
    let number = rest.draw();
    list_enabled(machine, enabled)?;
    Ok(pick(enabled, number))
}
