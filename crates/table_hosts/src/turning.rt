//! Turns of a thread on the table.

ghost use Rattle.std.specs.Prelude.{◌≡◌, ◌≤◌, ◌<◌, ◌+◌, false, [], IfOk, IfSome, OnErr};
ghost use Rattle.thread_automaton.specs.NextMove.{next_move};
ghost use Rattle.thread_moves.specs.Thread.{thread_of};
ghost use Rattle.rollback_core.specs.Turn.{kind_made};
ghost use Rattle.table_words.specs.Setups.{setup_bounds};
ghost use Rattle.table_words.specs.Ports.{port_setup, port_view};
ghost use Rattle.table_hosts.specs.Standing.{ThreadsCanGoOn, StandsAtView};
ghost use Rattle.table_hosts.specs.Families.{Begot};
ghost use Rattle.table_hosts.specs.Turns.{TakesTurn, TookTurn};
ghost use Rattle.table_hosts.specs.Tallies.{CameTo, IsWithin, TookPlainly};
ghost use Rattle.table_words.specs.declared.table.TableWords.{TableWords};
ghost use Rattle.table_hosts.specs.Seated.{BeginsOn, BornStandsOn, parts_born, parts_of_child};

use crate::SeatedThread;
use crate::tally::{Pace, Tally, goes_on, tally_of};
use op_core::{NoMemory, ThreadCode};
use port_turns::run_plain;
use rollback_core::{ReadyThread, Turn, turn};
use table_words::{TablePort, TableSeat};

/// Gives a thread a turn through the port of its seat. After an error thread and port are as before.
pub(crate) fn turn_on<C: ThreadCode + Drop>(
    thread: &mut ReadyThread<C>,
    port: &mut TablePort<'_, C>,
) -> Result<Turn<C, TableSeat<C>>, NoMemory>
    requires can { ThreadsCanGoOn C.state C.code (port_setup port.old) }
    requires stands { StandsAtView C.state C.saved C.code (port_setup port.old) thread.old (port_view port.old) }
    requires going { thread.old.own.over ≡ false }
    ensures table { IfOk result (λ r. port.new.table.now ≡ port.old.table.now) }
    ensures stands { IfOk result (λ r. StandsAtView C.state C.saved C.code (port_setup port.old) thread.new (port_view port.new)) }
    ensures begot { IfOk result (λ r. Begot (port_view port.old) (port_view port.new) (parts_born r)) }
    ensures takes { IfOk result (TakesTurn C.state C.saved C.code (port_setup port.old) (thread_of C.state C.saved thread.old) (port_view port.old)
        (thread_of C.state C.saved thread.new) (port_view port.new)) }
    ensures born { IfOk result (BornStandsOn C.state C.saved C.code port.old.table.now) }
    ensures last_kind { IfOk result (λ _. thread.new.own.last_kind ≡ kind_made (next_move C.code (setup_bounds (port_setup port.old)) (thread_of C.state C.saved thread.old))) }
    ensures err { OnErr result (thread_of C.state C.saved thread.new ≡ thread_of C.state C.saved thread.old) }
    ensures err_port { OnErr result (port.new ≡ port.old) }
{
    turn(thread, port)
}

/// What a turn of a slice came to.
#[derive(Drop)]
pub(crate) struct Came<C: ThreadCode> {
    /// Whether more turns follow at once.
    pub(crate) goes_on: bool,
    /// What is counted of it.
    pub(crate) tally: Tally,
    /// The thread that was handed out, if one was.
    pub(crate) child: Option<SeatedThread<C>>,
}

// The thread that a turn handed out, if it handed one out.
fn child_of<C: ThreadCode + Drop>(turned: Turn<C, TableSeat<C>>) -> Option<SeatedThread<C>>
    ensures parts { parts_of_child result ≡ parts_born turned }
    ensures stands { (table : TableWords C) → BornStandsOn C.state C.saved C.code table turned → IfSome result (BeginsOn C.state C.saved C.code table) }
{
    match turned {
        Turn::Born(thread, seat) => {
            let thread = Box::into_inner(thread);
            Some(SeatedThread { thread, seat })
        }
        _ => None,
    }
}

/// Turns that a thread was given.
#[derive(Clone, Copy)]
pub(crate) struct Given {
    /// How many they were.
    pub(crate) turns: u32,
    /// How many of them counted.
    pub(crate) counted: u32,
}

/// Gives a thread some of the plain turns that come next, at most this many: none where the turns have to be idle.
pub(crate) fn run_free<C: ThreadCode + Drop>(
    thread: &mut ReadyThread<C>,
    port: &mut TablePort<'_, C>,
    pace: Pace,
    most: u32,
) -> Given
    requires can { ThreadsCanGoOn C.state C.code (port_setup port.old) }
    requires stands { StandsAtView C.state C.saved C.code (port_setup port.old) thread.old (port_view port.old) }
    ensures most { result.turns ≤ most }
    ensures table { port.new.table.now ≡ port.old.table.now }
    ensures stands { StandsAtView C.state C.saved C.code (port_setup port.old) thread.new (port_view port.new) }
    ensures begot { Begot (port_view port.old) (port_view port.new) [] }
    ensures took { TookPlainly C.state C.saved C.code (port_setup port.old) result.turns
        (thread_of C.state C.saved thread.old) (port_view port.old) (thread_of C.state C.saved thread.new) (port_view port.new) }
    ensures counted { thread.new.own.counted ≡ thread.old.own.counted + result.counted }
    ensures few { result.counted ≤ result.turns }
    ensures pace { 0 < result.turns → pace ≡ Pace.WhileFree }
{
    match pace {
        Pace::WhileFree if !thread.thread().is_over() => {
            let before = thread.thread().own.counted;
            let turns = run_plain(thread, port, u64::from(most)) as u32;
            let counted = (thread.thread().own.counted - before) as u32;
            Given { turns, counted }
        }
        _ => Given {
            turns: 0,
            counted: 0,
        },
    }
}

/// A turn of a slice at this pace.
pub(crate) fn next_turn<C: ThreadCode + Drop>(
    thread: &mut ReadyThread<C>,
    port: &mut TablePort<'_, C>,
    pace: Pace,
) -> Result<Came<C>, NoMemory>
    requires can { ThreadsCanGoOn C.state C.code (port_setup port.old) }
    requires stands { StandsAtView C.state C.saved C.code (port_setup port.old) thread.old (port_view port.old) }
    requires going { thread.old.own.over ≡ false }
    ensures table { IfOk result (λ r. port.new.table.now ≡ port.old.table.now) }
    ensures stands { IfOk result (λ r. StandsAtView C.state C.saved C.code (port_setup port.old) thread.new (port_view port.new)) }
    ensures begot { IfOk result (λ r. Begot (port_view port.old) (port_view port.new) (parts_of_child r.child)) }
    ensures took { IfOk result (λ r. TookTurn C.state C.saved C.code (port_setup port.old) (CameTo pace (kind_made (next_move C.code (setup_bounds (port_setup port.old)) (thread_of C.state C.saved thread.old))) r.goes_on r.tally)
        (thread_of C.state C.saved thread.old) (port_view port.old) (thread_of C.state C.saved thread.new) (port_view port.new)) }
    ensures child { IfOk result (λ r. IfSome r.child (BeginsOn C.state C.saved C.code port.old.table.now)) }
    ensures small { IfOk result (λ r. IsWithin 1 r.tally) }
{
    let turned = turn_on(thread, port)?;
    let goes_on = goes_on(pace, &turned);
    let tally = tally_of(&turned, thread.thread().last_kind());
    let child = child_of(turned);
    Ok(Came {
        goes_on,
        tally,
        child,
    })
}
