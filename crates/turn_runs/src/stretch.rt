//! Many turns of a thread.

ghost use Rattle.std.specs.Prelude.{◌≡◌, ℕ, IfOk, IsOk, OnErr};
ghost use Rattle.thread_automaton.specs.declared.Attempt.{Attempt};
ghost use Rattle.thread_automaton.specs.NextMove.{next_move};
ghost use Rattle.thread_moves.specs.Thread.{thread_of};
ghost use Rattle.rollback_core.specs.Turn.{MoveTakesMemory};
ghost use Rattle.turn_runs.specs.Turns.{StaysReady};
ghost use Rattle.turn_runs.specs.Stretch.{Stretched};

use crate::Looks;
use op_core::{NoMemory, ThreadCode};
use rollback_core::{ReadyThread, Turn, turn};
use step_port::StepPort;

/// What came of many turns of a thread.
#[derive(Drop)]
pub struct Stretch<C: ThreadCode, S> {
    /// How many turns were made.
    pub count: u64,
    /// What the last of them came to, if the caller has to look at it. All others passed by.
    pub last: Option<Turn<C, S>>,
}

/// Gives a thread turns, one after another, on the words of a port: at most this number, and none after the first at which the
/// caller has to look. The caller has to look at a turn that is lost or blocked, hands a thread out or makes no step, and at
/// those at which it says that it looks.
///
/// What [`turn`] asks of the thread and the port must be so wherever turns of this thread alone lead.
///
/// # Errors
///
/// `NoMemory` where there was no memory for the first turn. The thread and the words are then as before. Where there was none
/// for a later turn, the call ends with the turns that were made.
pub fn turns<C: ThreadCode + Drop, P: StepPort>(
    ready: &mut ReadyThread<C>,
    port: &mut P,
    most: u64,
    looks: Looks,
) -> Result<Stretch<C, P::Pass>, NoMemory>
    requires { StaysReady C.code ready.old.own.bounds P.allows P.stepped (thread_of C.state C.saved ready.old) port.old }
    ensures stretched { IfOk result (Stretched (thread_of C.state C.saved) C.code ready.old.own.bounds P.stepped P.handed looks most
        (thread_of C.state C.saved ready.old) port.old (thread_of C.state C.saved ready.new) port.new ready.new.own.last_kind) }
    ensures bounds { ready.new.own.bounds ≡ ready.old.own.bounds }
    ensures ready { StaysReady C.code ready.new.own.bounds P.allows P.stepped (thread_of C.state C.saved ready.new) port.new }
    ensures err { OnErr result (thread_of C.state C.saved ready.new ≡ thread_of C.state C.saved ready.old) }
    ensures err_port { OnErr result (port.new ≡ port.old) }
    ensures memory { OnErr result (MoveTakesMemory (next_move C.code ready.old.own.bounds (thread_of C.state C.saved ready.old))) }
    ensures undo { (w : ℕ) → ready.old.own.attempt ≡ Attempt.Undoing w → IsOk result }
{
    for passed in 0..most {
        match turn(ready, port) {
            Ok(said) => match looks.seen(ready.thread().last_kind(), said) {
                Some(last) => {
                    return Ok(Stretch {
                        count: passed + 1,
                        last: Some(last),
                    });
                }
                None => {}
            },
            Err(NoMemory) if passed == 0 => return Err(NoMemory),
            Err(NoMemory) => {
                return Ok(Stretch {
                    count: passed,
                    last: None,
                });
            }
        }
    }
    Ok(Stretch {
        count: most,
        last: None,
    })
}
