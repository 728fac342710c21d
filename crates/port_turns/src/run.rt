//! Plain turns of a thread, as many as come.

ghost use Rattle.std.specs.Prelude.{◌≡◌, ◌≤◌, ◌+◌};
ghost use Rattle.thread_moves.specs.Thread.{thread_of};
ghost use Rattle.port_turns.specs.Plain.{CanGoOn, PlainTurns};

use crate::maker::PlainMaker;
use op_core::ThreadCode;
use rollback_core::ReadyThread;
use step_port::StepPort;

/// Gives a thread turns, one after another, on the words of a port: at most this number, and none after the first that isn't
/// plain. Says how many it gave, maybe none, also where a plain turn would come next. Takes no memory but what the thread's code
/// takes.
///
/// A plain turn is a silent step, or one of an attempt to read the class of an object, or to read or write a word of an object. The
/// thread doesn't have to wait after it, and hands no thread out by it. Other threads may make steps on the words between any two
/// of them.
///
/// What [`turn`](rollback_core::turn) asks of the thread and the port must be so wherever turns of this thread alone lead while it
/// hasn't ended.
pub fn run_plain<C: ThreadCode, P: StepPort>(
    ready: &mut ReadyThread<C>,
    port: &mut P,
    most: u64,
) -> u64
    requires { CanGoOn C.code ready.old.own.bounds P.allows P.stepped (thread_of C.state C.saved ready.old) port.old }
    ensures most { result ≤ most }
    ensures plain { PlainTurns C.code ready.old.own.bounds P.stepped (thread_of C.state C.saved ready.old) port.old ready.old.own.last_kind result
        (thread_of C.state C.saved ready.new) port.new ready.new.own.last_kind }
    ensures counted { (ready.old.own.counted ≤ ready.new.own.counted) × (ready.new.own.counted ≤ ready.old.own.counted + result) }
    ensures bounds { ready.new.own.bounds ≡ ready.old.own.bounds }
{
    let mut maker = PlainMaker { port, left: most };
    ready.give_turns(&mut maker);
    most - maker.left
}
