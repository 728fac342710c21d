//! Usual turns of a thread, as many as come.

ghost use Rattle.std.specs.Prelude.{◌≡◌, ◌≤◌};
ghost use Rattle.thread_moves.specs.Thread.{thread_of};
ghost use Rattle.turn_runs.specs.Turns.{StaysReady};
ghost use Rattle.quick_turns.specs.Usual.{UsualTurns};

use crate::WordSight;
use crate::maker::UsualMaker;
use op_core::ThreadCode;
use rollback_core::ReadyThread;
use step_port::StepPort;

/// Gives a thread turns, one after another, on the words of a port: at most this number, and none after the first that isn't
/// usual. Says how many it gave, maybe none. Takes no memory but what the thread's code takes, and for the log of overwritten
/// words.
///
/// A usual turn is a silent step, or one of an attempt to read the class of an object, to read or write a word of an object, or to
/// ask for a class that is initialized, or that the thread itself initializes, where the attempt succeeds at once: the thread's
/// section is as it has last seen it, and the word was written in no section, in the own one, or in one that is committed or pinned
/// as deep as the word was written. At each of these turns the thread is enabled, and none lets another thread go on that waits for
/// a word.
///
/// What [`turn`](rollback_core::turn) asks of the thread and the port must be so wherever turns of this thread alone lead.
pub fn run_usual<C: ThreadCode, P: StepPort, W: WordSight<P>>(
    ready: &mut ReadyThread<C>,
    port: &mut P,
    sight: &W,
    most: u64,
) -> u64
    requires { StaysReady C.code ready.old.own.bounds P.allows P.stepped (thread_of C.state C.saved ready.old) port.old }
    ensures most { result ≤ most }
    ensures usual { UsualTurns C.code ready.old.own.bounds P.stepped W.words (thread_of C.state C.saved ready.old) port.old ready.old.own.last_kind result
        (thread_of C.state C.saved ready.new) port.new ready.new.own.last_kind }
    ensures bounds { ready.new.own.bounds ≡ ready.old.own.bounds }
    ensures ready { StaysReady C.code ready.new.own.bounds P.allows P.stepped (thread_of C.state C.saved ready.new) port.new }
{
    let mut maker = UsualMaker {
        port,
        sight,
        left: most,
    };
    ready.give_turns(&mut maker);
    most - maker.left
}
