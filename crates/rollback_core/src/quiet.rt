//! A turn in which a thread makes a silent step.

ghost use Rattle.std.specs.Prelude.{◌≡◌, ◌+◌, ◌<◌, ◌^◌, false, None, IfOk, OnOk, OnErr};
ghost use Rattle.op_core.specs.declared.Next.{Next};
ghost use Rattle.op_core.specs.ThreadCode.{leaves_any};
ghost use Rattle.thread_moves.specs.Thread.{thread_of, AreCounted};
ghost use Rattle.rollback_core.specs.Turn.{TurnedQuiet};

use crate::Turn;
use op_core::{CodeStop, Limit, NoMemory, ThreadCode};
use thread_automaton::Attempt;
use thread_moves::JThread;

pub(crate) fn quiet_turn<C: ThreadCode, S>(thread: &mut JThread<C>) -> Result<Turn<C, S>, NoMemory>
    requires settled { thread.old.own.opening ≡ None }
    requires silent { C.code.next (C.state thread.old.code) ≡ Next.Silent }
    requires stays { leaves_any C.code (C.saved thread.old.code) (C.state thread.old.code) ≡ false }
    requires room { thread.old.own.counted + 1 < 2 ^ 64 }
    requires counts { AreCounted (thread_of C.state C.saved thread.old) }
    ensures turned { IfOk result (λ r. TurnedQuiet C.code (thread_of C.state C.saved thread.old) (thread_of C.state C.saved thread.new) r) }
    ensures settled { thread.new.own.opening ≡ None }
    ensures bounds { thread.new.own.bounds ≡ thread.old.own.bounds }
    ensures last_kind { OnOk result (thread.new.own.last_kind ≡ 0) }
    ensures err { OnErr result (thread_of C.state C.saved thread.new ≡ thread_of C.state C.saved thread.old) }
{
    match thread.code.silent() {
        Ok(()) => {
            thread.own.attempt = Attempt::Begin;
            thread.own.counted += 1;
            thread.own.silents += 1;
            thread.own.last_kind = 0;
            Ok(Turn::Silent)
        }
        Err(CodeStop::Frames) => {
            thread.own.last_kind = 0;
            Ok(Turn::Spent(Limit::Frames))
        }
        Err(CodeStop::NoMemory) => Err(NoMemory),
    }
}
