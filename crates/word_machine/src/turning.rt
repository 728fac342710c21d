//! A turn of the thread at a place.

ghost use Rattle.std.specs.Prelude.{◌≡◌, Some, IfOk, OnErr};
ghost use Rattle.std.specs.Option.{option_map};
ghost use Rattle.thread_moves.specs.Thread.{thread_of};
ghost use Rattle.thread_moves.specs.declared.thread.JThread.{JThread};
ghost use Rattle.word_machine.specs.Turns.{end_of, CanTurnOn, TurnMade, KeepsBounds, TurnsAt};

use op_core::{NoMemory, ThreadCode};
use plain_words::PlainWords;
use rollback_core::{ReadyThread, Turn, turn};
use schedules::TurnEnd;

/// A turn, and the number of the kind of the step that it made, or 0.
#[derive(Drop)]
pub(crate) struct Came<C: ThreadCode> {
    pub(crate) turn: Turn<C, ()>,
    pub(crate) kind: u8,
}

/// What a turn comes to for a schedule.
pub(crate) fn end_of<C: ThreadCode>(came: &Came<C>) -> TurnEnd
    ensures { result ≡ end_of came.now.turn came.now.kind }
{
    match came.turn {
        Turn::Silent | Turn::Lost(_) => TurnEnd::Other,
        Turn::Blocked(_) | Turn::Ended(_) => TurnEnd::Blocked,
        Turn::Probed | Turn::Advanced(_) | Turn::Born(_, _) => TurnEnd::Made(came.kind),
        Turn::Spent(limit) => TurnEnd::Spent(limit),
    }
}

// Gives a thread a turn.
fn turn_of<C: ThreadCode + Drop>(
    ready: &mut ReadyThread<C>,
    words: &mut PlainWords,
) -> Result<Came<C>, NoMemory>
    requires { CanTurnOn C.code ready.old.own.bounds words.old (thread_of C.state C.saved ready.old) }
    ensures areas { words.new.areas ≡ words.old.areas }
    ensures made { IfOk result (λ came. TurnMade C.code (thread_of C.state C.saved) words.old ready.old came.turn came.kind words.new ready.new) }
    ensures bounds { ready.new.own.bounds ≡ ready.old.own.bounds }
    ensures err { OnErr result (thread_of C.state C.saved ready.new ≡ thread_of C.state C.saved ready.old) }
    ensures err_words { OnErr result (words.new ≡ words.old) }
{
    let turn = turn(ready, words)?;
    let kind = ready.thread().last_kind();
    Ok(Came { turn, kind })
}

/// Gives the thread at a place a turn, if one is there.
pub(crate) fn turn_at<C: ThreadCode + Drop>(
    place: &mut Option<ReadyThread<C>>,
    words: &mut PlainWords,
) -> Result<Option<Came<C>>, NoMemory>
    requires { (x : JThread C) → place.old ≡ Some x → CanTurnOn C.code x.own.bounds words.old (thread_of C.state C.saved x) }
    ensures areas { words.new.areas ≡ words.old.areas }
    ensures made { IfOk result (λ came. TurnsAt C.code (thread_of C.state C.saved) words.old place.old came words.new place.new) }
    ensures err_bounds { OnErr result (KeepsBounds place.old place.new) }
    ensures err { OnErr result (option_map (thread_of C.state C.saved) place.new ≡ option_map (thread_of C.state C.saved) place.old) }
    ensures err_words { OnErr result (words.new ≡ words.old) }
{
    match place {
        Some(ready) => Ok(Some(turn_of(ready, words)?)),
        None => Ok(None),
    }
}
