//! Many silent turns of a thread at once.

ghost use Rattle.std.specs.Prelude.{◌≡◌, ◌+◌, ◌<◌, ◌≤◌, ◌^◌, None, [], nat_eq, if◌then◌else◌};
ghost use Rattle.automaton_rows.specs.Fits.{IsFit};
ghost use Rattle.thread_moves.specs.Thread.{thread_of, AreCounted};
ghost use Rattle.rollback_core.specs.Quiet.{QuietTurns, MayBeQuiet, own_after};

use op_core::ThreadCode;
use thread_automaton::Attempt;
use thread_moves::{JThread, Own};

// Counts this many silent turns.
fn count_silent(own: &mut Own, made: u64)
    requires counted { own.old.counted + made < 2 ^ 64 }
    requires silents { own.old.silents ≤ own.old.counted }
    ensures { own.new ≡ own_after own.old made }
{
    if made > 0 {
        own.attempt = Attempt::Begin;
        own.counted += made;
        own.silents += made;
        own.last_kind = 0;
    }
}

// How many silent turns the thread may make at most: none where it is over or amid a step.
fn most_silent<C: ThreadCode>(thread: &JThread<C>) -> u64
    ensures may { 0 < result → MayBeQuiet thread.now.own.bounds (thread_of C.state C.saved thread.now) result }
    ensures left { thread.now.own.counted + result < 2 ^ 64 }
{
    let turns = thread.own.bounds.limits.turns;
    let left = turns.saturating_sub(thread.own.counted);
    match thread.own.attempt {
        Attempt::Begin | Attempt::Checked if !thread.own.over => left,
        _ => 0,
    }
}

// Makes some of the silent turns that come next, at most `most`, and says how many.
pub(crate) fn run_silent<C: ThreadCode>(thread: &mut JThread<C>, most: u64) -> u64
    requires fits { IsFit C.code (thread_of C.state C.saved thread.old) }
    requires counts { AreCounted (thread_of C.state C.saved thread.old) }
    requires settled { thread.old.own.opening ≡ None }
    ensures most { result ≤ most }
    ensures turns { QuietTurns C.code thread.old.own.bounds result (thread_of C.state C.saved thread.old) (thread_of C.state C.saved thread.new) }
    ensures fits { IsFit C.code (thread_of C.state C.saved thread.new) }
    ensures counts { AreCounted (thread_of C.state C.saved thread.new) }
    ensures settled { thread.new.own.opening ≡ None }
    ensures bounds { thread.new.own.bounds ≡ thread.old.own.bounds }
    ensures last_kind { thread.new.own.last_kind ≡ (if nat_eq result 0 then thread.old.own.last_kind else 0) }
{
    let most = most.min(most_silent(thread));
    if most == 0 {
        return 0;
    }
    let made = thread.code.run_silent(most);
    count_silent(&mut thread.own, made);
    made
}
