//! At which turns the caller of many turns looks.

ghost use Rattle.std.specs.Prelude.{◌≡◌, ◌<◌, true, false, MatchOption};
ghost use Rattle.turn_runs.specs.Looks.{looks_at, passes_by};

use op_core::ThreadCode;
use rollback_core::Turn;

/// At which turns a caller looks, beside those at which each caller has to: the ones whose step has one of these kinds, and
/// those with an event.
#[derive(Clone, Copy)]
pub struct Looks {
    /// The bit of a number says that the caller looks at the steps of this kind.
    pub kinds: u64,
    /// Whether it looks at the events that others can see.
    pub events: bool,
}

impl Looks {
    /// Whether the caller looks at the steps of a kind.
    pub fn looks_at(self, kind: u8) -> bool
        requires { kind < 64 }
        ensures { result ≡ looks_at self kind }
    {
        (self.kinds >> kind) & 1 == 1
    }

    // What a turn says at which the caller looks, and whose step has this kind. None where the turn passes by.
    pub(crate) fn seen<C: ThreadCode, S>(self, kind: u8, said: Turn<C, S>) -> Option<Turn<C, S>>
        requires { kind < 64 }
        ensures { MatchOption result (passes_by self kind said ≡ true) (λ turn. (turn ≡ said) × (passes_by self kind said ≡ false)) }
    {
        match said {
            Turn::Silent => None,
            Turn::Probed | Turn::Advanced(None) if !self.looks_at(kind) => None,
            Turn::Advanced(Some(_)) if !self.looks_at(kind) && !self.events => None,
            other => Some(other),
        }
    }
}
