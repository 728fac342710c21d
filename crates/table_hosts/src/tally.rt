//! What is counted of the turns of a slice.

ghost use Rattle.std.specs.Prelude.{◌≡◌, ◌<◌, ◌+◌, ◌-◌, ◌^◌};
ghost use Rattle.table_hosts.specs.Turns.{goes_on, is_idle};
ghost use Rattle.table_hosts.specs.Tallies.{tally_of_turn, tally_after, tally_after_plain, IsWithin};

use crate::turning::Given;
use op_core::{Limit, ThreadCode};
use rollback_core::Turn;

/// Which turns follow at once in a slice.
#[derive(Clone, Copy)]
pub enum Pace {
    /// As long as the thread hasn't ended, hasn't met a limit and doesn't have to wait.
    WhileFree,
    /// As long as the turns are idle: each made a step and didn't count.
    WhileIdle,
}

/// What the turns of a slice came to.
#[derive(Clone, Copy)]
pub struct Tally {
    /// The limit that the last of them met.
    pub limit: Option<Limit>,
    /// How many of them counted.
    pub counted: u32,
    /// How many of them in the end, one after another, made a step and didn't count.
    pub idle: u32,
    /// How many opened a section.
    pub opened: u32,
    /// How many marked levels undone.
    pub undone: u32,
}

/// Of no turn.
pub(crate) const NO_TURN: Tally = Tally {
    limit: None,
    counted: 0,
    idle: 0,
    opened: 0,
    undone: 0,
};

// Whether the turn made a step and didn't count.
fn is_idle<C: ThreadCode, S>(turned: &Turn<C, S>) -> bool
    ensures { result ≡ is_idle turned.now }
{
    matches!(turned, Turn::Probed | Turn::Lost(_) | Turn::Blocked(_))
}

/// Whether more turns follow this one at this pace.
pub(crate) fn goes_on<C: ThreadCode, S>(pace: Pace, turned: &Turn<C, S>) -> bool
    ensures { result ≡ goes_on pace turned.now }
{
    match pace {
        Pace::WhileFree => !matches!(turned, Turn::Ended(_) | Turn::Spent(_) | Turn::Blocked(_)),
        Pace::WhileIdle => is_idle(turned),
    }
}

/// What one turn came to, which made a step of this kind (0: none).
pub(crate) fn tally_of<C: ThreadCode, S>(turned: &Turn<C, S>, kind: u8) -> Tally
    ensures tally { result ≡ tally_of_turn turned.now kind }
    ensures small { IsWithin 1 result }
{
    let limit = match turned {
        Turn::Spent(limit) => Some(*limit),
        _ => None,
    };
    let counts = matches!(turned, Turn::Silent | Turn::Advanced(_) | Turn::Born(_, _));
    Tally {
        limit,
        counted: u32::from(counts),
        idle: u32::from(is_idle(turned)),
        opened: u32::from(kind == 5),
        undone: u32::from(kind == 10),
    }
}

impl Tally {
    /// Turns, and these plain ones.
    pub(crate) fn after_plain(self, given: Given) -> Tally
        requires { self.counted + given.counted < 2 ^ 32 }
        ensures { result ≡ tally_after_plain self given.turns given.counted }
    {
        if given.turns == 0 {
            return self;
        }
        Tally {
            limit: None,
            counted: self.counted + given.counted,
            idle: 0,
            opened: self.opened,
            undone: self.undone,
        }
    }

    /// Turns, and one more.
    pub(crate) fn after(self, turn: Tally) -> Tally
        requires room { IsWithin (2 ^ 32 - 2) self }
        requires one { IsWithin 1 turn }
        ensures { result ≡ tally_after self turn }
    {
        let idle = if turn.idle == 0 { 0 } else { self.idle + 1 };
        Tally {
            limit: turn.limit,
            counted: self.counted + turn.counted,
            idle,
            opened: self.opened + turn.opened,
            undone: self.undone + turn.undone,
        }
    }
}
