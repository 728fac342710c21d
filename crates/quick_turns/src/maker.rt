//! What gives a thread usual turns.

ghost use Rattle.std.specs.Prelude.{◌≡◌, ◌+◌, ◌≤◌, ◌^◌, None};
ghost use Rattle.automaton_rows.specs.Fits.{IsFit};
ghost use Rattle.thread_moves.specs.Thread.{thread_of, AreCounted};

use crate::WordSight;
use crate::host::TurnHost;
use op_core::ThreadCode;
use rollback_core::TurnMaker;
use std::marker::PhantomData;
use step_port::StepPort;
use thread_automaton::Attempt;
use thread_moves::JThread;

/// What gives a thread usual turns on the words of a port.
#[derive(Drop)]
pub(crate) struct UsualMaker<'a, P, W> {
    pub port: &'a mut P,
    pub sight: &'a W,
    /// How many turns it may still give.
    pub left: u64,
}

impl<'a, C: ThreadCode, P: StepPort, W: WordSight<P>> TurnMaker<C> for UsualMaker<'a, P, W> {
    ghost use Rattle.std.specs.Prelude.{◌≡◌, ℕ, ◌+◌};
    ghost use Rattle.thread_moves.specs.Thread.{thread_of};
    ghost use Rattle.turn_runs.specs.Turns.{StaysReady};
    ghost use Rattle.quick_turns.specs.Usual.{UsualTurns};

    ghost may = { λ h x. StaysReady C.code x.own.bounds P.allows P.stepped (thread_of C.state C.saved x) h.port.now };

    ghost makes = { λ h x k y. (k.port.ghost_name ≡ h.port.ghost_name) × (y.own.bounds ≡ x.own.bounds)
        × StaysReady C.code y.own.bounds P.allows P.stepped (thread_of C.state C.saved y) k.port.now × ((n : ℕ) × (h.left ≡ k.left + n)
        × UsualTurns C.code x.own.bounds P.stepped W.words (thread_of C.state C.saved x) h.port.now x.own.last_kind n (thread_of C.state C.saved y) k.port.now y.own.last_kind) };

    fn make_turns(&mut self, thread: &mut JThread<C>) {
        match thread.own.attempt {
            Attempt::Begin if !thread.own.over => {}
            _ => return,
        }
        let most = self.left;
        let mut host: TurnHost<'_, C, P, W> = TurnHost {
            own: &mut thread.own,
            port: &mut *self.port,
            sight: self.sight,
            left: most,
            code: PhantomData,
        };
        thread.code.run_with(&mut host, most);
        self.left = host.left;
    }
}
