//! What gives a thread plain turns.

use crate::host::StepHost;
use op_core::ThreadCode;
use rollback_core::TurnMaker;
use std::marker::PhantomData;
use step_port::StepPort;
use thread_automaton::Attempt;
use thread_moves::JThread;

/// What gives a thread plain turns on the words of a port.
#[derive(Drop)]
pub(crate) struct PlainMaker<'a, P> {
    pub port: &'a mut P,
    /// How many turns it may still give.
    pub left: u64,
}

impl<'a, C: ThreadCode, P: StepPort> TurnMaker<C> for PlainMaker<'a, P> {
    ghost use Rattle.std.specs.Prelude.{◌≡◌, ℕ, ◌+◌};
    ghost use Rattle.thread_moves.specs.Thread.{thread_of};
    ghost use Rattle.port_turns.specs.Plain.{CanGoOn, PlainTurns};

    ghost may = { λ h x. CanGoOn C.code x.own.bounds P.allows P.stepped (thread_of C.state C.saved x) h.port.now };

    ghost makes = { λ h x k y. (k.port.ghost_name ≡ h.port.ghost_name) × ((n : ℕ) × (h.left ≡ k.left + n)
        × PlainTurns C.code x.own.bounds P.stepped (thread_of C.state C.saved x) h.port.now x.own.last_kind n (thread_of C.state C.saved y) k.port.now y.own.last_kind) };

    fn make_turns(&mut self, thread: &mut JThread<C>) {
        match thread.own.attempt {
            Attempt::Begin if !thread.own.over => {}
            _ => return,
        }
        let most = self.left;
        let mut host: StepHost<'_, C, P> = StepHost {
            own: &mut thread.own,
            port: &mut *self.port,
            left: most,
            code: PhantomData,
        };
        thread.code.run_with(&mut host, most);
        self.left = host.left;
    }
}
