//! A thread as a host of its own code that makes the steps of each attempt.

use op_core::{Op, OpHost, Reply, ThreadCode};
use std::marker::PhantomData;
use step_port::StepPort;
use thread_moves::Own;
use turn_runs::count_silent;

/// A thread as the host of its code: it makes the steps of an attempt one after another, and answers the operation where the
/// attempt succeeds.
#[derive(Drop)]
pub(crate) struct StepHost<'a, C, P> {
    pub own: &'a mut Own,
    pub port: &'a mut P,
    /// How many turns it may still have.
    pub left: u64,
    pub code: PhantomData<C>,
}

impl<'a, C: ThreadCode, P: StepPort> OpHost for StepHost<'a, C, P> {
    ghost use Rattle.turn_runs.specs.HostPlaces.{silent_room, HostPasses};
    ghost use Rattle.port_turns.specs.Place.{HostAnswers, HostStops, HostMayAsk};
    ghost use Rattle.port_turns.specs.Borrowed.{host_place, SameBorrows};

    ghost room = { λ h. silent_room (host_place h) };

    ghost may = { λ h op. HostMayAsk C.code P.allows P.stepped (host_place h) op };

    ghost passes = { λ h n k. SameBorrows h k × HostPasses (host_place h) n (host_place k) };

    ghost answers = { λ h op reply k. SameBorrows h k × HostAnswers C.code P.stepped (host_place h) op reply (host_place k) };

    ghost declines = { λ h op k. SameBorrows h k × HostStops C.code P.stepped (host_place h) op (host_place k) };

    #[inline(always)]
    fn room(&self) -> u64 {
        let turns = self.own.bounds.limits.turns;
        self.left.min(turns.saturating_sub(self.own.counted))
    }

    #[inline(always)]
    fn pass(&mut self, made: u64) {
        self.left -= made;
        if made > 0 {
            count_silent(&mut *self.own, made);
        }
    }

    #[inline(always)]
    fn ask(&mut self, op: Op) -> Option<Reply> {
        match op {
            Op::Read(object, place) => self.read(object, place),
            Op::Write(object, place, value) => self.write(object, place, value),
            Op::ClassOf(object) => self.class_of(object),
            _ => None,
        }
    }
}
