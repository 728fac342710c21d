//! The steps of a list of events, and where the first one is refused.

ghost use Rattle.std.specs.Prelude.{◌<◌, OnOk, IfOk, IfErr, length, take, slice_get, IfSome};
ghost use Rattle.ordinary_machine.specs.Machine.{machine_of};
ghost use Rattle.ordinary_machine.specs.Step.{Refuses, Replays, IsReplayed, IsRefusedAt};

use crate::{Ordinary, StepRefusal};
use op_core::{Event, ThreadCode};

/// The first event of a list whose step wasn't made, and why.
#[derive(Clone, Copy)]
pub struct ReplayRefusal {
    /// How many events come before it.
    pub place: usize,
    pub refusal: StepRefusal,
}

impl<C: ThreadCode + Drop> Ordinary<C> {
    /// Makes the events' steps one after another. It stops at the first event that is refused, and
    /// leaves the machine as it was before that event.
    pub fn replay(&mut self, events: &[Event]) -> Result<(), ReplayRefusal>
        ensures steps { OnOk result (Replays C.code (machine_of C.state self.old) events.now (machine_of C.state self.new)) }
        ensures execution { OnOk result (IsReplayed C.code (machine_of C.state self.old).now events.now (machine_of C.state self.new).now) }
        ensures place { IfErr result (λ stop. stop.place < length events.now) }
        ensures before { IfErr result (λ stop. Replays C.code (machine_of C.state self.old) (take stop.place events.now) (machine_of C.state self.new)) }
        ensures refused { IfErr result (λ stop. IfSome (slice_get events.now stop.place) (λ e. Refuses C.code (machine_of C.state self.new).now e stop.refusal)) }
    {
        for (place, event) in events.iter().enumerate() {
            match self.step(event) {
                Ok(()) => {}
                Err(refusal) => return Err(ReplayRefusal { place, refusal }),
            }
        }
        Ok(())
    }

    /// Makes the steps of the events, one after another, on a machine that is given up where one is refused: so the
    /// silent steps are made in place. Returns the machine after the events, or the place of the first event that is
    /// refused and why it is.
    pub fn replayed(self, events: &[Event]) -> Result<Self, ReplayRefusal>
        ensures steps { IfOk result (λ last. Replays C.code (machine_of C.state self) events.now (machine_of C.state last)) }
        ensures execution { IfOk result (λ last. IsReplayed C.code (machine_of C.state self).now events.now (machine_of C.state last).now) }
        ensures place { IfErr result (λ stop. stop.place < length events.now) }
        ensures refused { IfErr result (λ stop. IsRefusedAt C.code (machine_of C.state self) events.now stop.place stop.refusal) }
    {
        let mut machine = self;
        for (place, event) in events.iter().enumerate() {
            match machine.step_on(event) {
                Ok(()) => {}
                Err(refusal) => return Err(ReplayRefusal { place, refusal }),
            }
        }
        Ok(machine)
    }
}
