//! A run of the ordinary machine along a schedule, from its first turn to its outcome.

ghost use Rattle.std.specs.Prelude.{◌≡◌, IfOk, IfSome, Some, None, [], slice_get, if◌then◌else◌};
ghost use Rattle.std.specs.Option.{option_map};
ghost use Rattle.schedules.specs.Schedule.{thread_of, drawn, Rest};
ghost use Rattle.schedules.specs.Run.{due_of};
ghost use Rattle.ordinary_machine.specs.Machine.{machine_of};
ghost use Rattle.ordinary_runs.specs.Turns.{traced, progress_of, machine_turns};
ghost use Rattle.ordinary_runs.specs.ScheduledRun.{keeping_for, begun_with, IsOutcome, run_of, CanGive, order_behind, how_at, GoesOnOrEnds};

use crate::turns::CountedMachine;
use op_core::{Event, How, Limits, NoMemory, Outcome, Rows, ThreadCode};
use ordinary_machine::Ordinary;
use schedules::{OrderItem, Remaining, Schedule, TurnEnd, pick};
use std::alloc::Global;

/// A machine that follows a schedule. Contracts see where the run is, by `run_of`.
#[derive(Drop)]
pub(crate) struct ScheduledRun<'a, C> {
    turns: CountedMachine<C>,
    rest: Remaining<'a>,
    // room to list the enabled threads
    enabled: Vec<u8>,
}

// No events yet, if they are to be kept.
fn no_events(alloc: Global, keeps: bool) -> Option<Rows<Event>>
    ensures { result ≡ (if keeps then Some [] else None) }
{
    if keeps { Some(Rows::new(alloc)) } else { None }
}

// How many turns an item gives at most.
fn most_turns(item: Option<OrderItem>) -> u64
    ensures { IfSome item (CanGive result) }
{
    match item {
        Some(OrderItem::Turns(_, count)) => count as u64,
        Some(OrderItem::Until(_, _)) => u64::MAX,
        None => 0,
    }
}

// How a run ends at a thread's turn that came to this, or `None` where it goes on.
fn how_at(thread: u8, end: TurnEnd) -> Option<How>
    ensures { result ≡ how_at thread end }
{
    match end {
        TurnEnd::Spent(limit) => Some(How::Limit(thread, limit)),
        _ => None,
    }
}

// Takes off the order what `turns` turns of its first item use up, none of which came to what the item asks for.
fn end_turns(rest: &mut Remaining<'_>, turns: u64)
    ensures { rest.new ≡ record rest.old { order = order_behind turns rest.old.order } }
{
    for _turn in 0..turns {
        rest.end_turn(TurnEnd::Other);
    }
}

impl<'a, C: ThreadCode + Drop> ScheduledRun<'a, C> {
    fn new(
        alloc: Global,
        machine: Ordinary<C>,
        schedule: &'a Schedule,
        limits: &Limits,
        events: bool,
    ) -> Self
        ensures limits { result.turns.limits ≡ limits.now }
        ensures run { run_of C.state result ≡ begun_with (machine_of C.state machine) schedule.now (keeping_for events) }
    {
        ScheduledRun {
            turns: CountedMachine::new(machine, limits, no_events(alloc, events)),
            rest: Remaining::new(schedule),
            enabled: Vec::new(alloc),
        }
    }

    // Gives the thread of the first item, which is due, its next turn, or silent ones at once.
    fn give_ordered(&mut self, thread: u8) -> Result<Option<How>, NoMemory>
        requires untraced { traced (progress_of C.state self.old.turns).events ≡ None }
        requires due { due_of (machine_turns C.code self.old.turns.limits) (run_of C.state self.old) ≡ self.old.rest }
        requires thread { Some thread ≡ option_map thread_of (slice_get self.old.rest.order 0) }
        ensures limits { self.new.turns.limits ≡ self.old.turns.limits }
        ensures goes { IfOk result (λ how. GoesOnOrEnds C.code self.old.turns.limits (run_of C.state self.old) how (run_of C.state self.new)) }
    {
        let made = self.turns.run_silent(thread, most_turns(self.rest.first()));
        if made > 0 {
            end_turns(&mut self.rest, made);
            return Ok(None);
        }
        match self.turns.turn(thread)? {
            TurnEnd::Spent(limit) => Ok(Some(How::Limit(thread, limit))),
            end => {
                self.rest.end_turn(end);
                Ok(None)
            }
        }
    }

    // Gives the thread that a number picks its next turn, whatever is left of the schedule that drew the number.
    fn give_drawn(&mut self, number: u64) -> Result<Option<How>, NoMemory>
        requires untraced { traced (progress_of C.state self.old.turns).events ≡ None }
        requires rest { self.old.rest ≡ record { order = []; number = Some number } }
        ensures limits { self.new.turns.limits ≡ self.old.turns.limits }
        ensures goes { IfOk result (λ how. (rest : Rest) → rest.order ≡ [] → drawn rest.number ≡ Some number
            → GoesOnOrEnds C.code self.old.turns.limits (record { state = progress_of C.state self.old.turns; rest = rest }) how (run_of C.state self.new)) }
    {
        self.turns.list_enabled(&mut self.enabled)?;
        let Some(thread) = pick(self.enabled.as_slice(), Some(number)) else {
            return Ok(Some(self.turns.end()));
        };
        let end = self.turns.turn(thread)?;
        Ok(how_at(thread, end))
    }

    // Gives the lowest enabled thread its silent turns at once, and the turn after them. To find that thread, each one
    // from 1 on is tried, so that no threads are listed.
    fn give_lowest(&mut self) -> Result<Option<How>, NoMemory>
        requires untraced { traced (progress_of C.state self.old.turns).events ≡ None }
        requires rest { self.old.rest ≡ record { order = []; number = None } }
        ensures limits { self.new.turns.limits ≡ self.old.turns.limits }
        ensures goes { IfOk result (λ how. GoesOnOrEnds C.code self.old.turns.limits (run_of C.state self.old) how (run_of C.state self.new)) }
    {
        for number in 1..self.turns.highest() as u16 + 1 {
            let thread = number as u8;
            let made = self.turns.run_silent(thread, u64::MAX);
            let end = self.turns.turn_if_enabled(thread)?;
            if made > 0 {
                return Ok(None);
            }
            if let Some(end) = end {
                return Ok(how_at(thread, end));
            }
        }
        Ok(Some(self.turns.end()))
    }

    // Where the order is through, gives the thread that is picked its next turn. Where no number is drawn for each
    // turn, gives it its silent turns and the turn after them.
    fn give_picked(&mut self) -> Result<Option<How>, NoMemory>
        requires untraced { traced (progress_of C.state self.old.turns).events ≡ None }
        requires order { self.old.rest.order ≡ [] }
        ensures limits { self.new.turns.limits ≡ self.old.turns.limits }
        ensures goes { IfOk result (λ how. GoesOnOrEnds C.code self.old.turns.limits (run_of C.state self.old) how (run_of C.state self.new)) }
    {
        match self.rest.draw() {
            Some(number) => self.give_drawn(number),
            None => self.give_lowest(),
        }
    }

    // Goes on by one turn or more, or says how the run ends.
    #[tactic(auto, using(crate::proofs::RunLemmas::not_traced))]
    fn go_on(&mut self) -> Result<Option<How>, NoMemory>
        ensures limits { self.new.turns.limits ≡ self.old.turns.limits }
        ensures goes { IfOk result (λ how. GoesOnOrEnds C.code self.old.turns.limits (run_of C.state self.old) how (run_of C.state self.new)) }
    {
        if let Some(how) = self.turns.traced() {
            return Ok(Some(how));
        }
        match self.rest.due(&self.turns) {
            Some(thread) => self.give_ordered(thread),
            None => self.give_picked(),
        }
    }
}

/// Gives the machine's threads turns as the schedule says, under limits, until the run ends, and says what came of it.
/// An item `Until` gives turns until its thread has to wait or comes to its end, since no step of this machine has a
/// kind. `limits.sections` says nothing here. Where the events are asked for, the outcome has them, and the run ends after
/// the turn that makes the 4,194,304th, by the limit Trace.
pub fn run_picks<C: ThreadCode + Drop>(
    alloc: Global,
    machine: Ordinary<C>,
    schedule: &Schedule,
    limits: &Limits,
    events: bool,
) -> Result<Outcome, NoMemory>
    ensures { IfOk result (λ outcome. IsOutcome C.code (machine_of C.state machine) schedule.now limits.now (keeping_for events) outcome) }
{
    let mut run = ScheduledRun::new(alloc, machine, schedule, limits, events);
    loop {
        if let Some(how) = run.go_on()? {
            let ScheduledRun { turns, .. } = run;
            return turns.into_outcome(alloc, how);
        }
    }
}
