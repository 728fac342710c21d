//! A machine whose threads are given turns: what a turn comes to, what counts, and how a run ends.

ghost use Rattle.std.specs.Prelude.{◌≡◌, ◌+◌, ◌<◌, ◌≤◌, ◌^◌, ℕ, true, false, [], ◌∷◌, ◌++◌, IfOk, IfSome, IfNone, OnOk, Some, None};
ghost use Rattle.op_core.specs.declared.Limit.{Limit};
ghost use Rattle.op_core.specs.declared.How.{How};
ghost use Rattle.std.specs.Option.{option_map};
ghost use Rattle.op_core.specs.OrdinaryState.{unused, ended};
ghost use Rattle.op_core.specs.MadeTexts.{AreMadeTexts};
ghost use Rattle.ordinary_machine.specs.declared.advance.Advance.{Advance};
ghost use Rattle.ordinary_machine.specs.Machine.{machine_of, HasBegun};
ghost use Rattle.ordinary_machine.specs.Advance.{MayAdvance, headway_of};
ghost use Rattle.schedules.specs.declared.order.TurnEnd.{TurnEnd};
ghost use Rattle.schedules.specs.Schedule.{Rest};
ghost use Rattle.schedules.specs.Run.{AreThose, EndsBy};
ghost use Rattle.ordinary_runs.specs.Turns.{count_in, traced, progress_of, is_live, end_of, counted_after, events_after, machine_turns, IsSilentFor, MakesTurn, GivesIfEnabled};
ghost use Rattle.ordinary_runs.specs.ScheduledRun.{AreEnds};

use crate::counts::TurnCounts;
use crate::made::made_texts;
use op_core::{Event, How, Limit, Limits, NoMemory, Outcome, Rows, ThreadCode, ThreadEnd, Undo};
use ordinary_machine::{Advance, Headway, Ordinary};
use schedules::{LiveThreads, TurnEnd};
use std::alloc::Global;

/// How many steps a journal has room for: a run that keeps its steps ends where it has made as many.
pub const MOST_EVENTS: usize = 4_194_304;

/// A machine whose threads are given turns, and what counts of them. Contracts see its `progress_of`.
#[derive(Drop)]
pub(crate) struct CountedMachine<C> {
    machine: Ordinary<C>,
    counts: TurnCounts,
    events: Option<Rows<Event>>,
    pub(crate) limits: Limits,
}

impl<C: ThreadCode + Drop> LiveThreads for CountedMachine<C> {
    ghost live = { λ m t. is_live ((machine_of C.state m.machine).now.threads t) };

    fn is_live(&self, thread: u8) -> bool {
        self.machine.has_begun(thread) && !self.machine.has_ended(thread)
    }
}

fn add(threads: &mut Vec<u8>, thread: u8) -> Result<(), NoMemory>
    ensures { OnOk result (threads.new.items ≡ threads.old.items ++ thread ∷ []) }
{
    match threads.push(thread) {
        Ok(()) => Ok(()),
        Err(_) => Err(NoMemory),
    }
}

// What a turn comes to for a schedule.
#[inline(always)]
fn end_of(answer: Advance) -> TurnEnd
    ensures { result ≡ end_of answer }
{
    match answer {
        Advance::Silent | Advance::Step(_) => TurnEnd::Other,
        Advance::Waits | Advance::Halts | Advance::Ended => TurnEnd::Blocked,
        Advance::Spent(limit) => TurnEnd::Spent(limit),
    }
}

// The same for an answer without its event.
#[inline(always)]
fn end_behind(headway: Headway) -> TurnEnd
    ensures { (answer : Advance) → headway ≡ headway_of answer → result ≡ end_of answer }
{
    match headway {
        Headway::Made => TurnEnd::Other,
        Headway::Blocked => TurnEnd::Blocked,
        Headway::Spent(limit) => TurnEnd::Spent(limit),
    }
}

// Nothing is undone on this machine, which is said where the events are kept.
fn no_undos(alloc: Global, events: &Option<Rows<Event>>) -> Option<Rows<Undo>>
    ensures { result ≡ option_map (λ _. []) events.now }
{
    match events {
        Some(_) => Some(Rows::new(alloc)),
        None => None,
    }
}

impl<C: ThreadCode + Drop> CountedMachine<C> {
    /// No turn has counted. Steps go to the events, if there are any.
    pub(crate) fn new(machine: Ordinary<C>, limits: &Limits, events: Option<Rows<Event>>) -> Self
        ensures limits { result.limits ≡ limits.now }
        ensures progress { progress_of C.state result ≡ record { machine = machine_of C.state machine; counted = λ _. 0; events = events } }
    {
        CountedMachine {
            machine,
            counts: TurnCounts::new(),
            events,
            limits: *limits,
        }
    }

    // Counts a turn that came to this.
    #[inline(always)]
    fn count(&mut self, thread: u8, end: TurnEnd)
        requires { count_in self.old.counts thread + 1 < 2 ^ 64 }
        ensures machine { self.new.machine ≡ self.old.machine }
        ensures events { self.new.events ≡ self.old.events }
        ensures limits { self.new.limits ≡ self.old.limits }
        ensures counts { (answer : Advance) → end ≡ end_of answer → count_in self.new.counts ≡ counted_after thread answer (count_in self.old.counts) }
    {
        match end {
            TurnEnd::Other => self.counts.add(thread, 1),
            _ => {}
        }
    }

    // Keeps the step of the turn that was answered this, where steps are kept.
    #[inline(always)]
    fn keep(&mut self, answer: Advance) -> Result<(), NoMemory>
        ensures machine { self.new.machine ≡ self.old.machine }
        ensures counts { self.new.counts ≡ self.old.counts }
        ensures limits { self.new.limits ≡ self.old.limits }
        ensures kept { OnOk result (self.new.events ≡ events_after answer self.old.events) }
    {
        if let (Some(events), Advance::Step(event)) = (&mut self.events, answer) {
            events.push(event)?;
        }
        Ok(())
    }

    // Gives a thread that has turns left its next one, and keeps the step.
    fn turn_kept(&mut self, thread: u8) -> Result<TurnEnd, NoMemory>
        requires begun { HasBegun ((progress_of C.state self.old).machine.now.threads thread) }
        requires left { count_in self.old.counts thread < self.old.limits.turns }
        requires room { count_in self.old.counts thread + 1 < 2 ^ 64 }
        ensures limits { self.new.limits ≡ self.old.limits }
        ensures makes { IfOk result (λ end. MakesTurn C.code self.old.limits (progress_of C.state self.old) thread end (progress_of C.state self.new)) }
    {
        let answer = self.machine.advance(thread, &self.limits)?;
        self.keep(answer)?;
        let end = end_of(answer);
        self.count(thread, end);
        Ok(end)
    }

    // The same where no steps are kept.
    #[inline(always)]
    fn turn_untold(&mut self, thread: u8) -> Result<TurnEnd, NoMemory>
        requires begun { HasBegun ((progress_of C.state self.old).machine.now.threads thread) }
        requires left { count_in self.old.counts thread < self.old.limits.turns }
        requires room { count_in self.old.counts thread + 1 < 2 ^ 64 }
        requires untold { self.old.events ≡ None }
        ensures limits { self.new.limits ≡ self.old.limits }
        ensures makes { IfOk result (λ end. MakesTurn C.code self.old.limits (progress_of C.state self.old) thread end (progress_of C.state self.new)) }
    {
        let headway = self.machine.make_headway(thread, &self.limits)?;
        let end = end_behind(headway);
        self.count(thread, end);
        Ok(end)
    }

    // Gives a thread that has turns left its next one.
    #[inline(always)]
    fn next_turn(&mut self, thread: u8) -> Result<TurnEnd, NoMemory>
        requires begun { HasBegun ((progress_of C.state self.old).machine.now.threads thread) }
        requires left { count_in self.old.counts thread < self.old.limits.turns }
        requires room { count_in self.old.counts thread + 1 < 2 ^ 64 }
        ensures limits { self.new.limits ≡ self.old.limits }
        ensures makes { IfOk result (λ end. MakesTurn C.code self.old.limits (progress_of C.state self.old) thread end (progress_of C.state self.new)) }
    {
        match self.events {
            Some(_) => self.turn_kept(thread),
            None => self.turn_untold(thread),
        }
    }

    /// Gives a live thread a turn, and says what it came to. After an error the run can't go on.
    pub(crate) fn turn(&mut self, thread: u8) -> Result<TurnEnd, NoMemory>
        requires { is_live ((progress_of C.state self.old).machine.now.threads thread) ≡ true }
        ensures limits { self.new.limits ≡ self.old.limits }
        ensures gives { IfOk result (λ end. (machine_turns C.code self.old.limits).gives (progress_of C.state self.old) thread end (progress_of C.state self.new)) }
    {
        let most = self.limits.turns;
        if self.counts.of(thread) >= most {
            return Ok(TurnEnd::Spent(Limit::Turns));
        }
        self.next_turn(thread)
    }

    /// Gives a thread a turn where it is enabled, and says what the turn came to; `None` where it isn't, and then
    /// nothing changes. After an error the run can't go on.
    pub(crate) fn turn_if_enabled(&mut self, thread: u8) -> Result<Option<TurnEnd>, NoMemory>
        ensures limits { self.new.limits ≡ self.old.limits }
        ensures gives { IfOk result (λ end. GivesIfEnabled C.code self.old.limits (progress_of C.state self.old) thread end (progress_of C.state self.new)) }
    {
        if !self.machine.has_begun(thread) {
            return Ok(None);
        }
        if self.counts.of(thread) >= self.limits.turns {
            return Ok(self.spent_turn(thread));
        }
        match self.next_turn(thread)? {
            TurnEnd::Blocked => Ok(None),
            end => Ok(Some(end)),
        }
    }

    // What a turn comes to of a thread that has made its number of turns, `None` where it isn't enabled.
    fn spent_turn(&self, thread: u8) -> Option<TurnEnd>
        ensures none { IfNone result (MayAdvance C.code (progress_of C.state self.now).machine thread → ⊥) }
        ensures some { IfSome result (λ end. MayAdvance C.code (progress_of C.state self.now).machine thread × (end ≡ TurnEnd.Spent Limit.Turns)) }
    {
        if self.machine.is_enabled(thread) {
            Some(TurnEnd::Spent(Limit::Turns))
        } else {
            None
        }
    }

    /// The highest number with which a thread has begun.
    pub(crate) fn highest(&self) -> u8
        ensures { (k : ℕ) → result < k → (progress_of C.state self.now).machine.now.threads k ≡ unused }
    {
        self.machine.highest()
    }

    /// Gives a thread turns that are silent steps, at most `most` and as many as it has left, and returns how many.
    pub(crate) fn run_silent(&mut self, thread: u8, most: u64) -> u64
        ensures limits { self.new.limits ≡ self.old.limits }
        ensures most { result ≤ most }
        ensures silent { IsSilentFor C.code self.old.limits (progress_of C.state self.old) thread result (progress_of C.state self.new) }
    {
        let turns = self.limits.turns;
        let left = turns.saturating_sub(self.counts.of(thread));
        let made = self.machine.run_silent(thread, most.min(left));
        self.counts.add(thread, made);
        made
    }

    /// Lists the enabled threads by rising number.
    pub(crate) fn list_enabled(&self, threads: &mut Vec<u8>) -> Result<(), NoMemory>
        ensures { OnOk result (AreThose (MayAdvance C.code (progress_of C.state self.now).machine) threads.new.items) }
    {
        threads.clear();
        for number in 0..self.machine.highest() as u16 + 1 {
            let thread = number as u8;
            if self.machine.is_enabled(thread) {
                add(threads, thread)?;
            }
        }
        Ok(())
    }

    // Whether a thread is live.
    fn has_live(&self) -> bool
        ensures some { result ≡ true → (t : ℕ) × (is_live ((progress_of C.state self.now).machine.now.threads t) ≡ true) }
        ensures none { result ≡ false → (t : ℕ) → is_live ((progress_of C.state self.now).machine.now.threads t) ≡ false }
    {
        for number in 0..self.machine.highest() as u16 + 1 {
            if self.is_live(number as u8) {
                return true;
            }
        }
        false
    }

    // Whether the thread was ended by an exception.
    fn died(&self, thread: u8) -> bool
        ensures some { result ≡ true → (c : ℕ) × ((progress_of C.state self.now).machine.now.threads thread ≡ ended (Some c)) }
        ensures none { result ≡ false → (c : ℕ) → (progress_of C.state self.now).machine.now.threads thread ≡ ended (Some c) → ⊥ }
    {
        match self.machine.end_of(thread) {
            Some(end) => end.class.is_some(),
            None => false,
        }
    }

    // Whether an exception ended a thread.
    fn has_died(&self) -> bool
        ensures some { result ≡ true → (t : ℕ) × (c : ℕ) × ((progress_of C.state self.now).machine.now.threads t ≡ ended (Some c)) }
        ensures none { result ≡ false → (t c : ℕ) → (progress_of C.state self.now).machine.now.threads t ≡ ended (Some c) → ⊥ }
    {
        for number in 0..self.machine.highest() as u16 + 1 {
            if self.died(number as u8) {
                return true;
            }
        }
        false
    }

    // How the threads ended that have ended, by rising number.
    fn ends(&self, alloc: Global) -> Result<Rows<ThreadEnd>, NoMemory>
        ensures { IfOk result (AreEnds (progress_of C.state self.now).machine.now) }
    {
        let mut ends = Rows::new(alloc);
        for number in 0..self.machine.highest() as u16 + 1 {
            if let Some(end) = self.machine.end_of(number as u8) {
                ends.push(end)?;
            }
        }
        Ok(ends)
    }

    /// How a run ends at the limit of a journal, where its steps are kept and it has made as many.
    pub(crate) fn traced(&self) -> Option<How>
        ensures { result ≡ option_map (λ met. How.Limit met.0 met.1) (traced (progress_of C.state self.now).events) }
    {
        let events = self.events.as_ref()?;
        let last = events.as_slice().get(MOST_EVENTS - 1)?;
        Some(How::Limit(last.thread, Limit::Trace))
    }

    /// How a run ends that has come this far, with its order through and no thread enabled.
    pub(crate) fn end(&self) -> How
        requires untraced { traced (progress_of C.state self.now).events ≡ None }
        requires blocked { (t : ℕ) → MayAdvance C.code (progress_of C.state self.now).machine t → ⊥ }
        ensures { (rest : Rest) → rest.order ≡ [] → EndsBy (machine_turns C.code self.now.limits) (record { state = progress_of C.state self.now; rest = rest }) result }
    {
        if self.has_live() {
            return How::Stuck;
        }
        if self.has_died() {
            return How::Died;
        }
        How::Done
    }

    /// What came of a run that has come this far and ends in this way.
    pub(crate) fn into_outcome(self, alloc: Global, how: How) -> Result<Outcome, NoMemory>
        ensures how { IfOk result (λ outcome. outcome.how ≡ how) }
        ensures lines { IfOk result (λ outcome. outcome.lines ≡ (progress_of C.state self).machine.now.lines) }
        ensures ends { IfOk result (λ outcome. AreEnds (progress_of C.state self).machine.now outcome.ends) }
        ensures opened { IfOk result (λ outcome. outcome.opened ≡ 0) }
        ensures undone { IfOk result (λ outcome. outcome.undone ≡ 0) }
        ensures events { IfOk result (λ outcome. outcome.events ≡ (progress_of C.state self).events) }
        ensures undos { IfOk result (λ outcome. outcome.undos ≡ option_map (λ _. []) (progress_of C.state self).events) }
        ensures made { IfOk result (λ outcome. AreMadeTexts (progress_of C.state self).machine.now outcome.lines outcome.made) }
    {
        let ends = self.ends(alloc)?;
        let made = made_texts(alloc, &self.machine)?;
        let undos = no_undos(alloc, &self.events);
        let CountedMachine {
            machine,
            events,
            ..
        } = self;
        Ok(Outcome {
            lines: machine.into_lines(),
            ends,
            how,
            opened: 0,
            undone: 0,
            events,
            undos,
            made,
        })
    }
}
