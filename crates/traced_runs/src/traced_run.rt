//! A run along a schedule that keeps a journal, one turn after another.

ghost use Rattle.std.specs.Prelude.{◌≡◌, ◌+◌, IfOk, IsSome, OnOk, Some, if◌then◌else◌};
ghost use Rattle.journal_rows.specs.Told.{nothing_told};
ghost use Rattle.journal_rows.specs.Rows.{AreRowsTold};
ghost use Rattle.thread_moves.specs.Thread.{thread_of};
ghost use Rattle.thread_moves.specs.declared.thread.JThread.{JThread};
ghost use Rattle.sched_core.specs.Outcome.{rest_of};
ghost use Rattle.sched_core.specs.ScheduledRun.{how_at, opens_by, undoes_by, AreReady};
ghost use Rattle.word_machine.specs.Seats.{seat_in};
ghost use Rattle.traced_runs.specs.TracedRun.{is_act, IsReached, GivesTraced, GivesTracedNext, GoesTraced};

use crate::next_thread::next_thread;
use crate::telling::tell_turn;
use journal_rows::JournalRows;
use op_core::{How, Limit, NoMemory, ThreadCode};
use sched_core::{how_at, how_it_ends, one_more};
use schedules::{Remaining, Schedule, TurnEnd};
use std::alloc::Global;
use word_machine::{ToldTurn, WordMachine};

/// How many events and undoings a journal can have.
const MOST_ITEMS: usize = 4_194_304;

/// The number of the kind of the step that opens a section.
const OPEN_SECTION: u8 = 5;

/// The number of the kind of the step that marks levels undone.
const MARK_UNDONE: u8 = 10;

/// Threads on shared words that follow a schedule and keep a journal. Contracts see of which places of a run they are
/// (`IsTracedPlace`).
#[derive(Drop)]
pub(crate) struct TracedRun<'a, C: ThreadCode> {
    pub(crate) machine: WordMachine<C>,
    pub(crate) rest: Remaining<'a>,
    // room for the threads that can go on
    pub(crate) enabled: Vec<u8>,
    // what the turns have told
    pub(crate) rows: JournalRows,
    // the thread of the last act, or 0
    pub(crate) last: u8,
    // how many sections were opened, and how often a thread undid levels
    pub(crate) opened: u64,
    pub(crate) undone: u64,
}

// Whether a turn made an act: a step, or a silent one.
fn is_act(turn: &ToldTurn) -> bool
    ensures { result ≡ is_act turn.now }
{
    turn.kind != 0 || matches!(turn.end, TurnEnd::Other)
}

impl<'a, C: ThreadCode + Drop> TracedRun<'a, C> {
    /// A run that begins with these threads and words.
    ///
    /// # Errors
    /// `NoMemory` where there was no memory.
    pub(crate) fn begin(
        alloc: Global,
        machine: WordMachine<C>,
        schedule: &'a Schedule,
    ) -> Result<Self, NoMemory>
        ensures machine { IfOk result (λ run. run.machine ≡ machine) }
        ensures rest { IfOk result (λ run. run.rest ≡ rest_of schedule.now) }
        ensures rows { IfOk result (λ run. AreRowsTold run.rows nothing_told) }
        ensures last { IfOk result (λ run. run.last ≡ 0) }
        ensures opened { IfOk result (λ run. run.opened ≡ 0) }
        ensures undone { IfOk result (λ run. run.undone ≡ 0) }
    {
        let rows = JournalRows::new(alloc)?;
        Ok(TracedRun {
            machine,
            rest: Remaining::new(schedule),
            enabled: Vec::new(alloc),
            rows,
            last: 0,
            opened: 0,
            undone: 0,
        })
    }

    // Counts what a turn opened or undid.
    fn count(&mut self, end: TurnEnd) -> Result<(), NoMemory>
        ensures machine { self.new.machine ≡ self.old.machine }
        ensures rest { self.new.rest ≡ self.old.rest }
        ensures rows { self.new.rows ≡ self.old.rows }
        ensures last { self.new.last ≡ self.old.last }
        ensures opened { OnOk result (self.new.opened ≡ self.old.opened + opens_by end) }
        ensures undone { OnOk result (self.new.undone ≡ self.old.undone + undoes_by end) }
    {
        let (opens, undoes) = match end {
            TurnEnd::Made(kind) => (kind == OPEN_SECTION, kind == MARK_UNDONE),
            _ => (false, false),
        };
        self.opened = one_more(self.opened, opens)?;
        self.undone = one_more(self.undone, undoes)?;
        Ok(())
    }

    // Gives a thread its turn, tells the rows of it, and says what it came to.
    fn give(&mut self, thread: u8) -> Result<TurnEnd, NoMemory>
        requires there { IsSome (seat_in self.old.machine.seats.places.items thread) }
        requires ready { AreReady C.code (thread_of C.state C.saved) self.old.machine.bounds self.old.machine.words self.old.machine.seats.places.items }
        requires reached { IsReached C.code (thread_of C.state C.saved) self.old.machine.bounds self.old.machine.words self.old.machine.seats.places.items }
        ensures bounds { self.new.machine.bounds ≡ self.old.machine.bounds }
        ensures areas { self.new.machine.words.areas ≡ self.old.machine.words.areas }
        ensures rest { self.new.rest ≡ self.old.rest }
        ensures gives { IfOk result (λ end. GivesTraced C.code (thread_of C.state C.saved) self.old.machine.bounds self.old thread end self.new) }
    {
        let turn = self.machine.turn_told(thread)?;
        tell_turn(&mut self.rows, thread, &turn)?;
        self.count(turn.end)?;
        if is_act(&turn) {
            self.last = thread;
        }
        Ok(turn.end)
    }

    // Gives the thread its turn that has the next one, and says how the run ends, if it does.
    fn give_next(&mut self, thread: u8) -> Result<Option<How>, NoMemory>
        requires there { IsSome (seat_in self.old.machine.seats.places.items thread) }
        requires ready { AreReady C.code (thread_of C.state C.saved) self.old.machine.bounds self.old.machine.words self.old.machine.seats.places.items }
        requires reached { IsReached C.code (thread_of C.state C.saved) self.old.machine.bounds self.old.machine.words self.old.machine.seats.places.items }
        ensures bounds { self.new.machine.bounds ≡ self.old.machine.bounds }
        ensures areas { self.new.machine.words.areas ≡ self.old.machine.words.areas }
        ensures gives { IfOk result (λ how. GivesTracedNext C.code (thread_of C.state C.saved) self.old.machine.bounds self.old thread how self.new) }
    {
        let end = self.give(thread)?;
        self.rest.end_turn(end);
        Ok(how_at(thread, end))
    }

    /// Goes on by one turn, or says how the run ends: at the latest where the journal is full.
    ///
    /// # Errors
    /// `NoMemory` where there was no memory.
    pub(crate) fn go_on(&mut self) -> Result<Option<How>, NoMemory>
        requires ready { AreReady C.code (thread_of C.state C.saved) self.old.machine.bounds self.old.machine.words self.old.machine.seats.places.items }
        requires reached { IsReached C.code (thread_of C.state C.saved) self.old.machine.bounds self.old.machine.words self.old.machine.seats.places.items }
        ensures bounds { self.new.machine.bounds ≡ self.old.machine.bounds }
        ensures areas { self.new.machine.words.areas ≡ self.old.machine.words.areas }
        ensures goes { IfOk result (λ how. GoesTraced C.code (thread_of C.state C.saved) self.old.machine.bounds self.old how self.new) }
    {
        if self.rows.count() >= MOST_ITEMS {
            return Ok(Some(How::Limit(self.last, Limit::Trace)));
        }
        match next_thread(&self.machine, &mut self.rest, &mut self.enabled)? {
            Some(thread) => self.give_next(thread),
            None => Ok(Some(how_it_ends(&self.machine))),
        }
    }
}
