//! A run along a schedule, one turn after another.

ghost use Rattle.std.specs.Prelude.{◌≡◌, ◌+◌, true, false, IfOk, IfSome, IsSome, OnOk, None, Some, [], ◌∷◌, ◌++◌, slice_get, if◌then◌else◌};
ghost use Rattle.std.specs.Option.{option_map};
ghost use Rattle.schedules.specs.Schedule as schedule;
ghost use Rattle.schedules.specs.Run.{AreThose};
ghost use Rattle.thread_moves.specs.Thread.{thread_of};
ghost use Rattle.thread_moves.specs.declared.thread.JThread.{JThread};
ghost use Rattle.word_runs.specs.WordTurns.{is_live};
ghost use Rattle.word_machine.specs.Seats.{seat_in};
ghost use Rattle.word_machine.specs.Machine.{threads_in};
ghost use Rattle.word_machine.specs.Turns.{CanTurnOn, GivesTurn};
ghost use Rattle.sched_core.specs.Outcome.{rest_of};
ghost use Rattle.sched_core.specs.ScheduledRun.{how_at, opens_by, undoes_by, is_load, leaves_words, CanGoOn, CanGive, counts_turns, order_left, AreReady, AreListed, GivesPlace, GivesNext, GoesOnFrom, GoesOnDue, GoesOnPicked};

use crate::WordRun;
use crate::ends::how_it_ends;
use op_core::{How, NoMemory, ThreadCode};
use schedules::{OrderItem, Remaining, Schedule, TurnEnd, pick};
use std::alloc::Global;
use word_machine::WordMachine;

/// The number of the kind of the step that opens a section.
const OPEN_SECTION: u8 = 5;

/// The number of the kind of the step that marks levels undone.
const MARK_UNDONE: u8 = 10;

/// How a run ends at a thread's turn that came to this, or `None` where it goes on.
pub fn how_at(thread: u8, end: TurnEnd) -> Option<How>
    ensures { result ≡ how_at thread end }
{
    match end {
        TurnEnd::Spent(limit) => Some(How::Limit(thread, limit)),
        _ => None,
    }
}

// Whether a step of this kind loads a word.
fn is_load(kind: u8) -> bool
    ensures { result ≡ is_load kind }
{
    matches!(kind, 1 | 6 | 11 | 21 | 24 | 25)
}

// Whether a turn that came to this left the shared words and the other threads as they were.
fn leaves_words(end: TurnEnd) -> bool
    ensures { result ≡ leaves_words end }
{
    match end {
        TurnEnd::Made(kind) => is_load(kind),
        TurnEnd::Other => true,
        TurnEnd::Blocked | TurnEnd::Spent(_) => false,
    }
}

/// One more, if there is room.
pub fn one_more(count: u64, is_one: bool) -> Result<u64, NoMemory>
    ensures { IfOk result (λ more. more ≡ count + (if is_one then 1 else 0)) }
{
    match count.checked_add(is_one as u64) {
        Some(more) => Ok(more),
        None => Err(NoMemory),
    }
}

fn add(threads: &mut Vec<u8>, thread: u8) -> Result<(), NoMemory>
    ensures { OnOk result (threads.new.items ≡ threads.old.items ++ thread ∷ []) }
{
    match threads.push(thread) {
        Ok(()) => Ok(()),
        Err(_) => Err(NoMemory),
    }
}

/// Lists the threads that can go on, by rising number.
pub fn list_enabled<C: ThreadCode + Drop>(
    machine: &WordMachine<C>,
    threads: &mut Vec<u8>,
) -> Result<(), NoMemory>
    ensures { OnOk result (AreThose (CanGoOn C.code (thread_of C.state C.saved) machine.now.words machine.now.seats.places.items) threads.new.items) }
{
    threads.clear();
    for number in 0..machine.count() {
        let thread = number as u8;
        if machine.is_enabled(thread) {
            add(threads, thread)?;
        }
    }
    Ok(())
}

// How many turns an item gives at most.
fn most_turns(item: Option<OrderItem>) -> u64
    ensures { IfSome item (CanGive result) }
{
    match item {
        Some(OrderItem::Turns(_, count)) => count as u64,
        Some(OrderItem::Until(_, _)) => u64::MAX,
        None => 0,
    }
}

// Whether each turn of the item is taken off it.
fn counts_turns(item: Option<OrderItem>) -> bool
    ensures { result ≡ counts_turns item }
{
    matches!(item, Some(OrderItem::Turns(_, _)))
}

// Takes off the order what `turns` turns of its first item use up, none of which came to what the item asks for.
fn end_turns(rest: &mut Remaining<'_>, turns: u64)
    ensures { rest.new ≡ record rest.old { order = order_left turns rest.old.order } }
{
    if counts_turns(rest.first()) {
        for _turn in 0..turns {
            rest.end_turn(TurnEnd::Other);
        }
    }
}

impl<'a, C: ThreadCode + Drop> WordRun<'a, C> {
    /// A run that begins with these threads and words.
    pub(crate) fn new(alloc: Global, machine: WordMachine<C>, schedule: &'a Schedule) -> Self
        ensures machine { result.machine ≡ machine }
        ensures rest { result.rest ≡ rest_of schedule.now }
        ensures opened { result.opened ≡ 0 }
        ensures undone { result.undone ≡ 0 }
        ensures unlisted { result.is_listed ≡ false }
    {
        WordRun {
            machine,
            rest: Remaining::new(schedule),
            enabled: Vec::new(alloc),
            is_listed: false,
            opened: 0,
            undone: 0,
        }
    }

    // Counts what a turn opened or undid.
    fn count(&mut self, end: TurnEnd) -> Result<(), NoMemory>
        ensures machine { self.new.machine ≡ self.old.machine }
        ensures rest { self.new.rest ≡ self.old.rest }
        ensures enabled { self.new.enabled ≡ self.old.enabled }
        ensures listed { self.new.is_listed ≡ self.old.is_listed }
        ensures opened { OnOk result (self.new.opened ≡ self.old.opened + opens_by end) }
        ensures undone { OnOk result (self.new.undone ≡ self.old.undone + undoes_by end) }
    {
        let (opens, undoes) = match end {
            TurnEnd::Made(kind) => (kind == OPEN_SECTION, kind == MARK_UNDONE),
            _ => (false, false),
        };
        self.opened = one_more(self.opened, opens)?;
        self.undone = one_more(self.undone, undoes)?;
        Ok(())
    }

    // Gives a thread its turn, and says what that came to.
    fn give(&mut self, thread: u8) -> Result<TurnEnd, NoMemory>
        requires there { IsSome (seat_in self.old.machine.seats.places.items thread) }
        requires ready { (x : JThread C) → seat_in self.old.machine.seats.places.items thread ≡ Some x
            → CanTurnOn C.code self.old.machine.bounds self.old.machine.words (thread_of C.state C.saved x) }
        ensures bounds { self.new.machine.bounds ≡ self.old.machine.bounds }
        ensures areas { self.new.machine.words.areas ≡ self.old.machine.words.areas }
        ensures rest { self.new.rest ≡ self.old.rest }
        ensures enabled { self.new.enabled ≡ self.old.enabled }
        ensures unlisted { self.new.is_listed ≡ false }
        ensures turn { IfOk result (λ end. GivesTurn C.code (thread_of C.state C.saved) self.old.machine.bounds self.old.machine.words self.old.machine.seats.places.items
            thread end self.new.machine.words self.new.machine.seats.places.items) }
        ensures gives { IfOk result (λ end. GivesPlace C.code (thread_of C.state C.saved) self.old.machine.bounds self.old thread end self.new) }
    {
        self.is_listed = false;
        let end = self.machine.turn(thread)?;
        self.count(end)?;
        Ok(end)
    }

    // The same for a thread most of whose turns are silent: those are made in a shorter way.
    fn give_quickly(&mut self, thread: u8) -> Result<TurnEnd, NoMemory>
        requires there { IsSome (seat_in self.old.machine.seats.places.items thread) }
        requires ready { (x : JThread C) → seat_in self.old.machine.seats.places.items thread ≡ Some x
            → CanTurnOn C.code self.old.machine.bounds self.old.machine.words (thread_of C.state C.saved x) }
        ensures bounds { self.new.machine.bounds ≡ self.old.machine.bounds }
        ensures areas { self.new.machine.words.areas ≡ self.old.machine.words.areas }
        ensures rest { self.new.rest ≡ self.old.rest }
        ensures enabled { self.new.enabled ≡ self.old.enabled }
        ensures unlisted { self.new.is_listed ≡ false }
        ensures turn { IfOk result (λ end. GivesTurn C.code (thread_of C.state C.saved) self.old.machine.bounds self.old.machine.words self.old.machine.seats.places.items
            thread end self.new.machine.words self.new.machine.seats.places.items) }
        ensures gives { IfOk result (λ end. GivesPlace C.code (thread_of C.state C.saved) self.old.machine.bounds self.old thread end self.new) }
    {
        let made = self.machine.run_silent(thread, 1);
        if made > 0 {
            self.is_listed = false;
            return Ok(TurnEnd::Other);
        }
        self.give(thread)
    }

    // Gives the thread its turn that has the next one, and says how the run ends, if it does.
    fn give_next(&mut self, thread: u8) -> Result<Option<How>, NoMemory>
        requires there { IsSome (seat_in self.old.machine.seats.places.items thread) }
        requires ready { (x : JThread C) → seat_in self.old.machine.seats.places.items thread ≡ Some x
            → CanTurnOn C.code self.old.machine.bounds self.old.machine.words (thread_of C.state C.saved x) }
        ensures bounds { self.new.machine.bounds ≡ self.old.machine.bounds }
        ensures areas { self.new.machine.words.areas ≡ self.old.machine.words.areas }
        ensures unlisted { self.new.is_listed ≡ false }
        ensures gives { IfOk result (λ how. GivesNext C.code (thread_of C.state C.saved) self.old.machine.bounds self.old thread how self.new) }
    {
        let end = self.give(thread)?;
        self.rest.end_turn(end);
        Ok(how_at(thread, end))
    }

    // Gives a listed thread its turn that has the next one. The list stays where the turn left the words as they were and the
    // thread can still go on.
    fn give_listed(&mut self, thread: u8) -> Result<Option<How>, NoMemory>
        requires there { IsSome (seat_in self.old.machine.seats.places.items thread) }
        requires ready { (x : JThread C) → seat_in self.old.machine.seats.places.items thread ≡ Some x
            → CanTurnOn C.code self.old.machine.bounds self.old.machine.words (thread_of C.state C.saved x) }
        requires listed { AreThose (CanGoOn C.code (thread_of C.state C.saved) self.old.machine.words self.old.machine.seats.places.items) self.old.enabled.items }
        requires can { CanGoOn C.code (thread_of C.state C.saved) self.old.machine.words self.old.machine.seats.places.items thread }
        ensures bounds { self.new.machine.bounds ≡ self.old.machine.bounds }
        ensures areas { self.new.machine.words.areas ≡ self.old.machine.words.areas }
        ensures listed { AreListed C.code (thread_of C.state C.saved) self.new }
        ensures gives { IfOk result (λ how. GivesNext C.code (thread_of C.state C.saved) self.old.machine.bounds self.old thread how self.new) }
    {
        let end = self.give_quickly(thread)?;
        self.rest.end_turn(end);
        self.is_listed = leaves_words(end) && self.machine.is_enabled(thread);
        Ok(how_at(thread, end))
    }

    // Lists the threads that can go on, unless they are listed.
    fn list(&mut self) -> Result<(), NoMemory>
        requires { AreListed C.code (thread_of C.state C.saved) self.old }
        ensures machine { self.new.machine ≡ self.old.machine }
        ensures rest { self.new.rest ≡ self.old.rest }
        ensures opened { self.new.opened ≡ self.old.opened }
        ensures undone { self.new.undone ≡ self.old.undone }
        ensures listed { AreListed C.code (thread_of C.state C.saved) self.new }
        ensures those { OnOk result (AreThose (CanGoOn C.code (thread_of C.state C.saved) self.new.machine.words self.new.machine.seats.places.items) self.new.enabled.items) }
    {
        if !self.is_listed {
            list_enabled(&self.machine, &mut self.enabled)?;
            self.is_listed = true;
        }
        Ok(())
    }

    // Gives the thread of the first item, which is due, its silent turns at once, or else its next turn.
    fn give_ordered(&mut self, thread: u8) -> Result<Option<How>, NoMemory>
        requires ready { AreReady C.code (thread_of C.state C.saved) self.old.machine.bounds self.old.machine.words self.old.machine.seats.places.items }
        requires lives { is_live (threads_in (thread_of C.state C.saved) self.old.machine.seats.places.items thread) ≡ true }
        requires first { Some thread ≡ option_map schedule.thread_of (slice_get self.old.rest.order 0) }
        ensures bounds { self.new.machine.bounds ≡ self.old.machine.bounds }
        ensures areas { self.new.machine.words.areas ≡ self.old.machine.words.areas }
        ensures unlisted { self.new.is_listed ≡ false }
        ensures goes { IfOk result (λ how. GoesOnDue C.code (thread_of C.state C.saved) self.old.machine.bounds self.old how self.new) }
    {
        let most = most_turns(self.rest.first());
        let made = self.machine.run_silent(thread, most);
        if made > 0 {
            end_turns(&mut self.rest, made);
            self.is_listed = false;
            return Ok(None);
        }
        self.give_next(thread)
    }

    // Gives the thread that a number picks its next turn.
    fn give_drawn(&mut self, number: u64) -> Result<Option<How>, NoMemory>
        requires ready { AreReady C.code (thread_of C.state C.saved) self.old.machine.bounds self.old.machine.words self.old.machine.seats.places.items }
        requires rest { self.old.rest ≡ record { order = []; number = Some number } }
        requires listed { AreListed C.code (thread_of C.state C.saved) self.old }
        ensures bounds { self.new.machine.bounds ≡ self.old.machine.bounds }
        ensures areas { self.new.machine.words.areas ≡ self.old.machine.words.areas }
        ensures listed { AreListed C.code (thread_of C.state C.saved) self.new }
        ensures goes { IfOk result (λ how. GoesOnPicked C.code (thread_of C.state C.saved) self.old.machine.bounds self.old how self.new) }
    {
        self.list()?;
        match pick(self.enabled.as_slice(), Some(number)) {
            Some(thread) => self.give_listed(thread),
            None => Ok(Some(how_it_ends(&self.machine))),
        }
    }

    // Gives the lowest thread that can go on its usual turns at once, or else its next turn. To find that thread, each one is
    // tried by rising number, so that no threads are listed.
    fn give_lowest(&mut self) -> Result<Option<How>, NoMemory>
        requires ready { AreReady C.code (thread_of C.state C.saved) self.old.machine.bounds self.old.machine.words self.old.machine.seats.places.items }
        requires rest { self.old.rest ≡ record { order = []; number = None } }
        ensures bounds { self.new.machine.bounds ≡ self.old.machine.bounds }
        ensures areas { self.new.machine.words.areas ≡ self.old.machine.words.areas }
        ensures unlisted { self.new.is_listed ≡ false }
        ensures goes { IfOk result (λ how. GoesOnPicked C.code (thread_of C.state C.saved) self.old.machine.bounds self.old how self.new) }
    {
        for number in 0..self.machine.count() {
            let thread = number as u8;
            if self.machine.run_usual(thread, u64::MAX) > 0 {
                self.is_listed = false;
                return Ok(None);
            }
            if self.machine.is_enabled(thread) {
                return self.give_next(thread);
            }
        }
        self.is_listed = false;
        Ok(Some(how_it_ends(&self.machine)))
    }

    // Where the order is through, gives the thread that is picked its next turn. Where no number is drawn, its usual turns come
    // at once.
    fn give_picked(&mut self) -> Result<Option<How>, NoMemory>
        requires ready { AreReady C.code (thread_of C.state C.saved) self.old.machine.bounds self.old.machine.words self.old.machine.seats.places.items }
        requires through { self.old.rest.order ≡ [] }
        requires listed { AreListed C.code (thread_of C.state C.saved) self.old }
        ensures bounds { self.new.machine.bounds ≡ self.old.machine.bounds }
        ensures areas { self.new.machine.words.areas ≡ self.old.machine.words.areas }
        ensures listed { AreListed C.code (thread_of C.state C.saved) self.new }
        ensures goes { IfOk result (λ how. GoesOnDue C.code (thread_of C.state C.saved) self.old.machine.bounds self.old how self.new) }
    {
        match self.rest.draw() {
            Some(number) => self.give_drawn(number),
            None => self.give_lowest(),
        }
    }

    /// Goes on by one turn or more, or says how the run ends.
    pub(crate) fn go_on(&mut self) -> Result<Option<How>, NoMemory>
        requires ready { AreReady C.code (thread_of C.state C.saved) self.old.machine.bounds self.old.machine.words self.old.machine.seats.places.items }
        requires listed { AreListed C.code (thread_of C.state C.saved) self.old }
        ensures bounds { self.new.machine.bounds ≡ self.old.machine.bounds }
        ensures areas { self.new.machine.words.areas ≡ self.old.machine.words.areas }
        ensures listed { AreListed C.code (thread_of C.state C.saved) self.new }
        ensures goes { IfOk result (λ how. GoesOnFrom C.code (thread_of C.state C.saved) self.old.machine.bounds self.old how self.new) }
    {
        match self.rest.due(&self.machine) {
            Some(thread) => self.give_ordered(thread),
            None => self.give_picked(),
        }
    }
}
