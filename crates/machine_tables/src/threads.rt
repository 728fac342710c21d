//! The threads that have begun, by number: where each is, and what it waits for.

ghost use Rattle.std.specs.Prelude.{ℕ, ◌≡◌, ◌<◌, Ok, Err, true, false, OnOk, OnErr, Some, None, IsSome, IsNone, ◌↔◌, ◌≤◌, IsTrue, MatchOption, ◌+◌, length, vec_len};
ghost use Rattle.std.specs.Option.{option_copied, option_map};
ghost use Rattle.op_core.specs.OrdinaryState.{set_at, IsNotifiedFor, IsWaitingFor, saved_count, notified_of};
ghost use Rattle.machine_tables.specs.Tables.{seat_at, SeatRuns, SeatOverflows, SeatLeaves, AwaitsReply, SeatReplies, waiting_of, waiting_in, has_ended, IsFreeSeat};
ghost use Rattle.op_core.specs.OrdinaryStep.{IsFirstWaiting};
ghost use Rattle.op_core.specs.declared.CodeStop.{CodeStop};

use crate::places::{replace_at, reply_at, run_at, silent_at, stand_at, wait_at};
use op_core::{CodeStop, NoMemory, Reply, ThreadCode};
use std::alloc::Global;

/// Where a thread that has begun is.
#[derive(Drop)]
pub enum Standing<C> {
    /// It goes on from this code.
    Live(C),
    /// It has ended: normally, or by an uncaught exception of this class.
    Ended(Option<u32>),
}

/// What a thread waits for (JLS 17.2).
#[derive(Clone, Copy)]
pub enum WaitState {
    /// Nothing.
    Awake,
    /// It is in the wait set of the object of this reference, whose monitor it had entered this many times.
    Waits(u32, u64),
    /// It was notified, and has yet to enter that monitor again as many times.
    Notified(u32, u64),
}

impl WaitState {
    fn is_waiting_for(self, reference: u32) -> bool
        ensures { IsTrue result ↔ IsWaitingFor reference (waiting_of self) }
    {
        match self {
            WaitState::Waits(object, _) => object == reference,
            _ => false,
        }
    }

    fn is_notified_for(self, reference: u32) -> bool
        ensures { IsTrue result ↔ IsNotifiedFor reference (waiting_of self) }
    {
        match self {
            WaitState::Notified(object, _) => object == reference,
            _ => false,
        }
    }

    /// How many times the monitor had been entered before the wait, 0 where the thread is awake.
    pub fn saved_count(self) -> u64
        ensures { result ≡ saved_count (waiting_of self) }
    {
        match self {
            WaitState::Awake => 0,
            WaitState::Waits(_, count) | WaitState::Notified(_, count) => count,
        }
    }

    /// Out of the wait set, with the monitor yet to enter again (JLS 17.2.2). A thread that is in none stays
    /// as it is.
    pub fn notified(self) -> WaitState
        ensures { waiting_of result ≡ notified_of (waiting_of self) }
    {
        match self {
            WaitState::Awake => WaitState::Awake,
            WaitState::Waits(object, count) | WaitState::Notified(object, count) => {
                WaitState::Notified(object, count)
            }
        }
    }
}

/// A thread that has begun.
#[derive(Drop)]
pub struct Seat<C> {
    /// Where it is.
    pub standing: Standing<C>,
    /// What it waits for.
    pub waiting: WaitState,
    /// How many silent steps it has made since its last event.
    pub silent: u64,
}

/// The threads that have begun, by number from 1 to 255. Contracts see the seat of each number, `None` where no
/// thread has begun with it (`seat_at`).
#[derive(Drop)]
pub struct Threads<C> {
    seats: Vec<Option<Seat<C>>>,
}

impl<C: Drop> Threads<C> {
    /// No thread has begun. Takes no memory.
    pub fn new(alloc: Global) -> Self
        ensures { seat_at result ≡ (λ _. None) }
    {
        Threads {
            seats: Vec::new(alloc),
        }
    }

    /// The seat of a thread, or `None` where it has not begun. There is no thread 0.
    #[inline(always)]
    pub fn get(&self, thread: u8) -> Option<&Seat<C>>
        ensures { option_copied result ≡ seat_at self.now thread }
    {
        if thread == 0 {
            return None;
        }
        match self.seats.get(thread as usize) {
            Some(Some(seat)) => Some(seat),
            _ => None,
        }
    }

    /// What a thread waits for. One that has not begun waits for nothing.
    pub fn waiting(&self, thread: u8) -> WaitState
        ensures { waiting_of result ≡ waiting_in (seat_at self.now) thread }
    {
        match self.get(thread) {
            Some(seat) => seat.waiting,
            None => WaitState::Awake,
        }
    }

    /// Whether a thread was notified and has yet to enter the monitor of this object again.
    pub fn is_notified_for(&self, reference: u32, thread: u8) -> bool
        ensures { IsTrue result ↔ IsNotifiedFor reference (waiting_in (seat_at self.now) thread) }
    {
        self.waiting(thread).is_notified_for(reference)
    }

    /// Whether the thread has begun and ended.
    pub fn has_ended(&self, thread: u8) -> bool
        ensures { result ≡ has_ended (seat_at self.now) thread }
    {
        match self.get(thread) {
            Some(seat) => match seat.standing {
                Standing::Ended(_) => true,
                Standing::Live(_) => false,
            },
            None => false,
        }
    }

    /// The highest number with which a thread has begun, or 0 where none has.
    pub fn highest(&self) -> u8
        ensures above { (k : ℕ) → result < k → IsNone (seat_at self.now k) }
        ensures begun { 0 < result → IsSome (seat_at self.now result) }
    {
        let end = self.seats.len().min(256);
        for above in 0..end {
            let number = (end - 1 - above) as u8;
            if self.get(number).is_some() {
                return number;
            }
        }
        0
    }

    /// Whether a new thread can have the number: it is above 1, and no thread has begun with it.
    pub fn is_free_number(&self, number: u8) -> bool
        ensures { IsTrue result ↔ IsFreeSeat (seat_at self.now) number }
    {
        number >= 2 && self.get(number).is_none()
    }

    /// The lowest number that a new thread can have, or `None` where all have been drawn.
    pub fn free_number(&self) -> Option<u8>
        ensures { MatchOption result ((k : ℕ) → IsFreeSeat (seat_at self.now) k → ⊥) (λ n. IsFreeSeat (seat_at self.now) n × ((k : ℕ) → IsFreeSeat (seat_at self.now) k → n ≤ k)) }
    {
        for number in 2..256u16 {
            let free = number as u8;
            if self.is_free_number(free) {
                return Some(free);
            }
        }
        None
    }

    /// The lowest thread in the wait set of an object, or 0 where the set is empty. JLS 17.2.2 leaves open
    /// which thread of the set is notified.
    pub fn first_waiting(&self, reference: u32) -> u8
        ensures { IsFirstWaiting reference result (waiting_in (seat_at self.now)) }
    {
        for number in 0..self.highest() as u16 + 1 {
            let thread = number as u8;
            if self.waiting(thread).is_waiting_for(reference) {
                return thread;
            }
        }
        0
    }

    /// Whether the thread is the lowest one in the wait set of an object, or 0 where the set is empty.
    pub fn is_first_waiting(&self, reference: u32, thread: u8) -> bool
        ensures { IsTrue result ↔ IsFirstWaiting reference thread (waiting_in (seat_at self.now)) }
    {
        self.first_waiting(reference) == thread
    }

    /// Seats a thread of a number above 0, in place of the one that had it. Without memory for it the table is
    /// as before, and the seat is dropped.
    pub fn insert(&mut self, thread: u8, seat: Seat<C>) -> Result<(), NoMemory>
        requires { 0 < thread }
        ensures ok { OnOk result (seat_at self.new ≡ set_at (seat_at self.old) thread (Some seat)) }
        ensures err { OnErr result (seat_at self.new ≡ seat_at self.old) }
    {
        self.grow(thread)?;
        let place = thread as usize;
        self.seats[place] = Some(seat);
        Ok(())
    }

    // Makes a place for a thread of this number, and for those below it.
    fn grow(&mut self, thread: u8) -> Result<(), NoMemory>
        ensures seats { seat_at self.new ≡ seat_at self.old }
        ensures place { OnOk result (thread < length self.new.seats.items) }
    {
        for _ in self.seats.len()..thread as usize + 1 {
            self.add_place()?;
        }
        Ok(())
    }

    // Makes one place more.
    fn add_place(&mut self) -> Result<(), NoMemory>
        ensures seats { seat_at self.new ≡ seat_at self.old }
        ensures place { OnOk result (vec_len self.new.seats ≡ vec_len self.old.seats + 1) }
    {
        match self.seats.push(None) {
            Ok(()) => Ok(()),
            Err(_) => Err(NoMemory),
        }
    }

    // The place of a thread in the table, where the table has one.
    #[inline(always)]
    fn place_of(&self, thread: u8) -> Option<usize>
        ensures { MatchOption result (seat_at self.now thread ≡ None) (λ place. (place ≡ thread) × (0 < thread) × (thread < length self.now.seats.items)) }
    {
        let place = thread as usize;
        if thread > 0 && place < self.seats.len() {
            Some(place)
        } else {
            None
        }
    }

    /// Sets what a thread waits for. Where it has not begun, nothing changes.
    pub fn set_waiting(&mut self, thread: u8, waiting: WaitState)
        ensures there { (x : _) → seat_at self.old thread ≡ Some x → seat_at self.new ≡ set_at (seat_at self.old) thread (Some (record x { waiting = waiting })) }
        ensures absent { seat_at self.old thread ≡ None → seat_at self.new ≡ seat_at self.old }
    {
        if let Some(place) = self.place_of(thread) {
            wait_at(&mut self.seats[place], waiting);
        }
    }

    /// Sets where a thread is, and how many silent steps it has made since its last event. Where it has
    /// not begun, nothing changes.
    pub fn set_standing(&mut self, thread: u8, standing: Standing<C>, silent: u64)
        ensures there { (x : _) → seat_at self.old thread ≡ Some x → seat_at self.new ≡ set_at (seat_at self.old) thread (Some (record x { standing = standing; silent = silent })) }
        ensures absent { seat_at self.old thread ≡ None → seat_at self.new ≡ seat_at self.old }
    {
        if let Some(place) = self.place_of(thread) {
            stand_at(&mut self.seats[place], standing, silent);
        }
    }

    /// Puts a thread elsewhere, with the silent steps that it has made, and returns where it was; `None`
    /// where it has not begun, and then nothing changes.
    pub fn replace_standing(&mut self, thread: u8, standing: Standing<C>) -> Option<Standing<C>>
        ensures result { result ≡ option_map (λ x. x.standing) (seat_at self.old thread) }
        ensures there { (x : _) → seat_at self.old thread ≡ Some x → seat_at self.new ≡ set_at (seat_at self.old) thread (Some (record x { standing = standing })) }
        ensures absent { seat_at self.old thread ≡ None → seat_at self.new ≡ seat_at self.old }
    {
        match self.place_of(thread) {
            Some(place) => replace_at(&mut self.seats[place], standing),
            None => None,
        }
    }
}

impl<C: ThreadCode + Drop> Threads<C> {
    /// Makes at most `most` silent steps of a thread from where it is, and returns how many it made: none where it
    /// has not begun or has ended. The count of its silent steps has room for them.
    pub fn run_silent(&mut self, thread: u8, most: u64) -> u64
        ensures runs { SeatRuns C.code C.state result (seat_at self.old thread) (seat_at self.new thread) }
        ensures others { seat_at self.new ≡ set_at (seat_at self.old) thread (seat_at self.new thread) }
        ensures most { result ≤ most }
    {
        match self.place_of(thread) {
            Some(place) => run_at(&mut self.seats[place], most),
            None => 0,
        }
    }

    /// Makes the silent step of a thread from where it is, and returns whether it did. It does not exactly where the
    /// thread isn't silent next, and where the step ends a frame that was on top at a save. `Frames` comes exactly
    /// where the step would make a 1,025th frame, and `NoMemory` also where its count of silent steps has no room.
    /// Where no step was made, nothing changes.
    pub fn silent(&mut self, thread: u8) -> Result<bool, CodeStop>
        ensures made { result ≡ Ok true → SeatRuns C.code C.state 1 (seat_at self.old thread) (seat_at self.new thread) }
        ensures left { result ≡ Ok false → SeatLeaves C.code C.state C.saved (seat_at self.old thread) }
        ensures others { result ≡ Ok true → seat_at self.new ≡ set_at (seat_at self.old) thread (seat_at self.new thread) }
        ensures frames { result ≡ Err CodeStop.Frames → SeatOverflows C.code C.state (seat_at self.old thread) }
        ensures kept { (result ≡ Ok true → ⊥) → seat_at self.new ≡ seat_at self.old }
    {
        match self.place_of(thread) {
            Some(place) => silent_at(&mut self.seats[place]),
            None => Ok(false),
        }
    }

    /// Goes on with the reply to the operation that a thread wants, from where it is. It has then made no silent
    /// step since its last event. Takes no memory.
    #[inline(always)]
    pub fn reply(&mut self, thread: u8, reply: Reply)
        requires { AwaitsReply C.code C.state (seat_at self.old thread) reply }
        ensures replies { SeatReplies C.code C.state reply (seat_at self.old thread) (seat_at self.new thread) }
        ensures others { seat_at self.new ≡ set_at (seat_at self.old) thread (seat_at self.new thread) }
    {
        if let Some(place) = self.place_of(thread) {
            reply_at(&mut self.seats[place], reply);
        }
    }
}
