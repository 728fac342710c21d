//! What rows are told while a run goes on.

ghost use Rattle.std.specs.Prelude.{◌≡◌, ◌+◌, ◌<◌, [], ◌∷◌, ◌++◌, true, false, IfOk, OnOk, OnErr, length, take, slice_get, slice_set, vec_len, vec_capacity};
ghost use Rattle.journal_rows.specs.Leaving.{from_below, marked_from, from_opened, marked_since};
ghost use Rattle.journal_rows.specs.Rows.{AreRowsTold, AreFresh, ThreadChanges, Notes, IsAsBefore};
ghost use Rattle.journal_rows.specs.Told.{RowsTold, RowCall, nothing_told, after_row_call};

use crate::{EventNumbers, JournalRows, ThreadRows};
use op_core::{Event, NoMemory};
use std::alloc::Global;
use trace_journal::JournalItem;

pub(crate) fn add<T: Drop>(items: &mut Vec<T>, item: T) -> Result<(), NoMemory>
    ensures { OnOk result (items.new.items ≡ items.old.items ++ item ∷ []) }
{
    match items.push(item) {
        Ok(()) => Ok(()),
        Err(_) => Err(NoMemory),
    }
}

// Room for a thread of each number below 256.
fn new_threads(alloc: Global) -> Result<Vec<ThreadRows>, NoMemory>
    ensures whole { IfOk result (λ threads. length threads.items ≡ 256) }
    ensures new { IfOk result (λ threads. AreFresh threads.items) }
{
    let mut threads = Vec::new(alloc);
    for _ in 0..256u16 {
        add(&mut threads, ThreadRows::new(alloc))?;
    }
    Ok(threads)
}

// The number of the next item.
pub(crate) fn number_of(count: usize) -> Result<u32, NoMemory>
    ensures { IfOk result (λ number. number ≡ count) }
{
    match u32::try_from(count) {
        Ok(number) => Ok(number),
        Err(_) => Err(NoMemory),
    }
}

// Marks the item of a number as not left.
fn mark(left: &mut Vec<bool>, number: u32)
    ensures left { left.new.items ≡ slice_set left.old.items number false }
    ensures len { vec_len left.new ≡ vec_len left.old }
    ensures capacity { vec_capacity left.new ≡ vec_capacity left.old }
{
    let place = number as usize;
    if place < left.len() {
        left[place] = false;
    }
}

// Marks a thread's events from a number on as not left, the newest first, and takes them off.
fn mark_from(left: &mut Vec<bool>, events: &mut EventNumbers, first: u32)
    ensures events { events.new ≡ from_below first events.old }
    ensures left { left.new.items ≡ marked_from first events.old left.old.items }
    ensures len { vec_len left.new ≡ vec_len left.old }
    ensures capacity { vec_capacity left.new ≡ vec_capacity left.old }
{
    for _event in 0..events.len() {
        match events.newest() {
            Some(number) => {
                if number < first {
                    return;
                }
                mark(left, number);
                events.drop_newest();
            }
            None => return,
        }
    }
}

// Marks what a thread did in the levels inside of its outermost ones as not left, and closes these levels.
fn leave_out(left: &mut Vec<bool>, thread: &mut ThreadRows, outermost: usize)
    ensures opened { thread.new.opened.items ≡ take outermost thread.old.opened.items }
    ensures events { thread.new.events ≡ from_opened (slice_get thread.old.opened.items outermost) thread.old.events }
    ensures back { thread.new.back ≡ thread.old.back }
    ensures left { left.new.items ≡ marked_since (slice_get thread.old.opened.items outermost) thread.old.events left.old.items }
    ensures len { vec_len left.new ≡ vec_len left.old }
    ensures capacity { vec_capacity left.new ≡ vec_capacity left.old }
{
    if let Some(first) = thread.opened.get(outermost).copied() {
        mark_from(left, &mut thread.events, first);
        thread.opened.truncate(outermost);
    }
}

impl JournalRows {
    /// Rows of which nothing was told.
    pub fn new(alloc: Global) -> Result<Self, NoMemory>
        ensures { IfOk result (λ rows. AreRowsTold rows nothing_told) }
    {
        let threads = new_threads(alloc)?;
        Ok(JournalRows {
            items: Vec::new(alloc),
            left: Vec::new(alloc),
            threads,
        })
    }

    // Makes room for an item.
    fn reserve(&mut self) -> Result<(), NoMemory>
        ensures items { self.new.items.items ≡ self.old.items.items }
        ensures left { self.new.left.items ≡ self.old.left.items }
        ensures threads { self.new.threads ≡ self.old.threads }
        ensures room { OnOk result (vec_len self.new.items < vec_capacity self.new.items) }
        ensures room_left { OnOk result (vec_len self.new.left < vec_capacity self.new.left) }
    {
        self.items.reserve(1)?;
        self.left.reserve(1)?;
        Ok(())
    }

    // Adds an item for which there is room.
    fn push(&mut self, item: JournalItem)
        requires room { vec_len self.old.items < vec_capacity self.old.items }
        requires room_left { vec_len self.old.left < vec_capacity self.old.left }
        ensures items { self.new.items.items ≡ self.old.items.items ++ item ∷ [] }
        ensures left { self.new.left.items ≡ self.old.left.items ++ true ∷ [] }
        ensures threads { self.new.threads ≡ self.old.threads }
    {
        self.items.push_reserved(item);
        self.left.push_reserved(true);
    }

    // Notes for a thread that its event comes with this number.
    fn note(&mut self, thread: u8, number: u32) -> Result<(), NoMemory>
        ensures items { self.new.items ≡ self.old.items }
        ensures left { self.new.left ≡ self.old.left }
        ensures ok { OnOk result (ThreadChanges (Notes number) thread self.old.threads.items self.new.threads.items) }
        ensures err { OnErr result (ThreadChanges IsAsBefore thread self.old.threads.items self.new.threads.items) }
    {
        self.threads[thread as usize].note(number)
    }

    /// How many events and undoings came, left or not.
    pub fn count(&self) -> usize
        ensures { (s : RowsTold) → AreRowsTold self.now s → result ≡ length s.items }
    {
        self.items.len()
    }

    /// An event comes.
    ///
    /// # Errors
    /// `NoMemory` where memory runs out, also where there are 2^32 items. The rows are then as before.
    pub fn add_event(&mut self, event: Event) -> Result<(), NoMemory>
        ensures ok { OnOk result ((s : RowsTold) → AreRowsTold self.old s → AreRowsTold self.new (after_row_call (RowCall.event_came event) s)) }
        ensures err { OnErr result ((s : RowsTold) → AreRowsTold self.old s → AreRowsTold self.new s) }
    {
        let number = number_of(self.items.len())?;
        self.reserve()?;
        self.note(event.thread, number)?;
        self.push(JournalItem::Event(event));
        Ok(())
    }

    /// A thread opens a level of its section.
    ///
    /// # Errors
    /// `NoMemory` where memory runs out, also where there are 2^32 items. The rows are then as before.
    pub fn open_level(&mut self, thread: u8) -> Result<(), NoMemory>
        ensures ok { OnOk result ((s : RowsTold) → AreRowsTold self.old s → AreRowsTold self.new (after_row_call (RowCall.opens_a_level thread) s)) }
        ensures err { OnErr result ((s : RowsTold) → AreRowsTold self.old s → AreRowsTold self.new s) }
    {
        let number = number_of(self.items.len())?;
        self.threads[thread as usize].open(number)
    }

    /// A thread closes the levels inside of its outermost ones, this number of them: what it did in the others stays.
    pub fn close_levels(&mut self, thread: u8, outermost: u8)
        ensures { (s : RowsTold) → AreRowsTold self.old s → AreRowsTold self.new (after_row_call (RowCall.closes_levels thread outermost) s) }
    {
        self.threads[thread as usize].close_to(outermost as usize);
    }

    /// A thread puts a word back.
    ///
    /// # Errors
    /// `NoMemory` where it has put 2^32 - 1 words back since it last undid levels. The rows are then as before.
    pub fn put_back(&mut self, thread: u8) -> Result<(), NoMemory>
        ensures ok { OnOk result ((s : RowsTold) → AreRowsTold self.old s → AreRowsTold self.new (after_row_call (RowCall.puts_word_back thread) s)) }
        ensures err { OnErr result ((s : RowsTold) → AreRowsTold self.old s → AreRowsTold self.new s) }
    {
        self.threads[thread as usize].put_back()
    }

    /// A thread has undone the levels inside of its outermost ones, this number of them: what it did in the others isn't left. The
    /// undoing is an item.
    ///
    /// # Errors
    /// `NoMemory` where memory runs out. The rows are then as before.
    pub fn undo_levels(&mut self, thread: u8, outermost: u8) -> Result<(), NoMemory>
        requires { outermost < 255 }
        ensures ok { OnOk result ((s : RowsTold) → AreRowsTold self.old s → AreRowsTold self.new (after_row_call (RowCall.undoes_levels_to thread outermost) s)) }
        ensures err { OnErr result ((s : RowsTold) → AreRowsTold self.old s → AreRowsTold self.new s) }
    {
        self.reserve()?;
        let undone = &mut self.threads[thread as usize];
        leave_out(&mut self.left, undone, outermost as usize);
        let words = undone.take_words();
        self.push(JournalItem::Undone {
            thread,
            level: outermost + 1,
            words,
        });
        Ok(())
    }

    /// The run ends while a thread is to undo the levels inside of its outermost ones, this number of them: what it did in the
    /// others isn't left.
    pub fn leave_levels_out(&mut self, thread: u8, outermost: u8)
        ensures { (s : RowsTold) → AreRowsTold self.old s → AreRowsTold self.new (after_row_call (RowCall.leaves_levels_out thread outermost) s) }
    {
        leave_out(
            &mut self.left,
            &mut self.threads[thread as usize],
            outermost as usize,
        );
    }
}
