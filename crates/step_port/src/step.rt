//! The kinds of steps on shared words: the word that each is made on, and what is done with it.

ghost use Rattle.std.specs.Prelude.{◌≡◌, MatchOption};
ghost use Rattle.step_port.specs.Steps.{place_of, effect_of, kind_of, IsTooFar};
ghost use Rattle.heap_words.specs.Words.{pack};

use heap_words::{Area, ClassWord, HeapWord, control, notified};
use section_state::{closed_to, committed, opened, pinned_to, revoked_to};

/// What is done with a word.
#[derive(Clone, Copy)]
pub enum Effect {
    /// It is read.
    Load,
    /// It is set.
    Store(u64),
    /// A compare-exchange: it is set to the second word, where it is the first one.
    Exchange(u64, u64),
    /// A fetch-add: so much is added to it, and it is read as it stood before.
    Add(u64),
}

/// The two words of which it can be asked whether a thread was started, or has ended.
#[derive(Clone, Copy)]
pub enum ThreadWord {
    /// The start word of this thread object: the number of the thread that it started, or 0.
    Start(u32),
    /// The word of the thread of this number: 1 once it has ended, else 0.
    Ended(u8),
}

/// One step on one word that threads share.
///
/// Words of objects and monitors are named by references and places of the objects, and sections, threads and
/// classes by their numbers.
#[derive(Clone, Copy)]
pub enum Step {
    /// Reads the word at a place.
    LoadWord(u32),
    /// Overwrites the word at a place, where it is the first one, by the second.
    SwapWord(u32, u64, u64),
    /// Puts an overwritten word back.
    RestoreWord(u32, u64),
    /// Draws the number of a section.
    DrawSection,
    /// Opens a section with this word.
    OpenSection(u32, u64),
    /// Reads the word of a section.
    LoadSection(u32),
    /// Pins a section that has this word to a level.
    Pin(u32, u64, u8),
    /// Revokes a section that has this word to a level.
    Revoke(u32, u64, u8),
    /// Commits a section that has this word.
    Commit(u32, u64),
    /// Records by this word that a section is undone to the level to which it was revoked.
    MarkUndone(u32, u64),
    /// Reads the monitor of an object.
    LoadMonitor(u32),
    /// Gives the monitor of an object this word, where it is free.
    TakeMonitor(u32, u64),
    /// Gives the monitor of an object another word of its holder.
    SetDepth(u32, u64),
    /// Frees the monitor of an object.
    Release(u32),
    /// Takes this number of words for a new object.
    TakeWords(u64),
    /// Sets the header of a new object.
    SetHeader(u32, u64),
    /// Draws the ticket of a printed line.
    Ticket,
    /// Draws the number of a thread.
    DrawThread,
    /// Records in the start word of a thread object the number of the thread that it starts, where it has started none.
    StartThread(u32, u8),
    /// Records that the thread of this number has ended.
    EndThread(u8),
    /// Asks whether a thread was started, or has ended.
    LoadThread(ThreadWord),
    /// Sets the wait word of a thread.
    SetWait(u8, u64),
    /// Notifies the thread of this number, whose wait word is this.
    Notify(u8, u64),
    /// Reads the wait word of a thread.
    LoadWait(u8),
    /// Reads the word of a class.
    LoadClass(u32),
    /// Claims the initialization of a class for the thread of this number, where it has not begun.
    ClaimClass(u32, u8),
    /// Sets the word of a class whose initialization has ended.
    SettleClass(u32, u64),
    /// Asks whether the host threads are to stop.
    LoadStop,
    /// Has the host threads stop.
    SetStop,
    /// Hands the thread of this number out, which this object has started with this priority.
    Split(u8, u32, u8),
    /// Opens the next level of a section that has this word.
    OpenLevel(u32, u64),
    /// Closes the inner levels of a section that has this word, down to this open depth.
    CloseLevel(u32, u64, u8),
    /// Reads the monitor of an object, beside the turns of threads: none of them makes this step.
    LookMonitor(u32),
    /// Reads the word of a section, beside the turns of threads.
    LookSection(u32),
    /// Revokes a section that has this word to a level, beside the turns of threads.
    BreakLevel(u32, u64, u8),
}

impl Step {
    /// The number of the step's kind: 1 to 30, and 32 to 36.
    pub fn kind(self) -> u8
        ensures { result ≡ kind_of self }
    {
        match self {
            Step::LoadWord(_) => 1,
            Step::SwapWord(_, _, _) => 2,
            Step::RestoreWord(_, _) => 3,
            Step::DrawSection => 4,
            Step::OpenSection(_, _) => 5,
            Step::LoadSection(_) => 6,
            Step::Pin(_, _, _) => 7,
            Step::Revoke(_, _, _) => 8,
            Step::Commit(_, _) => 9,
            Step::MarkUndone(_, _) => 10,
            Step::LoadMonitor(_) => 11,
            Step::TakeMonitor(_, _) => 12,
            Step::SetDepth(_, _) => 13,
            Step::Release(_) => 14,
            Step::TakeWords(_) => 15,
            Step::SetHeader(_, _) => 16,
            Step::Ticket => 17,
            Step::DrawThread => 18,
            Step::StartThread(_, _) => 19,
            Step::EndThread(_) => 20,
            Step::LoadThread(_) => 21,
            Step::SetWait(_, _) => 22,
            Step::Notify(_, _) => 23,
            Step::LoadWait(_) => 24,
            Step::LoadClass(_) => 25,
            Step::ClaimClass(_, _) => 26,
            Step::SettleClass(_, _) => 27,
            Step::LoadStop => 28,
            Step::SetStop => 29,
            Step::Split(_, _, _) => 30,
            Step::OpenLevel(_, _) => 32,
            Step::CloseLevel(_, _, _) => 33,
            Step::LookMonitor(_) => 34,
            Step::LookSection(_) => 35,
            Step::BreakLevel(_, _, _) => 36,
        }
    }

    /// The word on which the step is made: `None` exactly where its place among the objects is 2^32 or more, as after
    /// the highest references.
    pub fn area(self) -> Option<Area>
        ensures { MatchOption result (IsTooFar self) (λ area. area ≡ place_of self) }
    {
        Some(match self {
            Step::LoadWord(at)
            | Step::SwapWord(at, _, _)
            | Step::RestoreWord(at, _)
            | Step::SetHeader(at, _) => Area::Object(at),
            Step::LoadMonitor(object)
            | Step::TakeMonitor(object, _)
            | Step::SetDepth(object, _)
            | Step::Release(object)
            | Step::LookMonitor(object) => Area::Object(object.checked_add(1)?),
            Step::StartThread(object, _) | Step::LoadThread(ThreadWord::Start(object)) => {
                Area::Object(object.checked_add(3)?)
            }
            Step::OpenSection(section, _)
            | Step::LoadSection(section)
            | Step::Pin(section, _, _)
            | Step::Revoke(section, _, _)
            | Step::Commit(section, _)
            | Step::MarkUndone(section, _)
            | Step::OpenLevel(section, _)
            | Step::CloseLevel(section, _, _)
            | Step::LookSection(section)
            | Step::BreakLevel(section, _, _) => Area::Section(section),
            Step::EndThread(thread) | Step::LoadThread(ThreadWord::Ended(thread)) => {
                Area::Thread(thread as u32)
            }
            Step::SetWait(thread, _) | Step::Notify(thread, _) | Step::LoadWait(thread) => {
                Area::Wait(thread as u32)
            }
            Step::LoadClass(class) | Step::ClaimClass(class, _) | Step::SettleClass(class, _) => {
                Area::Class(class)
            }
            Step::DrawSection => Area::Control(control::SECTIONS),
            Step::TakeWords(_) => Area::Control(control::HEAP),
            Step::Ticket => Area::Control(control::TICKETS),
            Step::DrawThread => Area::Control(control::THREADS),
            Step::LoadStop | Step::SetStop => Area::Control(control::STOP),
            Step::Split(_, _, _) => Area::Control(control::SEATS),
        })
    }

    /// What the step does with its word.
    pub fn effect(self) -> Effect
        ensures { result ≡ effect_of self }
    {
        match self {
            Step::LoadWord(_)
            | Step::LoadSection(_)
            | Step::LoadMonitor(_)
            | Step::LoadThread(_)
            | Step::LoadWait(_)
            | Step::LoadClass(_)
            | Step::LoadStop
            | Step::Split(_, _, _)
            | Step::LookMonitor(_)
            | Step::LookSection(_) => Effect::Load,
            Step::SwapWord(_, old, new) => Effect::Exchange(old, new),
            Step::RestoreWord(_, word)
            | Step::OpenSection(_, word)
            | Step::MarkUndone(_, word)
            | Step::SetDepth(_, word)
            | Step::SetHeader(_, word)
            | Step::SetWait(_, word)
            | Step::SettleClass(_, word) => Effect::Store(word),
            Step::DrawSection | Step::Ticket | Step::DrawThread => Effect::Add(1),
            Step::TakeWords(count) => Effect::Add(count),
            Step::Pin(_, old, level) => Effect::Exchange(old, pinned_to(old, level)),
            Step::Revoke(_, old, level) | Step::BreakLevel(_, old, level) => {
                Effect::Exchange(old, revoked_to(old, level))
            }
            Step::Commit(_, old) => Effect::Exchange(old, committed(old)),
            Step::OpenLevel(_, old) => Effect::Exchange(old, opened(old)),
            Step::CloseLevel(_, old, depth) => Effect::Exchange(old, closed_to(old, depth)),
            Step::TakeMonitor(_, word) => Effect::Exchange(0, word),
            Step::Release(_) => Effect::Store(0),
            Step::StartThread(_, thread) => Effect::Exchange(0, start_word(thread)),
            Step::EndThread(_) | Step::SetStop => Effect::Store(1),
            Step::Notify(_, old) => Effect::Exchange(old, notified(old)),
            Step::ClaimClass(_, thread) => Effect::Exchange(0, ClassWord::Claimed(thread).pack()),
        }
    }
}

/// The start word of a thread object that has started the thread of this number.
pub fn start_word(thread: u8) -> u64
    ensures { result ≡ pack thread 0 }
{
    let word = HeapWord {
        value: thread as u32,
        tag: 0,
    };
    word.pack()
}
