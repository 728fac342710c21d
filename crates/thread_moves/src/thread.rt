//! A Java thread: its code, and what is kept of it beside the code.

ghost use Rattle.std.specs.Prelude.{◌≡◌, None, [], length, map, reverse};
ghost use Rattle.thread_automaton.specs.ThreadState.{first_state, mark_of};
ghost use Rattle.automaton_rows.specs.Fits.{IsFit};
ghost use Rattle.thread_moves.specs.Thread.{printed, thread_of, AreCounted};

use crate::mark::SavedMark;
use crate::stack::Stack;
use op_core::{Line, ThreadCode};
use std::alloc::Global;
use thread_automaton::{Attempt, Bounds, Held};
use write_log::{Noted, WriteLog};

/// A printed line.
#[derive(Clone, Copy)]
pub struct PrintedLine {
    /// The place of the line among those of all threads, from 0.
    pub ticket: u64,
    /// What was printed.
    pub line: Line,
}

/// A Java thread: its code, and what is kept of it beside the code.
#[derive(Drop)]
pub struct JThread<C> {
    /// Its code, as it is now.
    pub code: C,
    /// What is kept of it beside the code.
    pub own: Own,
}

/// What is kept of a thread beside its code: how far it is with what it does next, and what it alone knows of its section.
#[derive(Drop)]
pub struct Own {
    /// Where its memory comes from.
    pub alloc: Global,
    /// What bounds its run.
    pub bounds: Bounds,
    /// Its number, from 1.
    pub number: u8,
    /// Its priority, 1 to 10 in Java.
    pub priority: u8,
    /// Beside each saved local state how the thread was at the save, oldest first.
    pub marks: Vec<SavedMark>,
    /// The mark of a level that is about to open, whose save is on top of the others.
    pub opening: Option<SavedMark>,
    /// The number of the section that it has open, or 0.
    pub section: u32,
    /// How many levels of it are open.
    pub levels: u8,
    /// To which depth it has seen the section pinned.
    pub pinned: u8,
    /// The section that it last saw committed, or pinned deep enough, as the one that had written a word; or 0.
    pub known: u32,
    /// And how deep: words that were written at this level of it, or further out, are safe.
    pub known_depth: u8,
    /// The words that it has overwritten since the level of its first save opened, as they were.
    pub log: WriteLog,
    /// The monitors that it holds.
    pub held: Stack<Held>,
    /// How often it had entered the monitor that a wait gave up, 0 where it isn't waiting.
    pub depth: u16,
    /// The level of that monitor.
    pub level: u8,
    /// Its turns that count.
    pub counted: u64,
    /// Its silent turns since its last event that others can see.
    pub silents: u64,
    /// What it printed.
    pub lines: Stack<PrintedLine>,
    /// Whether it has ended.
    pub over: bool,
    /// How far it is with what it does next.
    pub attempt: Attempt,
    /// The number of the kind of the step that its last turn made, or 0.
    pub last_kind: u8,
}

impl<C: ThreadCode> JThread<C> {
    /// A thread of this number (from 1) and priority (1 to 10 in Java) that begins at the local state of its code, of
    /// which nothing must be saved. Takes no memory.
    pub fn first(alloc: Global, code: C, number: u8, priority: u8, bounds: Bounds) -> Self
        requires { C.saved code ≡ [] }
        ensures thread { thread_of C.state C.saved result ≡ first_state number priority (C.state code) }
        ensures fits { IsFit C.code (thread_of C.state C.saved result) }
        ensures counts { AreCounted (thread_of C.state C.saved result) }
        ensures settled { result.own.opening ≡ None }
        ensures bounds { result.own.bounds ≡ bounds }
        ensures last_kind { result.own.last_kind ≡ 0 }
    {
        JThread {
            code,
            own: Own {
                alloc,
                bounds,
                number,
                priority,
                marks: Vec::new(alloc),
                opening: None,
                section: 0,
                levels: 0,
                pinned: 0,
                known: 0,
                known_depth: 0,
                log: WriteLog::empty(alloc),
                held: Stack::empty(alloc),
                depth: 0,
                level: 1,
                counted: 0,
                silents: 0,
                lines: Stack::empty(alloc),
                over: false,
                attempt: Attempt::Begin,
                last_kind: 0,
            },
        }
    }

    /// The thread's number, from 1.
    pub fn number(&self) -> u8
        ensures { result ≡ (thread_of C.state C.saved self.now).number }
    {
        self.own.number
    }

    /// Its priority.
    pub fn priority(&self) -> u8
        ensures { result ≡ (thread_of C.state C.saved self.now).priority }
    {
        self.own.priority
    }

    /// Its code, as it is now.
    pub fn code(&self) -> &C
        ensures { result.now ≡ self.now.code }
    {
        &self.code
    }

    /// What bounds its run.
    pub fn bounds(&self) -> Bounds
        ensures { result ≡ self.now.own.bounds }
    {
        self.own.bounds
    }

    /// The number of the section that it has open, or 0.
    pub fn section(&self) -> u32
        ensures { result ≡ (thread_of C.state C.saved self.now).section }
    {
        self.own.section
    }

    /// How many levels of it are open.
    pub fn levels(&self) -> u8
        ensures { result ≡ (thread_of C.state C.saved self.now).levels }
    {
        self.own.levels
    }

    /// How far it is with what it does next.
    pub fn attempt(&self) -> Attempt
        ensures { result ≡ (thread_of C.state C.saved self.now).attempt }
    {
        self.own.attempt
    }

    /// Whether it has ended.
    pub fn is_over(&self) -> bool
        ensures { result ≡ (thread_of C.state C.saved self.now).over }
    {
        self.own.over
    }

    /// Its turns that count.
    pub fn counted(&self) -> u64
        ensures { result ≡ (thread_of C.state C.saved self.now).counted }
    {
        self.own.counted
    }

    /// The number of the kind of the step that its last turn made (1 to 30, 32 and 33), or 0 where that turn made none.
    pub fn last_kind(&self) -> u8
        ensures { result ≡ self.now.own.last_kind }
    {
        self.own.last_kind
    }

    /// How many words it has logged, so that they can be put back.
    pub fn log_len(&self) -> usize
        ensures { result ≡ length (thread_of C.state C.saved self.now).log }
    {
        self.own.log.len()
    }

    /// The words that it has logged, as they were before it overwrote them, the oldest first.
    pub fn log(&self) -> &[Noted]
        ensures { (thread_of C.state C.saved self.now).log ≡ reverse result.now }
    {
        self.own.log.as_slice()
    }

    /// How many words it had logged as a level opened, 0 where that level isn't open.
    pub fn logged_at(&self, level: u8) -> usize
        ensures { result ≡ (mark_of (thread_of C.state C.saved self.now) level).noted }
    {
        match self.mark_of(level) {
            Some(mark) => mark.noted,
            None => 0,
        }
    }

    /// What it printed, the oldest line first.
    pub fn lines(&self) -> &[PrintedLine]
        ensures { (thread_of C.state C.saved self.now).lines ≡ map printed (reverse result.now) }
    {
        self.own.lines.as_slice()
    }
}
