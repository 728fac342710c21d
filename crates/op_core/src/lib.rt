//! What a Java thread asks of the machine that executes it, and what an execution is.
//!
//! A thread is a [`ThreadCode`]: from each of its local states it makes a silent step, wants one
//! operation, or has ended. What threads share (objects, words, monitors, classes, printed lines)
//! is reached by the fifteen operations of [`Op`] alone, and a thread learns of it by the replies
//! alone. `specs/` says which reply fits, what each operation does (JLS 17), what an execution
//! is, and what may be left out of a list in which undoing is seen.
#![tactic(auto)]

ghost use Rattle.std.specs.Prelude.{◌≡◌};

pub mod laws;
mod op_host;
pub mod premises;
mod script;
mod thread_code;

pub use op_host::OpHost;
pub use rows::{Bytes, Rows, Text};
pub use script::{Script, ScriptPlace, ScriptSaves, ScriptStep};
use std::alloc::AllocError;
pub use thread_code::{ThreadCode, after_silent_steps};

/// Memory was wanted and there was none. It is merged with no other answer, and nothing ties it
/// to a growth that was refused.
#[derive(Clone, Copy)]
pub struct NoMemory;

impl From<AllocError> for NoMemory {
    ghost from_gives = { λ _ error. error ≡ record {} };

    fn from(_error: AllocError) -> Self {
        NoMemory
    }
}

/// One printed line, as `println` was given it.
#[derive(Clone, Copy, PartialEq, Eq)]
pub enum Line {
    /// `println()`: no text.
    Empty,
    /// `println(int)`.
    Int(i32),
    /// `println(long)`.
    Long(i64),
    /// `println(char)`, as a UTF-16 code unit.
    Char(u16),
    /// `println(boolean)`.
    Bool(bool),
    /// `println(String)` of the string that has this number in the program.
    Text(u32),
    /// `println(String)` of a string that the program made: the reference of the array with its UTF-16 code units.
    Made(u32),
    /// `println(String)` of null, which prints `null`.
    Null,
}

/// One operation on what threads share. A thread wants one operation at a time, and each is one
/// step that the other threads can see (an inter-thread action of JLS 17.4.2).
///
/// A first `u32` is a reference: the number of an object, from 1. Class objects are objects too,
/// and their words are the class's static fields.
#[derive(Clone, Copy, PartialEq, Eq)]
pub enum Op {
    /// The class and the length of an object, as `getClass`, a call of a virtual method or
    /// `arraylength` needs them. Neither ever changes.
    ClassOf(u32),
    /// The 32-bit word at a place of an object: half of a long field or element, or any other
    /// field, static field or array element.
    Read(u32, u32),
    /// A new value for the word at a place of an object.
    Write(u32, u32, u32),
    /// A new object of a class. The second number is an array's length, and 0 for a class that
    /// isn't an array. Its words are 0 (JLS 4.12.5).
    New(u32, u32),
    /// Locks the object's monitor once more (`monitorenter`, JLS 17.1). It has no step while
    /// another thread owns it.
    Enter(u32),
    /// Unlocks it once (`monitorexit`).
    Exit(u32),
    /// The first half of `Object.wait`: gives the monitor up and joins the wait set (JLS 17.2.1).
    Wait(u32),
    /// The second half: once notified, locks the monitor as often as before.
    Rewake(u32),
    /// `Object.notify`: takes one thread out of the wait set (JLS 17.2.2).
    Notify(u32),
    /// `System.out.println`.
    Print(Line),
    /// `Thread.start` of the thread object, with its priority, 1 to 10 in Java.
    Start(u32, u8),
    /// `Thread.join` of the thread object: has no step before the thread has ended.
    Join(u32),
    /// Asks whether a class is initialized, and claims its initialization where nobody has
    /// (JLS 12.4.2). It has no step while another thread initializes it.
    Init(u32),
    /// Ends an initialization that this thread had claimed: well, or with an exception (false).
    InitDone(u32, bool),
    /// The thread ends: normally, or by an uncaught exception of this class. Monitors stay as
    /// they are.
    End(Option<u32>),
}

/// What an operation answered.
#[derive(Clone, Copy)]
pub enum Reply {
    /// To ClassOf: the class and the length, which is 0 for an object that isn't an array.
    Class(u32, u32),
    /// To Read: the word.
    Value(u32),
    /// To New: the new object's reference.
    Made(u32),
    /// The operation was done, and there is nothing to report.
    Done,
    /// To Exit, Wait and Notify: this thread doesn't own the monitor, and nothing was done. The
    /// thread then throws IllegalMonitorStateException.
    NotOwner,
    /// To Notify: the thread that was notified, or 0 where none waited.
    Woken(u8),
    /// To Start: the new thread's number.
    Number(u8),
    /// To Start: the thread object was started before. The thread then throws
    /// IllegalThreadStateException.
    Already,
    /// To Init: the class is initialized, or this very thread is doing it.
    Ready,
    /// To Init: the initialization failed earlier. The thread then throws NoClassDefFoundError.
    Bad,
    /// To Init: this thread is to initialize the class now.
    Claimed,
}

/// One step of an execution.
#[derive(Clone, Copy)]
pub struct Event {
    /// The thread's number, from 1. Thread 1 executes `main`.
    pub thread: u8,
    /// How many silent steps the thread made since its event before, or since its first state.
    pub silent: u64,
    /// What the thread then wanted.
    pub op: Op,
    /// What it was answered.
    pub reply: Reply,
}

/// The numbers that end a run where it reaches them.
#[derive(Clone, Copy)]
pub struct Limits {
    /// Counted turns of each thread, from 1 to 1,000,000,000.
    pub turns: u64,
    /// Words of memory for new objects, at most 67,108,864.
    pub heap: u32,
    /// Numbers of revocable sections that can be drawn, at most 16,777,215.
    pub sections: u32,
}

/// What was reached where a limit ended a run.
#[derive(Clone, Copy)]
pub enum Limit {
    /// The thread made its number of counted turns and hasn't ended.
    Turns,
    /// The words taken so far and those asked for are more than the heap has.
    Heap,
    /// All section numbers have been drawn, and another is asked for.
    Sections,
    /// All 255 thread numbers have been drawn, and another is asked for.
    Threads,
    /// A call would make the thread's 1,025th frame (a StackOverflowError in Java).
    Frames,
    /// A monitor that its owner has entered 65,535 times would be entered once more.
    Depth,
    /// The journal reached its 4,194,304th event.
    Trace,
}

/// How a run ended.
#[derive(Clone, Copy)]
pub enum How {
    /// Each thread ended normally.
    Done,
    /// Each thread ended, one or more by an uncaught exception.
    Died,
    /// A thread hasn't ended, and none can go on: each wants an operation that has no step.
    Stuck,
    /// The run ended at a limit, which this thread met.
    Limit(u8, Limit),
}

/// A thread that has ended: its number, and the class of the exception that ended it, `None`
/// where it ended normally.
#[derive(Clone, Copy)]
pub struct ThreadEnd {
    pub thread: u8,
    pub class: Option<u32>,
}

/// What a run came to.
#[derive(Drop)]
pub struct Outcome {
    /// The printed lines in order.
    pub lines: Rows<Line>,
    /// The threads that ended, by rising number.
    pub ends: Rows<ThreadEnd>,
    /// How the run ended.
    pub how: How,
    /// How many sections were opened.
    pub opened: u32,
    /// How many times a thread undid levels of its section.
    pub undone: u64,
    /// The events of the execution, where they were kept.
    pub events: Option<Rows<Event>>,
    /// What was undone, in order, where the events were kept.
    pub undos: Option<Rows<Undo>>,
    /// The texts of the lines that the program made, each array once, by rising reference.
    pub made: Rows<MadeText>,
}

/// A thread undid levels of its section, from the innermost one to one of them.
#[derive(Clone, Copy)]
pub struct Undo {
    /// How many events of the execution came before.
    pub after: u32,
    /// The thread's number, from 1.
    pub thread: u8,
    /// The outermost level that was undone, from 1, which is the section itself.
    pub level: u8,
    /// How many times a word was put back.
    pub words: u32,
}

/// The UTF-16 code units of a text.
pub type Units = Rows<u16>;

/// A text that was printed and that the program made.
#[derive(Drop)]
pub struct MadeText {
    /// The reference of the array with its units.
    pub at: u32,
    /// Its units.
    pub units: Units,
}

/// What a thread does next.
#[derive(Clone, Copy)]
pub enum Next {
    /// A silent step: it touches the thread alone, and no other thread can see it.
    Silent,
    /// It wants this operation, and goes on with its reply.
    Want(Op),
    /// Nothing: its code is at the end.
    Ended,
}

/// Why a thread didn't make its silent step.
#[derive(Clone, Copy)]
pub enum CodeStop {
    /// The step would make a 1,025th frame.
    Frames,
    /// There was no memory for the step.
    NoMemory,
}

impl From<NoMemory> for CodeStop {
    ghost use Rattle.op_core.specs.declared.CodeStop.{CodeStop};

    ghost from_gives = { λ _ stop. stop ≡ CodeStop.NoMemory };

    fn from(_error: NoMemory) -> Self {
        CodeStop::NoMemory
    }
}

impl From<AllocError> for CodeStop {
    ghost use Rattle.op_core.specs.declared.CodeStop.{CodeStop};

    ghost from_gives = { λ _ stop. stop ≡ CodeStop.NoMemory };

    fn from(_error: AllocError) -> Self {
        CodeStop::NoMemory
    }
}
