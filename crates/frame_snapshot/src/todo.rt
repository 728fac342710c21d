//! What is left of an instruction.
//!
//! An object is given by its reference, a class by its number, and a place is one of the classes that are initialized,
//! from the named one upward.

use crate::stage::{CallSite, Caller, FrameEnd};
use crate::text::TextJob;
use instructions::ElementKind;
use link_types::MethodId;
use op_core::Op;

/// The words of a value.
#[derive(Clone, Copy)]
pub enum Value {
    None,
    Word(u32),
    Long { high: u32, low: u32 },
}

/// How an instruction, or the launch of a thread, goes on with the reply to an operation.
#[derive(Clone, Copy)]
pub enum Then {
    /// It is complete.
    Done(CallSite),
    /// The word that was read is its value.
    Read(CallSite),
    /// The low half of a long was read; the high half is read at a place.
    LowRead {
        site: CallSite,
        object: u32,
        place: u32,
    },
    /// The high half of a long was read.
    HighRead {
        site: CallSite,
        low: u32,
    },
    /// The low half of a long was written; the high half is written at a place.
    LowWritten {
        site: CallSite,
        object: u32,
        place: u32,
        high: u32,
    },
    /// The new object is its value.
    Made(CallSite),
    /// The length of the array is its value.
    Length(CallSite),
    /// The object is its value if its class is one below this class.
    Cast {
        object: u32,
        class: u32,
    },
    /// Whether the object's class is one below this class is its value.
    Tested(u32),
    /// The monitor was exited, or wasn't owned.
    Exited(CallSite),
    /// The class and the length of the array are known from which an element is read.
    Loads(ElementKind),
    /// The class and the length of the array are known to which an element is written.
    Stores(ElementKind),
    /// The class of the object is known that is written to an array of this class.
    Checked(u32),
    /// The class of the receiver is known: a method is selected.
    Selects {
        method: MethodId,
        site: CallSite,
    },
    /// The same for a method of an interface.
    SelectsFor {
        interface: u32,
        method: MethodId,
        site: CallSite,
    },
    /// The monitor of a method was entered, which is called.
    Entered {
        method: MethodId,
        site: CallSite,
        monitor: u32,
    },
    /// The class of the object is known, which is thrown.
    Thrown(u32),
    /// The monitor of the frame was exited, or wasn't owned: the frame ends.
    Leaves(FrameEnd),
    /// The new exception of this class is thrown.
    Raised {
        caller: Caller,
        class: u32,
    },
    /// The thread has ended.
    Ended,
    /// It is known how far the class at a place is initialized.
    Asked {
        caller: Caller,
        place: u32,
    },
    /// The initialization of the class at a place has ended well.
    Settled {
        caller: Caller,
        place: u32,
    },
    /// The initialization of the class at a place has ended with a thrown object.
    Broken {
        caller: Caller,
        place: u32,
        object: u32,
        class: u32,
    },
    /// The error of this class is made that ends the initializations below a place.
    Error {
        caller: Caller,
        place: u32,
        class: u32,
    },
    /// The monitor was given up for a wait, or wasn't owned.
    Waited {
        site: CallSite,
        object: u32,
    },
    /// A thread was notified, or none waited.
    Notified(CallSite),
    /// The same for `notifyAll`.
    NotifiedAll(Caller),
    /// The word of a string was read: 0, or the array of its units, which is printed.
    PrintsWord {
        site: CallSite,
        string: u32,
    },
    /// The number of a literal's text is known, which is printed.
    PrintsText(CallSite),
    /// The priority of the current thread was read for a new thread. If there is a target, it is written afterwards.
    Inherits {
        site: CallSite,
        thread: u32,
        target: Option<u32>,
    },
    /// The priority of a new thread was written; its target is written now.
    WritesTarget {
        site: CallSite,
        thread: u32,
        target: u32,
    },
    /// The priority of a thread was read, which is started.
    StartsWith {
        site: CallSite,
        thread: u32,
    },
    /// A thread was started, or had been before.
    Started(CallSite),
    /// The target of a thread was read, whose `run` is called.
    RunsTarget(Caller),
    /// The class of a thread's target is known.
    FindsRun(Caller),
}

/// What is left of an instruction, or of the launch of a thread.
#[derive(Clone, Copy)]
pub enum Todo {
    /// An operation, and what follows its reply.
    Wants(Op, Then),
    /// A silent step completes it with a value.
    Completes(CallSite, Value),
    /// A silent step enters a handler, which begins at an instruction and takes a thrown object.
    Catches {
        entry: u32,
        object: u32,
    },
    /// A silent step ends the frame.
    Ends(FrameEnd),
    /// A silent step makes the frame of a method, whose monitor was entered where it isn't 0.
    Calls {
        method: MethodId,
        site: CallSite,
        monitor: u32,
    },
    /// A silent step makes the frame of the initializer of the class at a place.
    Initializes {
        method: MethodId,
        caller: Caller,
        place: u32,
    },
    /// A method that reads or makes texts, which has asked for nothing so far.
    Texts(CallSite, TextJob),
    /// Nothing: the thread has ended.
    Over,
    /// There is nothing that it could do.
    Stuck,
}
