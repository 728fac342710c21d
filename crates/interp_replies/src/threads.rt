//! Threads that are made and started, and printed strings (the Java SE 8 API).

ghost use Rattle.std.specs.Prelude.{◌≡◌};
ghost use Rattle.frame_snapshot.specs.declared.todo.Then.{Then};
ghost use Rattle.interp_plans.specs.Replies.{then_of};
ghost use Rattle.interp_plans.specs.Todos.{plan_reached};
ghost use Rattle.interp_plans.specs.Uses.{frame_of};

use crate::classes::select_by_interface;
use crate::values::STUCK;
use builtin_world::number::{ILLEGAL_THREAD_STATE_EXCEPTION, RUNNABLE};
use builtin_world::word::{THREAD_PRIORITY, THREAD_TARGET};
use frame_snapshot::{CallSite, Caller, Then, Todo, Value};
use interp_local::one;
use interp_plans::{Here, JavaProgram, Reached};
use link_types::MethodId;
use op_core::{Line, Op, Reply};

/// The word of a string was read, which is printed.
pub fn prints_word<P: JavaProgram>(
    here: &Here<'_, P>,
    site: CallSite,
    string: u32,
    reply: Reply,
) -> Reached
    ensures { then_of (P.units here.now.program.now) here.now.thread (frame_of here.now.frames.now.here) (Then.PrintsWord site string) reply
        ≡ plan_reached (P.units here.now.program.now) here.now.thread (frame_of here.now.frames.now.here) result }
{
    match reply {
        Reply::Value(0) => Reached::Goes(Todo::Wants(Op::ClassOf(string), Then::PrintsText(site))),
        Reply::Value(array) => {
            let print = Op::Print(Line::Made(array));
            Reached::Goes(Todo::Wants(print, Then::Done(site)))
        }
        _ => STUCK,
    }
}

/// The number of a literal's text is known.
pub fn prints_text<P: JavaProgram>(here: &Here<'_, P>, site: CallSite, reply: Reply) -> Reached
    ensures { then_of (P.units here.now.program.now) here.now.thread (frame_of here.now.frames.now.here) (Then.PrintsText site) reply
        ≡ plan_reached (P.units here.now.program.now) here.now.thread (frame_of here.now.frames.now.here) result }
{
    match reply {
        Reply::Class(_, text) => {
            let print = Op::Print(Line::Text(text));
            Reached::Goes(Todo::Wants(print, Then::Done(site)))
        }
        _ => STUCK,
    }
}

/// The priority of the current thread was read for a new thread.
pub fn inherits<P: JavaProgram>(
    here: &Here<'_, P>,
    site: CallSite,
    thread: u32,
    target: Option<u32>,
    reply: Reply,
) -> Reached
    ensures { then_of (P.units here.now.program.now) here.now.thread (frame_of here.now.frames.now.here) (Then.Inherits site thread target) reply
        ≡ plan_reached (P.units here.now.program.now) here.now.thread (frame_of here.now.frames.now.here) result }
{
    let Reply::Value(priority) = reply else {
        return STUCK;
    };
    let write = Op::Write(thread, THREAD_PRIORITY, priority);
    match target {
        None => Reached::Goes(Todo::Wants(write, Then::Done(site))),
        Some(target) => {
            let then = Then::WritesTarget {
                site,
                thread,
                target,
            };
            Reached::Goes(Todo::Wants(write, then))
        }
    }
}

/// The priority of a new thread was written.
pub fn writes_target<P: JavaProgram>(
    here: &Here<'_, P>,
    site: CallSite,
    thread: u32,
    target: u32,
    reply: Reply,
) -> Reached
    ensures { then_of (P.units here.now.program.now) here.now.thread (frame_of here.now.frames.now.here) (Then.WritesTarget site thread target) reply
        ≡ plan_reached (P.units here.now.program.now) here.now.thread (frame_of here.now.frames.now.here) result }
{
    match reply {
        Reply::Done => {
            let write = Op::Write(thread, THREAD_TARGET, target);
            Reached::Goes(Todo::Wants(write, Then::Done(site)))
        }
        _ => STUCK,
    }
}

/// The priority of a thread was read, which is started.
pub fn starts_with<P: JavaProgram>(
    here: &Here<'_, P>,
    site: CallSite,
    thread: u32,
    reply: Reply,
) -> Reached
    ensures { then_of (P.units here.now.program.now) here.now.thread (frame_of here.now.frames.now.here) (Then.StartsWith site thread) reply
        ≡ plan_reached (P.units here.now.program.now) here.now.thread (frame_of here.now.frames.now.here) result }
{
    match reply {
        Reply::Value(priority) => {
            let start = Op::Start(thread, (priority % 256) as u8);
            Reached::Goes(Todo::Wants(start, Then::Started(site)))
        }
        _ => STUCK,
    }
}

/// A thread was started, or had been before.
pub fn started<P: JavaProgram>(here: &Here<'_, P>, site: CallSite, reply: Reply) -> Reached
    ensures { then_of (P.units here.now.program.now) here.now.thread (frame_of here.now.frames.now.here) (Then.Started site) reply
        ≡ plan_reached (P.units here.now.program.now) here.now.thread (frame_of here.now.frames.now.here) result }
{
    match reply {
        Reply::Number(_) => here.value(site, Value::None),
        Reply::Already => Reached::Goes(here.raise(site, ILLEGAL_THREAD_STATE_EXCEPTION)),
        _ => STUCK,
    }
}

/// The target of a thread was read.
pub fn runs_target<P: JavaProgram>(here: &Here<'_, P>, caller: Caller, reply: Reply) -> Reached
    ensures { then_of (P.units here.now.program.now) here.now.thread (frame_of here.now.frames.now.here) (Then.RunsTarget caller) reply
        ≡ plan_reached (P.units here.now.program.now) here.now.thread (frame_of here.now.frames.now.here) result }
{
    let Some(_) = one(here.frames) else {
        return STUCK;
    };
    let Reply::Value(target) = reply else {
        return STUCK;
    };
    if target == 0 {
        let site = CallSite {
            caller,
            operands: 1,
        };
        return here.value(site, Value::None);
    }
    Reached::Finds { caller, target }
}

/// The class of a thread's target is known.
pub fn finds_run<P: JavaProgram>(here: &Here<'_, P>, caller: Caller, reply: Reply) -> Reached
    ensures { then_of (P.units here.now.program.now) here.now.thread (frame_of here.now.frames.now.here) (Then.FindsRun caller) reply
        ≡ plan_reached (P.units here.now.program.now) here.now.thread (frame_of here.now.frames.now.here) result }
{
    let Some(_) = one(here.frames) else {
        return STUCK;
    };
    let Reply::Class(class, _) = reply else {
        return STUCK;
    };
    let run = MethodId {
        class: RUNNABLE,
        method: 0,
    };
    let selected = select_by_interface(here, RUNNABLE, run, class);
    let site = CallSite {
        caller,
        operands: 1,
    };
    Reached::Goes(here.invoke_selected(selected, site))
}
