//! Monitors that were entered and exited, and waits and notifications (JLS 17.2).

ghost use Rattle.std.specs.Prelude.{◌≡◌};
ghost use Rattle.frame_snapshot.specs.declared.todo.Then.{Then};
ghost use Rattle.interp_plans.specs.Replies.{then_of};
ghost use Rattle.interp_plans.specs.Todos.{plan_reached};
ghost use Rattle.interp_plans.specs.Uses.{frame_of};

use crate::values::STUCK;
use builtin_world::number::ILLEGAL_MONITOR_STATE_EXCEPTION;
use frame_snapshot::{CallSite, Caller, Then, Todo, Value};
use interp_local::one;
use interp_plans::{Here, JavaProgram, Reached};
use link_types::MethodId;
use op_core::{Op, Reply};

/// The monitor of a method was entered.
pub fn entered<P: JavaProgram>(
    here: &Here<'_, P>,
    method: MethodId,
    site: CallSite,
    monitor: u32,
    reply: Reply,
) -> Reached
    ensures { then_of (P.units here.now.program.now) here.now.thread (frame_of here.now.frames.now.here) (Then.Entered method site monitor) reply
        ≡ plan_reached (P.units here.now.program.now) here.now.thread (frame_of here.now.frames.now.here) result }
{
    match reply {
        Reply::Done => Reached::Goes(Todo::Calls {
            method,
            site,
            monitor,
        }),
        _ => STUCK,
    }
}

/// A monitor was exited.
pub fn exited<P: JavaProgram>(here: &Here<'_, P>, site: CallSite, reply: Reply) -> Reached
    ensures { then_of (P.units here.now.program.now) here.now.thread (frame_of here.now.frames.now.here) (Then.Exited site) reply
        ≡ plan_reached (P.units here.now.program.now) here.now.thread (frame_of here.now.frames.now.here) result }
{
    match reply {
        Reply::Done => here.value(site, Value::None),
        Reply::NotOwner => Reached::Goes(here.raise(site, ILLEGAL_MONITOR_STATE_EXCEPTION)),
        _ => STUCK,
    }
}

/// A monitor was given up for a wait.
pub fn waited<P: JavaProgram>(
    here: &Here<'_, P>,
    site: CallSite,
    object: u32,
    reply: Reply,
) -> Reached
    ensures { then_of (P.units here.now.program.now) here.now.thread (frame_of here.now.frames.now.here) (Then.Waited site object) reply
        ≡ plan_reached (P.units here.now.program.now) here.now.thread (frame_of here.now.frames.now.here) result }
{
    match reply {
        Reply::Done => Reached::Goes(Todo::Wants(Op::Rewake(object), Then::Done(site))),
        Reply::NotOwner => Reached::Goes(here.raise(site, ILLEGAL_MONITOR_STATE_EXCEPTION)),
        _ => STUCK,
    }
}

/// A thread was notified, or none waited.
pub fn notified<P: JavaProgram>(here: &Here<'_, P>, site: CallSite, reply: Reply) -> Reached
    ensures { then_of (P.units here.now.program.now) here.now.thread (frame_of here.now.frames.now.here) (Then.Notified site) reply
        ≡ plan_reached (P.units here.now.program.now) here.now.thread (frame_of here.now.frames.now.here) result }
{
    match reply {
        Reply::Woken(0) => here.value(site, Value::None),
        Reply::Woken(_) => here.value(site, Value::None),
        Reply::NotOwner => Reached::Goes(here.raise(site, ILLEGAL_MONITOR_STATE_EXCEPTION)),
        _ => STUCK,
    }
}

/// The same for `notifyAll`, which notifies once more where a thread was notified.
pub fn notified_all<P: JavaProgram>(here: &Here<'_, P>, caller: Caller, reply: Reply) -> Reached
    ensures { then_of (P.units here.now.program.now) here.now.thread (frame_of here.now.frames.now.here) (Then.NotifiedAll caller) reply
        ≡ plan_reached (P.units here.now.program.now) here.now.thread (frame_of here.now.frames.now.here) result }
{
    let Some(_) = one(here.frames) else {
        return STUCK;
    };
    let site = CallSite {
        caller,
        operands: 1,
    };
    match reply {
        Reply::Woken(0) => here.value(site, Value::None),
        Reply::Woken(_) => Reached::NotifiesAgain(caller),
        Reply::NotOwner => Reached::Goes(here.raise(site, ILLEGAL_MONITOR_STATE_EXCEPTION)),
        _ => STUCK,
    }
}
