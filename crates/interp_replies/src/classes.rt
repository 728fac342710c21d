//! Methods that are selected, thrown objects, and classes that are initialized (JVMS 2.10, 5.5, 6.5).

ghost use Rattle.std.specs.Prelude.{◌≡◌};
ghost use Rattle.frame_snapshot.specs.declared.todo.Then.{Then};
ghost use Rattle.java_rows.specs.Program.{select_for};
ghost use Rattle.interp_plans.specs.Replies.{then_of};
ghost use Rattle.interp_plans.specs.Todos.{plan_reached};
ghost use Rattle.interp_plans.specs.Uses.{frame_of};

use crate::values::STUCK;
use builtin_world::number::{ERROR, EXCEPTION_IN_INITIALIZER_ERROR, NO_CLASS_DEF_FOUND_ERROR};
use frame_snapshot::{CallSite, Caller, FrameEnd, Then, Todo};
use interp_plans::{Here, JavaProgram, Reached};
use link_types::MethodId;
use op_core::{Op, Reply};

/// The class of the receiver was asked for.
#[tactic(auto, using(crate::proofs::SiteLemmas::selects_within))]
pub fn selects<P: JavaProgram>(
    here: &Here<'_, P>,
    method: MethodId,
    site: CallSite,
    reply: Reply,
) -> Reached
    ensures { then_of (P.units here.now.program.now) here.now.thread (frame_of here.now.frames.now.here) (Then.Selects method site) reply
        ≡ plan_reached (P.units here.now.program.now) here.now.thread (frame_of here.now.frames.now.here) result }
{
    match reply {
        Reply::Class(class, _) => {
            let selected = here.program.select(class, method);
            Reached::Goes(here.invoke_selected(selected, here.within_stack(site)))
        }
        _ => STUCK,
    }
}

/// The method that a call of a method of an interface executes on an object of a class.
pub fn select_by_interface<P: JavaProgram>(
    here: &Here<'_, P>,
    interface: u32,
    method: MethodId,
    class: u32,
) -> Option<MethodId>
    ensures { result ≡ select_for (P.units here.now.program.now) interface method class }
{
    if here.program.is_subclass(class, interface) {
        here.program.select(class, method)
    } else {
        None
    }
}

/// The same for a method of an interface.
#[tactic(auto, using(crate::proofs::SiteLemmas::selects_within))]
pub fn selects_for<P: JavaProgram>(
    here: &Here<'_, P>,
    interface: u32,
    method: MethodId,
    site: CallSite,
    reply: Reply,
) -> Reached
    ensures { then_of (P.units here.now.program.now) here.now.thread (frame_of here.now.frames.now.here) (Then.SelectsFor interface method site) reply
        ≡ plan_reached (P.units here.now.program.now) here.now.thread (frame_of here.now.frames.now.here) result }
{
    match reply {
        Reply::Class(class, _) => {
            let selected = select_by_interface(here, interface, method, class);
            Reached::Goes(here.invoke_selected(selected, here.within_stack(site)))
        }
        _ => STUCK,
    }
}

/// The class of an object was asked for, which is thrown.
pub fn thrown<P: JavaProgram>(here: &Here<'_, P>, object: u32, reply: Reply) -> Reached
    ensures { then_of (P.units here.now.program.now) here.now.thread (frame_of here.now.frames.now.here) (Then.Thrown object) reply
        ≡ plan_reached (P.units here.now.program.now) here.now.thread (frame_of here.now.frames.now.here) result }
{
    match reply {
        Reply::Class(class, _) => Reached::Throws { object, class },
        _ => STUCK,
    }
}

/// A new exception of the machine was made.
pub fn raised<P: JavaProgram>(
    here: &Here<'_, P>,
    caller: Caller,
    class: u32,
    reply: Reply,
) -> Reached
    ensures { then_of (P.units here.now.program.now) here.now.thread (frame_of here.now.frames.now.here) (Then.Raised caller class) reply
        ≡ plan_reached (P.units here.now.program.now) here.now.thread (frame_of here.now.frames.now.here) result }
{
    match reply {
        Reply::Made(object) => here.thrown(caller, object, class),
        _ => STUCK,
    }
}

/// The monitor of the frame was exited.
pub fn leaves<P: JavaProgram>(here: &Here<'_, P>, outcome: FrameEnd, reply: Reply) -> Reached
    ensures { then_of (P.units here.now.program.now) here.now.thread (frame_of here.now.frames.now.here) (Then.Leaves outcome) reply
        ≡ plan_reached (P.units here.now.program.now) here.now.thread (frame_of here.now.frames.now.here) result }
{
    match reply {
        Reply::Done => Reached::Goes(Todo::Ends(outcome)),
        Reply::NotOwner => Reached::Goes(Todo::Ends(FrameEnd::Broke)),
        _ => STUCK,
    }
}

/// It is known how far the class at a place is initialized.
pub fn asked<P: JavaProgram>(
    here: &Here<'_, P>,
    caller: Caller,
    place: u32,
    reply: Reply,
) -> Reached
    ensures { then_of (P.units here.now.program.now) here.now.thread (frame_of here.now.frames.now.here) (Then.Asked caller place) reply
        ≡ plan_reached (P.units here.now.program.now) here.now.thread (frame_of here.now.frames.now.here) result }
{
    let Some(_) = here.class_in_chain(caller, place) else {
        return STUCK;
    };
    match reply {
        Reply::Ready => Reached::Goes(here.initialized(caller, place)),
        Reply::Bad => {
            let then = Then::Error {
                caller,
                place,
                class: NO_CLASS_DEF_FOUND_ERROR,
            };
            Reached::Goes(Todo::Wants(Op::New(NO_CLASS_DEF_FOUND_ERROR, 0), then))
        }
        Reply::Claimed => Reached::Goes(here.ask(caller, place + 1)),
        _ => STUCK,
    }
}

/// The initialization of the class at a place has ended well.
pub fn settled<P: JavaProgram>(
    here: &Here<'_, P>,
    caller: Caller,
    place: u32,
    reply: Reply,
) -> Reached
    ensures { then_of (P.units here.now.program.now) here.now.thread (frame_of here.now.frames.now.here) (Then.Settled caller place) reply
        ≡ plan_reached (P.units here.now.program.now) here.now.thread (frame_of here.now.frames.now.here) result }
{
    match reply {
        Reply::Done => Reached::Goes(here.initialized(caller, place)),
        _ => STUCK,
    }
}

/// The initialization of the class at a place has ended with a thrown object.
pub fn broken<P: JavaProgram>(
    here: &Here<'_, P>,
    caller: Caller,
    place: u32,
    thrown: (u32, u32),
    reply: Reply,
) -> Reached
    ensures { then_of (P.units here.now.program.now) here.now.thread (frame_of here.now.frames.now.here) (Then.Broken caller place thrown.0 thrown.1) reply
        ≡ plan_reached (P.units here.now.program.now) here.now.thread (frame_of here.now.frames.now.here) result }
{
    let (object, class) = thrown;
    match reply {
        Reply::Done => {
            if here.program.is_subclass(class, ERROR) {
                return here.broken(caller, place, object, class);
            }
            let then = Then::Error {
                caller,
                place,
                class: EXCEPTION_IN_INITIALIZER_ERROR,
            };
            Reached::Goes(Todo::Wants(Op::New(EXCEPTION_IN_INITIALIZER_ERROR, 0), then))
        }
        _ => STUCK,
    }
}

/// An error of an initialization was made.
pub fn error_made<P: JavaProgram>(
    here: &Here<'_, P>,
    caller: Caller,
    place: u32,
    class: u32,
    reply: Reply,
) -> Reached
    ensures { then_of (P.units here.now.program.now) here.now.thread (frame_of here.now.frames.now.here) (Then.Error caller place class) reply
        ≡ plan_reached (P.units here.now.program.now) here.now.thread (frame_of here.now.frames.now.here) result }
{
    match reply {
        Reply::Made(object) => here.broken(caller, place, object, class),
        _ => STUCK,
    }
}
