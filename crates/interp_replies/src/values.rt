//! Replies that are, or complete, the value of an instruction.

ghost use Rattle.std.specs.Prelude.{◌≡◌, []};
ghost use Rattle.frame_snapshot.specs.declared.todo.Then.{Then};
ghost use Rattle.interp_plans.specs.Replies.{then_of};
ghost use Rattle.interp_plans.specs.Todos.{plan_reached};
ghost use Rattle.interp_plans.specs.Uses.{frame_of, use_at};
ghost use Rattle.java_rows.specs.Plan.{on_done, want};

use builtin_world::number::CLASS_CAST_EXCEPTION;
use frame_snapshot::{CallSite, Then, Todo, Value};
use interp_plans::{Here, JavaProgram, Reached};
use op_core::{Op, Reply};

pub const STUCK: Reached = Reached::Goes(Todo::Stuck);

/// The operation is done, and gives the instruction no value.
#[inline(always)]
pub fn done<P: JavaProgram>(here: &Here<'_, P>, site: CallSite, reply: Reply) -> Reached
    ensures { then_of (P.units here.now.program.now) here.now.thread (frame_of here.now.frames.now.here) (Then.Done site) reply
        ≡ plan_reached (P.units here.now.program.now) here.now.thread (frame_of here.now.frames.now.here) result }
{
    match reply {
        Reply::Done => here.value(site, Value::None),
        _ => STUCK,
    }
}

/// A word was read.
#[inline(always)]
pub fn read<P: JavaProgram>(here: &Here<'_, P>, site: CallSite, reply: Reply) -> Reached
    ensures { then_of (P.units here.now.program.now) here.now.thread (frame_of here.now.frames.now.here) (Then.Read site) reply
        ≡ plan_reached (P.units here.now.program.now) here.now.thread (frame_of here.now.frames.now.here) result }
{
    match reply {
        Reply::Value(word) => here.value(site, Value::Word(word)),
        _ => STUCK,
    }
}

/// The low half of a long was read.
#[inline(always)]
pub fn low_read<P: JavaProgram>(
    here: &Here<'_, P>,
    site: CallSite,
    object: u32,
    place: u32,
    reply: Reply,
) -> Reached
    ensures { then_of (P.units here.now.program.now) here.now.thread (frame_of here.now.frames.now.here) (Then.LowRead site object place) reply
        ≡ plan_reached (P.units here.now.program.now) here.now.thread (frame_of here.now.frames.now.here) result }
{
    match reply {
        Reply::Value(low) => {
            let then = Then::HighRead { site, low };
            Reached::Goes(Todo::Wants(Op::Read(object, place), then))
        }
        _ => STUCK,
    }
}

/// The high half of a long was read.
#[inline(always)]
pub fn high_read<P: JavaProgram>(
    here: &Here<'_, P>,
    site: CallSite,
    low: u32,
    reply: Reply,
) -> Reached
    ensures { then_of (P.units here.now.program.now) here.now.thread (frame_of here.now.frames.now.here) (Then.HighRead site low) reply
        ≡ plan_reached (P.units here.now.program.now) here.now.thread (frame_of here.now.frames.now.here) result }
{
    match reply {
        Reply::Value(high) => here.value(site, Value::Long { high, low }),
        _ => STUCK,
    }
}

/// The low half of a long was written.
#[inline(always)]
pub fn low_written<P: JavaProgram>(
    here: &Here<'_, P>,
    site: CallSite,
    write: Op,
    reply: Reply,
) -> Reached
    ensures { on_done (want write (on_done ((use_at (frame_of here.now.frames.now.here) site).value []))) reply
        ≡ plan_reached (P.units here.now.program.now) here.now.thread (frame_of here.now.frames.now.here) result }
{
    match reply {
        Reply::Done => Reached::Goes(Todo::Wants(write, Then::Done(site))),
        _ => STUCK,
    }
}

/// An object was made.
pub fn made<P: JavaProgram>(here: &Here<'_, P>, site: CallSite, reply: Reply) -> Reached
    ensures { then_of (P.units here.now.program.now) here.now.thread (frame_of here.now.frames.now.here) (Then.Made site) reply
        ≡ plan_reached (P.units here.now.program.now) here.now.thread (frame_of here.now.frames.now.here) result }
{
    match reply {
        Reply::Made(object) => here.value(site, Value::Word(object)),
        _ => STUCK,
    }
}

/// The length of an array was asked for.
#[inline(always)]
pub fn length<P: JavaProgram>(here: &Here<'_, P>, site: CallSite, reply: Reply) -> Reached
    ensures { then_of (P.units here.now.program.now) here.now.thread (frame_of here.now.frames.now.here) (Then.Length site) reply
        ≡ plan_reached (P.units here.now.program.now) here.now.thread (frame_of here.now.frames.now.here) result }
{
    match reply {
        Reply::Class(_, length) => here.value(site, Value::Word(length)),
        _ => STUCK,
    }
}

/// The class of an object was asked for, to check it.
pub fn cast<P: JavaProgram>(here: &Here<'_, P>, object: u32, class: u32, reply: Reply) -> Reached
    ensures { then_of (P.units here.now.program.now) here.now.thread (frame_of here.now.frames.now.here) (Then.Cast object class) reply
        ≡ plan_reached (P.units here.now.program.now) here.now.thread (frame_of here.now.frames.now.here) result }
{
    match reply {
        Reply::Class(low, _) => {
            if here.program.is_subclass(low, class) {
                return Reached::Completed {
                    operands: 1,
                    value: Value::Word(object),
                };
            }
            Reached::Goes(here.fail(CLASS_CAST_EXCEPTION))
        }
        _ => STUCK,
    }
}

/// The class of an object was asked for, to test it.
pub fn tested<P: JavaProgram>(here: &Here<'_, P>, class: u32, reply: Reply) -> Reached
    ensures { then_of (P.units here.now.program.now) here.now.thread (frame_of here.now.frames.now.here) (Then.Tested class) reply
        ≡ plan_reached (P.units here.now.program.now) here.now.thread (frame_of here.now.frames.now.here) result }
{
    match reply {
        Reply::Class(low, _) => Reached::Completed {
            operands: 1,
            value: Value::Word(u32::from(here.program.is_subclass(low, class))),
        },
        _ => STUCK,
    }
}
