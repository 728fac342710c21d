//! How the top frame goes on after the reply to an operation.

ghost use Rattle.std.specs.Prelude.{◌≡◌, IfSome};
ghost use Rattle.interp_plans.specs.Replies.{then_of};
ghost use Rattle.interp_plans.specs.Todos.{plan_reached};
ghost use Rattle.interp_plans.specs.Uses.{frame_of};
ghost use Rattle.java_rows.specs.Thread.{settled};
ghost use Rattle.interp_calls.specs.Local.{local_of, waiting_below};

use crate::apply::apply;
use frame_snapshot::{Frames, Then};
use interp_plans::{Here, JavaProgram, Reached};
use interp_replies::{answer, done, high_read, length, loads, low_read, low_written, read, stores};
use op_core::{Op, Reply};

/// The top frame goes on with the reply to an operation, given what follows it.
pub fn go_on_behind_any<P: JavaProgram>(
    program: &P,
    thread: u32,
    frames: &mut Frames,
    then: Then,
    reply: Reply,
)
    ensures state { local_of (P.units program.now) thread frames.new
        ≡ settled (P.units program.now) thread (then_of (P.units program.now) thread (frame_of frames.old.here) then reply) (waiting_below (P.units program.now) thread frames.old.below) }
    ensures saves { frames.new.saves ≡ frames.old.saves }
{
    let here = Here {
        program,
        thread,
        frames,
    };
    let reached = answer(&here, then, reply);
    apply(program, thread, frames, reached);
}

/// What a reply about a field, an element or a length leads to, given what follows it. `None` leaves it to
/// [`go_on_behind_any`].
#[inline(always)]
pub fn reached_by<P: JavaProgram>(here: &Here<'_, P>, then: Then, reply: Reply) -> Option<Reached>
    ensures { IfSome result (λ reached. then_of (P.units here.now.program.now) here.now.thread (frame_of here.now.frames.now.here) then reply
        ≡ plan_reached (P.units here.now.program.now) here.now.thread (frame_of here.now.frames.now.here) reached) }
{
    let reached = match then {
        Then::Read(site) => read(here, site, reply),
        Then::Done(site) => done(here, site, reply),
        Then::LowRead {
            site,
            object,
            place,
        } => low_read(here, site, object, place, reply),
        Then::HighRead { site, low } => high_read(here, site, low, reply),
        Then::LowWritten {
            site,
            object,
            place,
            high,
        } => low_written(here, site, Op::Write(object, place, high), reply),
        Then::Loads(kind) => loads(here, kind, reply),
        Then::Stores(kind) => stores(here, kind, reply),
        Then::Length(site) => length(here, site, reply),
        _ => return None,
    };
    Some(reached)
}

/// As [`go_on_behind_any`], but replies about fields, elements and lengths are distinguished first.
#[inline(always)]
pub fn go_on_behind<P: JavaProgram>(
    program: &P,
    thread: u32,
    frames: &mut Frames,
    then: Then,
    reply: Reply,
)
    ensures state { local_of (P.units program.now) thread frames.new
        ≡ settled (P.units program.now) thread (then_of (P.units program.now) thread (frame_of frames.old.here) then reply) (waiting_below (P.units program.now) thread frames.old.below) }
    ensures saves { frames.new.saves ≡ frames.old.saves }
{
    let here = Here {
        program,
        thread,
        frames,
    };
    match reached_by(&here, then, reply) {
        Some(reached) => apply(program, thread, frames, reached),
        None => go_on_behind_any(program, thread, frames, then, reply),
    }
}
