//! The end of a frame, and how the one below goes on.

ghost use Rattle.std.specs.Prelude.{◌≡◌, false};
ghost use Rattle.frame_snapshot.specs.declared.stage.FrameStage.{FrameStage};
ghost use Rattle.frame_snapshot.specs.FrameStack.{was_saved};
ghost use Rattle.java_rows.specs.Plan.{ends, ready};
ghost use Rattle.java_rows.specs.Thread.{settled};
ghost use Rattle.interp_plans.specs.Initializing.{after_initializer, chain_of};
ghost use Rattle.interp_plans.specs.Todos.{plan_reached, waiting};
ghost use Rattle.interp_plans.specs.Uses.{end_of, frame_of};
ghost use Rattle.interp_calls.specs.Local.{local_of, waiting_below};

use crate::apply::{apply, go_on};
use builtin_world::number::ILLEGAL_MONITOR_STATE_EXCEPTION;
use frame_snapshot::{CallSite, Caller, FrameEnd, FrameStage, Frames, Then, Todo};
use interp_plans::{Here, JavaProgram, Reached};
use op_core::Op;

// How the initialization of the class at a place goes on where its initializer has ended.
#[tactic(auto, using(crate::proofs::EndLemmas::broke_at))]
fn initializer_ended<P: JavaProgram>(
    here: &Here<'_, P>,
    caller: Caller,
    place: u32,
    outcome: FrameEnd,
) -> Reached
    ensures { after_initializer (P.units here.now.program.now) here.now.thread (frame_of here.now.frames.now.here) caller (chain_of (P.units here.now.program.now) (frame_of here.now.frames.now.here) caller) place (end_of outcome)
        ≡ plan_reached (P.units here.now.program.now) here.now.thread (frame_of here.now.frames.now.here) result }
{
    let Some(initialized) = here.class_in_chain(caller, place) else {
        return Reached::Goes(Todo::Stuck);
    };
    match outcome {
        FrameEnd::Returned(_) => {
            let then = Then::Settled { caller, place };
            Reached::Goes(Todo::Wants(Op::InitDone(initialized, true), then))
        }
        FrameEnd::Threw { object, class } => {
            let then = Then::Broken {
                caller,
                place,
                object,
                class,
            };
            Reached::Goes(Todo::Wants(Op::InitDone(initialized, false), then))
        }
        FrameEnd::Broke => {
            let class = ILLEGAL_MONITOR_STATE_EXCEPTION;
            let then = Then::Error {
                caller,
                place: place + 1,
                class,
            };
            Reached::Goes(Todo::Wants(Op::New(class, 0), then))
        }
    }
}

// How a caller goes on where a call in it has ended.
fn call_ended<P: JavaProgram>(here: &Here<'_, P>, caller: Caller, outcome: FrameEnd) -> Reached
    ensures { waiting (P.units here.now.program.now) here.now.thread (frame_of here.now.frames.now.here) (FrameStage.Calls caller) (end_of outcome)
        ≡ plan_reached (P.units here.now.program.now) here.now.thread (frame_of here.now.frames.now.here) result }
{
    let site = CallSite {
        caller,
        operands: 0,
    };
    match outcome {
        FrameEnd::Returned(value) => here.value(site, value),
        FrameEnd::Threw { object, class } => here.thrown(caller, object, class),
        FrameEnd::Broke => Reached::Goes(here.raise(site, ILLEGAL_MONITOR_STATE_EXCEPTION)),
    }
}

// What the end of the frame above leads to in the frame that is on top now.
fn resumed<P: JavaProgram>(here: &Here<'_, P>, outcome: FrameEnd) -> Reached
    ensures { waiting (P.units here.now.program.now) here.now.thread (frame_of here.now.frames.now.here) here.now.frames.now.here.stage (end_of outcome)
        ≡ plan_reached (P.units here.now.program.now) here.now.thread (frame_of here.now.frames.now.here) result }
{
    match here.frames.stage() {
        FrameStage::Calls(caller) => call_ended(here, caller, outcome),
        FrameStage::Initializing { caller, place } => initializer_ended(
            here, caller, place, outcome,
        ),
        _ => Reached::Goes(Todo::Stuck),
    }
}

/// The top frame ends, which was on top at no save.
#[tactic(auto, using(crate::proofs::AgainLemmas::ends_resumed))]
pub fn end<P: JavaProgram>(program: &P, thread: u32, frames: &mut Frames, outcome: FrameEnd)
    requires { was_saved frames.old ≡ false }
    ensures state { local_of (P.units program.now) thread frames.new
        ≡ settled (P.units program.now) thread (ready (ends (end_of outcome))) (waiting_below (P.units program.now) thread frames.old.below) }
    ensures saves { frames.new.saves ≡ frames.old.saves }
{
    if !frames.has_caller() {
        return go_on(frames, Todo::Stuck);
    }
    frames.pop(0);
    let here = Here {
        program,
        thread,
        frames,
    };
    let reached = resumed(&here, outcome);
    apply(program, thread, frames, reached);
}
