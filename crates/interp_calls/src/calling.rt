//! The frame of a method that is called.

ghost use Rattle.std.specs.Prelude.{◌≡◌, ◌∷◌, ◌≤◌, Err, OnOk, OnErr, length, take, reverse};
ghost use Rattle.frame_snapshot.specs.declared.frames.PushRefusal.{PushRefusal as refusals};
ghost use Rattle.frame_snapshot.specs.FrameStack.{frame_count};
ghost use Rattle.java_rows.specs.Thread.{begun_first, first_frame};
ghost use Rattle.interp_plans.specs.Todos.{plan_at};
ghost use Rattle.interp_plans.specs.Uses.{frame_of};
ghost use Rattle.interp_calls.specs.Local.{paused, room_for};

use crate::apply::go_on;
use frame_snapshot::{FrameStage, Frames, NewFrame, PushRefusal, Todo};
use interp_plans::JavaProgram;
use link_types::MethodId;

/// A call of a method.
#[derive(Clone, Copy)]
pub struct MethodCall {
    pub method: MethodId,
    /// How many words of the caller's stack are the arguments.
    pub arguments: u16,
    /// The object whose monitor was entered for it, or 0.
    pub monitor: u32,
    /// Where the caller is in its instruction meanwhile.
    pub caller: FrameStage,
}

// The words of the locals and of the stack of the frame of a method with `arguments` words of arguments; none where the
// method has no code or too few locals.
fn room_of<P: JavaProgram>(program: &P, method: MethodId, arguments: u16) -> Option<(u16, u16)>
    ensures { result ≡ room_for (P.units program.now) method arguments }
{
    let code = program.code(method)?;
    if arguments <= code.max_locals {
        Some((code.max_locals, code.max_stack))
    } else {
        None
    }
}

/// Makes the frame of a method. Its arguments are on the stack of the top frame, which is at `call.caller` meanwhile.
/// `Full` comes exactly where there are 1,024 frames; after an error the frames are as before.
#[tactic(auto, using(crate::proofs::CallLemmas::first_is, crate::proofs::CallLemmas::first_none))]
pub fn call<P: JavaProgram>(
    program: &P,
    thread: u32,
    frames: &mut Frames,
    call: MethodCall,
) -> Result<(), PushRefusal>
    requires { call.arguments ≤ length frames.old.here.stack }
    ensures plan { OnOk result (plan_at (P.units program.now) thread (frame_of frames.new.here) frames.new.here.stage
        ≡ begun_first (P.units program.now) thread (first_frame (P.units program.now) call.method (reverse (take call.arguments frames.old.here.stack)) call.monitor)) }
    ensures below { OnOk result (frames.new.below ≡ paused frames.old.here call ∷ frames.old.below) }
    ensures saves { OnOk result (frames.new.saves ≡ frames.old.saves) }
    ensures full { result ≡ Err refusals.Full → 1024 ≤ frame_count frames.old }
    ensures err { OnErr result (frames.new ≡ frames.old) }
{
    let room = room_of(program, call.method, call.arguments);
    let (max_locals, max_stack) = match room {
        Some(room) => room,
        None => (call.arguments, 0),
    };
    frames.push(NewFrame {
        method: call.method,
        monitor: call.monitor,
        arguments: usize::from(call.arguments),
        max_locals,
        max_stack,
        caller: call.caller,
    })?;
    if room.is_none() {
        go_on(frames, Todo::Stuck);
    }
    Ok(())
}
