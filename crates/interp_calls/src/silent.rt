//! Silent steps.

ghost use Rattle.std.specs.Prelude.{◌≡◌, ◌≤◌, ◌<◌, ◌∷◌, [], true, false, Some, Err, OnOk, OnErr};
ghost use Rattle.frame_snapshot.specs.declared.stage.FrameEnd.{FrameEnd};
ghost use Rattle.frame_snapshot.specs.declared.todo.Todo.{Todo};
ghost use Rattle.frame_snapshot.specs.FrameStack.{frame_count, was_saved};
ghost use Rattle.op_core.specs.declared.CodeStop.{CodeStop as stops};
ghost use Rattle.op_core.specs.declared.Next.{Next as nexts};
ghost use Rattle.op_core.specs.ThreadCode.{leaves_any, quiet_step};
ghost use Rattle.java_rows.specs.Plan.{at_step, goes, ready};
ghost use Rattle.java_rows.specs.Thread.{begun, is_end, java_code, settled, silent_of};
ghost use Rattle.frame_snapshot.specs.declared.stage.FrameStage.{FrameStage};
ghost use Rattle.interp_local.specs.declared.step.LocalStep.{LocalStep};
ghost use Rattle.interp_local.specs.Steps.{kind_of, local_now};
ghost use Rattle.java_rows.specs.Program.{steps_of};
ghost use Rattle.interp_plans.specs.Todos.{plan_at, plan_of};
ghost use Rattle.interp_plans.specs.Uses.{frame_of, use_at, value_words};
ghost use Rattle.interp_calls.specs.Local.{local_of, saved_locals, waiting_below};

use crate::apply::{apply, go_on, todo_of};
use crate::calling::{MethodCall, call};
use crate::ending::end;
use frame_snapshot::{CallSite, Caller, FrameStage, Frames, PushRefusal, Todo, Value};
use interp_local::{run_step, surely_moves};
use interp_plans::{Here, JavaProgram};
use interp_texts::first_op;
use link_types::MethodId;
use op_core::{CodeStop, Next};

// A handler, which begins at an instruction, takes a thrown object.
fn catch<P: JavaProgram>(program: &P, thread: u32, frames: &mut Frames, entry: u32, object: u32)
    ensures state { local_of (P.units program.now) thread frames.new
        ≡ settled (P.units program.now) thread (ready (goes (record (frame_of frames.old.here) { step = entry; task = at_step; stack = object ∷ [] }))) (waiting_below (P.units program.now) thread frames.old.below) }
    ensures saves { frames.new.saves ≡ frames.old.saves }
{
    let length = frames.stack_len();
    frames.drop_words(length);
    if !frames.has_room(1) {
        return go_on(frames, Todo::Stuck);
    }
    frames.push_word(object);
    frames.set_step(entry as usize);
    frames.set_stage(FrameStage::Begun);
}

// An instruction, or the launch of the thread, is complete with a value.
fn finish<P: JavaProgram>(
    program: &P,
    thread: u32,
    frames: &mut Frames,
    site: CallSite,
    value: Value,
)
    ensures state { local_of (P.units program.now) thread frames.new
        ≡ settled (P.units program.now) thread ((use_at (frame_of frames.old.here) site).value (value_words value)) (waiting_below (P.units program.now) thread frames.old.below) }
    ensures saves { frames.new.saves ≡ frames.old.saves }
{
    let here = Here {
        program,
        thread,
        frames,
    };
    let reached = here.value(site, value);
    apply(program, thread, frames, reached);
}

// The frame of a method is made.
#[tactic(auto, using(crate::proofs::AgainLemmas::paused_waits))]
fn enter<P: JavaProgram>(
    program: &P,
    thread: u32,
    frames: &mut Frames,
    method: MethodId,
    site: CallSite,
    monitor: u32,
) -> Result<(), CodeStop>
    ensures ok { OnOk result (local_of (P.units program.now) thread frames.new
        ≡ silent_of (P.units program.now) thread (plan_of (P.units program.now) thread (frame_of frames.old.here) (Todo.Calls method site monitor)) (waiting_below (P.units program.now) thread frames.old.below)) }
    ensures saves { OnOk result (frames.new.saves ≡ frames.old.saves) }
    ensures full { result ≡ Err stops.Frames → 1024 ≤ frame_count frames.old }
    ensures err { OnErr result (frames.new ≡ frames.old) }
{
    let here = Here {
        program,
        thread,
        frames,
    };
    let within = here.within_stack(site);
    let made = MethodCall {
        method,
        arguments: within.operands,
        monitor,
        caller: FrameStage::Calls(site.caller),
    };
    match call(program, thread, frames, made) {
        Ok(()) => Ok(()),
        Err(PushRefusal::Full) => Err(CodeStop::Frames),
        Err(PushRefusal::NoMemory) => Err(CodeStop::NoMemory),
    }
}

// The frame of the initializer of the class at a place is made.
fn initialize<P: JavaProgram>(
    program: &P,
    thread: u32,
    frames: &mut Frames,
    method: MethodId,
    caller: Caller,
    place: u32,
) -> Result<(), CodeStop>
    ensures ok { OnOk result (local_of (P.units program.now) thread frames.new
        ≡ silent_of (P.units program.now) thread (plan_of (P.units program.now) thread (frame_of frames.old.here) (Todo.Initializes method caller place)) (waiting_below (P.units program.now) thread frames.old.below)) }
    ensures saves { OnOk result (frames.new.saves ≡ frames.old.saves) }
    ensures full { result ≡ Err stops.Frames → 1024 ≤ frame_count frames.old }
    ensures err { OnErr result (frames.new ≡ frames.old) }
{
    let made = MethodCall {
        method,
        arguments: 0,
        monitor: 0,
        caller: FrameStage::Initializing { caller, place },
    };
    match call(program, thread, frames, made) {
        Ok(()) => Ok(()),
        Err(PushRefusal::Full) => Err(CodeStop::Frames),
        Err(PushRefusal::NoMemory) => Err(CodeStop::NoMemory),
    }
}

/// The silent step of what is to be done next in the top frame, which must not end a frame that was on top at a save.
/// Where no silent step comes next, nothing is done. `Frames` comes exactly where there are 1,024 frames and another one
/// would be made; after an error the frames are as before.
#[tactic(auto, using(crate::proofs::TextLemmas::start_waits))]
pub fn step<P: JavaProgram>(
    program: &P,
    thread: u32,
    frames: &mut Frames,
    todo: Todo,
) -> Result<(), CodeStop>
    requires plan { plan_at (P.units program.now) thread (frame_of frames.old.here) frames.old.here.stage ≡ plan_of (P.units program.now) thread (frame_of frames.old.here) todo }
    requires stays { (outcome : FrameEnd) → todo ≡ Todo.Ends outcome → was_saved frames.old ≡ false }
    ensures ok { OnOk result (local_of (P.units program.now) thread frames.new
        ≡ silent_of (P.units program.now) thread (plan_of (P.units program.now) thread (frame_of frames.old.here) todo) (waiting_below (P.units program.now) thread frames.old.below)) }
    ensures saves { OnOk result (frames.new.saves ≡ frames.old.saves) }
    ensures full { result ≡ Err stops.Frames → 1024 < java_code.frames (silent_of (P.units program.now) thread (plan_of (P.units program.now) thread (frame_of frames.old.here) todo) (waiting_below (P.units program.now) thread frames.old.below)) }
    ensures err { OnErr result (frames.new ≡ frames.old) }
{
    match todo {
        Todo::Completes(site, value) => finish(program, thread, frames, site, value),
        Todo::Catches { entry, object } => catch(program, thread, frames, entry, object),
        Todo::Ends(outcome) => end(program, thread, frames, outcome),
        Todo::Calls {
            method,
            site,
            monitor,
        } => return enter(program, thread, frames, method, site, monitor),
        Todo::Initializes {
            method,
            caller,
            place,
        } => return initialize(program, thread, frames, method, caller, place),
        Todo::Wants(..) | Todo::Texts(..) | Todo::Over | Todo::Stuck => {}
    }
    Ok(())
}

/// The silent step of an instruction that needs no operation, at which the top frame begins.
pub fn move_on<P: JavaProgram>(program: &P, thread: u32, frames: &mut Frames)
    requires begun { frames.old.here.stage ≡ FrameStage.Begun }
    requires local { kind_of (local_now (P.units program.now) (steps_of (P.units program.now) frames.old.here.method) frames.old) ≡ LocalStep.Moved }
    ensures state { local_of (P.units program.now) thread frames.new
        ≡ silent_of (P.units program.now) thread (begun (P.units program.now) thread (frame_of frames.old.here)) (waiting_below (P.units program.now) thread frames.old.below) }
    ensures saves { frames.new.saves ≡ frames.old.saves }
{
    let method = frames.method();
    if let Some(code) = program.code(method) {
        let quicks = program.quicks(method);
        let _step = run_step(program, code.steps.as_slice(), quicks, frames);
    }
}

/// Whether the silent step of what is to be done ends the top frame.
#[tactic(auto, using(crate::proofs::SilentLemmas::value_stays, crate::proofs::TextLemmas::start_stays))]
pub fn ends_frame<P: JavaProgram>(_program: &P, _thread: u32, _frames: &Frames, todo: Todo) -> bool
    ensures { result ≡ is_end (plan_of (P.units _program.now) _thread (frame_of _frames.now.here) todo) }
{
    match todo {
        Todo::Ends(_) => true,
        Todo::Wants(..)
        | Todo::Texts(..)
        | Todo::Completes(..)
        | Todo::Catches { .. }
        | Todo::Calls { .. }
        | Todo::Initializes { .. }
        | Todo::Over
        | Todo::Stuck => false,
    }
}

/// The silent step of a thread that is inside no method that reads or makes texts. The step must not end a frame that was on
/// top at a save. `Frames` comes exactly where the step would make a 1,025th frame; after an error the frames are as before.
pub fn silent_outside<P: JavaProgram>(
    program: &P,
    thread: u32,
    frames: &mut Frames,
) -> Result<(), CodeStop>
    requires silent { java_code.next (local_of (P.units program.now) thread frames.old) ≡ nexts.Silent }
    requires stays { leaves_any java_code (saved_locals (P.units program.now) thread frames.old) (local_of (P.units program.now) thread frames.old) ≡ false }
    ensures ok { OnOk result (quiet_step java_code (local_of (P.units program.now) thread frames.old) ≡ Some (local_of (P.units program.now) thread frames.new)) }
    ensures saves { OnOk result (frames.new.saves ≡ frames.old.saves) }
    ensures frames { result ≡ Err stops.Frames → 1024 < java_code.frames (java_code.silent (local_of (P.units program.now) thread frames.old)) }
    ensures err { OnErr result (frames.new ≡ frames.old) }
{
    match todo_of(program, thread, frames) {
        None => move_on(program, thread, frames),
        Some(todo) => step(program, thread, frames, todo)?,
    }
    frames.has_few();
    Ok(())
}

/// Whether the silent step of a thread that is inside no method that reads or makes texts ends a frame that was on top at a
/// save.
pub fn leaves_outside<P: JavaProgram>(program: &P, thread: u32, frames: &Frames) -> bool
    ensures { result ≡ leaves_any java_code (saved_locals (P.units program.now) thread frames.now) (local_of (P.units program.now) thread frames.now) }
{
    match todo_of(program, thread, frames) {
        Some(todo) => ends_frame(program, thread, frames, todo) && frames.was_saved(),
        None => false,
    }
}

// Whether the top frame is at the beginning of an instruction of which one look says that its step is silent.
fn begins_silently<P: JavaProgram>(program: &P, _thread: u32, frames: &Frames) -> bool
    ensures { result ≡ true → java_code.next (local_of (P.units program.now) _thread frames.now) ≡ nexts.Silent }
{
    let FrameStage::Begun = frames.stage_here() else {
        return false;
    };
    let method = frames.method();
    match program.code(method) {
        Some(code) => {
            let quicks = program.quicks(method);
            surely_moves(program, code.steps.as_slice(), quicks, frames)
        }
        None => false,
    }
}

/// What a thread does next that is inside no method that reads or makes texts.
pub fn next_outside<P: JavaProgram>(program: &P, thread: u32, frames: &Frames) -> Next
    ensures { result ≡ java_code.next (local_of (P.units program.now) thread frames.now) }
{
    if begins_silently(program, thread, frames) {
        return Next::Silent;
    }
    match todo_of(program, thread, frames) {
        None => Next::Silent,
        Some(Todo::Wants(op, _)) => Next::Want(op),
        Some(Todo::Texts(_, job)) => Next::Want(first_op(job)),
        Some(Todo::Over | Todo::Stuck) => Next::Ended,
        Some(_) => Next::Silent,
    }
}
