//! What a reply or a silent step leads to is done.

ghost use Rattle.std.specs.Prelude.{◌≡◌, ◌≤◌, ◌+◌, ◌++◌, length, drop};
ghost use Rattle.std.specs.Prelude.{IfSome, IsNone};
ghost use Rattle.frame_snapshot.specs.declared.stage.FrameStage.{FrameStage};
ghost use Rattle.frame_snapshot.specs.FrameStack.{with_stage, with_step, without_words};
ghost use Rattle.interp_local.specs.declared.step.LocalStep.{LocalStep};
ghost use Rattle.interp_local.specs.Effects.{with_words};
ghost use Rattle.interp_local.specs.Steps.{kind_of, local_now};
ghost use Rattle.interp_plans.specs.declared.reached.Reached.{Reached};
ghost use Rattle.java_rows.specs.Program.{steps_of};
ghost use Rattle.java_rows.specs.Plan.{completes, thrown_in};
ghost use Rattle.java_rows.specs.Thread.{settled};
ghost use Rattle.interp_plans.specs.Todos.{plan_at, plan_of, plan_reached};
ghost use Rattle.interp_plans.specs.Uses.{frame_of, value_words};
ghost use Rattle.interp_calls.specs.Local.{local_of, waiting_below};

use frame_snapshot::{Caller, FrameStage, Frames, Then, Todo, Value};
use interp_local::one;
use interp_plans::{Here, JavaProgram, Reached};
use op_core::Op;

/// The top frame goes on with what is to be done.
#[inline(always)]
pub fn go_on(frames: &mut Frames, todo: Todo)
    ensures { frames.new ≡ with_stage frames.old (FrameStage.Inside todo) }
{
    frames.set_stage(FrameStage::Inside(todo));
}

/// What is to be done next in the top frame; `None` where its instruction needs no operation.
pub fn todo_of<P: JavaProgram>(program: &P, thread: u32, frames: &Frames) -> Option<Todo>
    ensures some { IfSome result (λ todo. plan_at (P.units program.now) thread (frame_of frames.now.here) frames.now.here.stage
        ≡ plan_of (P.units program.now) thread (frame_of frames.now.here) todo) }
    ensures begun { IsNone result → frames.now.here.stage ≡ FrameStage.Begun }
    ensures none { IsNone result → kind_of (local_now (P.units program.now) (steps_of (P.units program.now) frames.now.here.method) frames.now) ≡ LocalStep.Moved }
{
    match frames.stage() {
        FrameStage::Begun => {
            let here = Here {
                program,
                thread,
                frames,
            };
            here.begin()
        }
        FrameStage::Inside(todo) => Some(todo),
        _ => Some(Todo::Stuck),
    }
}

#[inline(always)]
fn push_value(frames: &mut Frames, value: Value)
    requires { length (value_words value) ≤ frames.old.here.free }
    ensures { frames.new ≡ with_words frames.old (value_words value) }
{
    match value {
        Value::None => {}
        Value::Word(word) => frames.push_word(word),
        Value::Long { high, low } => {
            frames.push_word(low);
            frames.push_word(high);
        }
    }
}

/// How many words a value has.
#[inline(always)]
pub fn value_len(value: Value) -> usize
    ensures { result ≡ length (value_words value) }
{
    match value {
        Value::None => 0,
        Value::Word(_) => 1,
        Value::Long { .. } => 2,
    }
}

/// Takes words off the stack, pushes those of a value, and goes to another instruction.
#[inline(always)]
pub fn leave(frames: &mut Frames, taken: usize, value: Value, next: usize)
    requires words { taken ≤ length frames.old.here.stack }
    requires room { length (value_words value) ≤ frames.old.here.free + taken }
    ensures { frames.new ≡ with_step (with_words (without_words frames.old taken) (value_words value)) next }
{
    frames.drop_words(taken);
    push_value(frames, value);
    frames.set_step(next);
}

/// How many instructions the method of the top frame has.
fn steps_len<P: JavaProgram>(program: &P, frames: &Frames) -> usize
    ensures { result ≡ length (steps_of (P.units program.now) frames.now.here.method) }
{
    match program.code(frames.method()) {
        Some(code) => code.steps.as_slice().len(),
        None => 0,
    }
}

/// The instruction is complete: words are taken off the stack, those of a value are pushed, and the next one follows.
#[inline(always)]
fn complete<P: JavaProgram>(
    program: &P,
    thread: u32,
    frames: &mut Frames,
    operands: u16,
    value: Value,
)
    ensures state { local_of (P.units program.now) thread frames.new
        ≡ settled (P.units program.now) thread (completes (frame_of frames.old.here) (value_words value ++ drop operands frames.old.here.stack)) (waiting_below (P.units program.now) thread frames.old.below) }
    ensures saves { frames.new.saves ≡ frames.old.saves }
{
    let Some(next) = frames.step().checked_add(1) else {
        // No method is as long.
        let _length = steps_len(program, frames);
        return go_on(frames, Todo::Stuck);
    };
    let taken = usize::from(operands).min(frames.stack_len());
    let count = value_len(value);
    if count > taken && !frames.has_room(count - taken) {
        return go_on(frames, Todo::Stuck);
    }
    leave(frames, taken, value, next);
    frames.set_stage(FrameStage::Begun);
}

/// An object of a class is thrown in the top frame.
#[tactic(auto, using(crate::proofs::SettleLemmas::looks_bare))]
fn throw<P: JavaProgram>(program: &P, thread: u32, frames: &mut Frames, object: u32, class: u32)
    ensures state { local_of (P.units program.now) thread frames.new
        ≡ settled (P.units program.now) thread (thrown_in (frame_of frames.old.here) object class) (waiting_below (P.units program.now) thread frames.old.below) }
    ensures saves { frames.new.saves ≡ frames.old.saves }
{
    let here = Here {
        program,
        thread,
        frames,
    };
    let todo = here.look_for(object, class);
    go_on(frames, todo);
}

/// `notifyAll` notifies once more.
#[tactic(auto, using(crate::proofs::AgainLemmas::notifies_again))]
fn notify_again<P: JavaProgram>(program: &P, thread: u32, frames: &mut Frames, caller: Caller)
    ensures state { local_of (P.units program.now) thread frames.new
        ≡ settled (P.units program.now) thread (plan_reached (P.units program.now) thread (frame_of frames.old.here) (Reached.NotifiesAgain caller)) (waiting_below (P.units program.now) thread frames.old.below) }
    ensures saves { frames.new.saves ≡ frames.old.saves }
{
    match one(frames) {
        Some(object) => go_on(
            frames,
            Todo::Wants(Op::Notify(object), Then::NotifiedAll(caller)),
        ),
        None => go_on(frames, Todo::Stuck),
    }
}

/// `run` of a thread's target is called.
#[tactic(auto, using(crate::proofs::AgainLemmas::finds_again))]
fn find_run<P: JavaProgram>(
    program: &P,
    thread: u32,
    frames: &mut Frames,
    caller: Caller,
    target: u32,
)
    ensures state { local_of (P.units program.now) thread frames.new
        ≡ settled (P.units program.now) thread (plan_reached (P.units program.now) thread (frame_of frames.old.here) (Reached.Finds caller target)) (waiting_below (P.units program.now) thread frames.old.below) }
    ensures saves { frames.new.saves ≡ frames.old.saves }
{
    let Some(_) = one(frames) else {
        return go_on(frames, Todo::Stuck);
    };
    let _thread = frames.pop_word();
    frames.push_word(target);
    go_on(
        frames,
        Todo::Wants(Op::ClassOf(target), Then::FindsRun(caller)),
    );
}

/// The top frame, or the launch of the thread, goes on.
#[inline(always)]
#[tactic(auto, using(crate::proofs::SettleLemmas::todo_settles))]
pub fn apply<P: JavaProgram>(program: &P, thread: u32, frames: &mut Frames, reached: Reached)
    ensures state { local_of (P.units program.now) thread frames.new
        ≡ settled (P.units program.now) thread (plan_reached (P.units program.now) thread (frame_of frames.old.here) reached) (waiting_below (P.units program.now) thread frames.old.below) }
    ensures saves { frames.new.saves ≡ frames.old.saves }
{
    match reached {
        Reached::Goes(todo) => go_on(frames, todo),
        Reached::Completed { operands, value } => {
            complete(program, thread, frames, operands, value)
        }
        Reached::Throws { object, class } => throw(program, thread, frames, object, class),
        Reached::NotifiesAgain(caller) => notify_again(program, thread, frames, caller),
        Reached::Finds { caller, target } => find_run(program, thread, frames, caller, target),
    }
}
