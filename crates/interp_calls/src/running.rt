//! Many silent steps in one call.

ghost use Rattle.std.specs.Prelude.{◌≡◌, ◌≢◌, ◌≤◌, Some};
ghost use Rattle.op_core.specs.ThreadCode.{quiet_steps, LeavesNoSave};
ghost use Rattle.frame_snapshot.specs.declared.stage.FrameStage.{FrameStage};
ghost use Rattle.interp_local.specs.declared.step.LocalStep.{LocalStep};
ghost use Rattle.interp_local.specs.Steps.{kind_of, local_now};
ghost use Rattle.java_rows.specs.Program.{steps_of};
ghost use Rattle.java_rows.specs.Thread.{java_code};
ghost use Rattle.interp_calls.specs.Local.{local_of, saved_locals};

use crate::apply::go_on;
use frame_snapshot::Frames;
use instructions::{Instr, Target};
use interp_local::{LocalStep, run_local};
use interp_plans::{Here, JavaProgram};

// Keeps in the top frame what is to be done at its instruction, where the step there isn't a local one that moves.
#[inline(always)]
fn keep_next<P: JavaProgram>(
    program: &P,
    thread: u32,
    frames: &mut Frames,
    steps: &[Instr<Target>],
    step: LocalStep,
)
    requires steps { steps.now ≡ steps_of (P.units program.now) frames.old.here.method }
    requires begun { frames.old.here.stage ≡ FrameStage.Begun }
    requires step { step ≢ LocalStep.Moved → step ≡ kind_of (local_now (P.units program.now) (steps_of (P.units program.now) frames.old.here.method) frames.old) }
    ensures state { local_of (P.units program.now) thread frames.new ≡ local_of (P.units program.now) thread frames.old }
    ensures saves { frames.new.saves ≡ frames.old.saves }
{
    if matches!(&step, LocalStep::Moved) {
        return;
    }
    let here = Here {
        program,
        thread,
        frames,
    };
    if let Some(todo) = here.begin_by(steps, step) {
        go_on(frames, todo);
    }
}

/// Makes at most `most` silent steps of instructions that need no operation, beginning at the start of an instruction,
/// and returns how many it made. What the next instruction wants is kept, so that it isn't found anew. Takes no memory.
pub fn run<P: JavaProgram>(program: &P, thread: u32, frames: &mut Frames, most: u64) -> u64
    requires { frames.old.here.stage ≡ FrameStage.Begun }
    ensures steps { quiet_steps java_code result (local_of (P.units program.now) thread frames.old) ≡ Some (local_of (P.units program.now) thread frames.new) }
    ensures stays { LeavesNoSave java_code (saved_locals (P.units program.now) thread frames.old) result (local_of (P.units program.now) thread frames.old) }
    ensures saves { frames.new.saves ≡ frames.old.saves }
    ensures most { result ≤ most }
{
    frames.has_few();
    let method = frames.method();
    match program.code(method) {
        Some(code) => {
            let quicks = program.quicks(method);
            let steps = code.steps.as_slice();
            let run = run_local(program, steps, quicks, frames, most);
            keep_next(program, thread, frames, steps, run.stop);
            run.steps
        }
        None => 0,
    }
}
