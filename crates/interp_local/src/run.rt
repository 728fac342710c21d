//! Many steps in one call.

ghost use Rattle.std.specs.Prelude.{◌≡◌, ◌≢◌, ◌≤◌, ◌<◌, ◌↔◌, true, false, List};
ghost use Rattle.code_decode.specs.declared.code.ClassUnit.{ClassUnit};
ghost use Rattle.java_rows.specs.LocalRows.{no_row};
ghost use Rattle.interp_local.specs.declared.step.LocalStep.{LocalStep};
ghost use Rattle.interp_local.specs.Quick.{quicks_of};
ghost use Rattle.interp_local.specs.Runs.{IsLocalRun, IsLocalStep};
ghost use Rattle.interp_local.specs.Steps.{local_now, kind_of, outcome, IsLocal, KeptUnlessMoved};

use crate::constants::Constants;
use crate::execute::execute;
use crate::quick::Quick;
use crate::step::{LocalStep, local_step};
use frame_snapshot::Frames;
use instructions::{Instr, Target};

/// What a run of steps came to.
#[derive(Clone, Copy)]
pub struct LocalRun {
    /// How many steps were made.
    pub steps: u64,
    /// `Moved` where they are as many as were asked for; else why the next one isn't made.
    pub stop: LocalStep,
}

// Whether the instruction needs an operation, or there is none.
#[inline(always)]
fn needs_operation(_steps: &[Instr<Target>], quicks: &[Quick], frames: &Frames) -> bool
    requires { quicks.now ≡ quicks_of _steps.now }
    ensures { (us : List ClassUnit) → result ≡ true → local_now us _steps.now frames.now ≡ no_row }
{
    matches!(quicks.get(frames.step()), None | Some(Quick::Operation))
}

// Makes one step where one look identifies the instruction. Returns whether it was made. `L` names the loop that calls it.
#[inline(always)]
fn quick_step<P: Constants, L>(
    program: &P,
    _steps: &[Instr<Target>],
    quicks: &[Quick],
    frames: &mut Frames,
) -> bool
    requires { quicks.now ≡ quicks_of _steps.now }
    ensures made { result ≡ true → IsLocalStep (P.units program.now) _steps.now frames.old frames.new }
    ensures kept { result ≡ false → frames.new ≡ frames.old }
{
    match quicks.get(frames.step()) {
        Some(quick) => execute::<P, L>(program, *quick, frames),
        None => false,
    }
}

// How many steps are made where the frames are, before they are taken out for more.
const FEW: u64 = 8;

/// Makes steps of instructions that one look identifies, at most `most`, each one as [`local_step`] makes it, and says how many.
/// `quicks` are those of [`crate::make_quicks`]. Takes no memory.
///
/// It is meant for a caller whose frames are nowhere else, so that the place of the top frame stays in registers. `L` is any type
/// that no other caller gives: each caller then has a copy of the loop that the compiler can put into it.
#[inline(always)]
pub fn run_here<P: Constants, L>(
    program: &P,
    steps: &[Instr<Target>],
    quicks: &[Quick],
    frames: &mut Frames,
    most: u64,
) -> u64
    requires { quicks.now ≡ quicks_of steps.now }
    ensures run { IsLocalRun (P.units program.now) steps.now result frames.old frames.new }
    ensures most { result ≤ most }
{
    for made in 0..most {
        if !quick_step::<P, L>(program, steps, quicks, frames) {
            return made;
        }
    }
    most
}

// The loop over frames that stay where they are.
struct InPlace;

// A few steps, where the frames are. Says how many.
#[inline(never)]
fn run_few<P: Constants>(
    program: &P,
    steps: &[Instr<Target>],
    quicks: &[Quick],
    frames: &mut Frames,
    most: u64,
) -> u64
    requires { quicks.now ≡ quicks_of steps.now }
    ensures run { IsLocalRun (P.units program.now) steps.now result frames.old frames.new }
    ensures most { result ≤ most }
{
    run_here::<P, InPlace>(program, steps, quicks, frames, most)
}

// The loop over frames that are taken out.
struct TakenOut;

// Makes steps of instructions that one look identifies. Meanwhile the frames are nowhere else, so the place of the top
// frame stays in registers. Returns how many steps were made.
#[inline(never)]
fn run_many<P: Constants>(
    program: &P,
    steps: &[Instr<Target>],
    quicks: &[Quick],
    mut frames: Frames,
    most: u64,
) -> (Frames, u64)
    requires { quicks.now ≡ quicks_of steps.now }
    ensures run { IsLocalRun (P.units program.now) steps.now result.1 frames result.0 }
    ensures most { result.1 ≤ most }
{
    let made = run_here::<P, TakenOut>(program, steps, quicks, &mut frames, most);
    (frames, made)
}

// The same, of frames that are taken out for the steps: apart, since most runs don't come here.
#[inline(never)]
fn run_taken<P: Constants>(
    program: &P,
    steps: &[Instr<Target>],
    quicks: &[Quick],
    frames: &mut Frames,
    most: u64,
) -> u64
    requires { quicks.now ≡ quicks_of steps.now }
    ensures run { IsLocalRun (P.units program.now) steps.now result frames.old frames.new }
    ensures most { result ≤ most }
{
    let (after, made) = run_many(program, steps, quicks, frames.take(), most);
    *frames = after;
    made
}

// Makes steps of instructions that one look identifies. Most runs are short, so the frames are taken out only after the
// first few steps. Returns how many steps were made.
#[tactic(auto, using(crate::proofs::RunLemmas::runs_join))]
fn run_quick<P: Constants>(
    program: &P,
    steps: &[Instr<Target>],
    quicks: &[Quick],
    frames: &mut Frames,
    most: u64,
) -> u64
    requires { quicks.now ≡ quicks_of steps.now }
    ensures run { IsLocalRun (P.units program.now) steps.now result frames.old frames.new }
    ensures most { result ≤ most }
{
    let few = run_few(program, steps, quicks, frames, most.min(FEW));
    if few == most || needs_operation(steps, quicks, frames) {
        return few;
    }
    few + run_taken(program, steps, quicks, frames, most - few)
}

// The step of any instruction: apart, as the steps of frames that are taken out.
#[inline(never)]
fn step_apart<P: Constants>(program: &P, steps: &[Instr<Target>], frames: &mut Frames) -> LocalStep
    ensures row { local_now (P.units program.now) steps.now frames.old ≡ outcome result frames.new }
    ensures kept { KeptUnlessMoved result frames.old frames.new }
    ensures local { IsLocal frames.old frames.new }
{
    local_step(program, steps, frames)
}

// Makes such steps, and then one more where no look identifies its instruction. `Moved` where there may be more.
#[tactic(auto, using(crate::proofs::RunLemmas::run_of_one, crate::proofs::RunLemmas::stop_is))]
fn run_stretch<P: Constants>(
    program: &P,
    steps: &[Instr<Target>],
    quicks: &[Quick],
    frames: &mut Frames,
    most: u64,
) -> LocalRun
    requires quicks { quicks.now ≡ quicks_of steps.now }
    requires some { 0 < most }
    ensures run { IsLocalRun (P.units program.now) steps.now result.steps frames.old frames.new }
    ensures most { result.steps ≤ most }
    ensures some { result.stop ≡ LocalStep.Moved → 0 < result.steps }
    ensures less { result.stop ≢ LocalStep.Moved → result.steps < most }
    ensures stop { result.stop ≢ LocalStep.Moved → result.stop ≡ kind_of (local_now (P.units program.now) steps.now frames.new) }
{
    let made = run_quick(program, steps, quicks, frames, most);
    if made == most {
        return LocalRun {
            steps: made,
            stop: LocalStep::Moved,
        };
    }
    if needs_operation(steps, quicks, frames) {
        return LocalRun {
            steps: made,
            stop: LocalStep::Other,
        };
    }
    let stop = step_apart(program, steps, frames);
    let steps = if matches!(&stop, LocalStep::Moved) {
        made + 1
    } else {
        made
    };
    LocalRun { steps, stop }
}

/// Makes the steps that come next in the top frame, at most `most`, each one as [`local_step`] makes it, and says why
/// it stopped. `quicks` are those of [`crate::make_quicks`]. Takes no memory.
#[tactic(auto, using(crate::proofs::RunLemmas::runs_join))]
pub fn run_local<P: Constants>(
    program: &P,
    steps: &[Instr<Target>],
    quicks: &[Quick],
    frames: &mut Frames,
    most: u64,
) -> LocalRun
    requires { quicks.now ≡ quicks_of steps.now }
    ensures run { IsLocalRun (P.units program.now) steps.now result.steps frames.old frames.new }
    ensures most { result.steps ≤ most }
    ensures full { (result.stop ≡ LocalStep.Moved) ↔ (result.steps ≡ most) }
    ensures stop { result.steps < most → result.stop ≡ kind_of (local_now (P.units program.now) steps.now frames.new) }
{
    let mut made = 0;
    for _stretch in 0..most {
        if made == most {
            break;
        }
        let run = run_stretch(program, steps, quicks, frames, most - made);
        made += run.steps;
        if !matches!(&run.stop, LocalStep::Moved) {
            return LocalRun {
                steps: made,
                stop: run.stop,
            };
        }
    }
    LocalRun {
        steps: most,
        stop: LocalStep::Moved,
    }
}

/// Makes the next step, exactly as [`local_step`] does, by the loop of [`run_local`]: so a program has that code once.
pub fn run_step<P: Constants>(
    program: &P,
    steps: &[Instr<Target>],
    quicks: &[Quick],
    frames: &mut Frames,
) -> LocalStep
    requires { quicks.now ≡ quicks_of steps.now }
    ensures row { local_now (P.units program.now) steps.now frames.old ≡ outcome result frames.new }
    ensures kept { KeptUnlessMoved result frames.old frames.new }
    ensures local { IsLocal frames.old frames.new }
{
    run_local(program, steps, quicks, frames, 1).stop
}
