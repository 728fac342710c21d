//! Running a method that takes no arguments and calls nothing.

ghost use Rattle.std.specs.Prelude.{◌≡◌};
ghost use Rattle.interp_local.specs.Quick.{quicks_of};

use code_decode::{Code, Instr, Plain, Target, ValueKind, What};
use frame_snapshot::{Caller, FrameStage, Frames, NewFrame, PushRefusal};
use interp_local::{Constant, Constants, LocalStep, Quick, make_quicks, run_local};
use link_types::MethodId;
use std::alloc::{AllocError, Global};

/// How many instructions are executed in one call at most, so few that most methods take many calls.
const MOST_AT_ONCE: u64 = 5;

/// How many calls are made for a method at most.
const MOST_CALLS: usize = 200_000;

const METHOD: MethodId = MethodId {
    class: 29,
    method: 0,
};

/// A program without constants.
struct NoConstants;

impl Constants for NoConstants {
    ghost use Rattle.std.specs.Prelude.{[]};

    ghost units = { λ _. [] };

    fn constant(&self, _class: u32, _index: u16) -> Option<Constant> {
        None
    }
}

/// What came of a method.
#[derive(Clone, Copy)]
pub enum Answer {
    Nothing,
    Int(i32),
    Long(i64),
    Reference(u32),
    /// An exception of this class.
    Thrown(u32),
    /// It doesn't go on at this instruction.
    Stopped(usize),
    /// It executed the most instructions that it may.
    Endless,
}

/// The answer of a frame that is at a return of a value.
fn returned(frames: &Frames, kind: ValueKind) -> Option<Answer> {
    match kind {
        ValueKind::Int if frames.has(1) => Some(Answer::Int(frames.word(0).cast_signed())),
        ValueKind::Reference if frames.has(1) => Some(Answer::Reference(frames.word(0))),
        ValueKind::Long if frames.has(2) => {
            let number = u64::from(frames.word(0)) << 32 | u64::from(frames.word(1));
            Some(Answer::Long(number.cast_signed()))
        }
        _ => None,
    }
}

/// The answer of a frame that doesn't go on.
fn stopped(steps: &[Instr<Target>], frames: &Frames) -> Answer {
    let step = frames.step();
    let answer = match steps.get(step) {
        Some(instruction) => match instruction.what {
            What::Plain(Plain::Return(Some(kind))) => returned(frames, kind),
            What::Plain(Plain::Return(None)) => Some(Answer::Nothing),
            _ => None,
        },
        None => None,
    };
    answer.unwrap_or(Answer::Stopped(step))
}

fn run_steps(steps: &[Instr<Target>], quicks: &[Quick], frames: &mut Frames) -> Answer
    requires { quicks.now ≡ quicks_of steps.now }
{
    for _ in 0..MOST_CALLS {
        match run_local(&NoConstants, steps, quicks, frames, MOST_AT_ONCE).stop {
            LocalStep::Moved => {}
            LocalStep::Throw(class) => return Answer::Thrown(class),
            LocalStep::Other => return stopped(steps, frames),
        }
    }
    Answer::Endless
}

/// Runs a method up to its return.
pub fn run_method(alloc: Global, code: &Code) -> Result<Answer, AllocError> {
    let mut frames = Frames::launch(alloc, METHOD, FrameStage::Begun, 2)?;
    let call = NewFrame {
        method: METHOD,
        monitor: 0,
        arguments: 0,
        max_locals: code.max_locals,
        max_stack: code.max_stack,
        caller: FrameStage::Calls(Caller::Launch),
    };
    let steps = code.steps.as_slice();
    let quicks = make_quicks(alloc, steps)?;
    match frames.push(call) {
        Ok(()) => Ok(run_steps(steps, &quicks, &mut frames)),
        Err(PushRefusal::Full) => Ok(Answer::Stopped(0)),
        Err(PushRefusal::NoMemory) => Err(AllocError),
    }
}
