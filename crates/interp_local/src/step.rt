//! One step.

ghost use Rattle.std.specs.Prelude.{◌≡◌};
ghost use Rattle.java_rows.specs.LocalRows.{local_row};
ghost use Rattle.interp_local.specs.Steps.{local_now, outcome, kind_of, IsLocal, KeptUnlessMoved};
ghost use Rattle.interp_local.specs.Frames.{frame_now};
ghost use Rattle.interp_local.specs.Effects.{row_of, CanApply};

use crate::apply::apply;
use crate::branches::{branch, lookup, table};
use crate::constants::{Constants, push};
use crate::effect::{Effect, Words, leaves};
use crate::locals::{access, increment};
use crate::numbers::halves;
use crate::plain::plain;
use frame_snapshot::Frames;
use instructions::{Instr, Target, What};

/// What became of an instruction.
#[derive(Clone, Copy)]
pub enum LocalStep {
    /// It was executed, by one silent step.
    Moved,
    /// It throws a new exception of this class; nothing was changed.
    Throw(u32),
    /// It needs an operation, or an operand, a local or room is missing; nothing was changed.
    Other,
}

// What an instruction does to the top frame.
#[inline(always)]
fn effect<P: Constants>(program: &P, what: &What<Target>, frames: &Frames) -> Effect
    ensures row { local_row (P.units program.now) (frame_now frames.now) what.now frames.now.here.stack ≡ row_of (frame_now frames.now) result }
    ensures fits { CanApply frames.now result }
{
    match what {
        What::Plain(op) => plain(frames, *op),
        What::Int(number) => leaves(frames, 0, Words::One(number.cast_unsigned())),
        What::Long(number) => leaves(frames, 0, halves(number.cast_unsigned())),
        What::Constant(index) | What::LongConstant(index) => {
            push(frames, program.constant(frames.method().class, *index))
        }
        What::Local(kind, local) => access(frames, *kind, *local),
        What::Increment { local, by } => increment(frames, *local, *by),
        What::Branch(test, target) => branch(frames, *test, *target),
        What::TableSwitch {
            default,
            low,
            targets,
        } => table(frames, *default, *low, targets.as_slice()),
        What::LookupSwitch { default, cases } => lookup(frames, *default, cases.as_slice()),
        _ => Effect::Other,
    }
}

/// Executes the top frame's instruction, the one of its number among `steps`, where it needs no operation: exactly as
/// its row in `java_rows` says. `Throw` comes exactly for a zero divisor. Nothing but the top frame is changed, and
/// nothing at all where the answer isn't `Moved`. Takes no memory.
#[inline(always)]
pub fn local_step<P: Constants>(
    program: &P,
    steps: &[Instr<Target>],
    frames: &mut Frames,
) -> LocalStep
    ensures row { local_now (P.units program.now) steps.now frames.old ≡ outcome result frames.new }
    ensures kept { KeptUnlessMoved result frames.old frames.new }
    ensures local { IsLocal frames.old frames.new }
{
    match steps.get(frames.step()) {
        Some(instruction) => {
            let effect = effect(program, &instruction.what, frames);
            apply(frames, effect)
        }
        None => LocalStep::Other,
    }
}

/// What [`local_step`] would answer. Nothing is changed, and no memory is taken.
pub fn look_ahead<P: Constants>(program: &P, steps: &[Instr<Target>], frames: &Frames) -> LocalStep
    ensures { result ≡ kind_of (local_now (P.units program.now) steps.now frames.now) }
{
    match steps.get(frames.step()) {
        Some(instruction) => effect(program, &instruction.what, frames).kind(),
        None => LocalStep::Other,
    }
}
