//! Whether the next step is one of an instruction that needs no operation, by one look.

ghost use Rattle.std.specs.Prelude.{◌≡◌, true};
ghost use Rattle.java_rows.specs.LocalRows.{int_arithmetic, long_arithmetic};
ghost use Rattle.interp_local.specs.declared.step.LocalStep.{LocalStep};
ghost use Rattle.interp_local.specs.Effects.{row_of, CanApply};
ghost use Rattle.interp_local.specs.Frames.{frame_now};
ghost use Rattle.interp_local.specs.Quick.{branches_if, quick_row, quicks_of};
ghost use Rattle.interp_local.specs.Steps.{kind_of, local_now};

use crate::branches::branch;
use crate::constants::{Constants, push};
use crate::effect::{Effect, Words, leaves};
use crate::locals::{access, increment};
use crate::plain::plain;
use crate::quick::Quick;
use crate::step::LocalStep;
use frame_snapshot::Frames;
use instructions::{
    Arithmetic, Condition, Conversion, Instr, LocalAccess, Plain, Shift, StackOperation, Target,
    Test, ValueKind,
};

// An operation on two ints.
#[inline(always)]
fn ints(frames: &Frames, op: Arithmetic) -> Effect
    ensures row { int_arithmetic (frame_now frames.now) op frames.now.here.stack ≡ row_of (frame_now frames.now) result }
    ensures fits { CanApply frames.now result }
{
    plain(frames, Plain::IntArithmetic(op))
}

// An operation on two longs.
#[inline(always)]
fn longs(frames: &Frames, op: Arithmetic) -> Effect
    ensures row { long_arithmetic (frame_now frames.now) op frames.now.here.stack ≡ row_of (frame_now frames.now) result }
    ensures fits { CanApply frames.now result }
{
    plain(frames, Plain::LongArithmetic(op))
}

// A branch to an instruction of a number.
#[inline(always)]
fn jump(frames: &Frames, test: Test, step: u32) -> Effect
    ensures row { branches_if (frame_now frames.now) test step ≡ row_of (frame_now frames.now) result }
    ensures fits { CanApply frames.now result }
{
    branch(frames, test, Target { at: 0, step })
}

// What the instruction does to the top frame. The compiler leaves out of it what its caller doesn't ask for.
#[inline(always)]
fn quick_effect<P: Constants>(program: &P, quick: Quick, frames: &Frames) -> Effect
    ensures row { quick_row (P.units program.now) (frame_now frames.now) quick ≡ row_of (frame_now frames.now) result }
    ensures fits { CanApply frames.now result }
{
    match quick {
        Quick::Load(local) => access(frames, LocalAccess::Load(ValueKind::Int), local),
        Quick::Store(local) => access(frames, LocalAccess::Store(ValueKind::Int), local),
        Quick::Increment(local, by) => increment(frames, local, by),
        Quick::LoadLong(local) => access(frames, LocalAccess::Load(ValueKind::Long), local),
        Quick::StoreLong(local) => access(frames, LocalAccess::Store(ValueKind::Long), local),
        Quick::Push(word) => leaves(frames, 0, Words::One(word)),
        Quick::Constant(index) => push(frames, program.constant(frames.method().class, index)),
        Quick::Duplicate => plain(frames, Plain::Stack(StackOperation::Dup)),
        Quick::Add => ints(frames, Arithmetic::Add),
        Quick::Subtract => ints(frames, Arithmetic::Subtract),
        Quick::Multiply => ints(frames, Arithmetic::Multiply),
        Quick::Divide => ints(frames, Arithmetic::Divide),
        Quick::Remainder => ints(frames, Arithmetic::Remainder),
        Quick::And => ints(frames, Arithmetic::And),
        Quick::Or => ints(frames, Arithmetic::Or),
        Quick::Xor => ints(frames, Arithmetic::Xor),
        Quick::ShiftLeft => plain(frames, Plain::IntShift(Shift::Left)),
        Quick::ShiftRight => plain(frames, Plain::IntShift(Shift::Right)),
        Quick::ShiftRightUnsigned => plain(frames, Plain::IntShift(Shift::UnsignedRight)),
        Quick::AddLongs => longs(frames, Arithmetic::Add),
        Quick::SubtractLongs => longs(frames, Arithmetic::Subtract),
        Quick::MultiplyLongs => longs(frames, Arithmetic::Multiply),
        Quick::DivideLongs => longs(frames, Arithmetic::Divide),
        Quick::RemainderLongs => longs(frames, Arithmetic::Remainder),
        Quick::AndLongs => longs(frames, Arithmetic::And),
        Quick::OrLongs => longs(frames, Arithmetic::Or),
        Quick::XorLongs => longs(frames, Arithmetic::Xor),
        Quick::ShiftLongLeft => plain(frames, Plain::LongShift(Shift::Left)),
        Quick::ShiftLongRight => plain(frames, Plain::LongShift(Shift::Right)),
        Quick::ShiftLongRightUnsigned => plain(frames, Plain::LongShift(Shift::UnsignedRight)),
        Quick::CompareLongs => plain(frames, Plain::LongCompare),
        Quick::IntToLong => plain(frames, Plain::Convert(Conversion::IntToLong)),
        Quick::LongToInt => plain(frames, Plain::Convert(Conversion::LongToInt)),
        Quick::IfEqual(step) => jump(frames, Test::Zero(Condition::Equal), step),
        Quick::IfNotEqual(step) => jump(frames, Test::Zero(Condition::NotEqual), step),
        Quick::IfLess(step) => jump(frames, Test::Zero(Condition::Less), step),
        Quick::IfGreaterOrEqual(step) => jump(frames, Test::Zero(Condition::GreaterOrEqual), step),
        Quick::IfGreater(step) => jump(frames, Test::Zero(Condition::Greater), step),
        Quick::IfLessOrEqual(step) => jump(frames, Test::Zero(Condition::LessOrEqual), step),
        Quick::IfIntsEqual(step) => jump(frames, Test::Ints(Condition::Equal), step),
        Quick::IfIntsNotEqual(step) => jump(frames, Test::Ints(Condition::NotEqual), step),
        Quick::IfIntsLess(step) => jump(frames, Test::Ints(Condition::Less), step),
        Quick::IfIntsGreaterOrEqual(step) => jump(
            frames,
            Test::Ints(Condition::GreaterOrEqual),
            step,
        ),
        Quick::IfIntsGreater(step) => jump(frames, Test::Ints(Condition::Greater), step),
        Quick::IfIntsLessOrEqual(step) => jump(frames, Test::Ints(Condition::LessOrEqual), step),
        Quick::IfSame(step) => jump(frames, Test::Same, step),
        Quick::IfDifferent(step) => jump(frames, Test::Different, step),
        Quick::IfNull(step) => jump(frames, Test::Null, step),
        Quick::IfNonNull(step) => jump(frames, Test::NonNull, step),
        Quick::Goto(step) => jump(frames, Test::Always, step),
        Quick::Operation | Quick::Other => Effect::Other,
    }
}

// Whether a step that does this moves.
#[inline(always)]
#[tactic(auto, using(crate::proofs::KindLemmas::kind_is))]
fn moves(_frames: &Frames, effect: Effect) -> bool
    requires { CanApply _frames.now effect }
    ensures { result ≡ true → kind_of (row_of (frame_now _frames.now) effect) ≡ LocalStep.Moved }
{
    matches!(effect.kind(), LocalStep::Moved)
}

/// Whether the next step is one of an instruction that one look identifies, and moves: its operands, its local and room are there.
/// Where it is `false`, [`look_ahead`](crate::look_ahead) says what the step would come to. `quicks` are those of
/// [`crate::make_quicks`]. Takes no memory.
pub fn surely_moves<P: Constants>(
    program: &P,
    _steps: &[Instr<Target>],
    quicks: &[Quick],
    frames: &Frames,
) -> bool
    requires { quicks.now ≡ quicks_of _steps.now }
    ensures { result ≡ true → kind_of (local_now (P.units program.now) _steps.now frames.now) ≡ LocalStep.Moved }
{
    match quicks.get(frames.step()) {
        Some(quick) => moves(frames, quick_effect(program, *quick, frames)),
        None => false,
    }
}
