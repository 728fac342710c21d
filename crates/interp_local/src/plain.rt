//! Instructions without operands: the operand stack and numbers (JVMS 2.11.3, 2.11.4, 2.11.6).

ghost use Rattle.std.specs.Prelude.{◌≡◌};
ghost use Rattle.java_rows.specs.LocalRows.{plain_row, stack_row, rearranged, converted, int_arithmetic, long_arithmetic, int_negate, long_negate, int_shift, long_shift, long_compare};
ghost use Rattle.interp_local.specs.Effects.{row_of, CanApply};
ghost use Rattle.interp_local.specs.Frames.{frame_now};

use crate::effect::{Effect, Words, leaves};
use crate::numbers::{
    compare_longs, halves, int_negative, int_result, long, long_negative, long_result, shift_int,
    shift_long, to_byte, to_char, to_long, to_short,
};
use crate::operands::{four, one, three, two};
use builtin_world::number::ARITHMETIC_EXCEPTION;
use frame_snapshot::Frames;
use instructions::{Arithmetic, Conversion, Plain, Shift, StackOperation};

#[inline(always)]
fn rearrange(frames: &Frames, op: StackOperation) -> Effect
    ensures row { stack_row (frame_now frames.now) (rearranged op frames.now.here.stack) ≡ row_of (frame_now frames.now) result }
    ensures fits { CanApply frames.now result }
{
    match op {
        StackOperation::Pop => match one(frames) {
            Some(_) => leaves(frames, 1, Words::None),
            None => Effect::Other,
        },
        StackOperation::Dup => match one(frames) {
            Some(a) => leaves(frames, 1, Words::Two(a, a)),
            None => Effect::Other,
        },
        StackOperation::Pop2 => match two(frames) {
            Some(_) => leaves(frames, 2, Words::None),
            None => Effect::Other,
        },
        StackOperation::DupX1 => match two(frames) {
            Some((a, b)) => leaves(frames, 2, Words::Three(a, b, a)),
            None => Effect::Other,
        },
        StackOperation::Dup2 => match two(frames) {
            Some((a, b)) => leaves(frames, 2, Words::Four(a, b, a, b)),
            None => Effect::Other,
        },
        StackOperation::Swap => match two(frames) {
            Some((a, b)) => leaves(frames, 2, Words::Two(b, a)),
            None => Effect::Other,
        },
        StackOperation::DupX2 => match three(frames) {
            Some((a, b, c)) => leaves(frames, 3, Words::Four(a, b, c, a)),
            None => Effect::Other,
        },
        StackOperation::Dup2X1 => match three(frames) {
            Some((a, b, c)) => leaves(frames, 3, Words::Five(a, b, c, a, b)),
            None => Effect::Other,
        },
        StackOperation::Dup2X2 => match four(frames) {
            Some((a, b, c, d)) => leaves(frames, 4, Words::Six(a, b, c, d, a, b)),
            None => Effect::Other,
        },
    }
}

#[inline(always)]
fn compute_int(frames: &Frames, op: Arithmetic) -> Effect
    ensures row { int_arithmetic (frame_now frames.now) op frames.now.here.stack ≡ row_of (frame_now frames.now) result }
    ensures fits { CanApply frames.now result }
{
    match two(frames) {
        Some((b, a)) => match int_result(op, a, b) {
            Some(word) => leaves(frames, 2, Words::One(word)),
            None => Effect::Throws(ARITHMETIC_EXCEPTION),
        },
        None => Effect::Other,
    }
}

#[inline(always)]
fn compute_long(frames: &Frames, op: Arithmetic) -> Effect
    ensures row { long_arithmetic (frame_now frames.now) op frames.now.here.stack ≡ row_of (frame_now frames.now) result }
    ensures fits { CanApply frames.now result }
{
    match four(frames) {
        Some((d, c, b, a)) => match long_result(op, long(a, b), long(c, d)) {
            Some(number) => leaves(frames, 4, halves(number)),
            None => Effect::Throws(ARITHMETIC_EXCEPTION),
        },
        None => Effect::Other,
    }
}

#[inline(always)]
fn negate_int(frames: &Frames) -> Effect
    ensures row { int_negate (frame_now frames.now) frames.now.here.stack ≡ row_of (frame_now frames.now) result }
    ensures fits { CanApply frames.now result }
{
    match one(frames) {
        Some(a) => leaves(frames, 1, Words::One(int_negative(a))),
        None => Effect::Other,
    }
}

#[inline(always)]
fn negate_long(frames: &Frames) -> Effect
    ensures row { long_negate (frame_now frames.now) frames.now.here.stack ≡ row_of (frame_now frames.now) result }
    ensures fits { CanApply frames.now result }
{
    match two(frames) {
        Some((b, a)) => leaves(frames, 2, halves(long_negative(long(a, b)))),
        None => Effect::Other,
    }
}

#[inline(always)]
fn on_int_shift(frames: &Frames, op: Shift) -> Effect
    ensures row { int_shift (frame_now frames.now) op frames.now.here.stack ≡ row_of (frame_now frames.now) result }
    ensures fits { CanApply frames.now result }
{
    match two(frames) {
        Some((by, a)) => leaves(frames, 2, Words::One(shift_int(op, a, by))),
        None => Effect::Other,
    }
}

#[inline(always)]
fn on_long_shift(frames: &Frames, op: Shift) -> Effect
    ensures row { long_shift (frame_now frames.now) op frames.now.here.stack ≡ row_of (frame_now frames.now) result }
    ensures fits { CanApply frames.now result }
{
    match three(frames) {
        Some((by, b, a)) => leaves(frames, 3, halves(shift_long(op, long(a, b), by))),
        None => Effect::Other,
    }
}

#[inline(always)]
fn on_long_compare(frames: &Frames) -> Effect
    ensures row { long_compare (frame_now frames.now) frames.now.here.stack ≡ row_of (frame_now frames.now) result }
    ensures fits { CanApply frames.now result }
{
    match four(frames) {
        Some((d, c, b, a)) => {
            let word = compare_longs(long(a, b), long(c, d));
            leaves(frames, 4, Words::One(word))
        }
        None => Effect::Other,
    }
}

#[inline(always)]
fn convert(frames: &Frames, conversion: Conversion) -> Effect
    ensures row { stack_row (frame_now frames.now) (converted conversion frames.now.here.stack) ≡ row_of (frame_now frames.now) result }
    ensures fits { CanApply frames.now result }
{
    match conversion {
        Conversion::LongToInt => match two(frames) {
            Some((_, a)) => leaves(frames, 2, Words::One(a)),
            None => Effect::Other,
        },
        Conversion::IntToLong => match one(frames) {
            Some(a) => leaves(frames, 1, halves(to_long(a))),
            None => Effect::Other,
        },
        Conversion::IntToByte => match one(frames) {
            Some(a) => leaves(frames, 1, Words::One(to_byte(a))),
            None => Effect::Other,
        },
        Conversion::IntToChar => match one(frames) {
            Some(a) => leaves(frames, 1, Words::One(to_char(a))),
            None => Effect::Other,
        },
        Conversion::IntToShort => match one(frames) {
            Some(a) => leaves(frames, 1, Words::One(to_short(a))),
            None => Effect::Other,
        },
    }
}

/// An instruction without operands.
#[inline(always)]
pub fn plain(frames: &Frames, op: Plain) -> Effect
    ensures row { plain_row (frame_now frames.now) op frames.now.here.stack ≡ row_of (frame_now frames.now) result }
    ensures fits { CanApply frames.now result }
{
    match op {
        Plain::Nop => leaves(frames, 0, Words::None),
        Plain::Null => leaves(frames, 0, Words::One(0)),
        Plain::Stack(op) => rearrange(frames, op),
        Plain::IntArithmetic(op) => compute_int(frames, op),
        Plain::LongArithmetic(op) => compute_long(frames, op),
        Plain::IntNegate => negate_int(frames),
        Plain::LongNegate => negate_long(frames),
        Plain::IntShift(op) => on_int_shift(frames, op),
        Plain::LongShift(op) => on_long_shift(frames, op),
        Plain::Convert(conversion) => convert(frames, conversion),
        Plain::LongCompare => on_long_compare(frames),
        _ => Effect::Other,
    }
}
