//! Executes one instruction that one look identifies, in the top frame.

ghost use Rattle.std.specs.Prelude.{◌≡◌, true, false, ◌≤◌, ◌<◌, ◌+◌, ◌++◌, ◌^◌, length, drop, slice_get};
ghost use Rattle.instructions.specs.declared.operation.Test.{Test as tests};
ghost use Rattle.java_rows.specs.LocalRows.{moves, leaving, loaded, stored, incremented, int_arithmetic, int_shift, jumps_if};
ghost use Rattle.interp_local.specs.Effects.{words_of};
ghost use Rattle.interp_local.specs.Frames.{frame_now};
ghost use Rattle.interp_local.specs.Quick.{quick_row, branches_if};
ghost use Rattle.interp_local.specs.Steps.{IsLocal};

use crate::apply::replace;
use crate::constants::Constants;
use crate::effect::Words;
use crate::execute_others::{
    branch_null, branch_same, compare_long, compute_long, duplicate, load_long, narrow,
    push_constant, shift_long, store_long, widen,
};
use crate::numbers::{compare, int_result, shift_int};
use crate::operands::{one, two};
use crate::quick::Quick;
use frame_snapshot::Frames;
use instructions::{Arithmetic, Condition, Shift};

/// `taken` words are taken off the stack, and `words` are pushed, if there is room.
#[inline(always)]
pub fn leave(frames: &mut Frames, taken: usize, words: Words) -> bool
    requires words { taken ≤ length frames.old.here.stack }
    requires step { frames.old.here.step + 1 < 2 ^ 64 }
    ensures row { result ≡ true → leaving (frame_now frames.old) (words_of words ++ drop taken frames.old.here.stack) ≡ moves (frame_now frames.new) }
    ensures kept { result ≡ false → frames.new ≡ frames.old }
    ensures local { IsLocal frames.old frames.new }
{
    let count = words.len();
    if count <= taken || frames.has_room(count - taken) {
        replace(frames, taken, words);
        true
    } else {
        false
    }
}

#[inline(always)]
fn load(frames: &mut Frames, local: usize) -> bool
    requires { frames.old.here.step + 1 < 2 ^ 64 }
    ensures row { result ≡ true → loaded (frame_now frames.old) frames.old.here.stack (slice_get frames.old.here.locals local) ≡ moves (frame_now frames.new) }
    ensures kept { result ≡ false → frames.new ≡ frames.old }
    ensures local { IsLocal frames.old frames.new }
{
    if !frames.has_local(local) {
        return false;
    }
    let word = frames.local(local);
    leave(frames, 0, Words::One(word))
}

#[inline(always)]
fn store(frames: &mut Frames, local: usize) -> bool
    requires { frames.old.here.step + 1 < 2 ^ 64 }
    ensures row { result ≡ true → stored (frame_now frames.old) local frames.old.here.stack ≡ moves (frame_now frames.new) }
    ensures kept { result ≡ false → frames.new ≡ frames.old }
    ensures local { IsLocal frames.old frames.new }
{
    match one(frames) {
        Some(word) if frames.has_local(local) => {
            frames.set_local(local, word);
            replace(frames, 1, Words::None);
            true
        }
        _ => false,
    }
}

#[inline(always)]
fn increment(frames: &mut Frames, local: usize, by: i16) -> bool
    requires { frames.old.here.step + 1 < 2 ^ 64 }
    ensures row { result ≡ true → incremented (frame_now frames.old) local by frames.old.here.stack (slice_get frames.old.here.locals local) ≡ moves (frame_now frames.new) }
    ensures kept { result ≡ false → frames.new ≡ frames.old }
    ensures local { IsLocal frames.old frames.new }
{
    if !frames.has_local(local) {
        return false;
    }
    let sum = frames
        .local(local)
        .cast_signed()
        .wrapping_add(i32::from(by));
    frames.set_local(local, sum.cast_unsigned());
    replace(frames, 0, Words::None);
    true
}

#[inline(always)]
fn compute(frames: &mut Frames, op: Arithmetic) -> bool
    requires { frames.old.here.step + 1 < 2 ^ 64 }
    ensures row { result ≡ true → int_arithmetic (frame_now frames.old) op frames.old.here.stack ≡ moves (frame_now frames.new) }
    ensures kept { result ≡ false → frames.new ≡ frames.old }
    ensures local { IsLocal frames.old frames.new }
{
    match two(frames) {
        Some((b, a)) => match int_result(op, a, b) {
            Some(word) => leave(frames, 2, Words::One(word)),
            None => false,
        },
        None => false,
    }
}

#[inline(always)]
fn shift(frames: &mut Frames, op: Shift) -> bool
    requires { frames.old.here.step + 1 < 2 ^ 64 }
    ensures row { result ≡ true → int_shift (frame_now frames.old) op frames.old.here.stack ≡ moves (frame_now frames.new) }
    ensures kept { result ≡ false → frames.new ≡ frames.old }
    ensures local { IsLocal frames.old frames.new }
{
    match two(frames) {
        Some((by, a)) => leave(frames, 2, Words::One(shift_int(op, a, by))),
        None => false,
    }
}

/// `taken` words are taken off the stack, and a branch is taken or not.
#[inline(always)]
pub fn jump_if(frames: &mut Frames, taken: usize, step: u32, holds: bool) -> bool
    requires words { taken ≤ length frames.old.here.stack }
    requires step { frames.old.here.step + 1 < 2 ^ 64 }
    ensures row { result ≡ true → jumps_if (frame_now frames.old) (record { at = 0; step = step }) (drop taken frames.old.here.stack) holds ≡ moves (frame_now frames.new) }
    ensures kept { result ≡ false → frames.new ≡ frames.old }
    ensures local { IsLocal frames.old frames.new }
{
    if holds {
        frames.drop_words(taken);
        frames.set_step(step as usize);
    } else {
        replace(frames, taken, Words::None);
    }
    true
}

#[inline(always)]
fn branch(frames: &mut Frames, condition: Condition, step: u32) -> bool
    requires { frames.old.here.step + 1 < 2 ^ 64 }
    ensures row { result ≡ true → branches_if (frame_now frames.old) (tests.Zero condition) step ≡ moves (frame_now frames.new) }
    ensures kept { result ≡ false → frames.new ≡ frames.old }
    ensures local { IsLocal frames.old frames.new }
{
    match one(frames) {
        Some(a) => jump_if(frames, 1, step, compare(condition, a, 0)),
        None => false,
    }
}

#[inline(always)]
fn branch_ints(frames: &mut Frames, condition: Condition, step: u32) -> bool
    requires { frames.old.here.step + 1 < 2 ^ 64 }
    ensures row { result ≡ true → branches_if (frame_now frames.old) (tests.Ints condition) step ≡ moves (frame_now frames.new) }
    ensures kept { result ≡ false → frames.new ≡ frames.old }
    ensures local { IsLocal frames.old frames.new }
{
    match two(frames) {
        Some((b, a)) => jump_if(frames, 2, step, compare(condition, a, b)),
        None => false,
    }
}

/// Executes an instruction in the top frame, and returns whether it did. It doesn't where one look doesn't identify the
/// instruction, where an operand, a local or room is missing, and where a divisor is zero; then nothing is changed.
///
/// `L` names the loop that calls it and is not used otherwise. The compiler puts a function as large as this one into its caller
/// only if it has no other caller, so each loop has a copy of its own.
#[inline(always)]
pub fn execute<P: Constants, L>(program: &P, quick: Quick, frames: &mut Frames) -> bool
    requires { frames.old.here.step + 1 < 2 ^ 64 }
    ensures row { result ≡ true → quick_row (P.units program.now) (frame_now frames.old) quick ≡ moves (frame_now frames.new) }
    ensures kept { result ≡ false → frames.new ≡ frames.old }
    ensures local { IsLocal frames.old frames.new }
{
    match quick {
        Quick::Load(local) => load(frames, usize::from(local)),
        Quick::Store(local) => store(frames, usize::from(local)),
        Quick::Increment(local, by) => increment(frames, usize::from(local), by),
        Quick::LoadLong(local) => load_long(frames, usize::from(local)),
        Quick::StoreLong(local) => store_long(frames, usize::from(local)),
        Quick::Push(word) => leave(frames, 0, Words::One(word)),
        Quick::Constant(index) => {
            let constant = program.constant(frames.method().class, index);
            push_constant(frames, constant)
        }
        Quick::Duplicate => duplicate(frames),
        Quick::Add => compute(frames, Arithmetic::Add),
        Quick::Subtract => compute(frames, Arithmetic::Subtract),
        Quick::Multiply => compute(frames, Arithmetic::Multiply),
        Quick::Divide => compute(frames, Arithmetic::Divide),
        Quick::Remainder => compute(frames, Arithmetic::Remainder),
        Quick::And => compute(frames, Arithmetic::And),
        Quick::Or => compute(frames, Arithmetic::Or),
        Quick::Xor => compute(frames, Arithmetic::Xor),
        Quick::ShiftLeft => shift(frames, Shift::Left),
        Quick::ShiftRight => shift(frames, Shift::Right),
        Quick::ShiftRightUnsigned => shift(frames, Shift::UnsignedRight),
        Quick::AddLongs => compute_long(frames, Arithmetic::Add),
        Quick::SubtractLongs => compute_long(frames, Arithmetic::Subtract),
        Quick::MultiplyLongs => compute_long(frames, Arithmetic::Multiply),
        Quick::DivideLongs => compute_long(frames, Arithmetic::Divide),
        Quick::RemainderLongs => compute_long(frames, Arithmetic::Remainder),
        Quick::AndLongs => compute_long(frames, Arithmetic::And),
        Quick::OrLongs => compute_long(frames, Arithmetic::Or),
        Quick::XorLongs => compute_long(frames, Arithmetic::Xor),
        Quick::ShiftLongLeft => shift_long(frames, Shift::Left),
        Quick::ShiftLongRight => shift_long(frames, Shift::Right),
        Quick::ShiftLongRightUnsigned => shift_long(frames, Shift::UnsignedRight),
        Quick::CompareLongs => compare_long(frames),
        Quick::IntToLong => widen(frames),
        Quick::LongToInt => narrow(frames),
        Quick::IfEqual(step) => branch(frames, Condition::Equal, step),
        Quick::IfNotEqual(step) => branch(frames, Condition::NotEqual, step),
        Quick::IfLess(step) => branch(frames, Condition::Less, step),
        Quick::IfGreaterOrEqual(step) => branch(frames, Condition::GreaterOrEqual, step),
        Quick::IfGreater(step) => branch(frames, Condition::Greater, step),
        Quick::IfLessOrEqual(step) => branch(frames, Condition::LessOrEqual, step),
        Quick::IfIntsEqual(step) => branch_ints(frames, Condition::Equal, step),
        Quick::IfIntsNotEqual(step) => branch_ints(frames, Condition::NotEqual, step),
        Quick::IfIntsLess(step) => branch_ints(frames, Condition::Less, step),
        Quick::IfIntsGreaterOrEqual(step) => branch_ints(frames, Condition::GreaterOrEqual, step),
        Quick::IfIntsGreater(step) => branch_ints(frames, Condition::Greater, step),
        Quick::IfIntsLessOrEqual(step) => branch_ints(frames, Condition::LessOrEqual, step),
        Quick::IfSame(step) => branch_same(frames, step, true),
        Quick::IfDifferent(step) => branch_same(frames, step, false),
        Quick::IfNull(step) => branch_null(frames, step, true),
        Quick::IfNonNull(step) => branch_null(frames, step, false),
        Quick::Goto(step) => jump_if(frames, 0, step, true),
        Quick::Operation | Quick::Other => false,
    }
}
