//! Executes instructions on longs, references and constants that one look identifies, in the top frame.

ghost use Rattle.std.specs.Prelude.{◌≡◌, true, false, ◌+◌, ◌<◌, ◌^◌, suc, slice_get, if◌then◌else◌};
ghost use Rattle.std.specs.Option.{option_map};
ghost use Rattle.instructions.specs.declared.operation.Conversion.TheVariants as conversions;
ghost use Rattle.instructions.specs.declared.operation.StackOperation.TheVariants as stack_operations;
ghost use Rattle.instructions.specs.declared.operation.Test.TheVariants as tests;
ghost use Rattle.java_rows.specs.LocalRows.{moves, pushed, long_loaded, long_stored, stack_row, rearranged, converted, long_arithmetic, long_shift, long_compare};
ghost use Rattle.interp_local.specs.Effects.{constant_words};
ghost use Rattle.interp_local.specs.Frames.{frame_now};
ghost use Rattle.interp_local.specs.Quick.{branches_if};
ghost use Rattle.interp_local.specs.Steps.{IsLocal};

use crate::apply::replace;
use crate::constants::Constant;
use crate::effect::Words;
use crate::execute::{jump_if, leave};
use crate::numbers::{self, compare_longs, halves, long, long_result, to_long};
use crate::operands::{four, one, three, two};
use frame_snapshot::Frames;
use instructions::{Arithmetic, Shift};

/// A load of a long.
#[inline(always)]
pub fn load_long(frames: &mut Frames, local: usize) -> bool
    requires local { local < 2 ^ 16 }
    requires step { frames.old.here.step + 1 < 2 ^ 64 }
    ensures row { result ≡ true → long_loaded (frame_now frames.old) frames.old.here.stack (slice_get frames.old.here.locals local) (slice_get frames.old.here.locals (suc local)) ≡ moves (frame_now frames.new) }
    ensures kept { result ≡ false → frames.new ≡ frames.old }
    ensures local { IsLocal frames.old frames.new }
{
    if !frames.has_local(local + 1) {
        return false;
    }
    let (low, high) = (frames.local(local), frames.local(local + 1));
    leave(frames, 0, Words::Two(high, low))
}

/// A store of a long.
#[inline(always)]
pub fn store_long(frames: &mut Frames, local: usize) -> bool
    requires local { local < 2 ^ 16 }
    requires step { frames.old.here.step + 1 < 2 ^ 64 }
    ensures row { result ≡ true → long_stored (frame_now frames.old) local frames.old.here.stack ≡ moves (frame_now frames.new) }
    ensures kept { result ≡ false → frames.new ≡ frames.old }
    ensures local { IsLocal frames.old frames.new }
{
    match two(frames) {
        Some((high, low)) if frames.has_local(local + 1) => {
            frames.set_local(local, low);
            frames.set_local(local + 1, high);
            replace(frames, 2, Words::None);
            true
        }
        _ => false,
    }
}

/// The constant is pushed, if there is one.
#[inline(always)]
pub fn push_constant(frames: &mut Frames, constant: Option<Constant>) -> bool
    requires { frames.old.here.step + 1 < 2 ^ 64 }
    ensures row { result ≡ true → pushed (frame_now frames.old) frames.old.here.stack (option_map constant_words constant) ≡ moves (frame_now frames.new) }
    ensures kept { result ≡ false → frames.new ≡ frames.old }
    ensures local { IsLocal frames.old frames.new }
{
    match constant {
        Some(Constant::Word(word)) => leave(frames, 0, Words::One(word)),
        Some(Constant::Long(number)) => leave(frames, 0, halves(number)),
        None => false,
    }
}

/// dup.
#[inline(always)]
pub fn duplicate(frames: &mut Frames) -> bool
    requires { frames.old.here.step + 1 < 2 ^ 64 }
    ensures row { result ≡ true → stack_row (frame_now frames.old) (rearranged stack_operations.Dup frames.old.here.stack) ≡ moves (frame_now frames.new) }
    ensures kept { result ≡ false → frames.new ≡ frames.old }
    ensures local { IsLocal frames.old frames.new }
{
    match one(frames) {
        Some(a) => leave(frames, 1, Words::Two(a, a)),
        None => false,
    }
}

/// Arithmetic of longs.
#[inline(always)]
pub fn compute_long(frames: &mut Frames, op: Arithmetic) -> bool
    requires { frames.old.here.step + 1 < 2 ^ 64 }
    ensures row { result ≡ true → long_arithmetic (frame_now frames.old) op frames.old.here.stack ≡ moves (frame_now frames.new) }
    ensures kept { result ≡ false → frames.new ≡ frames.old }
    ensures local { IsLocal frames.old frames.new }
{
    match four(frames) {
        Some((d, c, b, a)) => match long_result(op, long(a, b), long(c, d)) {
            Some(number) => leave(frames, 4, halves(number)),
            None => false,
        },
        None => false,
    }
}

/// A shift of a long.
#[inline(always)]
pub fn shift_long(frames: &mut Frames, op: Shift) -> bool
    requires { frames.old.here.step + 1 < 2 ^ 64 }
    ensures row { result ≡ true → long_shift (frame_now frames.old) op frames.old.here.stack ≡ moves (frame_now frames.new) }
    ensures kept { result ≡ false → frames.new ≡ frames.old }
    ensures local { IsLocal frames.old frames.new }
{
    match three(frames) {
        Some((by, b, a)) => leave(frames, 3, halves(numbers::shift_long(op, long(a, b), by))),
        None => false,
    }
}

/// lcmp.
#[inline(always)]
pub fn compare_long(frames: &mut Frames) -> bool
    requires { frames.old.here.step + 1 < 2 ^ 64 }
    ensures row { result ≡ true → long_compare (frame_now frames.old) frames.old.here.stack ≡ moves (frame_now frames.new) }
    ensures kept { result ≡ false → frames.new ≡ frames.old }
    ensures local { IsLocal frames.old frames.new }
{
    match four(frames) {
        Some((d, c, b, a)) => {
            let word = compare_longs(long(a, b), long(c, d));
            leave(frames, 4, Words::One(word))
        }
        None => false,
    }
}

/// i2l.
#[inline(always)]
pub fn widen(frames: &mut Frames) -> bool
    requires { frames.old.here.step + 1 < 2 ^ 64 }
    ensures row { result ≡ true → stack_row (frame_now frames.old) (converted conversions.IntToLong frames.old.here.stack) ≡ moves (frame_now frames.new) }
    ensures kept { result ≡ false → frames.new ≡ frames.old }
    ensures local { IsLocal frames.old frames.new }
{
    match one(frames) {
        Some(a) => leave(frames, 1, halves(to_long(a))),
        None => false,
    }
}

/// l2i.
#[inline(always)]
pub fn narrow(frames: &mut Frames) -> bool
    requires { frames.old.here.step + 1 < 2 ^ 64 }
    ensures row { result ≡ true → stack_row (frame_now frames.old) (converted conversions.LongToInt frames.old.here.stack) ≡ moves (frame_now frames.new) }
    ensures kept { result ≡ false → frames.new ≡ frames.old }
    ensures local { IsLocal frames.old frames.new }
{
    match two(frames) {
        Some((_, a)) => leave(frames, 2, Words::One(a)),
        None => false,
    }
}

/// A branch on two references: where they are the same, or where they differ.
#[inline(always)]
pub fn branch_same(frames: &mut Frames, step: u32, same: bool) -> bool
    requires { frames.old.here.step + 1 < 2 ^ 64 }
    ensures row { result ≡ true → branches_if (frame_now frames.old) (if same then tests.Same else tests.Different) step ≡ moves (frame_now frames.new) }
    ensures kept { result ≡ false → frames.new ≡ frames.old }
    ensures local { IsLocal frames.old frames.new }
{
    match two(frames) {
        Some((b, a)) => jump_if(frames, 2, step, (a == b) == same),
        None => false,
    }
}

/// A branch on a reference: where it is null, or where it is not.
#[inline(always)]
pub fn branch_null(frames: &mut Frames, step: u32, null: bool) -> bool
    requires { frames.old.here.step + 1 < 2 ^ 64 }
    ensures row { result ≡ true → branches_if (frame_now frames.old) (if null then tests.Null else tests.NonNull) step ≡ moves (frame_now frames.new) }
    ensures kept { result ≡ false → frames.new ≡ frames.old }
    ensures local { IsLocal frames.old frames.new }
{
    match one(frames) {
        Some(a) => jump_if(frames, 1, step, (a == 0) == null),
        None => false,
    }
}
