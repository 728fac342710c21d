//! Branches and switches (JVMS 2.11.7).

ghost use Rattle.std.specs.Prelude.{◌≡◌, ◌≤◌, length, drop};
ghost use Rattle.java_rows.specs.LocalRows.{branch_row, table_row, lookup_row, jumps_if};
ghost use Rattle.java_rows.specs.Numbers.{table_target, case_target};
ghost use Rattle.interp_local.specs.Effects.{row_of, CanApply};
ghost use Rattle.interp_local.specs.Frames.{frame_now};

use crate::effect::{Effect, Words};
use crate::numbers::compare;
use crate::operands::{one, two};
use frame_snapshot::Frames;
use instructions::{Case, Target, Test};

#[inline(always)]
fn jump_if(frames: &Frames, taken: usize, target: Target, holds: bool) -> Effect
    requires { taken ≤ length frames.now.here.stack }
    ensures row { jumps_if (frame_now frames.now) target (drop taken frames.now.here.stack) holds ≡ row_of (frame_now frames.now) result }
    ensures fits { CanApply frames.now result }
{
    if holds {
        Effect::Jumps {
            taken,
            step: target.step,
        }
    } else {
        Effect::Leaves {
            taken,
            words: Words::None,
        }
    }
}

/// A branch.
#[inline(always)]
pub fn branch(frames: &Frames, test: Test, target: Target) -> Effect
    ensures row { branch_row (frame_now frames.now) test target frames.now.here.stack ≡ row_of (frame_now frames.now) result }
    ensures fits { CanApply frames.now result }
{
    match test {
        Test::Zero(condition) => match one(frames) {
            Some(a) => jump_if(frames, 1, target, compare(condition, a, 0)),
            None => Effect::Other,
        },
        Test::Null => match one(frames) {
            Some(a) => jump_if(frames, 1, target, a == 0),
            None => Effect::Other,
        },
        Test::NonNull => match one(frames) {
            Some(a) => jump_if(frames, 1, target, a != 0),
            None => Effect::Other,
        },
        Test::Ints(condition) => match two(frames) {
            Some((b, a)) => jump_if(frames, 2, target, compare(condition, a, b)),
            None => Effect::Other,
        },
        Test::Same => match two(frames) {
            Some((b, a)) => jump_if(frames, 2, target, a == b),
            None => Effect::Other,
        },
        Test::Different => match two(frames) {
            Some((b, a)) => jump_if(frames, 2, target, a != b),
            None => Effect::Other,
        },
        Test::Always => Effect::Jumps {
            taken: 0,
            step: target.step,
        },
    }
}

// The target of a tableswitch for a key.
fn table_entry(default: Target, low: i32, targets: &[Target], key: i32) -> Target
    ensures { result ≡ table_target default low targets.now key }
{
    let above = i64::from(key) - i64::from(low);
    if above < 0 {
        return default;
    }
    match targets.get(above as usize) {
        Some(target) => *target,
        None => default,
    }
}

/// A tableswitch.
pub fn table(frames: &Frames, default: Target, low: i32, targets: &[Target]) -> Effect
    ensures row { table_row (frame_now frames.now) default low targets.now frames.now.here.stack ≡ row_of (frame_now frames.now) result }
    ensures fits { CanApply frames.now result }
{
    match one(frames) {
        Some(a) => Effect::Jumps {
            taken: 1,
            step: table_entry(default, low, targets, a.cast_signed()).step,
        },
        None => Effect::Other,
    }
}

// The target of a lookupswitch for the word of a key.
fn case_entry(default: Target, cases: &[Case<Target>], word: u32) -> Target
    ensures { result ≡ case_target default cases.now word }
{
    match cases.iter().find(|case| case.key.cast_unsigned() == word) {
        Some(case) => case.target,
        None => default,
    }
}

/// A lookupswitch.
pub fn lookup(frames: &Frames, default: Target, cases: &[Case<Target>]) -> Effect
    ensures row { lookup_row (frame_now frames.now) default cases.now frames.now.here.stack ≡ row_of (frame_now frames.now) result }
    ensures fits { CanApply frames.now result }
{
    match one(frames) {
        Some(a) => Effect::Jumps {
            taken: 1,
            step: case_entry(default, cases, a).step,
        },
        None => Effect::Other,
    }
}
