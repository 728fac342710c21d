//! Local variables (JVMS 2.11.2).

ghost use Rattle.std.specs.Prelude.{◌≡◌, ◌<◌, ◌^◌, suc, slice_get};
ghost use Rattle.java_rows.specs.LocalRows.{local_access, incremented, loaded, long_loaded, stored, long_stored};
ghost use Rattle.interp_local.specs.Effects.{row_of, CanApply};
ghost use Rattle.interp_local.specs.Frames.{frame_now};

use crate::effect::{Effect, Words, leaves};
use crate::operands::{one, two};
use frame_snapshot::Frames;
use instructions::{LocalAccess, ValueKind};

#[inline(always)]
fn load(frames: &Frames, local: usize) -> Effect
    ensures row { loaded (frame_now frames.now) frames.now.here.stack (slice_get frames.now.here.locals local) ≡ row_of (frame_now frames.now) result }
    ensures fits { CanApply frames.now result }
{
    if !frames.has_local(local) {
        return Effect::Other;
    }
    leaves(frames, 0, Words::One(frames.local(local)))
}

#[inline(always)]
fn load_long(frames: &Frames, local: usize) -> Effect
    requires { local < 2 ^ 16 }
    ensures row { long_loaded (frame_now frames.now) frames.now.here.stack (slice_get frames.now.here.locals local) (slice_get frames.now.here.locals (suc local)) ≡ row_of (frame_now frames.now) result }
    ensures fits { CanApply frames.now result }
{
    if !frames.has_local(local + 1) {
        return Effect::Other;
    }
    leaves(
        frames,
        0,
        Words::Two(frames.local(local + 1), frames.local(local)),
    )
}

#[inline(always)]
fn store(frames: &Frames, local: usize) -> Effect
    ensures row { stored (frame_now frames.now) local frames.now.here.stack ≡ row_of (frame_now frames.now) result }
    ensures fits { CanApply frames.now result }
{
    match one(frames) {
        Some(word) if frames.has_local(local) => Effect::Stores {
            taken: 1,
            local,
            word,
        },
        _ => Effect::Other,
    }
}

#[inline(always)]
fn store_long(frames: &Frames, local: u16) -> Effect
    ensures row { long_stored (frame_now frames.now) local frames.now.here.stack ≡ row_of (frame_now frames.now) result }
    ensures fits { CanApply frames.now result }
{
    match two(frames) {
        Some((high, low)) if frames.has_local(usize::from(local) + 1) => {
            Effect::StoresLong { local, low, high }
        }
        _ => Effect::Other,
    }
}

/// A load or a store.
#[inline(always)]
pub fn access(frames: &Frames, access: LocalAccess, local: u16) -> Effect
    ensures row { local_access (frame_now frames.now) access local frames.now.here.stack ≡ row_of (frame_now frames.now) result }
    ensures fits { CanApply frames.now result }
{
    let place = usize::from(local);
    match access {
        LocalAccess::Load(ValueKind::Long) => load_long(frames, place),
        LocalAccess::Load(_) => load(frames, place),
        LocalAccess::Store(ValueKind::Long) => store_long(frames, local),
        LocalAccess::Store(_) => store(frames, place),
    }
}

/// iinc.
#[inline(always)]
pub fn increment(frames: &Frames, local: u16, by: i16) -> Effect
    ensures row { incremented (frame_now frames.now) local by frames.now.here.stack (slice_get frames.now.here.locals local) ≡ row_of (frame_now frames.now) result }
    ensures fits { CanApply frames.now result }
{
    let local = usize::from(local);
    if !frames.has_local(local) {
        return Effect::Other;
    }
    let sum = frames
        .local(local)
        .cast_signed()
        .wrapping_add(i32::from(by));
    Effect::Stores {
        taken: 0,
        local,
        word: sum.cast_unsigned(),
    }
}
