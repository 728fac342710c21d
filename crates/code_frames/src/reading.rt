//! The StackMapTable of a method (JVMS 4.7.4).

ghost use Rattle.std.specs.Prelude.{◌≡◌, ℕ, ◌+◌, ◌<◌, ◌^◌, List, [], length, Ok, Err, IfOk, IfErr};
ghost use Rattle.code_frames.specs.declared.types.MapFrame.{MapFrame};
ghost use Rattle.code_frames.specs.StackMap.{IsStackMap, IsFirstBadFrame, Refuses, IsUnlessNoMemory};
ghost use Rattle.class_walk.specs.Layout.{IsBytes};
ghost use Rattle.code_frames.specs.Reading.{Gives, GivesExactly, previous_of, delta_at, content_at, frame_at, GivesFrames, Answers};

use crate::cursor::Cursor;
use crate::form::FrameForm;
use crate::frames::Frames;
use crate::item::{item, items, items_table};
use crate::refusal::{Fault, FrameRefusal};
use crate::types::{LocalsChange, MapFrame, VType};
use class_walk::Constant;
use instructions::Steps;
use rows::Rows;
use std::alloc::Global;

/// The distance from the frame before, which a kind below 128 has in itself.
#[tactic(auto, unfolding(crate::specs::Reading::delta_at))]
fn delta(kind: u8, cursor: &mut Cursor<'_>) -> Result<u16, Fault>
    ensures { GivesExactly result cursor.new (delta_at kind cursor.old) }
{
    match kind {
        0..64 => Ok(u16::from(kind)),
        64..128 => Ok(u16::from(kind - 64)),
        _ => cursor.u16(),
    }
}

/// The locals and the stack of a frame of this form. There are `locals` locals before it.
#[tactic(auto, unfolding(crate::specs::Reading::content_at))]
fn content(
    alloc: Global,
    pool: &[Constant],
    steps: &Steps,
    locals: u32,
    form: FrameForm,
    cursor: &mut Cursor<'_>,
) -> Result<(LocalsChange, Rows<VType>), Fault>
    ensures { Gives result cursor.new (content_at pool.now steps.now locals form cursor.old) }
{
    let mut stack = Rows::new(alloc);
    match form {
        FrameForm::Same => Ok((LocalsChange::Same, stack)),
        FrameForm::OneItem => {
            stack.push(item(pool, steps, cursor)?)?;
            Ok((LocalsChange::Same, stack))
        }
        FrameForm::Chop(count) => {
            if u32::from(count) > locals {
                return Err(Fault::Malformed);
            }
            Ok((LocalsChange::Chop(count), stack))
        }
        FrameForm::Append(count) => {
            let added = items(alloc, pool, steps, u16::from(count), cursor)?;
            Ok((LocalsChange::Append(added), stack))
        }
        FrameForm::Full => {
            let locals = items_table(alloc, pool, steps, cursor)?;
            let stack = items_table(alloc, pool, steps, cursor)?;
            Ok((LocalsChange::Full(locals), stack))
        }
    }
}

/// The next frame, whose offset is `least` or above. There are `locals` locals before it.
#[tactic(auto, unfolding(crate::specs::Reading::frame_at))]
fn frame(
    alloc: Global,
    pool: &[Constant],
    steps: &Steps,
    least: u32,
    locals: u32,
    cursor: &mut Cursor<'_>,
) -> Result<MapFrame, Fault>
    requires { least + 65535 < 2 ^ 32 }
    ensures { Gives result cursor.new
        (frame_at pool.now steps.now (previous_of least locals) cursor.old) }
{
    let kind = cursor.u8()?;
    let Some(form) = FrameForm::of_kind(kind) else {
        return Err(Fault::Malformed);
    };
    let at = least + u32::from(delta(kind, cursor)?);
    let Some(step) = steps.number_at(at) else {
        return Err(Fault::Malformed);
    };
    let (locals, stack) = content(alloc, pool, steps, locals, form, cursor)?;
    Ok(MapFrame {
        at,
        step,
        locals,
        stack,
    })
}

/// `count` frames, from the first one of a method that has `entry_locals` locals at its entry.
fn frames(
    alloc: Global,
    pool: &[Constant],
    steps: &Steps,
    entry_locals: u16,
    count: u16,
    cursor: &mut Cursor<'_>,
) -> Result<Frames, FrameRefusal>
    requires { IsBytes cursor.old }
    ensures { GivesFrames pool.now steps.now entry_locals count cursor.old result cursor.new }
{
    let mut frames = Frames::new(alloc);
    let mut least = 0;
    let mut locals = u32::from(entry_locals);
    for number in 0..count {
        let frame = match frame(alloc, pool, steps, least, locals, cursor) {
            Ok(frame) => frame,
            Err(fault) => return Err(fault.in_frame(number)),
        };
        least = frame.at + 1;
        locals = frame.locals.count_after(locals);
        frames.push(frame)?;
    }
    Ok(frames)
}

/// All frames of a table, which may have no bytes.
fn whole(
    alloc: Global,
    pool: &[Constant],
    steps: &Steps,
    entry_locals: u16,
    maps: &[u8],
) -> Result<Frames, FrameRefusal>
    ensures answer { Answers pool.now steps.now entry_locals maps.now result }
    ensures none { maps.now ≡ [] → result ≡ Ok [] }
    ensures count { length maps.now ≡ 1 → result ≡ Err (FrameRefusal.Frame 0) }
{
    let mut cursor = Cursor::new(maps);
    if cursor.is_empty() {
        return Ok(Frames::new(alloc));
    }
    let count = match cursor.u16() {
        Ok(count) => count,
        Err(fault) => return Err(fault.in_frame(0)),
    };
    let frames = frames(alloc, pool, steps, entry_locals, count, &mut cursor)?;
    if !cursor.is_empty() {
        return Err(FrameRefusal::Frame(count));
    }
    Ok(frames)
}

/// Reads the frames of a method from the content of its StackMapTable; no bytes are no frames. `pool` is the constant
/// pool of its class, `steps` are its instructions, and `entry_locals` says how many types there are in the locals as
/// it is entered: its receiver and its parameters, a long or a double being one.
///
/// `Frame` has the number of the first frame that is wrong: one of a kind from 128 to 246; one that goes past the end,
/// has an item whose number is not 0 to 8, removes more locals than there are, or is where no instruction begins; or
/// one with an `Object` of an index without a Class entry, or an `Uninit` of an offset without a `new`. Where bytes
/// come after the last frame, the number is the count of the frames. `NoMemory` may come anywhere.
pub fn read_frames(
    alloc: Global,
    pool: &[Constant],
    steps: &Steps,
    entry_locals: u16,
    maps: &[u8],
) -> Result<Frames, FrameRefusal>
    // What is read is spelled so, each byte of it.
    ensures found { IfOk result
        (λ frames. IsStackMap pool.now steps.now entry_locals maps.now frames) }
    // What is spelled so is read, unless memory runs out.
    ensures only { (frames : List MapFrame) →
        IsStackMap pool.now steps.now entry_locals maps.now frames →
        IsUnlessNoMemory result (Ok frames) }
    // What is refused has a first frame that is wrong.
    ensures exact { IfErr result (λ e. Refuses pool.now steps.now entry_locals maps.now e) }
    // The first frame that is wrong is the one that is refused, unless memory runs out.
    ensures first { (number : ℕ) →
        IsFirstBadFrame pool.now steps.now entry_locals maps.now number →
        IsUnlessNoMemory result (Err (FrameRefusal.Frame number)) }
    // No bytes are no frames, and a count that is cut is refused, before memory is taken.
    ensures none { maps.now ≡ [] → result ≡ Ok [] }
    ensures count { length maps.now ≡ 1 → result ≡ Err (FrameRefusal.Frame 0) }
{
    whole(alloc, pool, steps, entry_locals, maps)
}
