//! Tests of a thread's frames: calls, returns, saves and copies.

use crate::setting::{METHOD, frames_with, push, stack_is};
use frame_snapshot::{Caller, FrameStage, Frames, NewFrame, PushRefusal};
use std::test::Fail;

/// Calls a method of three locals, or says why not.
fn enter(frames: &mut Frames, arguments: usize) -> Option<PushRefusal> {
    if arguments > 3 || !frames.has(arguments) {
        return None;
    }
    let call = NewFrame {
        method: METHOD,
        monitor: 7,
        arguments,
        max_locals: 3,
        max_stack: 2,
        caller: FrameStage::Calls(Caller::Instruction),
    };
    frames.push(call).err()
}

/// Ends the top frame with `words` words for its caller, where that can be, and returns whether it did.
fn leave(frames: &mut Frames, words: usize) -> bool {
    let can = frames.has_caller()
        && frames.has(words)
        && words <= frames.caller_room()
        && !frames.was_saved();
    if can {
        frames.pop(words);
    }
    can
}

fn local(frames: &Frames, place: usize) -> Option<u32> {
    if frames.has_local(place) {
        Some(frames.local(place))
    } else {
        None
    }
}

#[test]
fn arguments_become_locals(rt: HostRuntime) -> Result<(), Fail> {
    let mut frames = frames_with(rt.alloc(), &[1, 2, 3])?;
    assert!(rt; enter(&mut frames, 2).is_none());
    assert!(rt; local(&frames, 0) == Some(2) && local(&frames, 1) == Some(3));
    assert!(rt; local(&frames, 2) == Some(0) && local(&frames, 3).is_none());
    assert!(rt; stack_is(&frames, &[]) && frames.monitor() == 7 && frames.step() == 0);
    push(&mut frames, 8);
    assert!(rt; leave(&mut frames, 1));
    assert!(rt; stack_is(&frames, &[1, 8]) && !leave(&mut frames, 0));
    Ok(())
}

#[test]
fn a_thread_has_1024_frames(rt: HostRuntime) -> Result<(), Fail> {
    let mut frames = frames_with(rt.alloc(), &[])?;
    for _ in 0..1023 {
        assert!(rt; enter(&mut frames, 0).is_none());
    }
    assert!(rt; matches!(enter(&mut frames, 0), Some(PushRefusal::Full)));
    assert!(rt; leave(&mut frames, 0) && enter(&mut frames, 0).is_none());
    Ok(())
}

#[test]
fn restore_goes_back_to_the_last_save(rt: HostRuntime) -> Result<(), Fail> {
    let mut frames = frames_with(rt.alloc(), &[4, 5])?;
    frames.save()?;
    assert!(rt; enter(&mut frames, 1).is_none());
    frames.save()?;
    push(&mut frames, 6);
    assert!(rt; !leave(&mut frames, 0) && frames.has_saves());
    frames.drop_save();
    assert!(rt; leave(&mut frames, 1) && stack_is(&frames, &[4, 6]));
    assert!(rt; frames.was_saved());
    if frames.has_saves() {
        frames.restore();
    }
    assert!(rt; stack_is(&frames, &[4, 5]) && !frames.has_saves());
    Ok(())
}

#[test]
fn a_copy_has_the_frames_and_no_saves(rt: HostRuntime) -> Result<(), Fail> {
    let mut frames = frames_with(rt.alloc(), &[4, 5])?;
    frames.save()?;
    let copy = frames.copy(rt.alloc())?;
    push(&mut frames, 6);
    assert!(rt; stack_is(&copy, &[4, 5]) && !copy.has_saves());
    Ok(())
}
