//! Tests of reading stack map frames: the instructions that they are at, and a frame that is wrong.

use crate::pool::pool;
use class_read::Pool;
use code_frames::{FrameRefusal, Frames, read_frames};
use code_steps::read_steps;
use std::alloc::Global;
use std::test::Fail;

/// The frames that are read in a method of three nops and a return, or the number of the wrong one.
fn frames(alloc: Global, maps: &[u8]) -> Result<Result<Frames, u16>, Fail> {
    let constants = pool(alloc)?;
    let pool = Pool::new(alloc, constants.as_slice())?;
    let steps = read_steps(alloc, &pool, &[0, 0, 0, 177])
        .ok()
        .ok_or("the instructions are read")?;
    match read_frames(alloc, constants.as_slice(), &steps, 0, maps) {
        Ok(frames) => Ok(Ok(frames)),
        Err(FrameRefusal::Frame(number)) => Ok(Err(number)),
        Err(FrameRefusal::NoMemory) => Err(Fail::from("there is memory")),
    }
}

/// The numbers of instructions, and of the frames at them where the frames are at 1 and 3.
const NUMBERS: [(u32, Option<u32>); 5] = [
    (0, None),
    (1, Some(0)),
    (2, None),
    (3, Some(1)),
    (200, None),
];

#[test]
fn frames_are_found_by_their_instructions(rt: HostRuntime) -> Result<(), Fail> {
    let found = frames(rt.alloc(), &[0, 2, 1, 1])?
        .ok()
        .ok_or("they are read")?;
    assert!(rt; found.len() == 2);
    for (step, number) in &NUMBERS {
        assert!(rt; found.number_at(*step) == *number, "at {step}");
    }
    Ok(())
}

#[test]
fn a_wrong_frame_has_its_number(rt: HostRuntime) -> Result<(), Fail> {
    assert!(rt; matches!(frames(rt.alloc(), &[0, 2, 1, 2])?, Err(1)));
    assert!(rt; matches!(frames(rt.alloc(), &[])?, Ok(none) if none.is_empty()));
    Ok(())
}
