//! Tests of the limits of frames, of a monitor's depth and of threads.

use crate::setting::{AMPLE, printed, run, shown};
use op_core::{Limits, Line, Op};
use std::alloc::Global;
use std::test::Fail;
use toy_code::{Toy, ToyScript, ToyStep};

const PRINT_1: ToyStep = ToyStep::Do(Op::Print(Line::Int(1)));

/// How a run of main alone ends that makes these steps.
fn how_main_ends(
    alloc: Global,
    steps: &[ToyStep],
    limits: &Limits,
) -> Result<(&'static str, u8), Fail> {
    let scripts = [ToyScript { object: 1, steps }];
    let main = Toy::new(alloc, &scripts, 1);
    let outcome = run(alloc, &[3], main, &[], None, limits, false)?;
    if !printed(&outcome, &[1]) {
        return Err(Fail::from("1 was not printed"));
    }
    Ok(shown(outcome.how))
}

#[test]
fn a_1025th_frame_is_a_limit(rt: HostRuntime) -> Result<(), Fail> {
    let alloc = rt.alloc();
    let limits = Limits {
        turns: 2000,
        heap: 0,
        sections: 0,
    };
    let mut steps = vec![in alloc; ToyStep::Call; 1023]?;
    steps.push(PRINT_1)?;
    assert!(rt; how_main_ends(alloc, steps.as_slice(), &limits)? == ("done", 0));
    steps.push(ToyStep::Call)?;
    assert!(rt; how_main_ends(alloc, steps.as_slice(), &limits)? == ("frames", 1));
    Ok(())
}

#[test]
fn a_monitors_depth_is_a_limit(rt: HostRuntime) -> Result<(), Fail> {
    let alloc = rt.alloc();
    let limits = Limits {
        turns: 100000,
        heap: 0,
        sections: 0,
    };
    let mut steps = vec![in alloc; ToyStep::Do(Op::Enter(3)); 65535]?;
    steps.push(PRINT_1)?;
    assert!(rt; how_main_ends(alloc, steps.as_slice(), &limits)? == ("done", 0));
    steps.push(ToyStep::Do(Op::Enter(3)))?;
    assert!(rt; how_main_ends(alloc, steps.as_slice(), &limits)? == ("depth", 1));
    Ok(())
}

/// How a run ends whose main starts `count` threads, at most 255, and how many threads ended.
fn starts(alloc: Global, count: u32) -> Result<((&'static str, u8), usize), Fail> {
    let mut objects = Vec::new(alloc);
    let mut steps = Vec::new(alloc);
    for number in 0..count.min(255) {
        objects.push(number + 2)?;
        steps.push(ToyStep::Do(Op::Start(number + 2, 5)))?;
    }
    let scripts = [ToyScript {
        object: 1,
        steps: steps.as_slice(),
    }];
    let main = Toy::new(alloc, &scripts, 1);
    let outcome = run(alloc, objects.as_slice(), main, &[], None, &AMPLE, false)?;
    Ok((shown(outcome.how), outcome.ends.len()))
}

#[test]
fn a_256th_thread_is_a_limit(rt: HostRuntime) -> Result<(), Fail> {
    let alloc = rt.alloc();
    assert!(rt; starts(alloc, 253)? == (("done", 0), 254));
    assert!(rt; starts(alloc, 254)? == (("done", 0), 255));
    assert!(rt; starts(alloc, 255)? == (("threads", 1), 0));
    Ok(())
}
