//! Tests of making the steps of given events, alone or in a replay.

use machine_cases::{HAND_OVER, machine, opening};
use op_core::{Event, Line, Op, Reply, ScriptStep};
use ordinary_machine::StepRefusal;
use std::test::Fail;

const HANDED_OVER: [Event; 11] = [
    event!(1, 0, Op::Start(7, 5), Reply::Number(2)),
    event!(1, 0, Op::Enter(9), Reply::Done),
    event!(1, 0, Op::Wait(9), Reply::Done),
    event!(2, 0, Op::Enter(9), Reply::Done),
    event!(2, 0, Op::Notify(9), Reply::Woken(1)),
    event!(2, 1, Op::Exit(9), Reply::Done),
    event!(1, 0, Op::Rewake(9), Reply::Done),
    event!(2, 0, Op::End(Some(3)), Reply::Done),
    event!(1, 0, Op::Exit(9), Reply::Done),
    event!(1, 0, Op::Join(7), Reply::Done),
    event!(1, 0, Op::End(None), Reply::Done),
];

#[test]
fn two_threads_hand_a_monitor_over(rt: HostRuntime) -> Result<(), Fail> {
    let opening = opening(rt.alloc(), &[7, 9], &[], 100)?;
    let mut machine = machine(rt.alloc(), &opening, &HAND_OVER)?;
    assert!(rt; machine.replay(&HANDED_OVER).is_ok());
    assert!(rt; machine.has_ended(1));
    assert!(rt; machine.end_of(2).is_some_and(|end| end.class == Some(3)));
    Ok(())
}

/// A step of thread 2 with one silent step too many, at place 5.
const TOO_SILENT: [Event; 6] = [
    event!(1, 0, Op::Start(7, 5), Reply::Number(2)),
    event!(1, 0, Op::Enter(9), Reply::Done),
    event!(1, 0, Op::Wait(9), Reply::Done),
    event!(2, 0, Op::Enter(9), Reply::Done),
    event!(2, 0, Op::Notify(9), Reply::Woken(1)),
    event!(2, 2, Op::Exit(9), Reply::Done),
];

#[test]
fn a_machine_is_replayed_whole_or_given_up(rt: HostRuntime) -> Result<(), Fail> {
    let opening = opening(rt.alloc(), &[7, 9], &[], 100)?;
    let whole = machine(rt.alloc(), &opening, &HAND_OVER)?
        .replayed(&HANDED_OVER)
        .ok();
    assert!(rt; whole.is_some_and(|last| last.has_ended(1) && last.has_ended(2)));
    let first = machine(rt.alloc(), &opening, &HAND_OVER)?;
    let refused = first
        .replayed(&TOO_SILENT)
        .err()
        .ok_or("it is no execution")?;
    assert!(rt; refused.place == 5 && matches!(refused.refusal, StepRefusal::NotNext));
    Ok(())
}

const PRINTS: [ScriptStep; 2] = [
    ScriptStep::Pass,
    ScriptStep::Operation(Op::Print(Line::Int(7))),
];

#[test]
fn a_printed_line_is_the_threads_own(rt: HostRuntime) -> Result<(), Fail> {
    let opening = opening(rt.alloc(), &[], &[], 2)?;
    let mut machine = machine(rt.alloc(), &opening, &PRINTS)?;
    let print = event!(1, 1, Op::Print(Line::Empty), Reply::Done);
    assert!(rt; machine.step(&print).is_ok());
    assert!(rt; matches!(machine.lines().as_slice(), [Line::Int(7)]));
    Ok(())
}
