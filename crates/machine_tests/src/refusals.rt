//! Tests of which events the ordinary machine refuses, and why.

use machine_cases::{HAND_OVER, machine, opening};
use op_core::{Event, Op, Reply, Script};
use ordinary_machine::{Ordinary, StepRefusal};
use std::alloc::Global;
use std::test::Fail;

fn word_of(refusal: &StepRefusal) -> &'static str {
    match refusal {
        StepRefusal::NoThread => "no thread",
        StepRefusal::NotNext => "not next",
        StepRefusal::NotEnabled => "not enabled",
        StepRefusal::WrongReply => "wrong reply",
        StepRefusal::NoMemory => "no memory",
    }
}

/// The machine of two threads that hand a monitor over, at its start.
fn at_start(alloc: Global) -> Result<Ordinary<Script<'static>>, Fail> {
    let opening = opening(alloc, &[7, 9], &[], 100)?;
    machine(alloc, &opening, &HAND_OVER)
}

/// Events that are no steps of the start.
const REFUSED: [(Event, &str); 4] = [
    (event!(2, 0, Op::Enter(9), Reply::Done), "no thread"),
    (event!(1, 1, Op::Start(7, 5), Reply::Number(2)), "not next"),
    (event!(1, 0, Op::Enter(9), Reply::Done), "not next"),
    (event!(1, 0, Op::Start(7, 5), Reply::Already), "wrong reply"),
];

#[test]
fn each_refusal_has_its_cause(rt: HostRuntime) -> Result<(), Fail> {
    let mut machine = at_start(rt.alloc())?;
    for (event, word) in &REFUSED {
        let refusal = machine.step(event).err();
        assert!(rt; refusal.as_ref().map(word_of) == Some(*word));
    }
    Ok(())
}

/// A monitor that another thread holds is entered at place 2.
const TAKEN: [Event; 3] = [
    event!(1, 0, Op::Start(7, 5), Reply::Number(9)),
    event!(1, 0, Op::Enter(9), Reply::Done),
    event!(9, 0, Op::Enter(9), Reply::Done),
];

#[test]
fn a_replay_names_the_place_of_its_refusal(rt: HostRuntime) -> Result<(), Fail> {
    let mut machine = at_start(rt.alloc())?;
    let refused = machine.replay(&TAKEN).err().ok_or("it is no execution")?;
    assert!(rt; refused.place == 2 && word_of(&refused.refusal) == "not enabled");
    Ok(())
}
