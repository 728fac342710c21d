//! Tests of the words that are left after a run.

use crate::running::{Plan, run_with, words_of};
use jr_ports::NoGate;
use op_core::Script;
use plain_words::{PlainWords, has_place};
use rollback_core::ReadyThread;
use std::alloc::Global;
use std::test::Fail;
use table_cases::{LIMITS, STEPS, opening};
use thread_automaton::Bounds;
use turns_cases::{Came, add, give_turn};

// Gives the thread at a place turns until it has ended.
fn run_alone(
    threads: &mut Vec<ReadyThread<Script<'static>>>,
    place: usize,
    words: &mut PlainWords,
) -> Result<(), Fail> {
    for _turn in 0..1000 {
        if let Came::Ended(_) = give_turn(threads, place, words)? {
            return Ok(());
        }
    }
    Err(Fail::from("the thread goes on"))
}

// The words of a vector, once both threads have run to their ends on it, one after the other.
fn words_of_vector(alloc: Global) -> Result<PlainWords, Fail> {
    let opening = opening(alloc)?;
    if !has_place(&opening, &LIMITS) {
        return Err(Fail::from("the fixed objects have a place"));
    }
    let Ok(mut words) = PlainWords::open(alloc, &opening, &LIMITS) else {
        return Err(Fail::from("there is no memory"));
    };
    let bounds = Bounds {
        limits: LIMITS,
        first: opening.first,
    };
    let mut threads = Vec::new(alloc);
    let main = Script::new(alloc, &STEPS);
    add(&mut threads, ReadyThread::first(alloc, main, 1, 5, bounds))?;
    run_alone(&mut threads, 0, &mut words)?;
    run_alone(&mut threads, 1, &mut words)?;
    Ok(words)
}

#[test]
fn a_run_by_whole_threads_leaves_the_words_of_a_plain_run(rt: HostRuntime) -> Result<(), Fail> {
    let plain = words_of_vector(rt.alloc())?;
    for workers in 1..5 {
        let plan = Plan {
            workers,
            slice: 10_000,
        };
        let run = run_with(&rt, rt.alloc(), &STEPS, LIMITS.turns, plan, &NoGate)?;
        assert!(rt; run.going.opened == 3 && run.going.undone == 0);
        let left = words_of(rt.alloc(), run)?;
        assert!(rt; left.block() == plain.block());
    }
    Ok(())
}
