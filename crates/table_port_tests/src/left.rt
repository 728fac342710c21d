//! Tests of the words that are left on a table once a program has run.

ghost use Rattle.std.specs.Prelude.{◌≡◌, OnOk, []};

use op_core::{Script, ThreadCode};
use plain_words::{PlainWords, has_place};
use rollback_core::ReadyThread;
use std::alloc::Global;
use std::test::Fail;
use table_cases::{LIMITS, MANY, STEPS, begin_program, only, opening};
use table_hosts::{SeatedThread, Slice, run_slice};
use thread_automaton::Bounds;
use turns_cases::{Came, add, give_turn};

// That none was handed out.
fn none<C: ThreadCode>(born: &[SeatedThread<C>]) -> Result<(), Fail>
    ensures { OnOk result (born.now ≡ []) }
{
    if born.len() == 0 {
        return Ok(());
    }
    Err(Fail::from("a thread was handed out"))
}

// The words that the table hands out, once its threads have run to their ends, one after the other.
fn words_of_table(alloc: Global) -> Result<PlainWords, Fail> {
    let (table, main) = begin_program(alloc)?;
    let Ok(first) = run_slice(&table, alloc, main, MANY) else {
        return Err(Fail::from("there is no memory"));
    };
    let Slice {
        seated: main,
        born,
        tally: _,
    } = first;
    let other = only(born)?;
    let Ok(second) = run_slice(&table, alloc, other, MANY) else {
        return Err(Fail::from("there is no memory"));
    };
    let Slice {
        seated: other,
        born,
        tally: _,
    } = second;
    none(born.as_slice())?;
    let mut rest = Vec::new(alloc);
    rest.push(other.seat)?;
    match table.finish(alloc, main.seat, rest) {
        Ok(words) => Ok(words),
        Err(_) => Err(Fail::from("there is no memory")),
    }
}

// Gives the thread at a place turns until it has ended.
fn run_alone(
    threads: &mut Vec<ReadyThread<Script<'static>>>,
    place: usize,
    words: &mut PlainWords,
) -> Result<(), Fail> {
    for _turn in 0..MANY {
        if let Came::Ended(_) = give_turn(threads, place, words)? {
            return Ok(());
        }
    }
    Err(Fail::from("the thread goes on"))
}

// The words of a vector, once threads of the same scripts have run to their ends on it, one after the other.
fn words_of_vector(alloc: Global) -> Result<PlainWords, Fail> {
    let opening = opening(alloc)?;
    if !has_place(&opening, &LIMITS) {
        return Err(Fail::from("the fixed objects have a place"));
    }
    let Ok(mut words) = PlainWords::open(alloc, &opening, &LIMITS) else {
        return Err(Fail::from("there is no memory"));
    };
    let bounds = Bounds {
        limits: LIMITS,
        first: opening.first,
    };
    let mut threads = Vec::new(alloc);
    let main = Script::new(alloc, &STEPS);
    add(&mut threads, ReadyThread::first(alloc, main, 1, 5, bounds))?;
    run_alone(&mut threads, 0, &mut words)?;
    run_alone(&mut threads, 1, &mut words)?;
    Ok(words)
}

#[test]
fn a_table_is_left_with_the_words_of_a_plain_run(rt: HostRuntime) -> Result<(), Fail> {
    let left = words_of_table(rt.alloc())?;
    let plain = words_of_vector(rt.alloc())?;
    assert!(rt; left.block() == plain.block());
    Ok(())
}
