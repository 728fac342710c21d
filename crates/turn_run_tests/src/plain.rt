//! Scripts by plain turns.

ghost use Rattle.std.specs.Prelude.{◌≡◌, ◌≤◌};
ghost use Rattle.thread_moves.specs.Thread.{thread_of};
ghost use Rattle.turn_run_tests.specs.Ready.{StaysReadyOnAny};

use crate::answering::Answering;
use crate::cases::{
    Given, MOST, NO_LOOKS, OTHERS, OUTSIDE, Ran, SECTIONS, begin, is_same, run_singly,
};
use op_core::ThreadCode;
use port_turns::run_plain;
use rollback_core::{ReadyThread, Turn};
use std::alloc::Global;
use std::test::Fail;
use toy_code::ToyScript;
use turn_runs::turns;

/// Gives a thread plain turns, at most this many, in one call.
pub(crate) fn give_plain<C: ThreadCode + Drop>(
    ready: &mut ReadyThread<C>,
    port: &mut Answering,
    most: u64,
) -> Given
    requires { StaysReadyOnAny C.code ready.old.own.bounds (thread_of C.state C.saved ready.old) port.old }
{
    let turns = run_plain(ready, port, most);
    Given { calls: 1, turns }
}

/// Gives a thread turns up to its end, or to a limit or a wait: plain ones, at most this many in a call, and a single one after
/// each call.
pub(crate) fn give_plainly<C: ThreadCode + Drop>(
    ready: &mut ReadyThread<C>,
    port: &mut Answering,
    most: u64,
) -> Result<Given, Fail>
    requires { StaysReadyOnAny C.code ready.old.own.bounds (thread_of C.state C.saved ready.old) port.old }
{
    let mut given = Given { calls: 0, turns: 0 };
    for _call in 0..MOST {
        let plain = run_plain(ready, port, most);
        let Ok(stretch) = turns(ready, port, 1, NO_LOOKS) else {
            return Err(Fail::from("there is no memory"));
        };
        given.calls = given.calls.saturating_add(1);
        given.turns = given.turns.saturating_add(plain);
        given.turns = given.turns.saturating_add(stretch.count);
        if let Some(Turn::Ended(_) | Turn::Spent(_) | Turn::Blocked(_)) = stretch.last {
            return Ok(given);
        }
    }
    Err(Fail::from("the script ends"))
}

/// A script up to where it can't go on alone, by calls of at most this many plain turns and a single turn after each.
fn run_plainly<'a>(
    alloc: Global,
    scripts: &'a [ToyScript<'a>],
    most: u64,
) -> Result<Ran<'a>, Fail> {
    let (mut ready, mut port) = begin(alloc, scripts)?;
    let given = give_plainly(&mut ready, &mut port, most)?;
    Ok(Ran { ready, port, given })
}

/// A script as far as one call of plain turns goes.
fn run_once<'a>(alloc: Global, scripts: &'a [ToyScript<'a>], most: u64) -> Result<Ran<'a>, Fail> {
    let (mut ready, mut port) = begin(alloc, scripts)?;
    let given = give_plain(&mut ready, &mut port, most);
    Ok(Ran { ready, port, given })
}

#[test]
fn plain_turns_are_single_ones(rt: HostRuntime) -> Result<(), Fail> {
    for steps in [OUTSIDE, SECTIONS, OTHERS] {
        let scripts = [ToyScript { object: 0, steps }];
        let single = run_singly(rt.alloc(), &scripts)?;
        for most in [1, 2, 3, 5, 1000] {
            let plain = run_plainly(rt.alloc(), &scripts, most)?;
            assert!(rt; is_same(&single, &plain));
        }
    }
    Ok(())
}

#[test]
fn words_outside_of_sections_take_plain_turns(rt: HostRuntime) -> Result<(), Fail> {
    let scripts = [ToyScript {
        object: 0,
        steps: OUTSIDE,
    }];
    // Two silent steps, the load and the exchange of a write, and the load of a read. Then comes a line.
    let plain = run_once(rt.alloc(), &scripts, 1000)?;
    assert!(rt; plain.given.turns == 5 && plain.port.made == 3);
    Ok(())
}
