//! Tests of steps beside the threads, each made by its own call of a port.

ghost use Rattle.std.specs.Prelude.{◌≡◌};
ghost use Rattle.table_words.specs.Tables.{setup_in, parts_of_seat, IsSeatOf};
ghost use Rattle.table_cases.specs.Program.{IsProgram};
ghost use Rattle.table_port_tests.specs.Beside.{IsFirstAlone, IsFirstPort};

use heap_words::control;
use op_core::Script;
use plain_words::{PlainWords, has_place};
use std::alloc::Global;
use std::test::Fail;
use step_port::StepPort;
use table_cases::{LIMITS, begin_program, opening};
use table_hosts::SeatedThread;
use table_words::{TablePort, TableSeat, TableWords};

/// The word of a live section of thread 1, whose priority is 5: one level is open, and none is pinned.
const OPEN: u64 = 0x01_0005_0101;

// Whether the host threads are to stop.
fn is_stopped(port: &mut TablePort<'_, Script<'static>>) -> bool
    requires { IsFirstPort port.old }
    ensures first { IsFirstPort port.new }
    ensures table { port.new.table.now ≡ port.old.table.now }
{
    port.load_stop()
}

// Has them stop.
fn stop(port: &mut TablePort<'_, Script<'static>>)
    requires { IsFirstPort port.old }
    ensures first { IsFirstPort port.new }
    ensures table { port.new.table.now ≡ port.old.table.now }
{
    port.set_stop();
}

// The monitor of the first object that threads enter.
fn monitor(port: &mut TablePort<'_, Script<'static>>) -> u64
    requires { IsFirstPort port.old }
    ensures first { IsFirstPort port.new }
    ensures table { port.new.table.now ≡ port.old.table.now }
{
    port.look_monitor(13)
}

// The word of the first section.
fn section(port: &mut TablePort<'_, Script<'static>>) -> u64
    requires { IsFirstPort port.old }
    ensures first { IsFirstPort port.new }
    ensures table { port.new.table.now ≡ port.old.table.now }
{
    port.look_section(1)
}

// Breaks the first section's outer level, if its word is `OPEN`.
fn broken(port: &mut TablePort<'_, Script<'static>>) -> Result<(), u64>
    requires { IsFirstPort port.old }
    ensures first { IsFirstPort port.new }
    ensures table { port.new.table.now ≡ port.old.table.now }
{
    port.break_level(1, OPEN, 1)
}

/// What the steps were answered.
#[derive(Clone, Copy)]
struct Answers {
    stopped_before: bool,
    stopped_after: bool,
    monitor: u64,
    section: u64,
    broken: Result<(), u64>,
}

// Each of these steps once, and the load of the stop word twice. The seat is then as it has to be so that the table can end.
fn ask(
    table: &TableWords<Script<'static>>,
    main: SeatedThread<Script<'static>>,
) -> (Answers, TableSeat<Script<'static>>)
    requires program { IsProgram (setup_in table.now) }
    requires seat { IsSeatOf table.now main.seat }
    requires first { IsFirstAlone (setup_in table.now) (parts_of_seat main.seat) }
    ensures seat { IsSeatOf table.now result.1 }
    ensures first { IsFirstAlone (setup_in table.now) (parts_of_seat result.1) }
{
    let mut port = table.port(main.seat);
    let stopped_before = is_stopped(&mut port);
    stop(&mut port);
    let answers = Answers {
        stopped_before,
        stopped_after: is_stopped(&mut port),
        monitor: monitor(&mut port),
        section: section(&mut port),
        broken: broken(&mut port),
    };
    (answers, port.into_seat())
}

// The answers, and the words that are left.
fn asked(alloc: Global) -> Result<(Answers, PlainWords), Fail> {
    let (table, main) = begin_program(alloc)?;
    let (answers, seat) = ask(&table, main);
    match table.finish(alloc, seat, Vec::new(alloc)) {
        Ok(words) => Ok((answers, words)),
        Err(_) => Err(Fail::from("there is no memory")),
    }
}

#[test]
fn steps_beside_the_threads_are_answered(rt: HostRuntime) -> Result<(), Fail> {
    let (answers, _words) = asked(rt.alloc())?;
    assert!(rt; !answers.stopped_before && answers.stopped_after);
    assert!(rt; answers.monitor == 0 && answers.section == 0);
    assert!(rt; matches!(answers.broken, Err(0)));
    Ok(())
}

#[test]
fn steps_beside_the_threads_leave_the_stop_word_alone_changed(rt: HostRuntime) -> Result<(), Fail> {
    let (_answers, words) = asked(rt.alloc())?;
    let opening = opening(rt.alloc())?;
    assert!(rt; has_place(&opening, &LIMITS));
    let Ok(first) = PlainWords::open(rt.alloc(), &opening, &LIMITS) else {
        return Err(Fail::from("there is no memory"));
    };
    let places = words.block().len();
    assert!(rt; first.block().len() == places);
    for place in 0..places {
        let stops = place == control::STOP as usize;
        let left = words.block().get(place).copied();
        assert!(rt;
            left == if stops {
                Some(1)
            } else {
                first.block().get(place).copied()
            }
        );
    }
    Ok(())
}
