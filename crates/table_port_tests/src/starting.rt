//! A test of the first step of a thread, made by its own call of a port.

ghost use Rattle.std.specs.Prelude.{◌≡◌};
ghost use Rattle.table_port_tests.specs.Starting.{IsThreadPort, main_begun};

use op_core::Script;
use std::test::Fail;
use step_port::{StepPort, ThreadWord};
use table_cases::begin_program;
use table_words::TablePort;

// The start word of the other thread's object: main's first step loads it.
fn load_start(port: &mut TablePort<'_, Script<'static>>) -> u64
    requires { IsThreadPort port.old main_begun }
{
    port.load_thread(ThreadWord::Start(8))
}

#[test]
fn a_thread_that_is_not_started_has_an_empty_start_word(rt: HostRuntime) -> Result<(), Fail> {
    let (table, main) = begin_program(rt.alloc())?;
    let mut port = table.port(main.seat);
    assert!(rt; load_start(&mut port) == 0);
    Ok(())
}
