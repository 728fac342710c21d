//! Tests of threads that host threads give turns on a table.

ghost use Rattle.std.specs.Prelude.{◌≡◌, IfOk, [], ◌∷◌};
ghost use Rattle.std.specs.List.{All};
ghost use Rattle.table_words.specs.declared.table.TableWords.{TableWords};
ghost use Rattle.table_words.specs.Tables.{setup_in};
ghost use Rattle.table_hosts.specs.Standing.{ThreadsCanGoOn};
ghost use Rattle.table_hosts.specs.Seated.{StandsOn, BeginsOn};

use op_core::{NoMemory, ThreadCode};
use std::alloc::Global;
use std::test::Fail;
use std::thread::Threads;
use table_cases::{MANY, begin_program, only};
use table_hosts::{SeatedThread, Slice, run_both, run_slice};
use table_words::TableWords;

/// More rounds than two threads at once need until both have ended.
const ROUNDS: u32 = 1000;

// A slice for each of two threads, at once, again and again.
fn rounds<C: ThreadCode + Drop + Send, R: Threads + Sync>(
    rt: &R,
    table: &TableWords<C>,
    alloc: Global,
    one: SeatedThread<C>,
    other: SeatedThread<C>,
) -> Result<(SeatedThread<C>, SeatedThread<C>), NoMemory>
    requires can { ThreadsCanGoOn C.state C.code (setup_in table.now) }
    requires one { StandsOn C.state C.saved C.code table.now one }
    requires other { StandsOn C.state C.saved C.code table.now other }
{
    let mut one = one;
    let mut other = other;
    for _round in 0..ROUNDS {
        let (first, second) = run_both(rt, table, alloc, one, other, MANY)?;
        one = first.seated;
        other = second.seated;
        if one.thread.thread().is_over() && other.thread.thread().is_over() {
            break;
        }
    }
    Ok((one, other))
}

#[test]
fn a_program_runs_to_its_end_by_one_port_after_another(rt: HostRuntime) -> Result<(), Fail> {
    let (table, main) = begin_program(rt.alloc())?;
    let Ok(first) = run_slice(&table, rt.alloc(), main, MANY) else {
        return Err(Fail::from("there is no memory"));
    };
    let main = first.seated;
    assert!(rt; main.thread.thread().is_over() && main.thread.thread().lines().len() == 1);
    let other = only(first.born)?;
    let Ok(second) = run_slice(&table, rt.alloc(), other, MANY) else {
        return Err(Fail::from("there is no memory"));
    };
    assert!(rt; second.seated.thread.thread().is_over() && second.born.len() == 0);
    assert!(rt; second.seated.thread.thread().number() == 2);
    Ok(())
}

// The thread of a slice and the one that it handed out, after slices of both at once.
fn run_to_ends<C: ThreadCode + Drop + Send, R: Threads + Sync>(
    rt: &R,
    table: &TableWords<C>,
    alloc: Global,
    slice: Slice<C>,
) -> Result<(SeatedThread<C>, SeatedThread<C>), Fail>
    requires can { ThreadsCanGoOn C.state C.code (setup_in table.now) }
    requires stands { StandsOn C.state C.saved C.code table.now slice.seated }
    requires born { All (BeginsOn C.state C.saved C.code table.now) slice.born.items }
{
    let Slice {
        seated,
        born,
        tally: _,
    } = slice;
    let other = only(born)?;
    match rounds(rt, table, alloc, seated, other) {
        Ok(both) => Ok(both),
        Err(_) => Err(Fail::from("there is no memory")),
    }
}

/// Turns by which main has started the other thread, and is in no section yet.
const STARTS: u32 = 4;

#[test]
fn two_host_threads_run_two_threads_to_their_ends(rt: HostRuntime) -> Result<(), Fail> {
    let (table, main) = begin_program(rt.alloc())?;
    let Ok(first) = run_slice(&table, rt.alloc(), main, STARTS) else {
        return Err(Fail::from("there is no memory"));
    };
    let (main, other) = run_to_ends(&rt, &table, rt.alloc(), first)?;
    assert!(rt; main.thread.thread().is_over() && other.thread.thread().is_over());
    assert!(rt;
        main.thread.thread().lines().len() == 1 && other.thread.thread().lines().len() == 0
    );
    Ok(())
}
