//! Slices of turns, and two of them at once.

ghost use Rattle.std.specs.Prelude.{◌≡◌, ◌<◌, ◌++◌, IfOk, IfSome, vec_len, vec_capacity};
ghost use Rattle.std.specs.List.{All};
ghost use Rattle.table_words.specs.declared.table.TableWords.{TableWords};
ghost use Rattle.table_words.specs.Tables.{setup_in, parts_of_seat};
ghost use Rattle.table_hosts.specs.Standing.{ThreadsCanGoOn};
ghost use Rattle.table_hosts.specs.Families.{Begot};
ghost use Rattle.table_hosts.specs.Seated.{StandsOn, BeginsOn, parts_of_threads, parts_of_child};
ghost use Rattle.table_hosts.specs.Slices.{IsSliceAt, IsSliceOf, IsTryOf};

use crate::SeatedThread;
use crate::tally::{NO_TURN, Pace, Tally};
use crate::turning::{next_turn, run_free};
use op_core::{NoMemory, ThreadCode};
use std::alloc::Global;
use std::thread::{Threads, join};
use table_words::TableWords;

/// A thread after a slice of turns, and the threads that it handed out in them.
#[derive(Drop)]
pub struct Slice<C: ThreadCode> {
    /// The thread.
    pub seated: SeatedThread<C>,
    /// Those that it handed out, the oldest first.
    pub born: Vec<SeatedThread<C>>,
    /// What the turns came to.
    pub tally: Tally,
}

// Keeps a thread that was handed out, if one was.
fn keep<C: ThreadCode + Drop>(born: &mut Vec<SeatedThread<C>>, child: Option<SeatedThread<C>>)
    requires { vec_len born.old < vec_capacity born.old }
    ensures parts { parts_of_threads born.new.items ≡ parts_of_threads born.old.items ++ parts_of_child child }
    ensures stand { (table : TableWords C) → All (BeginsOn C.state C.saved C.code table) born.old.items → IfSome child (BeginsOn C.state C.saved C.code table)
        → All (BeginsOn C.state C.saved C.code table) born.new.items }
{
    if let Some(child) = child {
        born.push_reserved(child);
    }
}

// A slice of turns at this pace.
fn run_at<C: ThreadCode + Drop>(
    table: &TableWords<C>,
    alloc: Global,
    seated: SeatedThread<C>,
    most: u32,
    pace: Pace,
) -> Result<Slice<C>, NoMemory>
    requires can { ThreadsCanGoOn C.state C.code (setup_in table.now) }
    requires stands { StandsOn C.state C.saved C.code table.now seated }
    ensures { IfOk result (IsSliceAt C.state C.saved C.code table.now pace most seated) }
{
    let SeatedThread { mut thread, seat } = seated;
    let mut port = table.port(seat);
    let mut born = Vec::new(alloc);
    let mut tally = NO_TURN;
    let mut turns = 0;
    for _round in 0..most {
        let given = run_free(&mut thread, &mut port, pace, most - turns);
        tally = tally.after_plain(given);
        turns += given.turns;
        if turns == most || thread.thread().is_over() {
            break;
        }
        born.reserve(1)?;
        let came = next_turn(&mut thread, &mut port, pace)?;
        tally = tally.after(came.tally);
        turns += 1;
        keep(&mut born, came.child);
        if !came.goes_on {
            break;
        }
    }
    let seat = port.into_seat();
    Ok(Slice {
        seated: SeatedThread { thread, seat },
        born,
        tally,
    })
}

/// Gives a thread turns on the table, at most this many, and fewer where it has ended, has met a limit or has to wait. Whatever
/// threads of the program want must be possible (`ThreadsCanGoOn`), and the thread must be where its seat's part says.
///
/// # Errors
///
/// `NoMemory` where there was no memory. The thread and its seat are then gone.
pub fn run_slice<C: ThreadCode + Drop>(
    table: &TableWords<C>,
    alloc: Global,
    seated: SeatedThread<C>,
    most: u32,
) -> Result<Slice<C>, NoMemory>
    requires can { ThreadsCanGoOn C.state C.code (setup_in table.now) }
    requires stands { StandsOn C.state C.saved C.code table.now seated }
    ensures { IfOk result (IsSliceOf C.state C.saved C.code table.now most seated) }
{
    run_at(table, alloc, seated, most, Pace::WhileFree)
}

/// Gives a thread turns on the table, at most this many, and fewer where one wasn't idle: where one counted, or the thread has
/// ended or has met a limit. A thread that has to wait gets more turns. What it needs is as in [`run_slice`].
///
/// # Errors
///
/// `NoMemory` where there was no memory. The thread and its seat are then gone.
pub fn try_thread<C: ThreadCode + Drop>(
    table: &TableWords<C>,
    alloc: Global,
    seated: SeatedThread<C>,
    most: u32,
) -> Result<Slice<C>, NoMemory>
    requires can { ThreadsCanGoOn C.state C.code (setup_in table.now) }
    requires stands { StandsOn C.state C.saved C.code table.now seated }
    ensures { IfOk result (IsTryOf C.state C.saved C.code table.now most seated) }
{
    run_at(table, alloc, seated, most, Pace::WhileIdle)
}

/// Gives two threads a slice each, at once on two host threads.
///
/// # Errors
///
/// `NoMemory` where there was no memory. The threads and their seats are then gone.
pub fn run_both<C: ThreadCode + Drop + Send, R: Threads + Sync>(
    rt: &R,
    table: &TableWords<C>,
    alloc: Global,
    one: SeatedThread<C>,
    other: SeatedThread<C>,
    most: u32,
) -> Result<(Slice<C>, Slice<C>), NoMemory>
    requires can { ThreadsCanGoOn C.state C.code (setup_in table.now) }
    requires one { StandsOn C.state C.saved C.code table.now one }
    requires other { StandsOn C.state C.saved C.code table.now other }
    ensures one { IfOk result (λ r. IsSliceOf C.state C.saved C.code table.now most one r.0) }
    ensures other { IfOk result (λ r. IsSliceOf C.state C.saved C.code table.now most other r.1) }
{
    let (first, second) = join(
        rt,
        move || run_slice(table, alloc, one, most),
        move || run_slice(table, alloc, other, most),
    );
    Ok((first?, second?))
}
