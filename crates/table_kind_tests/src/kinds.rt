//! A test that threads make steps of each kind on a table, and leave it with the words that are left on a plain vector.

ghost use Rattle.std.specs.Prelude.{IfOk, []};
ghost use Rattle.table_words.specs.declared.table.TableWords.{TableWords};
ghost use Rattle.table_words.specs.Ends.{HaveAllThreads};
ghost use Rattle.table_words.specs.Tables.{setup_in, parts_of_seat};
ghost use Rattle.table_hosts.specs.Standing.{ThreadsCanGoOn};
ghost use Rattle.table_hosts.specs.Families.{Begot};
ghost use Rattle.table_hosts.specs.Seated.{StandsOn};
ghost use Rattle.table_kind_tests.specs.Kinds.{AreAllOn};

use op_core::{Script, ThreadCode};
use plain_words::{PlainWords, has_place};
use rollback_core::ReadyThread;
use std::alloc::Global;
use std::test::Fail;
use table_cases::{KIND_STEPS, LIMITS, begin_kinds, opening};
use table_hosts::{SeatedThread, Slice, run_slice};
use table_words::TableWords;
use thread_automaton::Bounds;
use turns_cases::{add, give_turn};

/// Which of the two threads.
#[derive(Clone, Copy)]
enum Who {
    Main,
    Other,
}

/// Who gets turns, one after another, once main has started the other thread: each time up to a step of this kind.
///
/// Main opens a section, writes a word and opens a second level. The other thread initializes a class, makes an object and revokes
/// main's section, which main undoes. The other thread takes the monitor, enters it once more, pins its section, prints a line,
/// looks whether a thread waits, commits and gives the monitor back. Main begins again and writes the word. The other thread reads
/// it, for which it pins main's section, and ends. Main opens and closes a second level, commits, waits for the other thread's end,
/// and ends.
const ORDER: [(Who, u8); 19] = [
    (Who::Main, 5),
    (Who::Main, 2),
    (Who::Main, 32),
    (Who::Main, 12),
    (Who::Other, 27),
    (Who::Other, 16),
    (Who::Other, 8),
    (Who::Main, 10),
    (Who::Other, 12),
    (Who::Other, 13),
    (Who::Other, 7),
    (Who::Other, 24),
    (Who::Other, 9),
    (Who::Other, 14),
    (Who::Main, 2),
    (Who::Other, 7),
    (Who::Other, 20),
    (Who::Main, 33),
    (Who::Main, 20),
];

/// More turns than a thread needs for an item of the order: a search for a thread that waits takes 255.
const MANY_TURNS: u32 = 300;

/// The kinds of the steps that threads of scripts make: those that docs/schedules.md lists but two, since a script can't wait (22),
/// and nobody is there who could be woken (23); and 30, which hands out the thread that was started.
const KINDS: [u8; 28] = [
    1, 2, 3, 4, 5, 6, 7, 8, 9, 10, 11, 12, 13, 14, 15, 16, 17, 18, 19, 20, 21, 24, 25, 26, 27, 30,
    32, 33,
];

// A set of one kind: a bit for each.
fn bit_of(kind: u8) -> u64 {
    if kind < 64 { 1 << kind } else { 0 }
}

// The set of these kinds.
fn bits_of(kinds: &[u8]) -> u64 {
    let mut bits = 0;
    for kind in kinds {
        bits |= bit_of(*kind);
    }
    bits
}

/// The same threads on a vector of words.
#[derive(Drop)]
struct Plain<C: ThreadCode> {
    /// The threads, main first.
    threads: Vec<ReadyThread<C>>,
    words: PlainWords,
    /// The kinds of the steps that the threads have made, on the table and here.
    kinds: u64,
}

impl<C: ThreadCode + Drop> Plain<C> {
    // Gives the thread at this place the turn that it was given on the table. It has to make a step of the same kind.
    fn follow(&mut self, place: usize, kind: u8) -> Result<(), Fail> {
        let _came = give_turn(&mut self.threads, place, &mut self.words)?;
        match self.threads.get(place) {
            Some(ready) if ready.thread().last_kind() == kind => {
                self.kinds |= bit_of(kind);
                Ok(())
            }
            _ => Err(Fail::from("the kinds of the steps differ")),
        }
    }
}

// Main alone on a vector.
fn plain_main(alloc: Global) -> Result<Plain<Script<'static>>, Fail> {
    let opening = opening(alloc)?;
    if !has_place(&opening, &LIMITS) {
        return Err(Fail::from("the fixed objects have a place"));
    }
    let Ok(words) = PlainWords::open(alloc, &opening, &LIMITS) else {
        return Err(Fail::from("there is no memory"));
    };
    let bounds = Bounds {
        limits: LIMITS,
        first: opening.first,
    };
    let mut threads = Vec::new(alloc);
    let main = Script::new(alloc, &KIND_STEPS);
    add(&mut threads, ReadyThread::first(alloc, main, 1, 5, bounds))?;
    Ok(Plain {
        threads,
        words,
        kinds: 0,
    })
}

/// The two threads on the table.
#[derive(Drop)]
struct Both<C: ThreadCode> {
    main: SeatedThread<C>,
    other: SeatedThread<C>,
}

// Gives main turns until it hands out the other thread.
fn start<C: ThreadCode + Drop>(
    table: &TableWords<C>,
    alloc: Global,
    main: SeatedThread<C>,
    plain: &mut Plain<C>,
) -> Result<Both<C>, Fail>
    requires can { ThreadsCanGoOn C.state C.code (setup_in table.now) }
    requires stands { StandsOn C.state C.saved C.code table.now main }
    requires all { HaveAllThreads (parts_of_seat main.seat) }
    ensures { IfOk result (λ both. AreAllOn C.state C.saved C.code table.now both.main both.other) }
{
    let mut main = main;
    for _turn in 0..MANY_TURNS {
        let Ok(slice) = run_slice(table, alloc, main, 1) else {
            return Err(Fail::from("there is no memory"));
        };
        let Slice {
            seated,
            mut born,
            tally: _,
        } = slice;
        plain.follow(0, seated.thread.thread().last_kind())?;
        main = seated;
        if let Some(other) = born.pop() {
            if born.len() == 0 {
                return Ok(Both { main, other });
            }
            return Err(Fail::from("two threads were handed out"));
        }
    }
    Err(Fail::from("main starts no thread"))
}

// A turn of a thread, which hands out none.
fn turn_on_table<C: ThreadCode + Drop>(
    table: &TableWords<C>,
    alloc: Global,
    seated: SeatedThread<C>,
) -> Result<SeatedThread<C>, Fail>
    requires can { ThreadsCanGoOn C.state C.code (setup_in table.now) }
    requires stands { StandsOn C.state C.saved C.code table.now seated }
    ensures stands { IfOk result (StandsOn C.state C.saved C.code table.now) }
    ensures begot { IfOk result (λ later. Begot (parts_of_seat seated.seat) (parts_of_seat later.seat) []) }
{
    let Ok(slice) = run_slice(table, alloc, seated, 1) else {
        return Err(Fail::from("there is no memory"));
    };
    let Slice {
        seated,
        mut born,
        tally: _,
    } = slice;
    match born.pop() {
        None => Ok(seated),
        Some(_) => Err(Fail::from("a thread was handed out")),
    }
}

// A turn of one of the threads, on the table and on the vector. Says which kind of step it made.
fn turn_of<C: ThreadCode + Drop>(
    table: &TableWords<C>,
    alloc: Global,
    both: Both<C>,
    who: Who,
    plain: &mut Plain<C>,
) -> Result<(Both<C>, u8), Fail>
    requires can { ThreadsCanGoOn C.state C.code (setup_in table.now) }
    requires all { AreAllOn C.state C.saved C.code table.now both.main both.other }
    ensures { IfOk result (λ r. AreAllOn C.state C.saved C.code table.now r.0.main r.0.other) }
{
    let Both { main, other } = both;
    match who {
        Who::Main => {
            let main = turn_on_table(table, alloc, main)?;
            let kind = main.thread.thread().last_kind();
            plain.follow(0, kind)?;
            Ok((Both { main, other }, kind))
        }
        Who::Other => {
            let other = turn_on_table(table, alloc, other)?;
            let kind = other.thread.thread().last_kind();
            plain.follow(1, kind)?;
            Ok((Both { main, other }, kind))
        }
    }
}

// Turns of one of the threads, up to a step of this kind.
fn turns_to<C: ThreadCode + Drop>(
    table: &TableWords<C>,
    alloc: Global,
    both: Both<C>,
    who: Who,
    last: u8,
    plain: &mut Plain<C>,
) -> Result<Both<C>, Fail>
    requires can { ThreadsCanGoOn C.state C.code (setup_in table.now) }
    requires all { AreAllOn C.state C.saved C.code table.now both.main both.other }
    ensures { IfOk result (λ both. AreAllOn C.state C.saved C.code table.now both.main both.other) }
{
    let mut both = both;
    for _turn in 0..MANY_TURNS {
        let (later, kind) = turn_of(table, alloc, both, who, plain)?;
        both = later;
        if kind == last {
            return Ok(both);
        }
    }
    Err(Fail::from("the thread makes no step of this kind"))
}

// The turns of the order.
fn turns_in_order<C: ThreadCode + Drop>(
    table: &TableWords<C>,
    alloc: Global,
    both: Both<C>,
    plain: &mut Plain<C>,
) -> Result<Both<C>, Fail>
    requires can { ThreadsCanGoOn C.state C.code (setup_in table.now) }
    requires all { AreAllOn C.state C.saved C.code table.now both.main both.other }
    ensures { IfOk result (λ both. AreAllOn C.state C.saved C.code table.now both.main both.other) }
{
    let mut both = both;
    for item in &ORDER {
        let (who, last) = *item;
        both = turns_to(table, alloc, both, who, last, plain)?;
    }
    Ok(both)
}

// The words that the table hands out, once both threads have ended.
fn words_of<C: ThreadCode + Drop>(
    table: TableWords<C>,
    alloc: Global,
    both: Both<C>,
) -> Result<PlainWords, Fail>
    requires { AreAllOn C.state C.saved C.code table both.main both.other }
{
    let Both { main, other } = both;
    if !main.thread.thread().is_over() || !other.thread.thread().is_over() {
        return Err(Fail::from("both threads have ended"));
    }
    let mut rest = Vec::new(alloc);
    rest.push(other.seat)?;
    match table.finish(alloc, main.seat, rest) {
        Ok(words) => Ok(words),
        Err(_) => Err(Fail::from("there is no memory")),
    }
}

#[test]
fn steps_of_each_kind_leave_the_words_of_a_plain_run(rt: HostRuntime) -> Result<(), Fail> {
    let (table, main) = begin_kinds(rt.alloc())?;
    let mut plain = plain_main(rt.alloc())?;
    let both = start(&table, rt.alloc(), main, &mut plain)?;
    let both = turns_in_order(&table, rt.alloc(), both, &mut plain)?;
    let words = words_of(table, rt.alloc(), both)?;
    assert!(rt; plain.kinds == bits_of(&KINDS));
    assert!(rt; words.block() == plain.words.block());
    Ok(())
}
