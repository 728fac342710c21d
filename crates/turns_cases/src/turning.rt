//! The turns of threads on one table of words.

ghost use Rattle.std.specs.Prelude.{◌≡◌, IsTrue};
ghost use Rattle.step_port.specs.declared.step.Step.{Step};
ghost use Rattle.thread_automaton.specs.declared.Move.{Move};
ghost use Rattle.thread_automaton.specs.NextMove.{next_move};
ghost use Rattle.plain_words.specs.Table.{MayStep};
ghost use Rattle.thread_moves.specs.Thread.{thread_of, CanBeAsked};
ghost use Rattle.turns_cases.specs.MadeSteps.{LoadsNumber, CanMake};

use heap_words::{Area, HeapWord};
use monitor_core::Why;
use op_core::{Event, Limit, ThreadCode};
use plain_words::PlainWords;
use rollback_core::{ReadyThread, Turn, turn};
use std::alloc::AllocError;
use std::test::Fail;
use step_port::{Step, ThreadWord};
use thread_automaton::Move;

/// Whether a start word that the step loads is the number of a thread.
fn loads_number(words: &PlainWords, step: Step) -> bool
    requires { MayStep words.now step }
    ensures { IsTrue result → LoadsNumber words.now step }
{
    let _highest = words.areas.objects;
    match step {
        Step::LoadThread(ThreadWord::Start(object)) => {
            HeapWord::unpack(words.load(Area::Object(object + 3))).value < 256
        }
        _ => true,
    }
}

fn can_make(words: &PlainWords, step: Step) -> bool
    ensures { IsTrue result → CanMake words.now step }
{
    words.may_step(step) && loads_number(words, step)
}

/// Whether the next step can be made, if there is one.
fn can_go<C: ThreadCode>(ready: &ReadyThread<C>, words: &PlainWords) -> bool
    requires { CanBeAsked C.code (C.state ready.now.code) (C.code.next (C.state ready.now.code)) }
    ensures { IsTrue result → (step : Step) → next_move C.code ready.now.own.bounds (thread_of C.state C.saved ready.now) ≡ Move.Make step → CanMake words.now step }
{
    match ready.next_move() {
        Move::Make(step) => can_make(words, step),
        _ => true,
    }
}

/// Gives a thread a turn. A turn that was refused memory left all as it was, so it is given once more.
pub fn give<C: ThreadCode + Drop>(
    ready: &mut ReadyThread<C>,
    words: &mut PlainWords,
) -> Result<Turn<C, ()>, Fail> {
    if !ready.thread().can_be_asked() || !can_go(ready, words) {
        return Err(Fail::from("the next step can't be made"));
    }
    if let Ok(turned) = turn(ready, words) {
        return Ok(turned);
    }
    match turn(ready, words) {
        Ok(turned) => Ok(turned),
        Err(_) => Err(Fail::from("there is no memory")),
    }
}

/// What a turn came to.
#[derive(Clone, Copy)]
pub enum Came {
    /// The thread goes on, with the event that others could see, if there was one.
    Went(Option<Event>),
    /// Its compare-exchange was lost.
    Lost,
    /// It has to wait.
    Waits(Why),
    /// It has ended, normally or by an exception of this class.
    Ended(Option<u32>),
    /// It met this limit.
    Spent(Limit),
}

/// What a turn came to, and the thread that it handed out, if it did so.
fn outcome_of<C: ThreadCode + Drop>(turned: Turn<C, ()>) -> (Came, Option<ReadyThread<C>>) {
    match turned {
        Turn::Born(child, ()) => (Came::Went(None), Some(Box::into_inner(child))),
        Turn::Advanced(event) => (Came::Went(event), None),
        Turn::Silent | Turn::Probed => (Came::Went(None), None),
        Turn::Lost(_) => (Came::Lost, None),
        Turn::Blocked(why) => (Came::Waits(why), None),
        Turn::Ended(class) => (Came::Ended(class), None),
        Turn::Spent(limit) => (Came::Spent(limit), None),
    }
}

/// Gives the thread at a place a turn. A thread that it hands out gets the next place.
pub fn give_turn<C: ThreadCode + Drop>(
    threads: &mut Vec<ReadyThread<C>>,
    place: usize,
    words: &mut PlainWords,
) -> Result<Came, Fail> {
    let Some(ready) = threads.get_mut(place) else {
        return Ok(Came::Ended(None));
    };
    let (came, child) = outcome_of(give(ready, words)?);
    if let Some(child) = child {
        add(threads, child)?;
    }
    Ok(came)
}

/// Gives a thread the next place.
pub fn add<C: ThreadCode + Drop>(
    threads: &mut Vec<ReadyThread<C>>,
    ready: ReadyThread<C>,
) -> Result<(), AllocError> {
    threads.push(ready)?;
    Ok(())
}
