//! Threads that run scripts on one table of words, and are given turns in slices.

ghost use Rattle.std.specs.Prelude.{◌≡◌, true};
ghost use Rattle.std.specs.List.{list_all};
ghost use Rattle.turn_run_tests.specs.InRange.{is_in_range};

use crate::port::{CheckedWords, Sight};
use op_core::Op;
use quick_turns::run_usual;
use rollback_core::{ReadyThread, Turn, turn};
use std::process::Abort;
use std::test::Fail;
use toy_code::{Toy, ToyStep};

/// How a slice of turns is given.
#[derive(Clone, Copy)]
pub enum Giving {
    /// Turn by turn.
    Single,
    /// Usual turns at once, and single ones between them.
    Usual,
}

/// What came of a slice.
#[derive(Drop)]
pub struct Slice<'a> {
    /// How many turns were given.
    pub turns: u64,
    /// How many of them came at once, as usual ones.
    pub usual: u64,
    /// The threads that were handed out.
    pub children: Vec<ReadyThread<Toy<'a>>>,
}

fn is_in_range(step: ToyStep) -> bool
    ensures { result ≡ is_in_range step }
{
    match step {
        ToyStep::Do(Op::Read(reference, word) | Op::Write(reference, word, _)) => {
            reference as u64 + 2 + (word as u64) < 0x1_0000_0000
        }
        ToyStep::Do(Op::New(_, length)) => (length as u64) < 0x1_0000_0000,
        _ => true,
    }
}

fn are_in_range(steps: &[ToyStep]) -> bool
    ensures { result ≡ list_all is_in_range steps.now }
{
    steps.iter().all(|step| is_in_range(*step))
}

/// Gives a thread some usual turns, at most this many, and says how many.
fn give_usual<R: Abort>(
    ready: &mut ReadyThread<Toy<'_>>,
    port: &mut CheckedWords<R>,
    most: u64,
) -> u64
    requires { list_all is_in_range ready.old.code.steps.now ≡ true }
{
    run_usual(ready, port, &Sight, most)
}

/// Gives a thread one turn, and says what came of it.
fn give_one<'a, R: Abort>(
    ready: &mut ReadyThread<Toy<'a>>,
    port: &mut CheckedWords<R>,
) -> Result<Turn<Toy<'a>, ()>, Fail>
    requires { list_all is_in_range ready.old.code.steps.now ≡ true }
{
    match turn(ready, port) {
        Ok(said) => Ok(said),
        Err(_) => Err(Fail::from("there is memory")),
    }
}

impl<'a> Slice<'a> {
    // Gives turns until there were this many, or the thread waits or goes on no more.
    fn give<R: Abort>(
        &mut self,
        ready: &mut ReadyThread<Toy<'a>>,
        port: &mut CheckedWords<R>,
        most: u64,
        giving: Giving,
    ) -> Result<(), Fail> {
        for _turn in 0..most {
            if !are_in_range(ready.thread().code().steps) {
                return Err(Fail::from("each step is in range"));
            }
            if let Giving::Usual = giving {
                let made = give_usual(ready, port, most.saturating_sub(self.turns));
                self.turns = self.turns.saturating_add(made);
                self.usual = self.usual.saturating_add(made);
                if !are_in_range(ready.thread().code().steps) {
                    return Err(Fail::from("each step is in range"));
                }
            }
            if self.turns >= most {
                return Ok(());
            }
            let said = give_one(ready, port)?;
            self.turns = self.turns.saturating_add(1);
            match said {
                Turn::Born(child, ()) => self.children.push(Box::into_inner(child))?,
                Turn::Blocked(_) | Turn::Ended(_) | Turn::Spent(_) => return Ok(()),
                Turn::Silent | Turn::Probed | Turn::Advanced(_) | Turn::Lost(_) => {}
            }
        }
        Ok(())
    }
}

/// Gives a thread a slice of at most this number of turns, which ends earlier where the thread waits or goes on no more.
pub fn give_slice<'a, R: Abort>(
    alloc: std::alloc::Global,
    ready: &mut ReadyThread<Toy<'a>>,
    port: &mut CheckedWords<R>,
    most: u64,
    giving: Giving,
) -> Result<Slice<'a>, Fail> {
    let mut slice = Slice {
        turns: 0,
        usual: 0,
        children: Vec::new(alloc),
    };
    slice.give(ready, port, most, giving)?;
    Ok(slice)
}
