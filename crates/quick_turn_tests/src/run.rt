//! Runs of scripts in slices.

ghost use Rattle.std.specs.Prelude.{◌≡◌, ◌+◌, ◌≤◌, ◌^◌};

use crate::port::CheckedWords;
use crate::slices::{Giving, Slice, give_slice};
use fixed_objects::{FixedObject, Opening};
use op_core::{Limits, Rows, ThreadCode};
use plain_words::{PlainWords, has_place};
use rollback_core::ReadyThread;
use std::alloc::{AllocError, Global};
use std::process::Abort;
use std::test::Fail;
use thread_automaton::{Attempt, Bounds};
use toy_code::{Toy, ToyScript};

/// Two monitors.
pub const LOCK: u32 = 1;

pub const OTHER: u32 = 3;

/// An object with two words.
pub const WORDS: u32 = 5;

/// The objects of threads that main starts.
pub const THREADS: [u32; 3] = [11, 16, 21];

const FIRST: u32 = 26;

/// How often each thread has a slice at most.
const ROUNDS: u32 = 150;

const LIMITS: Limits = Limits {
    turns: 600,
    heap: 40,
    sections: 60,
};

/// Threads on one table of words, after their slices.
#[derive(Drop)]
pub struct Ran<'a, R> {
    pub threads: Vec<ReadyThread<Toy<'a>>>,
    pub port: CheckedWords<R>,
    /// How many turns were given, and how many of them came at once.
    pub turns: u64,
    pub usual: u64,
}

fn opening(alloc: Global) -> Result<Opening, AllocError> {
    let mut objects = Vec::new(alloc);
    for (reference, class, words) in [
        (LOCK, 1, &[][..]),
        (OTHER, 1, &[][..]),
        (WORDS, 2, &[0, 0][..]),
        (THREADS[0], 3, &[5, 0, 0][..]),
        (THREADS[1], 3, &[5, 0, 0][..]),
        (THREADS[2], 3, &[5, 0, 0][..]),
    ] {
        let words = Rows::from_vec(Vec::from_slice(alloc, words)?);
        objects.push(FixedObject {
            reference,
            class,
            length: 0,
            words,
            started: 0,
        })?;
    }
    Ok(Opening {
        objects: Rows::from_vec(objects),
        ready: Rows::new(alloc),
        classes: 3,
        first: FIRST,
        main_thread: 0,
    })
}

fn words(alloc: Global) -> Result<PlainWords, Fail> {
    let opening = opening(alloc)?;
    if !has_place(&opening, &LIMITS) {
        return Err(Fail::from("the fixed objects have a place"));
    }
    match PlainWords::open(alloc, &opening, &LIMITS) {
        Ok(words) => Ok(words),
        Err(_) => Err(Fail::from("there is no memory")),
    }
}

/// Runs scripts, main's first: each thread in turn has a slice, of a length that the number of the slice gives.
pub fn run<'a, R: Abort + Drop>(
    alloc: Global,
    rt: R,
    scripts: &'a [ToyScript<'a>],
    lengths: &[u64],
    giving: Giving,
) -> Result<Ran<'a, R>, Fail> {
    let bounds = Bounds {
        limits: LIMITS,
        first: FIRST,
    };
    let main = Toy::new(alloc, scripts, 0);
    let mut run = Ran {
        threads: Vec::new(alloc),
        port: CheckedWords::new(words(alloc)?, rt),
        turns: 0,
        usual: 0,
    };
    run.threads
        .push(ReadyThread::first(alloc, main, 1, 5, bounds))?;
    for round in 0..ROUNDS {
        if run.is_over() {
            break;
        }
        for place in 0..run.threads.len() {
            let length = match lengths.get((round as usize + place) % lengths.len().max(1)) {
                Some(length) => *length,
                None => 1,
            };
            run.give(alloc, place, length, giving)?;
        }
    }
    Ok(run)
}

// Puts a thread back at its place, from which it was taken and which the last one took.
fn put_back<C: ThreadCode + Drop>(
    threads: &mut Vec<ReadyThread<C>>,
    place: usize,
    ready: ReadyThread<C>,
) -> Result<(), AllocError> {
    threads.push(ready)?;
    let last = threads.len().saturating_sub(1);
    if place <= last {
        threads.swap(place, last);
    }
    Ok(())
}

fn add_all<C: ThreadCode + Drop>(
    threads: &mut Vec<ReadyThread<C>>,
    children: Vec<ReadyThread<C>>,
) -> Result<(), AllocError> {
    for child in children {
        threads.push(child)?;
    }
    Ok(())
}

impl<'a, R: Abort + Drop> Ran<'a, R> {
    fn is_over(&self) -> bool {
        self.threads.iter().all(|ready| ready.thread().is_over())
    }

    // Gives the thread at a place a slice of turns.
    fn give(
        &mut self,
        alloc: Global,
        place: usize,
        length: u64,
        giving: Giving,
    ) -> Result<(), Fail> {
        if place >= self.threads.len() {
            return Ok(());
        }
        let mut ready = self.threads.swap_remove(place);
        let slice = give_slice(alloc, &mut ready, &mut self.port, length, giving)?;
        let Slice {
            turns,
            usual,
            children,
        } = slice;
        self.turns = self.turns.saturating_add(turns);
        self.usual = self.usual.saturating_add(usual);
        put_back(&mut self.threads, place, ready)?;
        add_all(&mut self.threads, children)?;
        Ok(())
    }
}

fn have_same_words(one: &PlainWords, other: &PlainWords) -> bool {
    let size = one.areas.size();
    if size != other.areas.size() {
        return false;
    }
    for at in 0..size {
        if one.raw(at) != other.raw(at) {
            return false;
        }
    }
    true
}

// The number of a kind of attempt.
fn attempt_number(attempt: Attempt) -> u8 {
    match attempt {
        Attempt::Begin => 0,
        Attempt::Look => 1,
        Attempt::Checked => 2,
        Attempt::Fixed(_) => 3,
        Attempt::Meets(_, _) => 4,
        Attempt::Undoing(_) => 5,
        Attempt::Full(_) => 6,
    }
}

fn is_same_thread(one: &ReadyThread<Toy<'_>>, other: &ReadyThread<Toy<'_>>) -> bool {
    let one = one.thread();
    let other = other.thread();
    one.own.number == other.own.number
        && one.own.counted == other.own.counted
        && one.own.silents == other.own.silents
        && one.own.last_kind == other.own.last_kind
        && one.own.section == other.own.section
        && one.own.levels == other.own.levels
        && one.own.pinned == other.own.pinned
        && one.own.known == other.own.known
        && one.own.known_depth == other.own.known_depth
        && one.own.over == other.own.over
        && one.log_len() == other.log_len()
        && one.lines().len() == other.lines().len()
        && attempt_number(one.own.attempt) == attempt_number(other.own.attempt)
        && one.code().place.step == other.code().place.step
        && one.code().place.frames == other.code().place.frames
        && one.code().place.value == other.code().place.value
}

/// Whether two runs made the same turns, and came to the same words and threads.
pub fn are_same<R: Abort + Drop>(one: &Ran<'_, R>, other: &Ran<'_, R>) -> bool {
    if one.threads.len() != other.threads.len() {
        return false;
    }
    for (first, second) in one.threads.iter().zip(other.threads.iter()) {
        if !is_same_thread(first, second) {
            return false;
        }
    }
    one.turns == other.turns
        && one.port.made == other.port.made
        && one.port.sum == other.port.sum
        && have_same_words(&one.port.words, &other.port.words)
}
