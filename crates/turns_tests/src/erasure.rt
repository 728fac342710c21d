//! Random scripts under random schedules: with the events of revoked levels left out, what is left is an execution of
//! ordinary monitors that prints the same lines.

ghost use Rattle.std.specs.Prelude.{◌<◌};

use fixed_objects::Opening;
use op_core::{Limits, Line, Op, Rows};
use ordinary_machine::Ordinary;
use schedules::{Schedule, next_number};
use std::alloc::{AllocError, Global};
use std::test::Fail;
use toy_code::{Toy, ToyScript, ToyStep};
use turns_cases::{Run, opening};

const SEEDS: u64 = 300;

const LOCKS: [u32; 2] = [1, 3];

const WORDS: u32 = 5;

const THREADS: [u32; 3] = [11, 16, 21];

const LIMITS: Limits = Limits {
    turns: 1000,
    heap: 20,
    sections: 100,
};

/// What a seed draws, one number after the other.
#[derive(Clone, Copy)]
struct Numbers {
    last: u64,
}

impl Numbers {
    /// A number below a bound, which is no 0.
    fn below(&mut self, bound: u32) -> u32
        requires { 0 < bound }
        ensures { result < bound }
    {
        self.last = next_number(self.last);
        (self.last >> 33) as u32 % bound
    }

    fn lock(&mut self) -> u32 {
        match self.below(4) {
            0 => LOCKS[1],
            _ => LOCKS[0],
        }
    }

    /// A step that enters and leaves nothing.
    fn step(&mut self) -> ToyStep {
        let place = self.below(2);
        match self.below(12) {
            0 | 1 => ToyStep::Do(Op::Read(WORDS, place)),
            2 => ToyStep::Show,
            3 => ToyStep::Pass,
            4 => ToyStep::Do(Op::New(1, place)),
            5 => ToyStep::Do(Op::Notify(self.lock())),
            6 => ToyStep::WaitOn(self.lock()),
            _ => ToyStep::Do(Op::Write(WORDS, place, self.below(100))),
        }
    }

    fn priority(&mut self) -> u8 {
        1 + self.below(10) as u8
    }

    /// A print is rare, since it pins its section.
    fn rare_step(&mut self, number: i32) -> ToyStep {
        match self.below(4) {
            0 => ToyStep::Do(Op::Print(Line::Int(number))),
            _ => self.step(),
        }
    }
}

/// Adds some steps under a lock that is entered inside of a section, maybe the lock of the section.
fn add_inner(
    numbers: &mut Numbers,
    steps: &mut Vec<ToyStep>,
    number: i32,
) -> Result<(), AllocError> {
    let lock = numbers.lock();
    steps.push(ToyStep::Do(Op::Enter(lock)))?;
    steps.push(numbers.rare_step(number))?;
    steps.push(ToyStep::Do(Op::Exit(lock)))?;
    Ok(())
}

/// Adds the exits of two locks, mostly of the one first that was entered last.
fn add_exits(
    numbers: &mut Numbers,
    steps: &mut Vec<ToyStep>,
    outer: u32,
    inner: u32,
) -> Result<(), AllocError> {
    let (first, second) = match numbers.below(6) {
        0 => (outer, inner),
        _ => (inner, outer),
    };
    steps.push(ToyStep::Do(Op::Exit(first)))?;
    if numbers.below(2) == 0 {
        steps.push(numbers.step())?;
    }
    steps.push(ToyStep::Do(Op::Exit(second)))?;
    Ok(())
}

/// Adds a section under a lock, with some steps and maybe others of another lock inside.
fn add_section(
    numbers: &mut Numbers,
    steps: &mut Vec<ToyStep>,
    number: i32,
) -> Result<(), AllocError> {
    let lock = numbers.lock();
    let inner = numbers.lock();
    steps.push(ToyStep::Do(Op::Enter(lock)))?;
    for _step in 0..numbers.below(4) {
        steps.push(numbers.step())?;
    }
    if numbers.below(3) == 0 {
        steps.push(numbers.rare_step(number))?;
        steps.push(ToyStep::Do(Op::Exit(lock)))?;
        return Ok(());
    }
    steps.push(ToyStep::Do(Op::Enter(inner)))?;
    steps.push(numbers.rare_step(number))?;
    if numbers.below(3) == 0 {
        add_inner(numbers, steps, number)?;
        steps.push(numbers.step())?;
    }
    add_exits(numbers, steps, lock, inner)
}

fn random_steps(
    alloc: Global,
    numbers: &mut Numbers,
    number: i32,
) -> Result<Vec<ToyStep>, AllocError> {
    let mut steps = Vec::new(alloc);
    for _section in 0..1 + numbers.below(3) {
        add_section(numbers, &mut steps, number)?;
        steps.push(numbers.step())?;
    }
    Ok(steps)
}

/// Main starts the others, and then has steps of its own.
fn main_steps(alloc: Global, numbers: &mut Numbers) -> Result<Vec<ToyStep>, AllocError> {
    let mut steps = Vec::new(alloc);
    for object in THREADS {
        steps.push(ToyStep::Do(Op::Start(object, numbers.priority())))?;
    }
    add_section(numbers, &mut steps, 1)?;
    Ok(steps)
}

fn machine<'a>(
    alloc: Global,
    opening: &Opening,
    scripts: &'a [ToyScript<'a>],
) -> Result<Ordinary<Toy<'a>>, Fail> {
    if !opening.lies_below_first() {
        return Err(Fail::from("new objects lie after the fixed ones"));
    }
    match Ordinary::start(alloc, opening, Toy::new(alloc, scripts, 0)) {
        Ok(machine) => Ok(machine),
        Err(_) => Err(Fail::from("there is no memory")),
    }
}

fn are_same(left: &[Line], right: &[Line]) -> bool {
    if left.len() != right.len() {
        return false;
    }
    for (one, other) in left.iter().zip(right) {
        if *one != *other {
            return false;
        }
    }
    true
}

/// How often it came up in runs that levels were undone, inner ones alone, with a monitor that got its depth of before;
/// and that a compare-exchange was lost, and one that opens or closes a level.
#[derive(Clone, Copy)]
struct Counts {
    undone: usize,
    inner: usize,
    deepened: usize,
    lost: usize,
    lost_levels: usize,
}

const NONE: Counts = Counts {
    undone: 0,
    inner: 0,
    deepened: 0,
    lost: 0,
    lost_levels: 0,
};

impl Counts {
    fn of(run: &Run<'_>) -> Self {
        Counts {
            undone: run.sections().1 as usize,
            inner: run.inner() as usize,
            deepened: run.deepened() as usize,
            lost: run.lost().len(),
            lost_levels: run
                .lost()
                .iter()
                .filter(|kind| **kind == 32 || **kind == 33)
                .count(),
        }
    }

    fn with(self, other: Counts) -> Self {
        Counts {
            undone: self.undone.saturating_add(other.undone),
            inner: self.inner.saturating_add(other.inner),
            deepened: self.deepened.saturating_add(other.deepened),
            lost: self.lost.saturating_add(other.lost),
            lost_levels: self.lost_levels.saturating_add(other.lost_levels),
        }
    }
}

/// What came up in a run, where what is left of it is an execution that printed its lines.
fn counts_of<'a>(
    alloc: Global,
    scripts: &'a [ToyScript<'a>],
    seed: u64,
) -> Result<Option<Counts>, Fail> {
    let mut run = Run::begin(alloc, scripts, LIMITS)?;
    let schedule = Schedule {
        order: Rows::new(alloc),
        seed: Some(seed),
    };
    let _how = run.follow(&schedule)?;
    let events = run.events()?;
    let mut machine = machine(alloc, &opening(alloc)?, scripts)?;
    if machine.replay(&events).is_err() || !are_same(&run.lines()?, machine.lines().as_slice()) {
        return Ok(None);
    }
    Ok(Some(Counts::of(&run)))
}

/// The same of scripts that a seed draws, too.
fn counts_by(alloc: Global, seed: u64) -> Result<Option<Counts>, Fail> {
    let mut numbers = Numbers { last: seed };
    let main = main_steps(alloc, &mut numbers)?;
    let second = random_steps(alloc, &mut numbers, 2)?;
    let third = random_steps(alloc, &mut numbers, 3)?;
    let fourth = random_steps(alloc, &mut numbers, 4)?;
    let scripts = [
        ToyScript {
            object: 0,
            steps: &main,
        },
        ToyScript {
            object: THREADS[0],
            steps: &second,
        },
        ToyScript {
            object: THREADS[1],
            steps: &third,
        },
        ToyScript {
            object: THREADS[2],
            steps: &fourth,
        },
    ];
    counts_of(alloc, &scripts, seed)
}

#[test]
fn what_is_left_of_runs_is_an_execution(rt: HostRuntime) -> Result<(), Fail> {
    let mut counts = NONE;
    for seed in 0..SEEDS {
        let of_seed = counts_by(rt.alloc(), seed)?;
        assert!(rt; of_seed.is_some());
        counts = counts.with(of_seed.unwrap_or(NONE));
    }
    assert!(rt; counts.undone > 50 && counts.inner > 5);
    assert!(rt; counts.deepened > 0 && counts.lost > 0 && counts.lost_levels > 0);
    Ok(())
}
