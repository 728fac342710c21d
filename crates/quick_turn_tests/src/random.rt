//! Random scripts.

ghost use Rattle.std.specs.Prelude.{◌<◌};

use crate::run::{LOCK, OTHER, WORDS};
use op_core::{Line, Op};
use schedules::next_number;
use std::alloc::{AllocError, Global};
use toy_code::ToyStep;

/// How many blocks a script has.
const BLOCKS: u32 = 4;

/// What a seed draws, one number after the other.
#[derive(Clone, Copy)]
pub struct Numbers {
    pub last: u64,
}

impl Numbers {
    /// A number below a bound, which is no 0.
    fn below(&mut self, bound: u32) -> u32
        requires { 0 < bound }
        ensures { result < bound }
    {
        self.last = next_number(self.last);
        (self.last >> 33) as u32 % bound
    }

    fn lock(&mut self) -> u32 {
        match self.below(3) {
            0 => OTHER,
            _ => LOCK,
        }
    }

    /// A step that enters and leaves nothing.
    fn step(&mut self) -> ToyStep {
        let place = self.below(2);
        match self.below(16) {
            0..=4 => ToyStep::Do(Op::Read(WORDS, place)),
            5 => ToyStep::Do(Op::ClassOf(WORDS)),
            6 => ToyStep::Pass,
            7 => ToyStep::Do(Op::Print(Line::Empty)),
            8 => ToyStep::WaitOn(LOCK),
            9 => ToyStep::Do(Op::Notify(LOCK)),
            _ => ToyStep::Do(Op::Write(WORDS, place, self.below(100))),
        }
    }
}

fn add_steps(numbers: &mut Numbers, steps: &mut Vec<ToyStep>) -> Result<(), AllocError> {
    for _step in 0..numbers.below(4) {
        steps.push(numbers.step())?;
    }
    Ok(())
}

/// Adds a section under a lock, maybe with another one inside, and some steps after it.
fn add_block(numbers: &mut Numbers, steps: &mut Vec<ToyStep>) -> Result<(), AllocError> {
    let lock = numbers.lock();
    steps.push(ToyStep::Do(Op::Enter(lock)))?;
    add_steps(numbers, steps)?;
    if numbers.below(2) == 0 {
        let inner = numbers.lock();
        steps.push(ToyStep::Do(Op::Enter(inner)))?;
        add_steps(numbers, steps)?;
        steps.push(ToyStep::Do(Op::Exit(inner)))?;
        add_steps(numbers, steps)?;
    }
    steps.push(ToyStep::Do(Op::Exit(lock)))?;
    add_steps(numbers, steps)
}

/// The steps of a random script.
pub fn script(alloc: Global, numbers: &mut Numbers) -> Result<Vec<ToyStep>, AllocError> {
    let mut steps = Vec::new(alloc);
    for _block in 0..BLOCKS {
        add_block(numbers, &mut steps)?;
    }
    Ok(steps)
}
