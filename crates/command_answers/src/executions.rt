//! Runs of a program that is accepted, and journals of them.

ghost use Rattle.std.specs.Prelude.{IfOk, ◌<◌, ◌^◌};

use file_answers::Verdict;
use java_run::{execute, trace};
use java_world::JavaWorld;
use op_core::{Limits, NoMemory};
use program_accept::Program;
use program_answers::Answer;
use schedules::Schedule;
use std::alloc::Global;

/// A run of the program by a schedule and under limits, with its counts where they are asked for. There are fewer than 2^24
/// sections, and fewer than 2^56 turns of each thread.
#[derive(Clone, Copy)]
pub struct Execution<'a> {
    pub schedule: &'a Schedule,
    pub limits: &'a Limits,
    pub counts: bool,
    ghost sections: { limits.now.sections < 2 ^ 24 },
    ghost turns: { limits.now.turns < 2 ^ 56 },
}

impl<'a> Verdict for Execution<'a> {
    ghost use Rattle.command_answers.specs.Answers.{Runs};

    ghost answers = { λ e. Runs e.schedule.now e.limits.now e.counts };

    fn answer(&self, alloc: Global, _count: usize, accepted: &Program) -> Result<Answer, NoMemory> {
        let program = JavaWorld::new(alloc, accepted)?;
        execute(
            alloc,
            &program,
            accepted,
            self.schedule,
            self.limits,
            self.counts,
        )
    }
}

/// The journal of a run of the program by a schedule and under limits. There are fewer than 2^24 sections, and fewer than 2^56 turns
/// of each thread.
#[derive(Clone, Copy)]
pub struct Tracing<'a> {
    pub schedule: &'a Schedule,
    pub limits: &'a Limits,
    ghost sections: { limits.now.sections < 2 ^ 24 },
    ghost turns: { limits.now.turns < 2 ^ 56 },
}

impl<'a> Verdict for Tracing<'a> {
    ghost use Rattle.command_answers.specs.Answers.{Traces};

    ghost answers = { λ t. Traces t.schedule.now t.limits.now };

    fn answer(&self, alloc: Global, _count: usize, accepted: &Program) -> Result<Answer, NoMemory> {
        let program = JavaWorld::new(alloc, accepted)?;
        trace(alloc, &program, accepted, self.schedule, self.limits)
    }
}
