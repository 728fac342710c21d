//! What is answered to a program that is accepted.

use crate::answers::accepted;
use op_core::NoMemory;
use program_accept::Program;
use program_answers::Answer;
use std::alloc::Global;

/// What is answered to a program that is accepted.
pub trait Verdict {
    ghost use Rattle.std.specs.Prelude.{ℕ, IfOk};
    ghost use Rattle.accepted_runs.specs.Programs.{IsOfFiles};
    ghost use Rattle.program_accept.specs.Accepted.{Accepted};
    ghost use Rattle.program_answers.specs.declared.answer.Answer.{Answer};

    /// What holds of the answer to a program of `count` classes.
    ghost answers: { Self → ℕ → Accepted → Answer → Type 0 };

    /// The answer to a program of `count` classes. It fails only when memory runs out.
    fn answer(&self, alloc: Global, count: usize, accepted: &Program) -> Result<Answer, NoMemory>
        requires { IsOfFiles accepted.now }
        ensures { IfOk result (λ answer. answers self.now count accepted.now answer) };
}

/// How many classes were read.
#[derive(Clone, Copy)]
pub struct Count;

impl Verdict for Count {
    ghost use Rattle.file_answers.specs.Answers.{Counts};

    ghost answers = { λ _. Counts };

    fn answer(&self, alloc: Global, count: usize, _accepted: &Program) -> Result<Answer, NoMemory> {
        Ok(accepted(alloc, count)?)
    }
}
