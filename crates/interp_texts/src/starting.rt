//! How a method that reads or makes texts begins.

ghost use Rattle.std.specs.Prelude.{◌≡◌, List, ℕ};
ghost use Rattle.code_decode.specs.declared.code.ClassUnit.{ClassUnit};
ghost use Rattle.op_core.specs.declared.Next.{Next};
ghost use Rattle.java_rows.specs.Plan.{Use};
ghost use Rattle.java_rows.specs.Thread.{next_of};
ghost use Rattle.text_stages.specs.Stages.{stage_plan, start_of};
ghost use Rattle.interp_plans.specs.Jobs.{job_of};
ghost use Rattle.interp_texts.specs.Meaning.{stage_of};

use crate::stage::{Part, TextStage};
use builtin_world::word::{BUILDER_TEXT, STRING_UNITS};
use frame_snapshot::TextJob;
use op_core::Op;

/// The stage at which a method begins.
pub(crate) fn first_stage(job: TextJob) -> TextStage
    ensures { stage_of result ≡ start_of (job_of job) }
{
    match job {
        TextJob::Lengthens(string)
        | TextJob::Picks { string, .. }
        | TextJob::Joins { string, .. }
        | TextJob::Copies { string, .. } => TextStage::AsksWord {
            part: Part::First,
            string,
        },
        TextJob::Matches { .. } => TextStage::AsksOther,
        TextJob::Extends { .. } | TextJob::Measures(_) | TextJob::Tells(_) => {
            TextStage::AsksBuilder
        }
    }
}

/// The first operation of a method.
pub fn first_op(job: TextJob) -> Op
    ensures { (us : List ClassUnit) (u : Use) (a b m : List ℕ) → Next.Want result ≡ next_of (stage_plan us u (job_of job) (start_of (job_of job)) a b m) }
{
    match job {
        TextJob::Lengthens(string)
        | TextJob::Picks { string, .. }
        | TextJob::Joins { string, .. }
        | TextJob::Copies { string, .. } => Op::Read(string, STRING_UNITS),
        TextJob::Matches { other, .. } => Op::ClassOf(other),
        TextJob::Extends { builder, .. } | TextJob::Measures(builder) | TextJob::Tells(builder) =>
            Op::Read(builder, BUILDER_TEXT),
    }
}
