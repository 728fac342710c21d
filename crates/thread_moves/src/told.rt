//! What a turn reports of the step that it made.

ghost use Rattle.std.specs.Prelude.{◌≡◌};
ghost use Rattle.thread_automaton.specs.Told.{shown, told_by, told_unseen, told_of};
ghost use Rattle.step_port.specs.Steps.{effect_of};
ghost use Rattle.thread_moves.specs.Thread.{thread_of};
ghost use Rattle.thread_moves.specs.Change.{change_meant};
ghost use Rattle.thread_moves.specs.Told.{told_meant};

use crate::{JThread, ThreadChange};
use monitor_core::Why;
use op_core::{Next, Op, Reply, ThreadCode};
use step_port::{Effect, Step, StepAnswer};
use thread_automaton::Attempt;

/// What a turn reports of the step that it made.
#[derive(Clone, Copy)]
pub enum StepTold {
    /// A load, after which the attempt goes on.
    Probed,
    /// A step that counts, with the reply that others can see, if there is one.
    Advanced(Option<Reply>),
    /// A started thread is handed out.
    Born,
    /// A compare-exchange that found this word.
    Lost(u64),
    /// A load after which the attempt ends, since the thread has to wait.
    Blocked(Why),
}

fn told_by(next: Next, step: Step) -> StepTold
    ensures { told_meant result ≡ told_by step (effect_of step) next }
{
    match (step, next) {
        (Step::LoadWait(_), Next::Want(Op::Notify(_))) => StepTold::Advanced(None),
        _ => match step.effect() {
            Effect::Load => StepTold::Probed,
            _ => StepTold::Advanced(None),
        },
    }
}

impl<C: ThreadCode> JThread<C> {
    // The reply that others can see.
    #[tactic(auto, using(crate::proofs::ToldLemmas::left_shown))]
    fn shown(&self, change: ThreadChange) -> Option<Reply>
        ensures { result ≡ shown (change_meant (thread_of C.state C.saved self.now) change) }
    {
        match change {
            ThreadChange::Replies(reply) => Some(reply),
            ThreadChange::Goes(Attempt::Fixed(Step::Split(thread, _, _))) => {
                Some(Reply::Number(thread))
            }
            ThreadChange::Writes(_)
            | ThreadChange::Takes(_)
            | ThreadChange::Deepens(_, _)
            | ThreadChange::Leaves(_)
            | ThreadChange::Waits(_)
            | ThreadChange::Prints(_, _)
            | ThreadChange::Ends => Some(Reply::Done),
            _ => None,
        }
    }

    #[tactic(auto, using(crate::proofs::ToldLemmas::left_unseen))]
    fn told_unseen(&self, next: Next, step: Step, change: ThreadChange) -> StepTold
        ensures { told_meant result ≡ told_unseen next step (change_meant (thread_of C.state C.saved self.now) change) }
    {
        match change {
            ThreadChange::HasToWait(why) => StepTold::Blocked(why),
            _ => told_by(next, step),
        }
    }

    /// What a turn reports after it made the step, where the thread's code says `next`, got this answer, and changes the thread
    /// like this.
    pub fn told(&self, next: Next, step: Step, answer: StepAnswer, change: ThreadChange) -> StepTold
        ensures { told_meant result ≡ told_of next step answer (change_meant (thread_of C.state C.saved self.now) change)
            (shown (change_meant (thread_of C.state C.saved self.now) change)) }
    {
        match (answer, step) {
            (StepAnswer::Lost(found), _) => StepTold::Lost(found),
            (_, Step::Split(_, _, _)) => StepTold::Born,
            _ => match self.shown(change) {
                Some(reply) => StepTold::Advanced(Some(reply)),
                None => self.told_unseen(next, step, change),
            },
        }
    }
}
