//! How far the check of a journal has come.

ghost use Rattle.std.specs.Prelude.{◌≡◌, ◌+◌, ◌<◌, ◌≤◌, ◌^◌, ◌∷◌, [], ℕ, OnOk, length, ◌++◌};
ghost use Rattle.journal_check.specs.Checking.{Judges};

use op_core::{Event, NoMemory, ThreadCode};
use ordinary_machine::{Ordinary, StepRefusal};
use trace_journal::JournalItem;

/// What the events so far came to.
#[derive(Drop)]
pub(crate) enum Progress<C> {
    /// Each of them was a step, and this is the machine after the last one.
    Going(Ordinary<C>),
    /// The event in this line was none.
    Refused(u32),
}

impl<C: ThreadCode + Drop> Progress<C> {
    // Makes the step of the event in a line. After an error the check can't go on.
    #[tactic(auto, using(crate::proofs::ProgressLemmas::made, crate::proofs::ProgressLemmas::refused, crate::proofs::ProgressLemmas::stays))]
    fn step(&mut self, line: u32, event: &Event) -> Result<(), NoMemory>
        ensures { OnOk result (Judges C.code C.state self.old self.new line (JournalItem.Event event.now ∷ [])) }
    {
        let Progress::Going(machine) = self else {
            return Ok(());
        };
        match machine.step_on(event) {
            Ok(()) => Ok(()),
            Err(StepRefusal::NoMemory) => Err(NoMemory),
            Err(_) => {
                *self = Progress::Refused(line);
                Ok(())
            }
        }
    }

    // Goes on over the item in a line.
    #[tactic(auto, using(crate::proofs::ProgressLemmas::undone))]
    fn judge(&mut self, line: u32, item: &JournalItem) -> Result<(), NoMemory>
        ensures { OnOk result (Judges C.code C.state self.old self.new line (item.now ∷ [])) }
    {
        match item {
            JournalItem::Event(event) => self.step(line, event),
            JournalItem::Undone { .. } => Ok(()),
        }
    }

    /// Goes on over some items, the first of which is in this line. After an error the check can't go on.
    #[tactic(auto, using(crate::proofs::ProgressLemmas::no_items, crate::proofs::ProgressLemmas::one_more, crate::proofs::ProgressLemmas::all_items))]
    pub(crate) fn judge_all(&mut self, first: u32, items: &[JournalItem]) -> Result<(), NoMemory>
        requires { first + length items.now < 2 ^ 32 }
        ensures { OnOk result (Judges C.code C.state self.old self.new first items.now) }
    {
        for (index, item) in items.iter().enumerate() {
            self.judge(first + index as u32, item)?;
        }
        Ok(())
    }
}
