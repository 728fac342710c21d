//! A journal that is checked as it is read.

ghost use Rattle.std.specs.Prelude.{◌≡◌, ◌+◌, ◌++◌, ◌∷◌, [], ℕ, List, Result, Ok, Err, OnOk, MatchResult};
ghost use Rattle.ordinary_machine.specs.Machine.{Machine, machine_of};
ghost use Rattle.journal_check.specs.Checked.{IsChecked};
ghost use Rattle.journal_check.specs.Checking.{ChecksOn};

use crate::progress::Progress;
use op_core::{NoMemory, ThreadCode};
use ordinary_machine::Ordinary;
use std::alloc::Global;
use trace_journal::{JournalReader, LARGEST};

/// Reads the text of a journal piece by piece, and makes the steps of its events on a machine. It keeps no event.
#[derive(Drop)]
pub struct Checking<C> {
    pub(crate) progress: Progress<C>,
    pub(crate) reader: JournalReader,
    alloc: Global,
}

impl<C: ThreadCode + Drop> Checking<C> {
    /// Before the first byte of a text, whose events are to be steps from this machine on. Takes no memory.
    pub fn new(alloc: Global, machine: Ordinary<C>) -> Self
        ensures { (text : List ℕ) (found : Result (Machine C.State) ℕ) → ChecksOn C.code C.state result text found → IsChecked C.code (machine_of C.state machine) text found }
    {
        Checking {
            progress: Progress::Going(machine),
            reader: JournalReader::new(alloc, LARGEST),
            alloc,
        }
    }

    /// Reads a piece of the text and makes the steps of the events whose lines end in it, up to the first event that is no
    /// step. It fails only when memory runs out; then the check can't go on.
    #[tactic(auto, using(crate::proofs::CheckingLemmas::feeds))]
    pub fn feed(&mut self, piece: &[u8]) -> Result<(), NoMemory>
        ensures { OnOk result ((more : List ℕ) (found : Result (Machine C.State) ℕ) → ChecksOn C.code C.state self.new more found → ChecksOn C.code C.state self.old (piece.now ++ more) found) }
    {
        let first = self.reader.items() + 2;
        let mut items = Vec::new(self.alloc);
        self.reader.feed(piece, &mut items)?;
        self.progress.judge_all(first, &items)
    }

    /// The text has ended. Gives the machine after the last event, or the line that shows why the text is no journal of an
    /// execution: that of the first fault of the text, or where it has none that of the first event that is no step.
    #[tactic(auto, using(crate::proofs::CheckingLemmas::ends_in_fault, crate::proofs::CheckingLemmas::ends_going, crate::proofs::CheckingLemmas::ends_refused))]
    pub fn finish(self) -> Result<Ordinary<C>, u32>
        ensures { MatchResult result (λ machine. ChecksOn C.code C.state self [] (Ok (machine_of C.state machine))) (λ line. ChecksOn C.code C.state self [] (Err line)) }
    {
        match self.reader.finish() {
            Err(fault) => Err(fault.line()),
            Ok(_) => match self.progress {
                Progress::Going(machine) => Ok(machine),
                Progress::Refused(line) => Err(line),
            },
        }
    }
}
