//! A journal that is read piece by piece.

ghost use Rattle.std.specs.Prelude.{◌≡◌, ◌≤◌, ◌<◌, ◌+◌, ◌++◌, ◌∷◌, [], List, Result, OnErr, OnOk, IfOk, MatchResult, Ok, Err, ℕ};
ghost use Rattle.trace_journal.specs.declared.item.JournalFault.{JournalFault};
ghost use Rattle.trace_journal.specs.declared.item.JournalItem.{JournalItem};
ghost use Rattle.trace_journal.specs.Reading.{Read, IsRead, events_with};
ghost use Rattle.trace_journal.specs.Reader.{ReadsOn, Feeds, LineTakes, line_in};
ghost use Rattle.trace_journal.specs.declared.state.Stage.{Stage};

use crate::head::{Head, head_of, is_end};
use crate::parse::item_in;
use crate::state::{JournalReader, Stage};
use crate::{JournalFault, JournalItem, JournalLimits};
use op_core::NoMemory;
use std::alloc::Global;

// Puts one more at the end of a row, which stays as it was after an error.
pub(crate) fn add<T: Drop>(row: &mut Vec<T>, one: T) -> Result<(), NoMemory>
    ensures added { OnOk result (row.new.items ≡ row.old.items ++ one ∷ []) }
    ensures err { OnErr result (row.new.items ≡ row.old.items) }
{
    match row.push(one) {
        Ok(()) => Ok(()),
        Err(_) => Err(NoMemory),
    }
}

// The stage after the first line of a text.
#[tactic(auto, using(crate::proofs::StageLemmas::head_known, crate::proofs::StageLemmas::head_other, crate::proofs::StageLemmas::head_wrong))]
fn after_head(line: &[u8]) -> Stage
    ensures leads { (most : ℕ) (items : List JournalItem) → LineTakes most line.now Stage.Head 0 0 result 0 0 items items }
    ensures goes { result ≡ Stage.Head → ⊥ }
{
    match head_of(line) {
        Head::Known(version) => Stage::Items(version),
        Head::Other => Stage::Failed(JournalFault::Version),
        Head::Wrong => Stage::Failed(JournalFault::Line(1)),
    }
}

impl JournalReader {
    /// Before the first byte of a text. The limit of items must be at most 4,194,304. Takes no memory.
    pub fn new(alloc: Global, limits: JournalLimits) -> Self
        requires { limits.items ≤ 4194304 }
        ensures reads { (text : List ℕ) (found : Result Read JournalFault) → ReadsOn result text found → IsRead limits text found }
        ensures none { result.count ≡ 0 }
    {
        JournalReader {
            limits,
            stage: Stage::Head,
            count: 0,
            events: 0,
            part: Vec::new(alloc),
            left: limits.bytes,
        }
    }

    /// How many events and undos it has read. The next one is in line `items() + 2`.
    pub fn items(&self) -> u32
        ensures { result ≡ self.now.count }
    {
        self.count
    }

    // Counts an item, and puts it after the others.
    fn keep(&mut self, item: JournalItem, items: &mut Vec<JournalItem>) -> Result<(), NoMemory>
        requires few { self.old.count < self.old.limits.items }
        requires stage { self.old.stage ≡ Stage.Head → ⊥ }
        ensures items { OnOk result (items.new.items ≡ items.old.items ++ item ∷ []) }
        ensures count { OnOk result (self.new.count ≡ self.old.count + 1) }
        ensures events { OnOk result (self.new.events ≡ events_with self.old.events item) }
        ensures limits { OnOk result (self.new.limits ≡ self.old.limits) }
        ensures part { OnOk result (self.new.part ≡ self.old.part) }
        ensures left { OnOk result (self.new.left ≡ self.old.left) }
        ensures stage { OnOk result (self.new.stage ≡ self.old.stage) }
    {
        add(items, item)?;
        self.count += 1;
        if let JournalItem::Event(_) = item {
            self.events += 1;
        }
        Ok(())
    }

    // The stage after a line that has to be an event, an undo or the end.
    #[tactic(auto, using(crate::proofs::StageLemmas::wrong_line, crate::proofs::StageLemmas::too_many, crate::proofs::StageLemmas::one_more, crate::proofs::StageLemmas::at_end))]
    fn after_line(&mut self, version: u8, items: &mut Vec<JournalItem>) -> Result<Stage, NoMemory>
        requires { self.old.stage ≡ Stage.Items version }
        ensures leads { IfOk result (λ stage. LineTakes self.old.limits.items self.old.part.items (Stage.Items version) self.old.count self.old.events stage self.new.count self.new.events items.old.items items.new.items) }
        ensures goes { IfOk result (λ stage. stage ≡ Stage.Head → ⊥) }
        ensures limits { OnOk result (self.new.limits ≡ self.old.limits) }
        ensures part { OnOk result (self.new.part ≡ self.old.part) }
        ensures left { OnOk result (self.new.left ≡ self.old.left) }
    {
        if is_end(&self.part, self.events) {
            return Ok(Stage::Closed(version));
        }
        let Some(item) = item_in(version, &self.part) else {
            return Ok(Stage::Failed(JournalFault::Line(self.count + 2)));
        };
        if self.count >= self.limits.items {
            return Ok(Stage::Failed(JournalFault::TooMany(self.count + 2)));
        }
        self.keep(item, items)?;
        Ok(Stage::Items(version))
    }

    // The stage after the line that the reader is in.
    #[tactic(auto, using(crate::proofs::StageLemmas::after_end, crate::proofs::StageLemmas::failed))]
    fn next_stage(&mut self, items: &mut Vec<JournalItem>) -> Result<Stage, NoMemory>
        ensures leads { IfOk result (λ stage. LineTakes self.old.limits.items self.old.part.items self.old.stage self.old.count self.old.events stage self.new.count self.new.events items.old.items items.new.items) }
        ensures goes { IfOk result (λ stage. stage ≡ Stage.Head → ⊥) }
        ensures limits { OnOk result (self.new.limits ≡ self.old.limits) }
        ensures part { OnOk result (self.new.part ≡ self.old.part) }
        ensures left { OnOk result (self.new.left ≡ self.old.left) }
    {
        match self.stage {
            Stage::Head => Ok(after_head(&self.part)),
            Stage::Items(version) => self.after_line(version, items),
            Stage::Closed(_) => Ok(Stage::Failed(JournalFault::Line(self.count + 3))),
            Stage::Failed(fault) => Ok(Stage::Failed(fault)),
        }
    }

    // The line that the reader is in has ended.
    #[tactic(auto, using(crate::proofs::FeedLemmas::line_feeds))]
    fn end_line(&mut self, items: &mut Vec<JournalItem>) -> Result<(), NoMemory>
        requires { 0 < self.old.left }
        ensures { OnOk result (Feeds self.old self.new (10 ∷ []) items.old.items items.new.items) }
    {
        let stage = self.next_stage(items)?;
        self.part.clear();
        self.left -= 1;
        self.stage = stage;
        Ok(())
    }

    // The line that the next byte is in, counted from 1.
    fn line(&self) -> u32
        ensures { result ≡ line_in self.now.stage self.now.count }
    {
        match self.stage {
            Stage::Head => 1,
            Stage::Items(_) => self.count + 2,
            Stage::Closed(_) | Stage::Failed(_) => self.count + 3,
        }
    }

    // Reads one byte.
    #[tactic(auto, using(crate::proofs::FeedLemmas::byte_feeds, crate::proofs::FeedLemmas::past_feeds, crate::proofs::FeedLemmas::failed_feeds, crate::proofs::FeedLemmas::inside_more))]
    fn read(&mut self, byte: u8, items: &mut Vec<JournalItem>) -> Result<(), NoMemory>
        ensures { OnOk result (Feeds self.old self.new (byte ∷ []) items.old.items items.new.items) }
    {
        if let Stage::Failed(_) = self.stage {
            return Ok(());
        }
        if self.left == 0 {
            self.stage = Stage::Failed(JournalFault::TooMany(self.line()));
            return Ok(());
        }
        if byte == b'\n' {
            return self.end_line(items);
        }
        add(&mut self.part, byte)?;
        self.left -= 1;
        Ok(())
    }

    /// Reads a piece of the text, and puts the items whose lines end in it after the others. It fails where memory runs
    /// out alone; then part of the piece was read.
    #[tactic(auto, using(crate::proofs::FeedLemmas::nothing_feeds, crate::proofs::FeedLemmas::more_feeds, crate::proofs::FeedLemmas::all_feeds))]
    pub fn feed(&mut self, piece: &[u8], items: &mut Vec<JournalItem>) -> Result<(), NoMemory>
        ensures { OnOk result (Feeds self.old self.new piece.now items.old.items items.new.items) }
    {
        for byte in piece {
            self.read(*byte, items)?;
        }
        Ok(())
    }

    /// The text has ended: its version, or its first fault.
    #[tactic(auto, using(crate::proofs::FeedLemmas::closes, crate::proofs::FeedLemmas::head_breaks, crate::proofs::FeedLemmas::items_break, crate::proofs::FeedLemmas::closed_breaks, crate::proofs::FeedLemmas::fails))]
    pub fn finish(self) -> Result<u8, JournalFault>
        ensures { MatchResult result (λ version. ReadsOn self [] (Ok (record { version = version; items = [] }))) (λ fault. ReadsOn self [] (Err fault)) }
    {
        match self.stage {
            Stage::Head => Err(JournalFault::Line(1)),
            Stage::Items(_) => Err(JournalFault::Line(self.count + 2)),
            Stage::Closed(version) => {
                if self.part.is_empty() {
                    Ok(version)
                } else {
                    Err(JournalFault::Line(self.count + 3))
                }
            }
            Stage::Failed(fault) => Err(fault),
        }
    }
}
