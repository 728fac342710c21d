//! The lines of a journal, made one after another.

ghost use Rattle.std.specs.Prelude.{◌≡◌, ◌≤◌, ◌∷◌, [], ◌++◌, ℕ, List, length, string_bytes, Ok, OnOk, OnErr, true, false};
ghost use Rattle.trace_journal.specs.declared.place.Place.{Place};
ghost use Rattle.trace_journal.specs.Text.{ended, merged, text_lines};
ghost use Rattle.trace_journal.specs.Lines.{is_undo_due, lines_left, HasLine, ComesNext};

use crate::place::{JournalLines, Place};
use crate::{JournalItem, push_end, push_head, push_item};
use op_core::{Event, Undo};
use std::alloc::AllocError;

impl<'a> JournalLines<'a> {
    /// None of the lines was made yet. There are at most 4,194,304 events. The undos must come in order, at most after all
    /// events, or some have no line.
    #[tactic(auto, using(crate::proofs::LinesLemmas::begins))]
    pub fn new(events: &'a [Event], undos: &'a [Undo]) -> Self
        requires { length events.now ≤ 4194304 }
        ensures { lines_left result ≡ text_lines 2 (merged 0 events.now undos.now) }
    {
        JournalLines {
            events,
            undos,
            place: Place::Head,
            event: 0,
            undo: 0,
        }
    }

    // Whether the next line is that of an undo.
    fn is_undo_due(&self) -> bool
        ensures { result ≡ is_undo_due self.now.undos.now self.now.undo self.now.event }
    {
        match self.undos.get(self.undo) {
            Some(undo) => undo.after as usize == self.event,
            None => false,
        }
    }

    // Puts the line of the undo that is next.
    #[tactic(auto, using(crate::proofs::LinesLemmas::due_within, crate::proofs::LinesLemmas::undo_next))]
    fn push_undo(&mut self, line: &mut String) -> Result<(), AllocError>
        requires place { self.old.place ≡ Place.Inside }
        requires due { is_undo_due self.old.undos.now self.old.undo self.old.event ≡ true }
        ensures { OnOk result (ComesNext self.old self.new (string_bytes line.old) (string_bytes line.new)) }
    {
        let undo = self.undos[self.undo];
        let item = JournalItem::Undone {
            thread: undo.thread,
            level: undo.level,
            words: undo.words,
        };
        push_item(line, &item)?;
        self.undo += 1;
        Ok(())
    }

    // Puts the line of the event that is next, or the last line.
    #[tactic(auto, using(crate::proofs::LinesLemmas::event_next, crate::proofs::LinesLemmas::end_next))]
    fn push_event(&mut self, line: &mut String) -> Result<(), AllocError>
        requires place { self.old.place ≡ Place.Inside }
        requires due { is_undo_due self.old.undos.now self.old.undo self.old.event ≡ false }
        ensures { OnOk result (ComesNext self.old self.new (string_bytes line.old) (string_bytes line.new)) }
    {
        if self.event < self.events.len() {
            push_item(line, &JournalItem::Event(self.events[self.event]))?;
            self.event += 1;
        } else {
            push_end(line, self.event as u32)?;
            self.place = Place::Over;
        }
        Ok(())
    }

    // Puts the first line.
    #[tactic(auto, using(crate::proofs::LinesLemmas::head_next))]
    fn push_first(&mut self, line: &mut String) -> Result<(), AllocError>
        requires { self.old.place ≡ Place.Head }
        ensures { OnOk result (ComesNext self.old self.new (string_bytes line.old) (string_bytes line.new)) }
    {
        push_head(line, 2)?;
        self.place = Place::Inside;
        Ok(())
    }

    /// Puts the next line, with the byte 10 that ends it, at the end of a text, or says that there is none. After an error
    /// part of the line may be there.
    #[tactic(auto, using(crate::proofs::LinesLemmas::none_left, crate::proofs::LinesLemmas::line_ends, crate::proofs::LinesLemmas::has_line))]
    pub fn push_next(&mut self, text: &mut String) -> Result<bool, AllocError>
        ensures more { result ≡ Ok true → (l : List ℕ) × (lines_left self.old ≡ l ∷ lines_left self.new) × (string_bytes text.new ≡ string_bytes text.old ++ ended l) }
        ensures none { result ≡ Ok false → (lines_left self.old ≡ []) × (text.new ≡ text.old) }
        ensures err { OnErr result (HasLine (lines_left self.old)) }
    {
        match self.place {
            Place::Head => self.push_first(text)?,
            Place::Inside if self.is_undo_due() => self.push_undo(text)?,
            Place::Inside => self.push_event(text)?,
            Place::Over => return Ok(false),
        }
        text.push_str("\n")?;
        Ok(true)
    }
}
