//! What a thread makes of the words of objects and sections that it has loaded.

ghost use Rattle.std.specs.Prelude.{◌≡◌, ◌<◌, ◌^◌};
ghost use Rattle.section_state.specs.SectionWord.{pinned_of};
ghost use Rattle.heap_words.specs.Words.{tag_of};
ghost use Rattle.monitor_core.specs.Contention.{is_in};
ghost use Rattle.thread_automaton.specs.Checks.{behind_pin, to_pin, is_safe, written_word, if_safe, word_loaded, own_seen, met, holder_seen, tag_seen, section_loaded};
ghost use Rattle.thread_moves.specs.Thread.{thread_of};
ghost use Rattle.thread_moves.specs.Change.{change_meant, IsPlain};

use crate::{JThread, ThreadChange};
use heap_words::{Header, HeapWord, Tag, WaitWord};
use monitor_core::{Contend, Why, contend_with};
use op_core::{Next, Op, Reply, ThreadCode};
use section_state::{State, pinned_of, section_parts};
use step_port::Step;
use thread_automaton::Attempt;

/// Whether the section of this word is in the state.
pub fn is_in(state: State, section: u64) -> bool
    ensures { result ≡ is_in state section }
{
    match section_parts(section) {
        Some(parts) => parts.state.number() == state.number(),
        None => false,
    }
}

impl<C: ThreadCode> JThread<C> {
    // Where the attempt goes on once the own section is pinned in its midst.
    pub(crate) fn behind_pin(&self, next: Next) -> Attempt
        ensures { result ≡ behind_pin (thread_of C.state C.saved self.now) next }
    {
        match next {
            Next::Want(Op::Exit(object)) => Attempt::Fixed(Step::Release(object)),
            Next::Want(Op::Wait(object)) => Attempt::Fixed(Step::SetWait(
                self.own.number,
                WaitWord::Waiting(object).pack(),
            )),
            Next::Want(Op::Notify(_)) => Attempt::Fixed(Step::LoadWait(1)),
            Next::Want(Op::Start(_, _)) => Attempt::Fixed(Step::DrawThread),
            Next::Want(Op::Init(class)) => Attempt::Fixed(Step::ClaimClass(class, self.own.number)),
            _ => Attempt::Checked,
        }
    }

    pub(crate) fn to_pin(&self, next: Next) -> Attempt
        ensures { result ≡ to_pin (thread_of C.state C.saved self.now) next }
    {
        if self.is_open() {
            Attempt::Fixed(self.own_pin())
        } else {
            self.behind_pin(next)
        }
    }

    /// Whether the thread may read or overwrite this word of an object at once: no section wrote it, or its own one did, or one
    /// of which the thread knows that it stays.
    pub fn is_safe(&self, word: u64) -> bool
        ensures { result ≡ is_safe (thread_of C.state C.saved self.now) word }
    {
        let packed = HeapWord::unpack(word).tag;
        let tag = Tag::unpack(packed);
        let is_known = tag.section == self.own.known && tag.level <= self.own.known_depth;
        packed == 0 || tag.section == self.own.section || is_known
    }

    // The word that is written.
    fn written_word(&self, value: u32) -> u64
        ensures { result ≡ written_word (thread_of C.state C.saved self.now) value }
    {
        let tag = Tag {
            section: self.own.section,
            level: self.own.levels,
        };
        let word = HeapWord {
            value,
            tag: tag.pack(),
        };
        word.pack()
    }

    fn if_safe(&self, word: u64, change: ThreadChange) -> ThreadChange
        requires { IsPlain change }
        ensures meant { change_meant (thread_of C.state C.saved self.now) result
            ≡ if_safe (thread_of C.state C.saved self.now) word (change_meant (thread_of C.state C.saved self.now) change) }
        ensures plain { IsPlain result }
    {
        if self.is_safe(word) {
            change
        } else {
            let tag = Tag::unpack(HeapWord::unpack(word).tag);
            ThreadChange::Goes(Attempt::Meets(tag.section, tag.level))
        }
    }

    pub(crate) fn word_loaded(&self, next: Next, at: u32, word: u64) -> ThreadChange
        ensures meant { change_meant (thread_of C.state C.saved self.now) result
            ≡ word_loaded (thread_of C.state C.saved self.now) next at word }
        ensures plain { IsPlain result }
    {
        match next {
            Next::Want(Op::ClassOf(_)) => {
                let header = Header::unpack(word);
                ThreadChange::Replies(Reply::Class(header.class, header.length))
            }
            Next::Want(Op::Write(_, _, value)) => {
                let swap = Step::SwapWord(at, word, self.written_word(value));
                self.if_safe(word, ThreadChange::Goes(Attempt::Fixed(swap)))
            }
            _ => {
                let value = HeapWord::unpack(word).value;
                self.if_safe(word, ThreadChange::Replies(Reply::Value(value)))
            }
        }
    }

    fn own_seen(&self, word: u64) -> ThreadChange
        ensures meant { change_meant (thread_of C.state C.saved self.now) result ≡ own_seen word }
        ensures plain { IsPlain result }
    {
        if is_in(State::Revoking, word) {
            ThreadChange::Goes(Attempt::Undoing(word))
        } else {
            ThreadChange::SeesPinned(pinned_of(word), Attempt::Checked)
        }
    }

    fn holder_seen(&self, section: u32, level: u8, word: u64) -> ThreadChange
        ensures meant { change_meant (thread_of C.state C.saved self.now) result
            ≡ holder_seen (thread_of C.state C.saved self.now) section level word }
        ensures plain { IsPlain result }
    {
        match contend_with(word, level, self.own.priority) {
            Contend::Revoke(to) => {
                ThreadChange::Goes(Attempt::Fixed(Step::Revoke(section, word, to)))
            }
            Contend::Busy(why) => ThreadChange::HasToWait(why),
            Contend::Free | Contend::Own => unreachable!(),
        }
    }

    fn tag_seen(&self, section: u32, level: u8, word: u64) -> ThreadChange
        ensures meant { change_meant (thread_of C.state C.saved self.now) result ≡ tag_seen section level word }
        ensures plain { IsPlain result }
    {
        if is_in(State::Committed, word) {
            ThreadChange::Knows(section, 255)
        } else if is_in(State::Undone, word) {
            ThreadChange::Goes(Attempt::Checked)
        } else if is_in(State::Live, word) {
            let pinned = pinned_of(word);
            if level <= pinned {
                ThreadChange::Knows(section, pinned)
            } else {
                ThreadChange::Goes(Attempt::Fixed(Step::Pin(section, word, level)))
            }
        } else {
            ThreadChange::HasToWait(Why::WordRevoking(section))
        }
    }

    pub(crate) fn section_loaded(&self, next: Next, section: u32, word: u64) -> ThreadChange
        ensures meant { change_meant (thread_of C.state C.saved self.now) result
            ≡ section_loaded (thread_of C.state C.saved self.now) next self.now.own.attempt section word }
        ensures plain { IsPlain result }
    {
        match (self.own.attempt, next) {
            (Attempt::Meets(_, level), Next::Want(Op::Enter(_) | Op::Rewake(_))) => {
                self.holder_seen(section, level, word)
            }
            (Attempt::Meets(_, level), _) => self.tag_seen(section, level, word),
            _ => self.own_seen(word),
        }
    }
}
