//! The attempts of a host at the operations of its code.

ghost use Rattle.std.specs.Prelude.{◌≡◌, ◌+◌, ◌-◌, ◌≤◌, ◌<◌, ℕ, true, false, IsTrue, IfSome, IfNone};
ghost use Rattle.op_core.specs.Replies.{Fits};
ghost use Rattle.op_core.specs.declared.Op.{Op};
ghost use Rattle.heap_words.specs.declared.areas.Area.{Area};
ghost use Rattle.step_port.specs.declared.step.Step.{Step};
ghost use Rattle.step_port.specs.declared.answer.StepAnswer.{StepAnswer};
ghost use Rattle.quick_turns.specs.Usual.{is_awaited_by_none};
ghost use Rattle.quick_turns.specs.Place.{HostAnswers, HostDeclines, HostMayAsk};
ghost use Rattle.turn_runs.specs.Own.{has_unseen_level};
ghost use Rattle.quick_turns.specs.Paths.{HasTurns, IsAsSeen, IsOfWord, KnowsWriter, LooksAtOwnSection, LooksAtWriter, ReachesWord};
ghost use Rattle.quick_turns.specs.Borrowed.{host_place, SameBorrows};

use crate::WordSight;
use crate::host::TurnHost;
use crate::own::{LOAD_CLASS, LOAD_SECTION, count_write, is_initialized, know, make_log_room};
use heap_words::{Header, HeapWord, Tag};
use op_core::{Op, Reply, ThreadCode};
use section_state::{State, pinned_of};
use step_port::StepPort;
use thread_moves::is_in;
use turn_runs::{LOAD_WORD, count_event, has_unseen_level, is_safe, probe, written_word};

/// The most turns that an answer takes.
const LONGEST: u64 = 5;

impl<'a, C: ThreadCode, P: StepPort, W: WordSight<P>> TurnHost<'a, C, P, W> {
    // Whether there are turns for an answer, and the thread may have one more counted turn.
    #[inline(always)]
    fn has_turns(&self) -> bool
        ensures { IsTrue result → HasTurns (host_place self.now) }
    {
        self.left >= LONGEST && self.own.counted < self.own.bounds.limits.turns
    }

    // Whether the own section is as the thread has last seen it, where it may have changed.
    #[inline(always)]
    fn is_as_seen(&self) -> bool
        ensures { IsTrue result → IsAsSeen (W.words self.now.port.now) self.now.own.now }
    {
        if !has_unseen_level(self.own) {
            return true;
        }
        let word = self.sight.section(self.port, self.own.section);
        !is_in(State::Revoking, word) && pinned_of(word) == self.own.pinned
    }

    // How deep words of the section that wrote this word are safe once the thread has looked at it. None where the section is
    // neither committed nor pinned as deep as the word was written.
    fn known_depth(&self, word: u64) -> Option<u8>
        ensures { IfSome result (KnowsWriter (W.words self.now.port.now) word) }
    {
        let tag = Tag::unpack(HeapWord::unpack(word).tag);
        let section = self.sight.section(self.port, tag.section);
        if is_in(State::Committed, section) {
            return Some(255);
        }
        let pinned = pinned_of(section);
        if is_in(State::Live, section) && tag.level <= pinned {
            Some(pinned)
        } else {
            None
        }
    }

    // Whether no thread waits for this word of an object.
    fn is_awaited_by_none(&self, word: u64) -> bool
        ensures { result ≡ is_awaited_by_none (W.words self.now.port.now) word }
    {
        let tag = HeapWord::unpack(word).tag;
        tag == 0
            || !is_in(
                State::Revoking,
                self.sight.section(self.port, Tag::unpack(tag).section),
            )
    }

    // Looks at the own section, where that has to be.
    #[inline(always)]
    fn look_at_own(&mut self)
        requires left { 1 ≤ self.old.left }
        requires allowed { has_unseen_level self.old.own.now ≡ true → P.allows self.old.port.now (Step.LoadSection self.old.own.now.section) }
        ensures same { SameBorrows self.old self.new }
        ensures looks { LooksAtOwnSection P.stepped (host_place self.old) (host_place self.new) }
    {
        if has_unseen_level(self.own) {
            let _seen = self.port.load_section(self.own.section);
            probe(&mut *self.own, LOAD_SECTION);
            self.left -= 1;
        }
    }

    // Loads an unsafe word, and looks at the section that wrote it.
    fn look_at_writer(&mut self, at: u32, section: u32, depth: u8)
        requires left { 2 ≤ self.old.left }
        requires word { P.allows self.old.port.now (Step.LoadWord at) }
        requires writer { (w : ℕ) (y : P) → P.stepped self.old.port.now (Step.LoadWord at) (StepAnswer.Found w) y → P.allows y (Step.LoadSection section) }
        ensures same { SameBorrows self.old self.new }
        ensures looks { LooksAtWriter P.stepped at section depth (host_place self.old) (host_place self.new) }
    {
        let _word = self.port.load_word(at);
        let _writer = self.port.load_section(section);
        know(&mut *self.own, section, depth);
        self.left -= 2;
    }

    // Makes the steps of an attempt at the word at this place before the load after which the word is safe, and says whether it
    // did. It makes none where what they would find isn't usual.
    #[inline(always)]
    fn reach(&mut self, at: u32) -> bool
        requires { (op : Op) × IsOfWord op at × HostMayAsk C.code P.allows P.stepped (host_place self.old) op }
        ensures same { SameBorrows self.old self.new }
        ensures reaches { result ≡ true → ReachesWord C.code P.stepped W.words at (host_place self.old) (host_place self.new) }
        ensures stays { result ≡ false → host_place self.new ≡ host_place self.old }
    {
        if !self.has_turns() || !self.is_as_seen() {
            return false;
        }
        let word = self.sight.object(self.port, at);
        if is_safe(self.own, word) {
            self.look_at_own();
            return true;
        }
        let Some(depth) = self.known_depth(word) else {
            return false;
        };
        self.look_at_own();
        let writer = Tag::unpack(HeapWord::unpack(word).tag).section;
        self.look_at_writer(at, writer, depth);
        true
    }

    /// Reads a word of an object, where that is usual.
    #[inline(always)]
    pub(crate) fn read(&mut self, object: u32, place: u32) -> Option<Reply>
        requires { HostMayAsk C.code P.allows P.stepped (host_place self.old) (Op.Read object place) }
        ensures some { IfSome result (λ reply. Fits (Op.Read object place) reply × SameBorrows self.old self.new
            × HostAnswers C.code P.stepped W.words (host_place self.old) (Op.Read object place) reply (host_place self.new)) }
        ensures none { IfNone result (SameBorrows self.old self.new × HostDeclines (host_place self.old) (host_place self.new)) }
    {
        let at = object + 2 + place;
        if !self.reach(at) {
            return None;
        }
        let word = self.port.load_word(at);
        count_event(&mut *self.own, LOAD_WORD);
        self.left -= 1;
        Some(Reply::Value(HeapWord::unpack(word).value))
    }

    /// Writes a word of an object, where that is usual, and logs the one that it overwrites. Declines where there is no memory for
    /// the log.
    #[inline(always)]
    pub(crate) fn write(&mut self, object: u32, place: u32, value: u32) -> Option<Reply>
        requires { HostMayAsk C.code P.allows P.stepped (host_place self.old) (Op.Write object place value) }
        ensures some { IfSome result (λ reply. Fits (Op.Write object place value) reply × SameBorrows self.old self.new
            × HostAnswers C.code P.stepped W.words (host_place self.old) (Op.Write object place value) reply (host_place self.new)) }
        ensures none { IfNone result (SameBorrows self.old self.new × HostDeclines (host_place self.old) (host_place self.new)) }
    {
        let at = object + 2 + place;
        let found = self.sight.object(self.port, at);
        if !self.is_awaited_by_none(found) {
            return None;
        }
        if !make_log_room(&mut *self.own) || !self.reach(at) {
            return None;
        }
        let word = self.port.load_word(at);
        let written = written_word(self.own, value);
        let _done = self.port.swap_word(at, word, written);
        count_write(&mut *self.own, at, word);
        self.left -= 2;
        Some(Reply::Done)
    }

    /// Reads the header of an object, where that is usual.
    #[inline(always)]
    pub(crate) fn class_of(&mut self, object: u32) -> Option<Reply>
        requires { HostMayAsk C.code P.allows P.stepped (host_place self.old) (Op.ClassOf object) }
        ensures some { IfSome result (λ reply. Fits (Op.ClassOf object) reply × SameBorrows self.old self.new
            × HostAnswers C.code P.stepped W.words (host_place self.old) (Op.ClassOf object) reply (host_place self.new)) }
        ensures none { IfNone result (SameBorrows self.old self.new × HostDeclines (host_place self.old) (host_place self.new)) }
    {
        if !self.has_turns() || !self.is_as_seen() {
            return None;
        }
        self.look_at_own();
        let word = self.port.load_word(object);
        count_event(&mut *self.own, LOAD_WORD);
        self.left -= 1;
        let header = Header::unpack(word);
        Some(Reply::Class(header.class, header.length))
    }

    /// Asks whether a class is initialized, where it is, or where the thread itself initializes it.
    pub(crate) fn init(&mut self, class: u32) -> Option<Reply>
        requires { HostMayAsk C.code P.allows P.stepped (host_place self.old) (Op.Init class) }
        ensures some { IfSome result (λ reply. Fits (Op.Init class) reply × SameBorrows self.old self.new
            × HostAnswers C.code P.stepped W.words (host_place self.old) (Op.Init class) reply (host_place self.new)) }
        ensures none { IfNone result (SameBorrows self.old self.new × HostDeclines (host_place self.old) (host_place self.new)) }
    {
        if !self.has_turns() || !self.is_as_seen() {
            return None;
        }
        let word = self.sight.class(self.port, class);
        if !is_initialized(self.own, word) {
            return None;
        }
        self.look_at_own();
        let _word = self.port.load_class(class);
        count_event(&mut *self.own, LOAD_CLASS);
        self.left -= 1;
        Some(Reply::Ready)
    }
}
