//! The attempts of a host at the operations of its code, step by step.

ghost use Rattle.std.specs.Prelude.{◌≡◌, ◌-◌, ◌≤◌, ◌<◌, false, IsTrue, IfSome, IfNone};
ghost use Rattle.op_core.specs.Replies.{Fits};
ghost use Rattle.op_core.specs.declared.Op.{Op};
ghost use Rattle.port_turns.specs.Place.{HostAnswers, HostStops, HostMayAsk};
ghost use Rattle.port_turns.specs.Words.{CanTry};
ghost use Rattle.port_turns.specs.Borrowed.{host_place, SameBorrows};

use crate::host::StepHost;
use crate::own::meet_writer;
use heap_words::{Header, HeapWord};
use op_core::{Op, Reply, ThreadCode};
use step_port::StepPort;
use turn_runs::{
    LOAD_WORD, SWAP_WORD, count_event, has_unseen_level, is_safe, probe, written_word,
};

/// The most turns that an answer takes.
const LONGEST: u64 = 2;

impl<'a, C: ThreadCode, P: StepPort> StepHost<'a, C, P> {
    // Whether there are turns for an answer, the thread may have one more counted turn, and an attempt begins with the operation's
    // own step.
    #[inline(always)]
    fn can_try(&self) -> bool
        ensures { IsTrue result → CanTry (host_place self.now) }
    {
        self.left >= LONGEST
            && self.own.counted < self.own.bounds.limits.turns
            && !has_unseen_level(self.own)
    }

    /// Reads a word of an object, where it is safe.
    #[inline(always)]
    pub(crate) fn read(&mut self, object: u32, place: u32) -> Option<Reply>
        requires { HostMayAsk C.code P.allows P.stepped (host_place self.old) (Op.Read object place) }
        ensures some { IfSome result (λ reply. Fits (Op.Read object place) reply × SameBorrows self.old self.new
            × HostAnswers C.code P.stepped (host_place self.old) (Op.Read object place) reply (host_place self.new)) }
        ensures none { IfNone result (SameBorrows self.old self.new × HostStops C.code P.stepped (host_place self.old) (Op.Read object place) (host_place self.new)) }
    {
        if !self.can_try() {
            return None;
        }
        let word = self.port.load_word(object + 2 + place);
        self.left -= 1;
        if !is_safe(self.own, word) {
            meet_writer(&mut *self.own, word);
            return None;
        }
        count_event(&mut *self.own, LOAD_WORD);
        Some(Reply::Value(HeapWord::unpack(word).value))
    }

    /// Writes a word of an object, where it is safe and no other thread writes it meanwhile.
    #[inline(always)]
    pub(crate) fn write(&mut self, object: u32, place: u32, value: u32) -> Option<Reply>
        requires { HostMayAsk C.code P.allows P.stepped (host_place self.old) (Op.Write object place value) }
        ensures some { IfSome result (λ reply. Fits (Op.Write object place value) reply × SameBorrows self.old self.new
            × HostAnswers C.code P.stepped (host_place self.old) (Op.Write object place value) reply (host_place self.new)) }
        ensures none { IfNone result (SameBorrows self.old self.new × HostStops C.code P.stepped (host_place self.old) (Op.Write object place value) (host_place self.new)) }
    {
        if !self.can_try() {
            return None;
        }
        let at = object + 2 + place;
        let word = self.port.load_word(at);
        self.left -= 1;
        if !is_safe(self.own, word) {
            meet_writer(&mut *self.own, word);
            return None;
        }
        let written = written_word(self.own, value);
        let swapped = self.port.swap_word(at, word, written);
        self.left -= 1;
        if swapped.is_err() {
            probe(&mut *self.own, SWAP_WORD);
            return None;
        }
        count_event(&mut *self.own, SWAP_WORD);
        Some(Reply::Done)
    }

    /// Reads the header of an object.
    #[inline(always)]
    pub(crate) fn class_of(&mut self, object: u32) -> Option<Reply>
        requires { HostMayAsk C.code P.allows P.stepped (host_place self.old) (Op.ClassOf object) }
        ensures some { IfSome result (λ reply. Fits (Op.ClassOf object) reply × SameBorrows self.old self.new
            × HostAnswers C.code P.stepped (host_place self.old) (Op.ClassOf object) reply (host_place self.new)) }
        ensures none { IfNone result (SameBorrows self.old self.new × HostStops C.code P.stepped (host_place self.old) (Op.ClassOf object) (host_place self.new)) }
    {
        if !self.can_try() {
            return None;
        }
        let word = self.port.load_word(object);
        count_event(&mut *self.own, LOAD_WORD);
        self.left -= 1;
        let header = Header::unpack(word);
        Some(Reply::Class(header.class, header.length))
    }
}
