//! The move that a thread makes next, and whether what its code wants is in range.

ghost use Rattle.std.specs.Prelude.{◌≡◌, ◌↔◌, IsTrue, ◌+◌, ◌<◌, ◌^◌, MatchOption, None, reverse, slice_get};
ghost use Rattle.section_state.specs.SectionWord.{revoke_of};
ghost use Rattle.op_core.specs.declared.Next.{Next};
ghost use Rattle.std.specs.Prelude.{if◌then◌else◌};
ghost use Rattle.heap_words.specs.Words.{class_word_of};
ghost use Rattle.heap_words.specs.declared.words.ClassWord.{ClassWord};
ghost use Rattle.step_port.specs.declared.step.Step.{Step};
ghost use Rattle.thread_automaton.specs.ThreadState.{is_open, own_word, opening_word, no_mark, mark_of, noted_since, from_level};
ghost use Rattle.thread_automaton.specs.NextMove.{own_pin, pinned_then, word_place, words_asked, first_step, held_word, deepened_since, undo_step, undo_next, silent_move, move_of, next_move};
ghost use Rattle.thread_moves.specs.Thread.{mark_meant, thread_of, CanBeAsked, GoesOn};

use crate::JThread;
use crate::mark::SavedMark;
use crate::stack::Stack;
use heap_words::ClassWord;
use monitor_core::MonitorWord;
use op_core::{Limit, Next, Op, ThreadCode};
use section_state::{SectionParts, State, revoke_of, section_word, undone};
use step_port::{Step, ThreadWord};
use thread_automaton::{Attempt, Held, Move};

impl<C: ThreadCode> JThread<C> {
    /// Whether a level of its section is open that it hasn't seen pinned, so that it can still be undone.
    pub fn is_open(&self) -> bool
        ensures { result ≡ is_open (thread_of C.state C.saved self.now) }
    {
        self.own.pinned < self.own.levels
    }

    // The word of its section, live, as it last knew it.
    pub(crate) fn own_word(&self) -> u64
        ensures { result ≡ own_word (thread_of C.state C.saved self.now) }
    {
        section_word(SectionParts {
            state: State::Live,
            owner: self.own.number,
            priority: self.own.priority,
            pinned: self.own.pinned,
            depth: self.own.levels,
            revoke: 0,
        })
    }

    // The word with which its section opens.
    pub(crate) fn opening_word(&self) -> u64
        ensures { result ≡ opening_word (thread_of C.state C.saved self.now) }
    {
        section_word(SectionParts {
            state: State::Live,
            owner: self.own.number,
            priority: self.own.priority,
            pinned: 0,
            depth: 1,
            revoke: 0,
        })
    }

    pub(crate) fn own_pin(&self) -> Step
        ensures { result ≡ own_pin (thread_of C.state C.saved self.now) }
    {
        Step::Pin(self.own.section, self.own_word(), self.own.levels)
    }

    fn pinned_then(&self, step: Step) -> Step
        ensures { result ≡ pinned_then (thread_of C.state C.saved self.now) step }
    {
        if self.is_open() { self.own_pin() } else { step }
    }

    // How many words a new object takes.
    pub(crate) fn words_asked(&self, class: u32, length: u32) -> u64
        requires { words_asked C.code (C.state self.now.code) class length < 2 ^ 64 }
        ensures { result ≡ words_asked C.code (C.state self.now.code) class length }
    {
        2 + self.code.words(class, length)
    }

    fn first_step(&self, op: Op) -> Step
        requires { CanBeAsked C.code (C.state self.now.code) (Next.Want op) }
        ensures { result ≡ first_step C.code (thread_of C.state C.saved self.now) op }
    {
        match op {
            Op::ClassOf(object) => Step::LoadWord(object),
            Op::Read(object, place) | Op::Write(object, place, _) => {
                Step::LoadWord(word_place(object, place))
            }
            Op::New(class, length) => Step::TakeWords(self.words_asked(class, length)),
            Op::Enter(object) | Op::Exit(object) | Op::Wait(object) | Op::Notify(object) => {
                Step::LoadMonitor(object)
            }
            Op::Rewake(_) => Step::LoadWait(self.own.number),
            Op::Print(_) => self.pinned_then(Step::Ticket),
            Op::Start(object, _) | Op::Join(object) => Step::LoadThread(ThreadWord::Start(object)),
            Op::Init(class) => Step::LoadClass(class),
            Op::InitDone(class, ok) => self.pinned_then(settled(class, ok)),
            Op::End(_) => self.pinned_then(Step::EndThread(self.own.number)),
        }
    }

    // How it was as a level opened.
    pub(crate) fn mark_of(&self, level: u8) -> Option<&SavedMark>
        ensures { MatchOption result (mark_of (thread_of C.state C.saved self.now) level ≡ no_mark)
            (λ mark. mark_meant mark.now ≡ mark_of (thread_of C.state C.saved self.now) level) }
    {
        let inside = self.own.levels.saturating_sub(level) as usize;
        if inside < self.own.marks.len() {
            Some(&self.own.marks[self.own.marks.len() - 1 - inside])
        } else {
            None
        }
    }

    // The next step of undoing to a level at which `noted` words were logged and these monitors were held, where the
    // section's word was `word`.
    fn undo_step_from(&self, word: u64, level: u8, noted: usize, held: &[Held]) -> Step
        ensures { result ≡ undo_step self.now.own.section word (noted_since noted self.now.own.log.noted)
            (deepened_since (record { silents = 0; noted = 0; held = reverse held.now }) self.now.own.held.newest_first)
            (from_level level self.now.own.held.newest_first) }
    {
        if self.own.log.len() > noted {
            if let Some(last) = self.own.log.last() {
                return Step::RestoreWord(last.at, last.old);
            }
        }
        if let Some(other) = first_deepened(held, &self.own.held) {
            return Step::SetDepth(other.object, held_word(self.own.section, other));
        }
        match self.own.held.newest_from(level) {
            Some(other) => Step::Release(other.object),
            None => Step::MarkUndone(self.own.section, undone(word)),
        }
    }

    // The next step of undoing, where the section's word was this.
    fn undo_step(&self, word: u64) -> Step
        ensures { result ≡ undo_next (thread_of C.state C.saved self.now) word (revoke_of word) }
    {
        let level = revoke_of(word);
        match self.mark_of(level) {
            Some(mark) => self.undo_step_from(word, level, mark.noted, mark.held.as_slice()),
            None => self.undo_step_from(word, level, 0, &[]),
        }
    }

    fn silent_move(&self, towards: Step) -> Move
        requires { self.now.own.opening ≡ None }
        ensures { result ≡ silent_move C.code (thread_of C.state C.saved self.now) towards }
    {
        if self.is_open() && self.code.leaves() {
            Move::Make(towards)
        } else {
            Move::Quiet
        }
    }

    fn move_of(&self, next: Next) -> Move
        requires settled { self.now.own.opening ≡ None }
        requires asked { CanBeAsked C.code (C.state self.now.code) next }
        ensures { result ≡ move_of C.code (thread_of C.state C.saved self.now) next self.now.own.attempt }
    {
        match (self.own.attempt, next) {
            (Attempt::Fixed(step), _) => Move::Make(step),
            (Attempt::Meets(section, _), _) => Move::Make(Step::LoadSection(section)),
            (Attempt::Undoing(word), _) => Move::Make(self.undo_step(word)),
            (Attempt::Full(limit), _) => Move::Stop(limit),
            (Attempt::Look, Next::Silent | Next::Want(_)) => {
                Move::Make(Step::LoadSection(self.own.section))
            }
            (Attempt::Begin, Next::Silent) => self.silent_move(Step::LoadSection(self.own.section)),
            (Attempt::Checked, Next::Silent) => self.silent_move(self.own_pin()),
            (Attempt::Begin, Next::Want(op)) => {
                if self.is_open() {
                    Move::Make(Step::LoadSection(self.own.section))
                } else {
                    Move::Make(self.first_step(op))
                }
            }
            (Attempt::Checked, Next::Want(op)) => Move::Make(self.first_step(op)),
            (_, Next::Ended) => Move::Over,
        }
    }

    /// What it does next, where its code says `next`, which must be in range ([`JThread::can_be_asked`]). No level of it may
    /// be half opened.
    pub fn move_for(&self, next: Next) -> Move
        requires settled { self.now.own.opening ≡ None }
        requires next { next ≡ C.code.next (C.state self.now.code) }
        requires asked { CanBeAsked C.code (C.state self.now.code) next }
        ensures next_move { result ≡ next_move C.code self.now.own.bounds (thread_of C.state C.saved self.now) }
        ensures room { GoesOn result → self.now.own.counted + 1 < 2 ^ 64 }
    {
        if self.own.over {
            Move::Over
        } else if self.own.bounds.limits.turns <= self.own.counted {
            Move::Stop(Limit::Turns)
        } else {
            self.move_of(next)
        }
    }

    /// Whether what its code wants is in range: a word of an object has a place below 2^32, and a new object takes
    /// fewer than 2^64 words.
    pub fn can_be_asked(&self) -> bool
        ensures { IsTrue result ↔ CanBeAsked C.code (C.state self.now.code) (C.code.next (C.state self.now.code)) }
    {
        match self.code.next() {
            Next::Want(Op::Read(object, place) | Op::Write(object, place, _)) => {
                object as u64 + 2 + place as u64 <= 0xffff_ffff
            }
            Next::Want(Op::New(class, length)) => {
                self.code.words(class, length) <= 0xffff_ffff_ffff_fffd
            }
            _ => true,
        }
    }
}

// Where an object has a word.
fn word_place(object: u32, place: u32) -> u32
    requires { word_place object place < 2 ^ 32 }
    ensures { result ≡ word_place object place }
{
    object + 2 + place
}

// The step that settles a class.
fn settled(class: u32, ok: bool) -> Step
    ensures { result ≡ Step.SettleClass class (class_word_of (if ok then ClassWord.Ready else ClassWord.Bad)) }
{
    let word = if ok { ClassWord::Ready } else { ClassWord::Bad };
    Step::SettleClass(class, word.pack())
}

// The word of a monitor that the section holds so.
pub(crate) fn held_word(section: u32, held: Held) -> u64
    ensures { result ≡ held_word section held }
{
    let word = MonitorWord {
        section,
        depth: held.depth,
        level: held.level,
    };
    word.pack()
}

// The first of these monitors, oldest first, that now has another depth.
#[tactic(auto, using(crate::proofs::DeepenedLemmas::none_next, crate::proofs::DeepenedLemmas::found_here, crate::proofs::DeepenedLemmas::none_at_all))]
fn first_deepened(before: &[Held], now: &Stack<Held>) -> Option<Held>
    ensures { result ≡ slice_get (deepened_since (record { silents = 0; noted = 0; held = reverse before.now }) now.now.newest_first) 0 }
{
    for held in before {
        if now.find(held.object).depth != held.depth {
            return Some(*held);
        }
    }
    None
}
