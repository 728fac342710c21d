//! The port that makes the steps on the words of the block.

ghost use Rattle.std.specs.Prelude.{◌≡◌, ℕ, IfOk, IsOk, OnErr};
ghost use Rattle.step_port.specs.declared.answer.StepAnswer.{StepAnswer};
ghost use Rattle.step_port.specs.declared.step.Step.{Step};
ghost use Rattle.plain_words.specs.Table.{MayStep, Stepped, Handed};

use crate::PlainWords;
use heap_words::{Area, ClassWord, control, notified};
use op_core::NoMemory;
use section_state::{closed_to, committed, opened, pinned_to, revoked_to};
use step_port::{StepPort, ThreadWord, start_word};

impl StepPort for PlainWords {
    type Pass = ();

    ghost allows = { MayStep };

    ghost stepped = { Stepped };

    ghost handed = { λ x step y pass. Handed x step y };

    fn load_word(&mut self, at: u32) -> u64 {
        self.load(Area::Object(at))
    }

    fn swap_word(&mut self, at: u32, old: u64, new: u64) -> Result<(), u64> {
        self.exchange(Area::Object(at), old, new)
    }

    fn restore_word(&mut self, at: u32, old: u64) {
        self.store(Area::Object(at), old);
    }

    fn draw_section(&mut self) -> u64 {
        self.add(Area::Control(control::SECTIONS), 1)
    }

    fn open_section(&mut self, section: u32, word: u64) {
        self.store(Area::Section(section), word);
    }

    fn load_section(&mut self, section: u32) -> u64 {
        self.load(Area::Section(section))
    }

    fn pin(&mut self, section: u32, old: u64, level: u8) -> Result<(), u64> {
        let word = pinned_to(old, level);
        self.exchange(Area::Section(section), old, word)
    }

    fn revoke(&mut self, section: u32, old: u64, level: u8) -> Result<(), u64> {
        let word = revoked_to(old, level);
        self.exchange(Area::Section(section), old, word)
    }

    fn open_level(&mut self, section: u32, old: u64) -> Result<(), u64> {
        let word = opened(old);
        self.exchange(Area::Section(section), old, word)
    }

    fn close_level(&mut self, section: u32, old: u64, depth: u8) -> Result<(), u64> {
        let word = closed_to(old, depth);
        self.exchange(Area::Section(section), old, word)
    }

    fn look_monitor(&mut self, object: u32) -> u64 {
        self.load(self.behind(object, 1))
    }

    fn look_section(&mut self, section: u32) -> u64 {
        self.load(Area::Section(section))
    }

    fn break_level(&mut self, section: u32, old: u64, level: u8) -> Result<(), u64> {
        let word = revoked_to(old, level);
        self.exchange(Area::Section(section), old, word)
    }

    fn commit(&mut self, section: u32, old: u64) -> Result<(), u64> {
        let word = committed(old);
        self.exchange(Area::Section(section), old, word)
    }

    fn mark_undone(&mut self, section: u32, word: u64) {
        self.store(Area::Section(section), word);
    }

    fn load_monitor(&mut self, object: u32) -> u64 {
        self.load(self.behind(object, 1))
    }

    fn take_monitor(&mut self, object: u32, new: u64) -> Result<(), u64> {
        let area = self.behind(object, 1);
        self.exchange(area, 0, new)
    }

    fn set_depth(&mut self, object: u32, new: u64) {
        let area = self.behind(object, 1);
        self.store(area, new);
    }

    fn release(&mut self, object: u32) {
        let area = self.behind(object, 1);
        self.store(area, 0);
    }

    fn take_words(&mut self, count: u64) -> u64 {
        self.add(Area::Control(control::HEAP), count)
    }

    fn set_header(&mut self, object: u32, word: u64) {
        self.store(Area::Object(object), word);
    }

    fn ticket(&mut self) -> u64 {
        self.add(Area::Control(control::TICKETS), 1)
    }

    fn draw_thread(&mut self) -> u64 {
        self.add(Area::Control(control::THREADS), 1)
    }

    fn start_thread(&mut self, object: u32, thread: u8) -> Result<(), u64> {
        let area = self.behind(object, 3);
        self.exchange(area, 0, start_word(thread))
    }

    fn end_thread(&mut self, thread: u8) {
        self.store(Area::Thread(thread as u32), 1);
    }

    fn load_thread(&mut self, which: ThreadWord) -> u64 {
        let area = match which {
            ThreadWord::Start(object) => self.behind(object, 3),
            ThreadWord::Ended(thread) => Area::Thread(thread as u32),
        };
        self.load(area)
    }

    fn set_wait(&mut self, thread: u8, word: u64) {
        self.store(Area::Wait(thread as u32), word);
    }

    fn notify(&mut self, thread: u8, old: u64) -> Result<(), u64> {
        self.exchange(Area::Wait(thread as u32), old, notified(old))
    }

    fn load_wait(&mut self, thread: u8) -> u64 {
        self.load(Area::Wait(thread as u32))
    }

    fn load_class(&mut self, class: u32) -> u64 {
        self.load(Area::Class(class))
    }

    fn claim_class(&mut self, class: u32, thread: u8) -> Result<(), u64> {
        self.exchange(Area::Class(class), 0, ClassWord::Claimed(thread).pack())
    }

    fn settle_class(&mut self, class: u32, word: u64) {
        self.store(Area::Class(class), word);
    }

    fn load_stop(&mut self) -> bool {
        self.load(Area::Control(control::STOP)) != 0
    }

    fn set_stop(&mut self) {
        self.store(Area::Control(control::STOP), 1);
    }

    /// Hands a started thread out. It takes no memory and never fails: its step is a load whose word nobody asks for.
    fn split(&mut self, thread: u8, object: u32, priority: u8) -> Result<(), NoMemory>
        ensures ok { IfOk result (λ pass. Handed self.old (Step.Split thread object priority) self.new) }
        ensures made { IfOk result (λ _. (word : ℕ) × Stepped self.old (Step.Split thread object priority) (StepAnswer.Found word) self.new) }
        ensures err { OnErr result (self.new ≡ self.old) }
        ensures never { IsOk result }
    {
        Ok(())
    }
}
