//! Words on which each step may be made: one that they don't allow ends the test.

ghost use Rattle.std.specs.Prelude.{◌≡◌, ◌<◌, ◌^◌, ◌+◌};
ghost use Rattle.heap_words.specs.declared.areas.Area.{Area};
ghost use Rattle.heap_words.specs.Words.{value_of};
ghost use Rattle.step_port.specs.declared.step.Step.{Step};
ghost use Rattle.plain_words.specs.Table.{words_in, MayStep};

use heap_words::{Area, HeapWord};
use op_core::NoMemory;
use plain_words::PlainWords;
use quick_turns::WordSight;
use std::process::Abort;
use step_port::{Step, StepPort, ThreadWord};

/// Words with a record of the steps that were made on them.
#[derive(Drop)]
pub struct CheckedWords<R> {
    pub words: PlainWords,
    /// How many steps were made.
    pub made: u64,
    /// A sum over the kinds and the answers of the steps, in order.
    pub sum: u64,
    pub rt: R,
}

// The number that an exchange answers in the sum.
fn exchange_number(answer: Result<(), u64>) -> u64 {
    match answer {
        Ok(()) => 1,
        Err(found) => found.wrapping_add(2),
    }
}

impl<R: Abort> CheckedWords<R> {
    /// The words before the first step.
    pub fn new(words: PlainWords, rt: R) -> Self {
        CheckedWords {
            words,
            made: 0,
            sum: 0,
            rt,
        }
    }

    // Ends the test where the words don't allow the step.
    fn check(&self, step: Step)
        ensures { MayStep self.now.words step }
    {
        if !self.words.may_step(step) {
            panic!(self.rt; "a step can't be made");
        }
    }

    fn note(&mut self, step: Step, answer: u64)
        ensures { self.new.words ≡ self.old.words }
    {
        self.made = self.made.saturating_add(1);
        let sum = self.sum.wrapping_mul(31).wrapping_add(step.kind() as u64);
        self.sum = sum.wrapping_mul(31).wrapping_add(answer);
    }
}

impl<R: Abort> StepPort for CheckedWords<R> {
    ghost use Rattle.step_port.specs.Words.{IsStepOnWords};
    ghost use Rattle.plain_words.specs.Table.{words_in};
    ghost use Rattle.thread_moves.specs.Change.{NamesThread};

    type Pass = ();

    ghost allows = { λ x step. Unit {0} };

    ghost stepped = { λ x step answer y. NamesThread step answer × IsStepOnWords (words_in x.words) step answer (words_in y.words) };

    ghost handed = { λ x step y pass. Unit {0} };

    fn load_word(&mut self, at: u32) -> u64 {
        self.check(Step::LoadWord(at));
        let found = self.words.load_word(at);
        self.note(Step::LoadWord(at), found);
        found
    }

    fn load_section(&mut self, section: u32) -> u64 {
        self.check(Step::LoadSection(section));
        let found = self.words.load_section(section);
        self.note(Step::LoadSection(section), found);
        found
    }

    fn load_monitor(&mut self, object: u32) -> u64 {
        self.check(Step::LoadMonitor(object));
        let found = self.words.load_monitor(object);
        self.note(Step::LoadMonitor(object), found);
        found
    }

    fn load_wait(&mut self, thread: u8) -> u64 {
        self.check(Step::LoadWait(thread));
        let found = self.words.load_wait(thread);
        self.note(Step::LoadWait(thread), found);
        found
    }

    fn load_class(&mut self, class: u32) -> u64 {
        self.check(Step::LoadClass(class));
        let found = self.words.load_class(class);
        self.note(Step::LoadClass(class), found);
        found
    }

    fn draw_section(&mut self) -> u64 {
        self.check(Step::DrawSection);
        let found = self.words.draw_section();
        self.note(Step::DrawSection, found);
        found
    }

    fn take_words(&mut self, count: u64) -> u64 {
        self.check(Step::TakeWords(count));
        let found = self.words.take_words(count);
        self.note(Step::TakeWords(count), found);
        found
    }

    fn ticket(&mut self) -> u64 {
        self.check(Step::Ticket);
        let found = self.words.ticket();
        self.note(Step::Ticket, found);
        found
    }

    fn draw_thread(&mut self) -> u64 {
        self.check(Step::DrawThread);
        let found = self.words.draw_thread();
        self.note(Step::DrawThread, found);
        found
    }

    fn look_monitor(&mut self, object: u32) -> u64 {
        self.check(Step::LookMonitor(object));
        let found = self.words.look_monitor(object);
        self.note(Step::LookMonitor(object), found);
        found
    }

    fn look_section(&mut self, section: u32) -> u64 {
        self.check(Step::LookSection(section));
        let found = self.words.look_section(section);
        self.note(Step::LookSection(section), found);
        found
    }

    fn swap_word(&mut self, at: u32, old: u64, new: u64) -> Result<(), u64> {
        self.check(Step::SwapWord(at, old, new));
        let answer = self.words.swap_word(at, old, new);
        self.note(Step::SwapWord(at, old, new), exchange_number(answer));
        answer
    }

    fn pin(&mut self, section: u32, old: u64, level: u8) -> Result<(), u64> {
        self.check(Step::Pin(section, old, level));
        let answer = self.words.pin(section, old, level);
        self.note(Step::Pin(section, old, level), exchange_number(answer));
        answer
    }

    fn revoke(&mut self, section: u32, old: u64, level: u8) -> Result<(), u64> {
        self.check(Step::Revoke(section, old, level));
        let answer = self.words.revoke(section, old, level);
        self.note(Step::Revoke(section, old, level), exchange_number(answer));
        answer
    }

    fn commit(&mut self, section: u32, old: u64) -> Result<(), u64> {
        self.check(Step::Commit(section, old));
        let answer = self.words.commit(section, old);
        self.note(Step::Commit(section, old), exchange_number(answer));
        answer
    }

    fn take_monitor(&mut self, object: u32, new: u64) -> Result<(), u64> {
        self.check(Step::TakeMonitor(object, new));
        let answer = self.words.take_monitor(object, new);
        self.note(Step::TakeMonitor(object, new), exchange_number(answer));
        answer
    }

    fn start_thread(&mut self, object: u32, thread: u8) -> Result<(), u64> {
        self.check(Step::StartThread(object, thread));
        let answer = self.words.start_thread(object, thread);
        self.note(Step::StartThread(object, thread), exchange_number(answer));
        answer
    }

    fn notify(&mut self, thread: u8, old: u64) -> Result<(), u64> {
        self.check(Step::Notify(thread, old));
        let answer = self.words.notify(thread, old);
        self.note(Step::Notify(thread, old), exchange_number(answer));
        answer
    }

    fn claim_class(&mut self, class: u32, thread: u8) -> Result<(), u64> {
        self.check(Step::ClaimClass(class, thread));
        let answer = self.words.claim_class(class, thread);
        self.note(Step::ClaimClass(class, thread), exchange_number(answer));
        answer
    }

    fn open_level(&mut self, section: u32, old: u64) -> Result<(), u64> {
        self.check(Step::OpenLevel(section, old));
        let answer = self.words.open_level(section, old);
        self.note(Step::OpenLevel(section, old), exchange_number(answer));
        answer
    }

    fn close_level(&mut self, section: u32, old: u64, depth: u8) -> Result<(), u64> {
        self.check(Step::CloseLevel(section, old, depth));
        let answer = self.words.close_level(section, old, depth);
        self.note(
            Step::CloseLevel(section, old, depth),
            exchange_number(answer),
        );
        answer
    }

    fn break_level(&mut self, section: u32, old: u64, level: u8) -> Result<(), u64> {
        self.check(Step::BreakLevel(section, old, level));
        let answer = self.words.break_level(section, old, level);
        self.note(
            Step::BreakLevel(section, old, level),
            exchange_number(answer),
        );
        answer
    }

    fn restore_word(&mut self, at: u32, old: u64) {
        self.check(Step::RestoreWord(at, old));
        self.words.restore_word(at, old);
        self.note(Step::RestoreWord(at, old), 1);
    }

    fn open_section(&mut self, section: u32, word: u64) {
        self.check(Step::OpenSection(section, word));
        self.words.open_section(section, word);
        self.note(Step::OpenSection(section, word), 1);
    }

    fn mark_undone(&mut self, section: u32, word: u64) {
        self.check(Step::MarkUndone(section, word));
        self.words.mark_undone(section, word);
        self.note(Step::MarkUndone(section, word), 1);
    }

    fn set_depth(&mut self, object: u32, new: u64) {
        self.check(Step::SetDepth(object, new));
        self.words.set_depth(object, new);
        self.note(Step::SetDepth(object, new), 1);
    }

    fn release(&mut self, object: u32) {
        self.check(Step::Release(object));
        self.words.release(object);
        self.note(Step::Release(object), 1);
    }

    fn set_header(&mut self, object: u32, word: u64) {
        self.check(Step::SetHeader(object, word));
        self.words.set_header(object, word);
        self.note(Step::SetHeader(object, word), 1);
    }

    fn end_thread(&mut self, thread: u8) {
        self.check(Step::EndThread(thread));
        self.words.end_thread(thread);
        self.note(Step::EndThread(thread), 1);
    }

    fn set_wait(&mut self, thread: u8, word: u64) {
        self.check(Step::SetWait(thread, word));
        self.words.set_wait(thread, word);
        self.note(Step::SetWait(thread, word), 1);
    }

    fn settle_class(&mut self, class: u32, word: u64) {
        self.check(Step::SettleClass(class, word));
        self.words.settle_class(class, word);
        self.note(Step::SettleClass(class, word), 1);
    }

    fn set_stop(&mut self) {
        self.check(Step::SetStop);
        self.words.set_stop();
        self.note(Step::SetStop, 1);
    }

    /// Ends the test where a start word says the number of no thread.
    fn load_thread(&mut self, which: ThreadWord) -> u64 {
        self.check(Step::LoadThread(which));
        let found = self.words.load_thread(which);
        if HeapWord::unpack(found).value > 255 {
            panic!(self.rt; "a start word names a thread");
        }
        self.note(Step::LoadThread(which), found);
        found
    }

    fn load_stop(&mut self) -> bool {
        self.check(Step::LoadStop);
        self.words.load_stop()
    }

    fn split(&mut self, thread: u8, object: u32, priority: u8) -> Result<(), NoMemory> {
        self.note(Step::Split(thread, object, priority), 0);
        Ok(())
    }
}

/// What sees these words.
pub struct Sight;

fn word_of(words: &PlainWords, area: Area) -> u64
    ensures { result ≡ words_in words.now area }
{
    if words.areas.contains(area) {
        words.load(area)
    } else {
        0
    }
}

impl<R: Abort> WordSight<CheckedWords<R>> for Sight {
    ghost use Rattle.plain_words.specs.Table.{words_in};

    ghost words = { λ x. words_in x.words };

    ghost on_words = { λ x step a y made. made.1 };

    fn object(&self, port: &CheckedWords<R>, at: u32) -> u64 {
        word_of(&port.words, Area::Object(at))
    }

    fn class(&self, port: &CheckedWords<R>, class: u32) -> u64 {
        word_of(&port.words, Area::Class(class))
    }

    fn section(&self, port: &CheckedWords<R>, section: u32) -> u64 {
        word_of(&port.words, Area::Section(section))
    }
}
