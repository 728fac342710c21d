//! A port on which each step may be made.

ghost use Rattle.std.specs.Prelude.{◌≡◌, ◌<◌, ◌^◌};
ghost use Rattle.heap_words.specs.Words.{value_of};
ghost use Rattle.step_port.specs.declared.answer.StepAnswer.{StepAnswer};
ghost use Rattle.step_port.specs.declared.step.Step.{Step};
ghost use Rattle.step_port.specs.Steps.{effect_of, IsOwnStep};
ghost use Rattle.step_port.specs.Words.{CanAnswer};

use heap_words::HeapWord;
use op_core::NoMemory;
use plain_words::PlainWords;
use step_port::{Effect, Step, StepAnswer, StepPort, ThreadWord, make_step};

/// Words on which each step may be made: one that they don't allow is answered, but changes nothing.
#[derive(Drop)]
pub struct Answering {
    pub words: PlainWords,
    /// How many steps were made, and how many of them the words didn't allow.
    pub made: u64,
    pub refused: u64,
    /// A sum over the kinds and the answers of the steps, in order.
    pub sum: u64,
}

// What is answered to a step that isn't allowed.
fn refusal(step: Step) -> StepAnswer
    ensures { CanAnswer (effect_of step) result }
{
    match step.effect() {
        Effect::Load | Effect::Add(_) => StepAnswer::Found(0),
        Effect::Store(_) => StepAnswer::Done,
        Effect::Exchange(_, _) => StepAnswer::Lost(0),
    }
}

// A start word, or 0 where it says the number of no thread.
#[tactic(auto, unfolding(heap_words::specs::Words::value_of))]
fn start_word_or_0(word: u64) -> u64
    ensures { value_of result < 2 ^ 8 }
{
    if HeapWord::unpack(word).value < 256 {
        word
    } else {
        0
    }
}

fn number_of(answer: StepAnswer) -> u64 {
    match answer {
        StepAnswer::Found(word) => word,
        StepAnswer::Done => 1,
        StepAnswer::Lost(word) => word.wrapping_add(2),
    }
}

impl Answering {
    /// The words before the first step.
    pub fn new(words: PlainWords) -> Self {
        Answering {
            words,
            made: 0,
            refused: 0,
            sum: 0,
        }
    }

    fn note(&mut self, step: Step, answer: StepAnswer) {
        self.made = self.made.saturating_add(1);
        let sum = self.sum.wrapping_mul(31).wrapping_add(step.kind() as u64);
        self.sum = sum.wrapping_mul(31).wrapping_add(number_of(answer));
    }

    fn answer(&mut self, step: Step) -> StepAnswer
        requires { IsOwnStep step }
    {
        let answer = if self.words.may_step(step) {
            make_step(&mut self.words, step)
        } else {
            self.refused = self.refused.saturating_add(1);
            refusal(step)
        };
        self.note(step, answer);
        answer
    }

    fn word(&mut self, step: Step) -> u64
        requires { IsOwnStep step }
    {
        match self.answer(step) {
            StepAnswer::Found(word) => word,
            _ => 0,
        }
    }

    fn exchange(&mut self, step: Step) -> Result<(), u64>
        requires { IsOwnStep step }
    {
        match self.answer(step) {
            StepAnswer::Done => Ok(()),
            StepAnswer::Found(word) | StepAnswer::Lost(word) => Err(word),
        }
    }

    fn store(&mut self, step: Step)
        requires { IsOwnStep step }
    {
        let _answer = self.answer(step);
    }
}

impl StepPort for Answering {
    ghost use Rattle.thread_moves.specs.Change.{NamesThread};

    type Pass = ();

    ghost allows = { λ x step. Unit {0} };

    ghost stepped = { λ x step answer y. NamesThread step answer };

    ghost handed = { λ x step y pass. Unit {0} };

    fn load_word(&mut self, at: u32) -> u64 {
        self.word(Step::LoadWord(at))
    }

    fn swap_word(&mut self, at: u32, old: u64, new: u64) -> Result<(), u64> {
        self.exchange(Step::SwapWord(at, old, new))
    }

    fn restore_word(&mut self, at: u32, old: u64) {
        self.store(Step::RestoreWord(at, old));
    }

    fn draw_section(&mut self) -> u64 {
        self.word(Step::DrawSection)
    }

    fn open_section(&mut self, section: u32, word: u64) {
        self.store(Step::OpenSection(section, word));
    }

    fn load_section(&mut self, section: u32) -> u64 {
        self.word(Step::LoadSection(section))
    }

    fn pin(&mut self, section: u32, old: u64, level: u8) -> Result<(), u64> {
        self.exchange(Step::Pin(section, old, level))
    }

    fn revoke(&mut self, section: u32, old: u64, level: u8) -> Result<(), u64> {
        self.exchange(Step::Revoke(section, old, level))
    }

    fn commit(&mut self, section: u32, old: u64) -> Result<(), u64> {
        self.exchange(Step::Commit(section, old))
    }

    fn mark_undone(&mut self, section: u32, word: u64) {
        self.store(Step::MarkUndone(section, word));
    }

    fn load_monitor(&mut self, object: u32) -> u64 {
        self.word(Step::LoadMonitor(object))
    }

    fn take_monitor(&mut self, object: u32, new: u64) -> Result<(), u64> {
        self.exchange(Step::TakeMonitor(object, new))
    }

    fn set_depth(&mut self, object: u32, new: u64) {
        self.store(Step::SetDepth(object, new));
    }

    fn release(&mut self, object: u32) {
        self.store(Step::Release(object));
    }

    fn take_words(&mut self, count: u64) -> u64 {
        self.word(Step::TakeWords(count))
    }

    fn set_header(&mut self, object: u32, word: u64) {
        self.store(Step::SetHeader(object, word));
    }

    fn ticket(&mut self) -> u64 {
        self.word(Step::Ticket)
    }

    fn draw_thread(&mut self) -> u64 {
        self.word(Step::DrawThread)
    }

    fn start_thread(&mut self, object: u32, thread: u8) -> Result<(), u64> {
        self.exchange(Step::StartThread(object, thread))
    }

    fn end_thread(&mut self, thread: u8) {
        self.store(Step::EndThread(thread));
    }

    fn load_thread(&mut self, which: ThreadWord) -> u64 {
        let word = self.word(Step::LoadThread(which));
        match which {
            ThreadWord::Start(_) => start_word_or_0(word),
            ThreadWord::Ended(_) => word,
        }
    }

    fn set_wait(&mut self, thread: u8, word: u64) {
        self.store(Step::SetWait(thread, word));
    }

    fn notify(&mut self, thread: u8, old: u64) -> Result<(), u64> {
        self.exchange(Step::Notify(thread, old))
    }

    fn load_wait(&mut self, thread: u8) -> u64 {
        self.word(Step::LoadWait(thread))
    }

    fn load_class(&mut self, class: u32) -> u64 {
        self.word(Step::LoadClass(class))
    }

    fn claim_class(&mut self, class: u32, thread: u8) -> Result<(), u64> {
        self.exchange(Step::ClaimClass(class, thread))
    }

    fn settle_class(&mut self, class: u32, word: u64) {
        self.store(Step::SettleClass(class, word));
    }

    /// No host thread is to stop.
    fn load_stop(&mut self) -> bool {
        false
    }

    fn set_stop(&mut self) {}

    fn open_level(&mut self, section: u32, old: u64) -> Result<(), u64> {
        self.exchange(Step::OpenLevel(section, old))
    }

    fn close_level(&mut self, section: u32, old: u64, depth: u8) -> Result<(), u64> {
        self.exchange(Step::CloseLevel(section, old, depth))
    }

    fn look_monitor(&mut self, _object: u32) -> u64 {
        0
    }

    fn look_section(&mut self, _section: u32) -> u64 {
        0
    }

    fn break_level(&mut self, _section: u32, _old: u64, _level: u8) -> Result<(), u64> {
        Err(0)
    }

    fn split(&mut self, _thread: u8, _object: u32, _priority: u8) -> Result<(), NoMemory> {
        Ok(())
    }
}
