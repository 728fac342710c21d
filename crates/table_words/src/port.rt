//! The port of one seat: its thread makes its steps through it.

ghost use Rattle.std.specs.Prelude.{◌≡◌, ◌+◌, ◌≤◌};
ghost use Rattle.step_port.specs.Words.{exchanged, answer_to};
ghost use Rattle.step_port.specs.declared.step.Effect.{Effect};
ghost use Rattle.heap_words.specs.declared.areas.Area.{Area};
ghost use Rattle.table_words.specs.Tables.{IsSeatOf};

use crate::seat::TableSeat;
use crate::table::TableWords;
use heap_words::{Area, ClassWord, control, notified};
use op_core::{NoMemory, ThreadCode};
use section_state::{closed_to, committed, opened, pinned_to, revoked_to};
use step_port::{Step, StepPort, ThreadWord, start_word};

/// A seat with its table. No call of it but `split` could take memory, and none does.
#[derive(Drop)]
pub struct TablePort<'a, C: ThreadCode> {
    pub(crate) table: &'a TableWords<C>,
    pub(crate) seat: TableSeat<C>,
    ghost seated: { IsSeatOf table.now seat },
}

// What a compare-exchange answers that found this word.
fn exchanged(found: u64, old: u64, _new: u64) -> Result<(), u64>
    ensures { exchanged result ≡ answer_to (Effect.Exchange old _new) found }
{
    if found == old { Ok(()) } else { Err(found) }
}

impl<'a, C: ThreadCode> TablePort<'a, C> {
    /// The seat, which can be given to a port again. It takes no memory.
    pub fn into_seat(self) -> TableSeat<C>
        ensures { result ≡ self.entry.seat }
    {
        let TablePort { table: _, seat } = self;
        seat
    }

    // The word `count` places after an object's reference.
    fn area_after(&self, object: u32, count: u32) -> Area
        requires { object + count ≤ self.now.table.now.areas.objects }
        ensures { result ≡ Area.Object (object + count) }
    {
        let _highest = self.table.areas.objects;
        Area::Object(object + count)
    }
}

impl<C: ThreadCode> StepPort for TablePort<'_, C> {
    ghost use Rattle.std.specs.Prelude.{ℕ, IfOk, IsOk, OnErr};
    ghost use Rattle.step_port.specs.declared.answer.StepAnswer.{StepAnswer};
    ghost use Rattle.step_port.specs.declared.step.Step.{Step};
    ghost use Rattle.table_words.specs.Ports.{MayStepAt, SteppedAt, HandedAt};

    type Pass = TableSeat<C>;

    ghost allows = { MayStepAt C.state C.code };

    ghost stepped = { SteppedAt C.state C.code };

    ghost handed = { HandedAt C.state C.code };

    fn load_word(&mut self, at: u32) -> u64 {
        self.table
            .load(&mut self.seat, Area::Object(at), Step::LoadWord(at))
    }

    fn swap_word(&mut self, at: u32, old: u64, new: u64) -> Result<(), u64> {
        let step = Step::SwapWord(at, old, new);
        let found = self
            .table
            .exchange(&mut self.seat, Area::Object(at), old, new, step);
        exchanged(found, old, new)
    }

    fn restore_word(&mut self, at: u32, old: u64) {
        self.table.store(
            &mut self.seat,
            Area::Object(at),
            old,
            Step::RestoreWord(at, old),
        );
    }

    fn draw_section(&mut self) -> u64 {
        self.table.add(
            &mut self.seat,
            Area::Control(control::SECTIONS),
            1,
            Step::DrawSection,
        )
    }

    fn open_section(&mut self, section: u32, word: u64) {
        let step = Step::OpenSection(section, word);
        self.table
            .store(&mut self.seat, Area::Section(section), word, step);
    }

    fn load_section(&mut self, section: u32) -> u64 {
        let step = Step::LoadSection(section);
        self.table
            .load(&mut self.seat, Area::Section(section), step)
    }

    fn pin(&mut self, section: u32, old: u64, level: u8) -> Result<(), u64> {
        let word = pinned_to(old, level);
        let step = Step::Pin(section, old, level);
        let found = self
            .table
            .exchange(&mut self.seat, Area::Section(section), old, word, step);
        exchanged(found, old, word)
    }

    fn revoke(&mut self, section: u32, old: u64, level: u8) -> Result<(), u64> {
        let word = revoked_to(old, level);
        let step = Step::Revoke(section, old, level);
        let found = self
            .table
            .exchange(&mut self.seat, Area::Section(section), old, word, step);
        exchanged(found, old, word)
    }

    fn commit(&mut self, section: u32, old: u64) -> Result<(), u64> {
        let word = committed(old);
        let step = Step::Commit(section, old);
        let found = self
            .table
            .exchange(&mut self.seat, Area::Section(section), old, word, step);
        exchanged(found, old, word)
    }

    fn mark_undone(&mut self, section: u32, word: u64) {
        let step = Step::MarkUndone(section, word);
        self.table
            .store(&mut self.seat, Area::Section(section), word, step);
    }

    fn open_level(&mut self, section: u32, old: u64) -> Result<(), u64> {
        let word = opened(old);
        let step = Step::OpenLevel(section, old);
        let found = self
            .table
            .exchange(&mut self.seat, Area::Section(section), old, word, step);
        exchanged(found, old, word)
    }

    fn close_level(&mut self, section: u32, old: u64, depth: u8) -> Result<(), u64> {
        let word = closed_to(old, depth);
        let step = Step::CloseLevel(section, old, depth);
        let found = self
            .table
            .exchange(&mut self.seat, Area::Section(section), old, word, step);
        exchanged(found, old, word)
    }

    fn look_monitor(&mut self, object: u32) -> u64 {
        let area = self.area_after(object, 1);
        self.table.look_monitor(&mut self.seat, area, object)
    }

    fn look_section(&mut self, section: u32) -> u64 {
        self.table
            .look_section(&mut self.seat, Area::Section(section), section)
    }

    fn break_level(&mut self, section: u32, old: u64, level: u8) -> Result<(), u64> {
        let area = Area::Section(section);
        let found = self
            .table
            .break_level(&mut self.seat, area, section, old, level);
        exchanged(found, old, revoked_to(old, level))
    }

    fn load_monitor(&mut self, object: u32) -> u64 {
        let area = self.area_after(object, 1);
        self.table
            .load(&mut self.seat, area, Step::LoadMonitor(object))
    }

    fn take_monitor(&mut self, object: u32, new: u64) -> Result<(), u64> {
        let area = self.area_after(object, 1);
        let step = Step::TakeMonitor(object, new);
        let found = self.table.exchange(&mut self.seat, area, 0, new, step);
        exchanged(found, 0, new)
    }

    fn set_depth(&mut self, object: u32, new: u64) {
        let area = self.area_after(object, 1);
        self.table
            .store(&mut self.seat, area, new, Step::SetDepth(object, new));
    }

    fn release(&mut self, object: u32) {
        let area = self.area_after(object, 1);
        self.table
            .store(&mut self.seat, area, 0, Step::Release(object));
    }

    fn take_words(&mut self, count: u64) -> u64 {
        self.table.add(
            &mut self.seat,
            Area::Control(control::HEAP),
            count,
            Step::TakeWords(count),
        )
    }

    fn set_header(&mut self, object: u32, word: u64) {
        self.table.store(
            &mut self.seat,
            Area::Object(object),
            word,
            Step::SetHeader(object, word),
        );
    }

    fn ticket(&mut self) -> u64 {
        self.table.add(
            &mut self.seat,
            Area::Control(control::TICKETS),
            1,
            Step::Ticket,
        )
    }

    fn draw_thread(&mut self) -> u64 {
        self.table.add(
            &mut self.seat,
            Area::Control(control::THREADS),
            1,
            Step::DrawThread,
        )
    }

    fn start_thread(&mut self, object: u32, thread: u8) -> Result<(), u64> {
        let area = self.area_after(object, 3);
        let word = start_word(thread);
        let step = Step::StartThread(object, thread);
        let found = self.table.exchange(&mut self.seat, area, 0, word, step);
        exchanged(found, 0, word)
    }

    fn end_thread(&mut self, thread: u8) {
        self.table.store(
            &mut self.seat,
            Area::Thread(thread as u32),
            1,
            Step::EndThread(thread),
        );
    }

    fn load_thread(&mut self, which: ThreadWord) -> u64 {
        let area = match which {
            ThreadWord::Start(object) => self.area_after(object, 3),
            ThreadWord::Ended(thread) => Area::Thread(thread as u32),
        };
        self.table
            .load(&mut self.seat, area, Step::LoadThread(which))
    }

    fn set_wait(&mut self, thread: u8, word: u64) {
        let step = Step::SetWait(thread, word);
        self.table
            .store(&mut self.seat, Area::Wait(thread as u32), word, step);
    }

    fn notify(&mut self, thread: u8, old: u64) -> Result<(), u64> {
        let word = notified(old);
        let step = Step::Notify(thread, old);
        let found = self
            .table
            .exchange(&mut self.seat, Area::Wait(thread as u32), old, word, step);
        exchanged(found, old, word)
    }

    fn load_wait(&mut self, thread: u8) -> u64 {
        self.table.load(
            &mut self.seat,
            Area::Wait(thread as u32),
            Step::LoadWait(thread),
        )
    }

    fn load_class(&mut self, class: u32) -> u64 {
        self.table
            .load(&mut self.seat, Area::Class(class), Step::LoadClass(class))
    }

    fn claim_class(&mut self, class: u32, thread: u8) -> Result<(), u64> {
        let word = ClassWord::Claimed(thread).pack();
        let step = Step::ClaimClass(class, thread);
        let found = self
            .table
            .exchange(&mut self.seat, Area::Class(class), 0, word, step);
        exchanged(found, 0, word)
    }

    fn settle_class(&mut self, class: u32, word: u64) {
        let step = Step::SettleClass(class, word);
        self.table
            .store(&mut self.seat, Area::Class(class), word, step);
    }

    fn load_stop(&mut self) -> bool {
        self.table.load_stop(&mut self.seat) != 0
    }

    fn set_stop(&mut self) {
        self.table.set_stop(&mut self.seat);
    }

    /// Hands a started thread out, with a seat of the same table. It takes no memory and never fails.
    fn split(&mut self, thread: u8, object: u32, priority: u8) -> Result<TableSeat<C>, NoMemory>
        requires { MayStepAt C.state C.code self.old (Step.Split thread object priority) }
        ensures ok { IfOk result (λ pass. HandedAt C.state C.code self.old (Step.Split thread object priority) self.new pass) }
        ensures made { IfOk result (λ _. (word : ℕ) × SteppedAt C.state C.code self.old (Step.Split thread object priority) (StepAnswer.Found word) self.new) }
        ensures err { OnErr result (self.new ≡ self.old) }
        ensures never { IsOk result }
    {
        Ok(self.table.split(&mut self.seat, thread, object, priority))
    }
}
