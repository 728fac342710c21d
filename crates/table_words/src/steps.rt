//! One step on the table, by its effect on a word.

use crate::rule::{
    BreaksLevel, LoadsStop, LooksMonitor, LooksSection, MakesOwn, SeatParts, SetsStop,
};
use crate::seat::TableSeat;
use crate::table::TableWords;
use heap_words::{Area, control};
use op_core::ThreadCode;
use section_state::laws::levels_are_revoked;
use section_state::revoked_to;
use step_port::Step;

// The calls whose last argument is a step make that step, which must be the thread's own and have this place and effect: the
// step is for their contracts alone.
impl<C: ThreadCode> TableWords<C> {
    ghost use Rattle.std.specs.Prelude.{◌≡◌, ◌+◌, true, [], ◌∷◌};
    ghost use Rattle.heap_words.specs.declared.areas.Area.{Area};
    ghost use Rattle.heap_words.specs.Areas.{IsIn};
    ghost use Rattle.step_port.specs.declared.answer.StepAnswer.{StepAnswer};
    ghost use Rattle.step_port.specs.declared.step.Effect.{Effect};
    ghost use Rattle.step_port.specs.declared.step.Step.{Step};
    ghost use Rattle.step_port.specs.Steps.{place_of, effect_of, IsOwnStep};
    ghost use Rattle.step_port.specs.Words.{answer_to};
    ghost use Rattle.section_state.specs.SectionWord.{revoked_of};
    ghost use Rattle.core_runs.specs.OwnParts.{can_break};
    ghost use Rattle.section_laws.specs.NextSteps.{step_made};
    ghost use Rattle.table_words.specs.Parts.{fresh_part, IsPartInRun};
    ghost use Rattle.table_words.specs.Views.{first_after, born_by, IsSeated, FirstMayMake, FirstIsInRun};
    ghost use Rattle.table_words.specs.Tables.{setup_in, parts_of_seat, IsSeatOf};

    pub(crate) fn load(&self, seat: &mut TableSeat<C>, area: Area, step: Step) -> u64
        requires seat { IsSeatOf self.now seat.old }
        requires step { (area ≡ place_of step) × (effect_of step ≡ Effect.Load) × IsOwnStep step }
        requires next { FirstMayMake C.state C.code (setup_in self.now) (parts_of_seat seat.old) step }
        ensures seat { IsSeatOf self.now seat.new }
        ensures grown { parts_of_seat seat.new ≡ first_after (parts_of_seat seat.old) (step_made step (StepAnswer.Found result)) }
        ensures in_run { FirstIsInRun C.state C.code (setup_in self.now) (parts_of_seat seat.new) }
    {
        let place = self.areas.place_from(self.objects_from, area) as usize;
        let _step = step;
        self.table.shared.load::<MakesOwn<C>>(&mut seat.seat, place)
    }

    pub(crate) fn store(&self, seat: &mut TableSeat<C>, area: Area, word: u64, step: Step)
        requires seat { IsSeatOf self.now seat.old }
        requires step { (area ≡ place_of step) × (effect_of step ≡ Effect.Store word) × IsOwnStep step }
        requires next { FirstMayMake C.state C.code (setup_in self.now) (parts_of_seat seat.old) step }
        ensures seat { IsSeatOf self.now seat.new }
        ensures grown { parts_of_seat seat.new ≡ first_after (parts_of_seat seat.old) (step_made step StepAnswer.Done) }
        ensures in_run { FirstIsInRun C.state C.code (setup_in self.now) (parts_of_seat seat.new) }
    {
        let place = self.areas.place_from(self.objects_from, area) as usize;
        let _step = step;
        self.table
            .shared
            .store::<MakesOwn<C>>(&mut seat.seat, place, word);
    }

    // Answers the word that it found.
    pub(crate) fn exchange(
        &self,
        seat: &mut TableSeat<C>,
        area: Area,
        old: u64,
        new: u64,
        step: Step,
    ) -> u64
        requires seat { IsSeatOf self.now seat.old }
        requires step { (area ≡ place_of step) × (effect_of step ≡ Effect.Exchange old new) × IsOwnStep step }
        requires next { FirstMayMake C.state C.code (setup_in self.now) (parts_of_seat seat.old) step }
        ensures seat { IsSeatOf self.now seat.new }
        ensures grown { parts_of_seat seat.new ≡ first_after (parts_of_seat seat.old) (step_made step (answer_to (Effect.Exchange old new) result)) }
        ensures in_run { FirstIsInRun C.state C.code (setup_in self.now) (parts_of_seat seat.new) }
    {
        let place = self.areas.place_from(self.objects_from, area) as usize;
        let _step = step;
        self.table
            .shared
            .compare_exchange::<MakesOwn<C>>(&mut seat.seat, place, old, new)
    }

    pub(crate) fn add(&self, seat: &mut TableSeat<C>, area: Area, count: u64, step: Step) -> u64
        requires seat { IsSeatOf self.now seat.old }
        requires step { (area ≡ place_of step) × (effect_of step ≡ Effect.Add count) × IsOwnStep step }
        requires next { FirstMayMake C.state C.code (setup_in self.now) (parts_of_seat seat.old) step }
        ensures seat { IsSeatOf self.now seat.new }
        ensures grown { parts_of_seat seat.new ≡ first_after (parts_of_seat seat.old) (step_made step (StepAnswer.Found result)) }
        ensures in_run { FirstIsInRun C.state C.code (setup_in self.now) (parts_of_seat seat.new) }
    {
        let place = self.areas.place_from(self.objects_from, area) as usize;
        let _step = step;
        self.table
            .shared
            .fetch_add::<MakesOwn<C>>(&mut seat.seat, place, count)
    }

    pub(crate) fn load_stop(&self, seat: &mut TableSeat<C>) -> u64
        requires seat { IsSeatOf self.now seat.old }
        requires seated { IsSeated (setup_in self.now) (parts_of_seat seat.old) }
        ensures seat { IsSeatOf self.now seat.new }
        ensures grown { parts_of_seat seat.new ≡ first_after (parts_of_seat seat.old) (step_made Step.LoadStop (StepAnswer.Found result)) }
        ensures in_run { FirstIsInRun C.state C.code (setup_in self.now) (parts_of_seat seat.new) }
    {
        self.table
            .shared
            .load::<LoadsStop<C>>(&mut seat.seat, control::STOP as usize)
    }

    pub(crate) fn set_stop(&self, seat: &mut TableSeat<C>)
        requires seat { IsSeatOf self.now seat.old }
        requires seated { IsSeated (setup_in self.now) (parts_of_seat seat.old) }
        ensures seat { IsSeatOf self.now seat.new }
        ensures grown { parts_of_seat seat.new ≡ first_after (parts_of_seat seat.old) (step_made Step.SetStop StepAnswer.Done) }
        ensures in_run { FirstIsInRun C.state C.code (setup_in self.now) (parts_of_seat seat.new) }
    {
        self.table
            .shared
            .store::<SetsStop<C>>(&mut seat.seat, control::STOP as usize, 1);
    }

    pub(crate) fn look_monitor(&self, seat: &mut TableSeat<C>, area: Area, object: u32) -> u64
        requires seat { IsSeatOf self.now seat.old }
        requires seated { IsSeated (setup_in self.now) (parts_of_seat seat.old) }
        requires there { (area ≡ Area.Object (object + 1)) × IsIn self.now.areas area }
        ensures seat { IsSeatOf self.now seat.new }
        ensures grown { parts_of_seat seat.new ≡ first_after (parts_of_seat seat.old) (step_made (Step.LookMonitor object) (StepAnswer.Found result)) }
        ensures in_run { FirstIsInRun C.state C.code (setup_in self.now) (parts_of_seat seat.new) }
    {
        let place = self.areas.place_from(self.objects_from, area) as usize;
        self.table
            .shared
            .load::<LooksMonitor<C>>(&mut seat.seat, place)
    }

    pub(crate) fn look_section(&self, seat: &mut TableSeat<C>, area: Area, section: u32) -> u64
        requires seat { IsSeatOf self.now seat.old }
        requires seated { IsSeated (setup_in self.now) (parts_of_seat seat.old) }
        requires there { (area ≡ Area.Section section) × IsIn self.now.areas area }
        ensures seat { IsSeatOf self.now seat.new }
        ensures grown { parts_of_seat seat.new ≡ first_after (parts_of_seat seat.old) (step_made (Step.LookSection section) (StepAnswer.Found result)) }
        ensures in_run { FirstIsInRun C.state C.code (setup_in self.now) (parts_of_seat seat.new) }
    {
        let place = self.areas.place_from(self.objects_from, area) as usize;
        self.table
            .shared
            .load::<LooksSection<C>>(&mut seat.seat, place)
    }

    // Answers the word that it found.
    pub(crate) fn break_level(
        &self,
        seat: &mut TableSeat<C>,
        area: Area,
        section: u32,
        old: u64,
        level: u8,
    ) -> u64
        requires seat { IsSeatOf self.now seat.old }
        requires seated { IsSeated (setup_in self.now) (parts_of_seat seat.old) }
        requires there { (area ≡ Area.Section section) × IsIn self.now.areas area }
        requires lawful { can_break old level ≡ true }
        ensures seat { IsSeatOf self.now seat.new }
        ensures grown { parts_of_seat seat.new ≡ first_after (parts_of_seat seat.old) (step_made (Step.BreakLevel section old level)
            (answer_to (Effect.Exchange old (revoked_of old level)) result)) }
        ensures in_run { FirstIsInRun C.state C.code (setup_in self.now) (parts_of_seat seat.new) }
    {
        levels_are_revoked();
        let place = self.areas.place_from(self.objects_from, area) as usize;
        let word = revoked_to(old, level);
        self.table
            .shared
            .compare_exchange::<BreaksLevel<C>>(&mut seat.seat, place, old, word)
    }

    // Hands out the seat of the thread that the seat's thread has started.
    pub(crate) fn split(
        &self,
        seat: &mut TableSeat<C>,
        thread: u8,
        object: u32,
        priority: u8,
    ) -> TableSeat<C>
        requires seat { IsSeatOf self.now seat.old }
        requires next { FirstMayMake C.state C.code (setup_in self.now) (parts_of_seat seat.old) (Step.Split thread object priority) }
        ensures seat { IsSeatOf self.now seat.new }
        ensures child_seat { IsSeatOf self.now result }
        ensures grown { parts_of_seat seat.new ≡ first_after (parts_of_seat seat.old) (step_made (Step.Split thread object priority) (StepAnswer.Found 0)) }
        ensures child { parts_of_seat result ≡ fresh_part (setup_in self.now) (born_by (Step.Split thread object priority)) ∷ [] }
        ensures in_run { FirstIsInRun C.state C.code (setup_in self.now) (parts_of_seat seat.new) }
        ensures child_in_run { FirstIsInRun C.state C.code (setup_in self.now) (parts_of_seat result) }
    {
        let child = self.table.shared.split_seat::<SeatParts<C>>(&mut seat.seat);
        TableSeat { seat: child }
    }
}
