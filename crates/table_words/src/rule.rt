//! What the table keeps, and what its steps tell.

use crate::setup::{SeatView, TableKey};
use atomic_table::{Join, Play, Split, Table, TableRule};
use op_core::ThreadCode;
use std::alloc::Global;
use std::marker::PhantomData;

/// The rule: all steps that were made are one run, whose words are the table's, and each thread's part of it is one part of one
/// seat. The first seat has the part of the first thread.
pub struct OneRun<C> {
    code: PhantomData<C>,
}

impl<C: ThreadCode> TableRule<(), SeatView<C>, TableKey<C>> for OneRun<C> {
    ghost use Rattle.std.specs.Prelude.{[], ◌∷◌};
    ghost use Rattle.table_words.specs.Setups.{setup_of, first_birth};
    ghost use Rattle.table_words.specs.Parts.{fresh_part};
    ghost use Rattle.table_words.specs.Rule.{HasRun};

    ghost holds = { λ key. HasRun C.state C.code (setup_of key) };

    ghost first = { λ key. fresh_part (setup_of key) (first_birth (setup_of key)) ∷ [] };
}

/// A step of the thread's own, whatever its kind.
pub struct MakesOwn<C> {
    code: PhantomData<C>,
}

impl<C: ThreadCode> Play<(), SeatView<C>> for MakesOwn<C> {
    ghost use Rattle.table_words.specs.Plays.{MakesOwnStep};

    ghost then = { λ s. MakesOwnStep C.state C.code };
}

/// The host's look at the stop word.
pub struct LoadsStop<C> {
    code: PhantomData<C>,
}

impl<C: ThreadCode> Play<(), SeatView<C>> for LoadsStop<C> {
    ghost use Rattle.step_port.specs.declared.step.Step.TheVariants.{LoadStop};
    ghost use Rattle.table_words.specs.Plays.{MakesThisStep};

    ghost then = { λ s. MakesThisStep C.state C.code LoadStop };
}

/// The host sets the stop word.
pub struct SetsStop<C> {
    code: PhantomData<C>,
}

impl<C: ThreadCode> Play<(), SeatView<C>> for SetsStop<C> {
    ghost use Rattle.step_port.specs.declared.step.Step.TheVariants.{SetStop};
    ghost use Rattle.table_words.specs.Plays.{MakesThisStep};

    ghost then = { λ s. MakesThisStep C.state C.code SetStop };
}

/// A look at a monitor, beside the threads: the place of the word says whose.
pub struct LooksMonitor<C> {
    code: PhantomData<C>,
}

impl<C: ThreadCode> Play<(), SeatView<C>> for LooksMonitor<C> {
    ghost use Rattle.std.specs.Prelude.{◌-◌};
    ghost use Rattle.heap_words.specs.declared.areas.Area.TheVariants.{Object};
    ghost use Rattle.step_port.specs.declared.step.Step.TheVariants.{LookMonitor};
    ghost use Rattle.table_words.specs.Plays.{MakesThisStep, number_in_area};

    ghost then = { λ s me. MakesThisStep C.state C.code (LookMonitor (number_in_area me.0 s.word (Object 0) - 1)) me };
}

/// A look at the word of a section, beside the threads: its place says which section.
pub struct LooksSection<C> {
    code: PhantomData<C>,
}

impl<C: ThreadCode> Play<(), SeatView<C>> for LooksSection<C> {
    ghost use Rattle.heap_words.specs.declared.areas.Area.TheVariants.{Section};
    ghost use Rattle.step_port.specs.declared.step.Step.TheVariants.{LookSection};
    ghost use Rattle.table_words.specs.Plays.{MakesThisStep, number_in_area};

    ghost then = { λ s me. MakesThisStep C.state C.code (LookSection (number_in_area me.0 s.word (Section 0))) me };
}

/// A level is broken: the place says of which section, and the new word which level.
pub struct BreaksLevel<C> {
    code: PhantomData<C>,
}

impl<C: ThreadCode> Play<(), SeatView<C>> for BreaksLevel<C> {
    ghost use Rattle.heap_words.specs.declared.areas.Area.TheVariants.{Section};
    ghost use Rattle.section_state.specs.SectionWord.{revoke_of};
    ghost use Rattle.step_port.specs.declared.step.Step.TheVariants.{BreakLevel};
    ghost use Rattle.table_words.specs.Plays.{MakesThisStep, number_in_area};

    ghost then = { λ s me. MakesThisStep C.state C.code (BreakLevel (number_in_area me.0 s.word (Section 0)) s.first (revoke_of s.second)) me };
}

/// How a seat hands out the seat of a started thread, and how one takes in the parts of another.
pub struct SeatParts<C> {
    code: PhantomData<C>,
}

impl<C: ThreadCode> Split<SeatView<C>> for SeatParts<C> {
    ghost use Rattle.table_words.specs.Views.{parent_view, child_view};

    ghost left = { parent_view C.state C.code };

    ghost right = { child_view C.state C.code };
}

impl<C: ThreadCode> Join<SeatView<C>> for SeatParts<C> {
    ghost use Rattle.std.specs.Prelude.{[], ◌++◌};

    ghost both = { λ v w. v ++ w };

    ghost spent = { [] };
}

/// The table of the kit under this rule.
pub type SharedTable<C> = Table<(), SeatView<C>, TableKey<C>, OneRun<C>, Global>;
