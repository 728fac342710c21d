//! A method that reads and makes texts, step by step.

ghost use Rattle.std.specs.Prelude.{◌≡◌, List, [], ◌∷◌, ◌++◌, ◌+◌, ◌<◌, ◌^◌, OnOk, OnErr, IfOk};
ghost use Rattle.code_decode.specs.declared.code.ClassUnit.{ClassUnit};
ghost use Rattle.java_rows.specs.Numbers.{char_of};
ghost use Rattle.java_rows.specs.Texts as texts;
ghost use Rattle.java_rows.specs.Units.{literal_units};
ghost use Rattle.java_rows.specs.Plan.{Use};
ghost use Rattle.java_rows.specs.Thread.{next_of};
ghost use Rattle.interp_texts.specs.declared.stage.TextStage.TheVariants as at;
ghost use Rattle.text_stages.specs.Stages.{text_silent, text_next, first_next, second_next, part_next, units_next};
ghost use Rattle.interp_plans.specs.Jobs.{job_of};
ghost use Rattle.interp_texts.specs.Meaning.{stage_of, part_of, tail_of, known_units, HasRoom};
ghost use Rattle.text_stages.specs.Stages as stages;
ghost use Rattle.interp_texts.specs.declared.stage.Known.TheVariants as known;
ghost use Rattle.interp_texts.specs.Told.{told, first_text, second_text, known_now, HasBegun, HasRoomNow};

use crate::row::UnitRow;
use crate::stage::{Known, Part, Tail, TextStage};
use crate::starting::first_stage;
use crate::values::value_units;
use builtin_world::number::{INDEX_OUT_OF_BOUNDS_EXCEPTION, NEGATIVE_ARRAY_SIZE_EXCEPTION, STRING};
use builtin_world::word::{BUILDER_TEXT, STRING_UNITS};
use frame_snapshot::{Appended, TextJob};
use instructions::PrimitiveType;
use interp_plans::JavaProgram;
use op_core::{Next, NoMemory, Op, Reply};
use std::alloc::Global;

/// What a reply leads to.
#[derive(Clone, Copy)]
pub enum TextReached {
    /// The next stage.
    Stands,
    /// The method is complete.
    Answers,
    AnswersWord(u32),
    /// A new exception of a class is thrown.
    Breaks(u32),
    Lost,
}

/// A thread inside a method that reads or makes texts: what the method does, what comes next, the two texts that are read,
/// and the one that is made.
#[derive(Drop)]
pub struct TextRun {
    job: TextJob,
    stage: TextStage,
    first: Known,
    firsts: UnitRow,
    second: Known,
    seconds: UnitRow,
    made: UnitRow,
}

fn length_word(units: &[u16]) -> u32
    ensures { result ≡ texts.length_word units.now }
{
    (units.len() % 0x1_0000_0000) as u32
}

impl TextRun {
    /// Inside no method so far. Takes no memory.
    pub fn new(alloc: Global) -> Self
        ensures { HasRoomNow result }
    {
        TextRun {
            job: TextJob::Lengthens(0),
            stage: TextStage::AsksOther,
            first: Known::Read,
            firsts: UnitRow::empty(alloc),
            second: Known::Read,
            seconds: UnitRow::empty(alloc),
            made: UnitRow::empty(alloc),
        }
    }

    /// Goes to a method's beginning. What the last one left doesn't matter there.
    pub fn begin(&mut self, job: TextJob)
        ensures job { self.new.job ≡ job }
        ensures stage { stage_of self.new.stage ≡ stages.start_of (job_of job) }
        ensures room { HasRoomNow self.new }
    {
        self.job = job;
        self.stage = first_stage(job);
    }

    /// The same, with at least as much room.
    #[tactic(auto, using(crate::proofs::RoomLemmas::known_same, crate::proofs::RoomLemmas::room_kept))]
    pub fn copy(&self, alloc: Global) -> Result<Self, NoMemory>
        requires { HasRoomNow self.now }
        ensures job { IfOk result (λ copy. copy.job ≡ self.now.job) }
        ensures stage { IfOk result (λ copy. copy.stage ≡ self.now.stage) }
        ensures first { IfOk result (λ copy. (us : List ClassUnit) → first_text us copy ≡ first_text us self.now) }
        ensures second { IfOk result (λ copy. (us : List ClassUnit) → second_text us copy ≡ second_text us self.now) }
        ensures made { IfOk result (λ copy. copy.made.units ≡ self.now.made.units) }
        ensures room { IfOk result (λ copy. HasRoomNow copy) }
    {
        Ok(TextRun {
            job: self.job,
            stage: self.stage,
            first: self.first,
            firsts: self.firsts.copy(alloc)?,
            second: self.second,
            seconds: self.seconds.copy(alloc)?,
            made: self.made.copy(alloc)?,
        })
    }

    fn first_units<'a, P: JavaProgram>(&'a self, program: &'a P) -> &'a [u16]
        ensures { result.now ≡ first_text (P.units program.now) self.now }
    {
        match self.first {
            Known::Literal(string) => program.literal_units(string),
            Known::Read => self.firsts.units(),
        }
    }

    fn second_units<'a, P: JavaProgram>(&'a self, program: &'a P) -> &'a [u16]
        ensures { result.now ≡ second_text (P.units program.now) self.now }
    {
        match self.second {
            Known::Literal(string) => program.literal_units(string),
            Known::Read => self.seconds.units(),
        }
    }

    // Is at a stage with the first text alone.
    fn stand(&mut self, stage: TextStage)
        ensures job { self.new.job ≡ self.old.job }
        ensures stage { self.new.stage ≡ stage }
        ensures first { self.new.first ≡ self.old.first }
        ensures firsts { self.new.firsts ≡ self.old.firsts }
        ensures second { (us : List ClassUnit) → second_text us self.new ≡ [] }
        ensures made { self.new.made.units ≡ [] }
    {
        self.stage = stage;
        self.second = Known::Read;
        self.seconds.clear();
        self.made.clear();
    }

    // The first text is whole.
    fn first_known<P: JavaProgram>(&mut self, program: &P) -> TextReached
        ensures job { self.new.job ≡ self.old.job }
        ensures is { told (P.units program.now) result self.new ≡ first_next (job_of self.old.job) (first_text (P.units program.now) self.old) }
        ensures room { HasRoomNow self.new }
    {
        match self.job {
            TextJob::Lengthens(_) | TextJob::Measures(_) => {
                let length = length_word(self.first_units(program));
                self.stage = TextStage::AsksOther;
                TextReached::AnswersWord(length)
            }
            TextJob::Picks { index, .. } => {
                let unit = self.first_units(program).get(index as usize).copied();
                self.stage = TextStage::AsksOther;
                match unit {
                    Some(unit) if index < 1 << 31 => TextReached::AnswersWord(u32::from(unit)),
                    _ => TextReached::Breaks(INDEX_OUT_OF_BOUNDS_EXCEPTION),
                }
            }
            TextJob::Matches { other, .. } | TextJob::Joins { other, .. } => {
                self.stand(TextStage::AsksWord {
                    part: Part::Second,
                    string: other,
                });
                TextReached::Stands
            }
            TextJob::Copies { .. } | TextJob::Tells(_) => {
                self.stand(TextStage::MakesRoom(Tail::Nothing));
                TextReached::Stands
            }
            TextJob::Extends { appended, .. } => {
                match appended {
                    Appended::Text(string) if string != 0 => self.stand(TextStage::AsksWord {
                        part: Part::Second,
                        string,
                    }),
                    _ => self.stand(TextStage::MakesRoom(Tail::Value(appended))),
                }
                TextReached::Stands
            }
        }
    }

    // The second text is whole.
    fn second_known<P: JavaProgram>(&mut self, program: &P) -> TextReached
        ensures job { self.new.job ≡ self.old.job }
        ensures is { told (P.units program.now) result self.new ≡ second_next (job_of self.old.job) (first_text (P.units program.now) self.old) (second_text (P.units program.now) self.old) }
        ensures room { HasRoomNow self.new }
    {
        match self.job {
            TextJob::Matches { .. } => {
                let same = self.first_units(program) == self.second_units(program);
                self.stage = TextStage::AsksOther;
                TextReached::AnswersWord(u32::from(same))
            }
            TextJob::Joins { string, .. } => {
                let is_empty = self.second_units(program).is_empty();
                if is_empty {
                    self.stage = TextStage::AsksOther;
                    return TextReached::AnswersWord(string);
                }
                self.stage = TextStage::MakesRoom(Tail::Second);
                self.made.clear();
                TextReached::Stands
            }
            TextJob::Extends { .. } => {
                self.stage = TextStage::MakesRoom(Tail::Second);
                self.made.clear();
                TextReached::Stands
            }
            _ => {
                self.stage = TextStage::AsksOther;
                TextReached::Lost
            }
        }
    }

    fn known<P: JavaProgram>(&mut self, program: &P, part: Part) -> TextReached
        ensures job { self.new.job ≡ self.old.job }
        ensures is { told (P.units program.now) result self.new ≡ part_next (job_of self.old.job) (part_of part) (first_text (P.units program.now) self.old) (known_now (P.units program.now) part self.old) }
        ensures room { HasRoomNow self.new }
    {
        match part {
            Part::First => self.first_known(program),
            Part::Second => self.second_known(program),
        }
    }

    // A unit was read at a place of the first text's array.
    #[tactic(auto, using(crate::proofs::RoomLemmas::read_is, crate::proofs::RoomLemmas::is_read))]
    fn first_read<P: JavaProgram>(
        &mut self,
        program: &P,
        array: u32,
        place: u32,
        left: u32,
        word: u32,
    ) -> TextReached
        requires room { left < self.old.firsts.spare }
        requires read { self.old.first ≡ known.Read }
        requires place { place + left + 1 < 2 ^ 32 }
        ensures job { self.new.job ≡ self.old.job }
        ensures is { told (P.units program.now) result self.new ≡ units_next (job_of self.old.job) stages.first array (place + 1) left (first_text (P.units program.now) self.old) (self.old.firsts.units ++ char_of word ∷ []) }
        ensures room { HasRoomNow self.new }
    {
        self.firsts.push((word % 0x1_0000) as u16);
        match left.checked_sub(1) {
            None => self.first_known(program),
            Some(left) => {
                self.stand(TextStage::AsksUnit {
                    part: Part::First,
                    array,
                    place: place + 1,
                    left,
                });
                TextReached::Stands
            }
        }
    }

    // The same of the second text.
    #[tactic(auto, using(crate::proofs::RoomLemmas::read_is, crate::proofs::RoomLemmas::is_read))]
    fn second_read<P: JavaProgram>(
        &mut self,
        program: &P,
        array: u32,
        place: u32,
        left: u32,
        word: u32,
    ) -> TextReached
        requires room { left < self.old.seconds.spare }
        requires read { self.old.second ≡ known.Read }
        requires place { place + left + 1 < 2 ^ 32 }
        ensures job { self.new.job ≡ self.old.job }
        ensures is { told (P.units program.now) result self.new ≡ units_next (job_of self.old.job) stages.second array (place + 1) left (first_text (P.units program.now) self.old) (self.old.seconds.units ++ char_of word ∷ []) }
        ensures room { HasRoomNow self.new }
    {
        self.seconds.push((word % 0x1_0000) as u16);
        match left.checked_sub(1) {
            None => self.second_known(program),
            Some(left) => {
                self.stage = TextStage::AsksUnit {
                    part: Part::Second,
                    array,
                    place: place + 1,
                    left,
                };
                self.made.clear();
                TextReached::Stands
            }
        }
    }

    // The builder's String was read.
    fn builder_read<P: JavaProgram>(&mut self, program: &P, string: u32) -> TextReached
        ensures job { self.new.job ≡ self.old.job }
        ensures is { told (P.units program.now) result self.new ≡ stages.builder_next (job_of self.old.job) string }
        ensures room { HasRoomNow self.new }
    {
        self.first = Known::Read;
        self.firsts.clear();
        if string == 0 {
            return self.first_known(program);
        }
        self.stand(TextStage::AsksWord {
            part: Part::First,
            string,
        });
        TextReached::Stands
    }

    // A literal is the text of a part.
    fn literal<P: JavaProgram>(&mut self, program: &P, part: Part, string: u32) -> TextReached
        ensures job { self.new.job ≡ self.old.job }
        ensures is { told (P.units program.now) result self.new ≡ part_next (job_of self.old.job) (part_of part) (first_text (P.units program.now) self.old) (literal_units (P.units program.now) string) }
        ensures room { HasRoomNow self.new }
    {
        match part {
            Part::First => {
                self.first = Known::Literal(string);
                self.first_known(program)
            }
            Part::Second => {
                self.second = Known::Literal(string);
                self.second_known(program)
            }
        }
    }

    // A unit was written, or none was to be.
    fn written(&mut self, array: u32, place: u32, left: u32) -> TextReached
        requires { place + left < 2 ^ 32 }
        ensures job { self.new.job ≡ self.old.job }
        ensures is { (us : List ClassUnit) → told us result self.new ≡ stages.written_next array place left (first_text us self.old) (second_text us self.old) self.old.made.units }
        ensures room { HasRoomNow self.new }
    {
        self.stage = match left.checked_sub(1) {
            None => TextStage::AsksString(array),
            Some(left) => TextStage::AsksWrite { array, place, left },
        };
        TextReached::Stands
    }

    // The new String has its word.
    fn bound(&mut self, string: u32) -> TextReached
        ensures job { self.new.job ≡ self.old.job }
        ensures is { (us : List ClassUnit) → told us result self.new ≡ stages.bound_next (job_of self.old.job) string (first_text us self.old) (second_text us self.old) self.old.made.units }
        ensures room { HasRoomNow self.new }
    {
        match self.job {
            TextJob::Joins { .. } | TextJob::Tells(_) => {
                self.stage = TextStage::AsksOther;
                TextReached::AnswersWord(string)
            }
            TextJob::Copies { .. } | TextJob::Extends { .. } => {
                self.stage = TextStage::AsksKeep(string);
                TextReached::Stands
            }
            _ => {
                self.stage = TextStage::AsksOther;
                TextReached::Lost
            }
        }
    }

    // The class of the other object of a comparison is known.
    fn other_asked(&mut self, class: u32) -> TextReached
        ensures job { self.new.job ≡ self.old.job }
        ensures is { (us : List ClassUnit) → told us result self.new ≡ stages.other_next (job_of self.old.job) class }
        ensures room { HasRoomNow self.new }
    {
        let TextJob::Matches { string, .. } = self.job else {
            self.stage = TextStage::AsksOther;
            return TextReached::Lost;
        };
        if class != STRING {
            self.stage = TextStage::AsksOther;
            return TextReached::AnswersWord(0);
        }
        self.first = Known::Read;
        self.firsts.clear();
        self.stand(TextStage::AsksWord {
            part: Part::First,
            string,
        });
        TextReached::Stands
    }

    fn stays_at(&mut self, stage: TextStage) -> TextReached
        requires { HasRoom stage self.old.first self.old.firsts self.old.second self.old.seconds self.old.made }
        ensures job { self.new.job ≡ self.old.job }
        ensures is { (us : List ClassUnit) → told us result self.new ≡ stages.stands_at (stage_of stage) (first_text us self.old) (second_text us self.old) self.old.made.units }
        ensures room { HasRoomNow self.new }
    {
        self.stage = stage;
        TextReached::Stands
    }

    /// Goes on with the reply to the operation that the stage asks for. Takes no memory.
    #[tactic(auto, using(crate::proofs::RoomLemmas::read_is, crate::proofs::RoomLemmas::is_read))]
    pub fn reply<P: JavaProgram>(&mut self, program: &P, reply: Reply) -> TextReached
        requires { HasRoomNow self.old }
        ensures job { self.new.job ≡ self.old.job }
        ensures is { told (P.units program.now) result self.new ≡ text_next (P.units program.now) (job_of self.old.job) (stage_of self.old.stage) (first_text (P.units program.now) self.old) (second_text (P.units program.now) self.old) self.old.made.units reply }
        ensures room { HasRoomNow self.new }
    {
        match (self.stage, reply) {
            (TextStage::AsksWord { part, string }, Reply::Value(array)) => {
                if array == 0 {
                    self.stays_at(TextStage::AsksNumber { part, string })
                } else {
                    self.stays_at(TextStage::AsksSize { part, array })
                }
            }
            (TextStage::AsksNumber { part, .. }, Reply::Class(_, number)) => {
                self.literal(program, part, number)
            }
            (TextStage::AsksSize { part, array }, Reply::Class(_, count)) => {
                self.stays_at(TextStage::TakesRoom { part, array, count })
            }
            (
                TextStage::AsksUnit {
                    part: Part::First,
                    array,
                    place,
                    left,
                },
                Reply::Value(word),
            ) => self.first_read(program, array, place, left, word),
            (
                TextStage::AsksUnit {
                    part: Part::Second,
                    array,
                    place,
                    left,
                },
                Reply::Value(word),
            ) => self.second_read(program, array, place, left, word),
            (TextStage::AsksWrite { array, place, left }, Reply::Done) => {
                self.written(array, place + 1, left)
            }
            (TextStage::AsksOther, Reply::Class(class, _)) => self.other_asked(class),
            (TextStage::AsksBuilder, Reply::Value(string)) => match self.job {
                TextJob::Copies { .. }
                | TextJob::Extends { .. }
                | TextJob::Measures(_)
                | TextJob::Tells(_) => self.builder_read(program, string),
                _ => TextReached::Lost,
            },
            (TextStage::AsksArray(_), Reply::Made(array)) => {
                let left = self.made.units().len() as u32;
                self.written(array, 0, left)
            }
            (TextStage::AsksKeep(_), Reply::Done) => match self.job {
                TextJob::Copies { .. } => TextReached::Answers,
                TextJob::Extends { builder, .. } => TextReached::AnswersWord(builder),
                _ => TextReached::Lost,
            },
            (TextStage::AsksString(array), Reply::Made(string)) => {
                self.stays_at(TextStage::AsksBind { array, string })
            }
            (TextStage::AsksBind { string, .. }, Reply::Done) => self.bound(string),
            _ => {
                self.stage = TextStage::AsksOther;
                TextReached::Lost
            }
        }
    }

    // There is room for the units of an array, which are the text of a part.
    fn empty(&mut self, part: Part, count: u32) -> Result<(), NoMemory>
        ensures job { self.new.job ≡ self.old.job }
        ensures stage { self.new.stage ≡ self.old.stage }
        ensures ok { OnOk result (HasBegun part count self.old self.new) }
        ensures err { OnErr result (self.new ≡ self.old) }
    {
        match part {
            Part::First => {
                self.firsts.begin(count)?;
                self.first = Known::Read;
            }
            Part::Second => {
                self.seconds.begin(count)?;
                self.second = Known::Read;
            }
        }
        Ok(())
    }

    #[tactic(auto, using(crate::proofs::RoomLemmas::read_is, crate::proofs::RoomLemmas::is_read))]
    fn takes_room<P: JavaProgram>(
        &mut self,
        program: &P,
        part: Part,
        array: u32,
        count: u32,
    ) -> Result<TextReached, NoMemory>
        ensures job { self.new.job ≡ self.old.job }
        ensures is { IfOk result (λ reached. told (P.units program.now) reached self.new ≡ units_next (job_of self.old.job) (part_of part) array 0 count (first_text (P.units program.now) self.old) []) }
        ensures room { IfOk result (λ reached. HasRoomNow self.new) }
        ensures err { OnErr result (self.new ≡ self.old) }
    {
        self.empty(part, count)?;
        let Some(left) = count.checked_sub(1) else {
            return Ok(self.known(program, part));
        };
        let stage = TextStage::AsksUnit {
            part,
            array,
            place: 0,
            left,
        };
        match part {
            Part::First => self.stand(stage),
            Part::Second => {
                self.stage = stage;
                self.made.clear();
            }
        }
        Ok(TextReached::Stands)
    }

    // The text that is made.
    fn joined<P: JavaProgram>(
        &self,
        alloc: Global,
        program: &P,
        tail: Tail,
    ) -> Result<Vec<u16>, NoMemory>
        ensures { IfOk result (λ row. row.items ≡ stages.with_tail (tail_of tail) (first_text (P.units program.now) self.now) (second_text (P.units program.now) self.now)) }
    {
        let mut row = Vec::from_slice(alloc, self.first_units(program))?;
        match tail {
            Tail::Nothing => {}
            Tail::Second => row.extend_from_slice(self.second_units(program))?,
            Tail::Value(value) => {
                let units = value_units(alloc, value)?;
                row.extend_from_slice(units.as_slice())?;
            }
        }
        Ok(row)
    }

    fn makes_room<P: JavaProgram>(
        &mut self,
        alloc: Global,
        program: &P,
        tail: Tail,
    ) -> Result<TextReached, NoMemory>
        requires { self.old.stage ≡ at.MakesRoom tail }
        ensures job { self.new.job ≡ self.old.job }
        ensures is { IfOk result (λ reached. told (P.units program.now) reached self.new ≡ text_silent (P.units program.now) (job_of self.old.job) (stage_of self.old.stage) (first_text (P.units program.now) self.old) (second_text (P.units program.now) self.old) self.old.made.units) }
        ensures room { IfOk result (λ reached. HasRoomNow self.new) }
        ensures err { OnErr result (self.new ≡ self.old) }
    {
        let row = self.joined(alloc, program, tail)?;
        if row.len() >= 1 << 31 {
            return Ok(TextReached::Breaks(NEGATIVE_ARRAY_SIZE_EXCEPTION));
        }
        let Some(class) = program.primitive_array(PrimitiveType::Char) else {
            return Ok(TextReached::Lost);
        };
        self.made = UnitRow::of(row);
        self.stage = TextStage::AsksArray(class);
        Ok(TextReached::Stands)
    }

    /// Makes the silent step of the stage, which takes room. After an error all is as before.
    pub fn silent<P: JavaProgram>(
        &mut self,
        alloc: Global,
        program: &P,
    ) -> Result<TextReached, NoMemory>
        requires { HasRoomNow self.old }
        ensures job { self.new.job ≡ self.old.job }
        ensures is { IfOk result (λ reached. told (P.units program.now) reached self.new ≡ text_silent (P.units program.now) (job_of self.old.job) (stage_of self.old.stage) (first_text (P.units program.now) self.old) (second_text (P.units program.now) self.old) self.old.made.units) }
        ensures room { IfOk result (λ reached. HasRoomNow self.new) }
        ensures err { OnErr result (self.new ≡ self.old) }
    {
        match self.stage {
            TextStage::TakesRoom { part, array, count } => {
                self.takes_room(program, part, array, count)
            }
            TextStage::MakesRoom(tail) => self.makes_room(alloc, program, tail),
            _ => Ok(TextReached::Lost),
        }
    }

    fn builder(&self) -> Option<u32>
        ensures { result ≡ stages.builder_of (job_of self.now.job) }
    {
        match self.job {
            TextJob::Copies { builder, .. } | TextJob::Extends { builder, .. } => Some(builder),
            TextJob::Measures(builder) | TextJob::Tells(builder) => Some(builder),
            _ => None,
        }
    }

    /// What comes next. Takes no memory.
    pub fn next(&self) -> Next
        requires { HasRoomNow self.now }
        ensures { (us : List ClassUnit) (u : Use) → result ≡ next_of (stages.stage_plan us u (job_of self.now.job) (stage_of self.now.stage) (first_text us self.now) (second_text us self.now) self.now.made.units) }
    {
        match self.stage {
            TextStage::AsksOther => match self.job {
                TextJob::Matches { other, .. } => Next::Want(Op::ClassOf(other)),
                _ => Next::Ended,
            },
            TextStage::AsksBuilder => match self.builder() {
                Some(builder) => Next::Want(Op::Read(builder, BUILDER_TEXT)),
                None => Next::Ended,
            },
            TextStage::AsksWord { string, .. } => Next::Want(Op::Read(string, STRING_UNITS)),
            TextStage::AsksNumber { string, .. } => Next::Want(Op::ClassOf(string)),
            TextStage::AsksSize { array, .. } => Next::Want(Op::ClassOf(array)),
            TextStage::TakesRoom { .. } | TextStage::MakesRoom(_) => Next::Silent,
            TextStage::AsksUnit { array, place, .. } => Next::Want(Op::Read(array, place)),
            TextStage::AsksArray(class) => {
                Next::Want(Op::New(class, self.made.units().len() as u32))
            }
            TextStage::AsksWrite { array, place, .. } => {
                let unit = self.made.units().get(place as usize).copied().unwrap_or(0);
                Next::Want(Op::Write(array, place, u32::from(unit)))
            }
            TextStage::AsksString(_) => Next::Want(Op::New(STRING, 0)),
            TextStage::AsksBind { array, string } => {
                Next::Want(Op::Write(string, STRING_UNITS, array))
            }
            TextStage::AsksKeep(string) => match self.job {
                TextJob::Copies { builder, .. } | TextJob::Extends { builder, .. } => {
                    Next::Want(Op::Write(builder, BUILDER_TEXT, string))
                }
                _ => Next::Ended,
            },
        }
    }
}
