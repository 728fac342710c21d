//! The thread code that makes the steps of a toy script.

ghost use Rattle.std.specs.Prelude.{◌≡◌, ◌+◌, ◌^◌, ◌<◌, [], slice_get};
ghost use Rattle.toy_code.specs.Toy.{steps_of, place_of_first, is_return, half_of_wait, place_behind, waited, answered, place_after};

use crate::{ToyPlace, ToySaves, ToyScript, ToyStep};
use op_core::{CodeStop, Line, Next, NoMemory, Op, Reply, ThreadCode};
use std::alloc::Global;

/// A thread that makes the steps of a script and then ends. The thread that an object starts makes those
/// of the object's script, or none where it has none. A new object has as many words as its length says.
#[derive(Drop)]
pub struct Toy<'a> {
    /// The scripts of all threads. Where two are for one object, the first counts.
    pub scripts: &'a [ToyScript<'a>],
    /// The thread's own steps.
    pub steps: &'a [ToyStep],
    /// Where it is.
    pub place: ToyPlace,
    /// Where it stood at the saves that are kept.
    pub saves: ToySaves,
    alloc: Global,
}

impl<'a> Toy<'a> {
    /// The thread that an object starts, at its first step, with one frame and nothing saved. Takes no
    /// memory.
    pub fn new(alloc: Global, scripts: &'a [ToyScript<'a>], object: u32) -> Self
        ensures scripts { result.scripts.now ≡ scripts.now }
        ensures steps { result.steps.now ≡ steps_of scripts.now object }
        ensures place { result.place ≡ place_of_first }
        ensures saves { result.saves ≡ [] }
    {
        Toy {
            scripts,
            steps: steps_for(scripts, object),
            place: ToyPlace {
                step: 0,
                frames: 1,
                value: 0,
                waits: false,
            },
            saves: ToySaves::new(alloc),
            alloc,
        }
    }

    fn step(&self) -> Option<ToyStep>
        ensures { result ≡ slice_get self.now.steps.now self.now.place.step }
    {
        self.steps.get(self.place.step).copied()
    }

    fn is_at_return(&self) -> bool
        ensures { result ≡ is_return (slice_get self.now.steps.now self.now.place.step) }
    {
        match self.step() {
            Some(ToyStep::Return) => true,
            _ => false,
        }
    }
}

// The steps of an object's script, none where it has none.
fn steps_for<'a>(scripts: &[ToyScript<'a>], object: u32) -> &'a [ToyStep]
    ensures { result.now ≡ steps_of scripts.now object }
{
    for script in scripts {
        if script.object == object {
            return script.steps;
        }
    }
    &[]
}

// What a thread wants at the step of a wait.
fn half_of_wait(reference: u32, waits: bool) -> Op
    ensures { result ≡ half_of_wait reference waits }
{
    if waits {
        Op::Rewake(reference)
    } else {
        Op::Wait(reference)
    }
}

// The next step.
fn place_behind(place: ToyPlace, frames: u32, value: u32) -> ToyPlace
    requires { place.step + 1 < 2 ^ 64 }
    ensures { result ≡ place_behind place frames value }
{
    ToyPlace {
        step: place.step + 1,
        frames,
        value,
        waits: false,
    }
}

// Where a thread is after the reply to one half of a wait.
fn waited(place: ToyPlace) -> ToyPlace
    requires { place.step + 1 < 2 ^ 64 }
    ensures { result ≡ waited place.waits place }
{
    if place.waits {
        return place_behind(place, place.frames, place.value);
    }
    ToyPlace {
        step: place.step,
        frames: place.frames,
        value: place.value,
        waits: true,
    }
}

// Where it is after the reply to another operation.
fn answered(reply: Reply, place: ToyPlace) -> ToyPlace
    requires { place.step + 1 < 2 ^ 64 }
    ensures { result ≡ answered reply place }
{
    match reply {
        Reply::Value(value) => place_behind(place, place.frames, value),
        _ => place_behind(place, place.frames, place.value),
    }
}

// Where it is after the reply to what it wanted at a step.
fn place_after(step: ToyStep, reply: Reply, place: ToyPlace) -> ToyPlace
    requires { place.step + 1 < 2 ^ 64 }
    ensures { result ≡ place_after (Some step) reply place }
{
    match step {
        ToyStep::WaitOn(_) => match reply {
            Reply::Done => waited(place),
            _ => answered(reply, place),
        },
        _ => answered(reply, place),
    }
}

impl<'a> ThreadCode for Toy<'a> {
    ghost use Rattle.std.specs.Prelude.{map};
    ghost use Rattle.toy_code.specs.Toy.{ToyState, toy_code};

    ghost State = { ToyState };

    ghost code = { toy_code };

    ghost state = { λ t. record { scripts = t.scripts.now; steps = t.steps.now; place = t.place } };

    ghost saved = { λ t. map (λ p. record { scripts = t.scripts.now; steps = t.steps.now; place = p }) t.saves };

    fn next(&self) -> Next {
        match self.step() {
            None => Next::Want(Op::End(None)),
            Some(ToyStep::Pass | ToyStep::Call | ToyStep::Return) => Next::Silent,
            Some(ToyStep::Do(op)) => Next::Want(op),
            Some(ToyStep::Show) => Next::Want(Op::Print(Line::Int(self.place.value.cast_signed()))),
            Some(ToyStep::WaitOn(reference)) => Next::Want(half_of_wait(
                reference,
                self.place.waits,
            )),
        }
    }

    fn silent(&mut self) -> Result<(), CodeStop> {
        let frames = match self.step() {
            Some(ToyStep::Call) => self.place.frames.saturating_add(1),
            Some(ToyStep::Return) => self.place.frames.saturating_sub(1),
            _ => self.place.frames,
        };
        if frames > 1024 {
            return Err(CodeStop::Frames);
        }
        self.place = place_behind(self.place, frames, self.place.value);
        Ok(())
    }

    fn reply(&mut self, reply: Reply) {
        if let Some(step) = self.step() {
            self.place = place_after(step, reply, self.place);
        }
    }

    fn save(&mut self) -> Result<(), NoMemory> {
        self.saves.push(self.place)?;
        Ok(())
    }

    fn restore(&mut self) {
        if let Some(place) = self.saves.pop() {
            self.place = place;
        }
    }

    fn drop_save(&mut self) {
        let _place = self.saves.pop();
    }

    fn leaves(&self) -> bool {
        self.is_at_return() && self.saves.any_with_frames(self.place.frames)
    }

    fn child(&self, object: u32) -> Result<Self, NoMemory> {
        Ok(Toy::new(self.alloc, self.scripts, object))
    }

    fn copy(&self) -> Result<Self, NoMemory> {
        Ok(Toy {
            scripts: self.scripts,
            steps: self.steps,
            place: self.place,
            saves: ToySaves::new(self.alloc),
            alloc: self.alloc,
        })
    }

    fn words(&self, _class: u32, length: u32) -> u64 {
        length as u64
    }
}
