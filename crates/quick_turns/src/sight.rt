//! What sees the words of a port.

ghost use Rattle.std.specs.Prelude.{◌≡◌};
ghost use Rattle.heap_words.specs.declared.areas.Area.{Area};
ghost use Rattle.step_port.specs.declared.answer.StepAnswer.{StepAnswer};
ghost use Rattle.step_port.specs.declared.step.Step.{Step};
ghost use Rattle.step_port.specs.Words.{IsStepOnWords};

use step_port::StepPort;

/// What sees the words of a port without a step, where no other thread makes steps on them meanwhile.
pub trait WordSight<P: StepPort>: Sized {
    ghost use Rattle.step_port.specs.Words.{Words};

    /// The words on which the port makes its steps.
    ghost words: { P → Words };

    /// The word at a place of the objects, 0 where none is there. Takes no memory.
    fn object(&self, port: &P, at: u32) -> u64
        ensures { result ≡ words port.now (Area.Object at) };

    /// The word of a section, 0 where none is there. Takes no memory.
    fn section(&self, port: &P, section: u32) -> u64
        ensures { result ≡ words port.now (Area.Section section) };

    /// The word of a class, 0 where none is there. Takes no memory.
    fn class(&self, port: &P, class: u32) -> u64
        ensures { result ≡ words port.now (Area.Class class) };

    /// Each step of the port is a step on these words.
    ghost on_words: { (x : P) (step : Step) (a : StepAnswer) (y : P) → P.stepped x step a y → IsStepOnWords (words x) step a (words y) };
}
