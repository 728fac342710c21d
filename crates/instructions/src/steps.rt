//! The instructions of a method.

ghost use Rattle.std.specs.Prelude.{◌≡◌, ◌==◌, length, map, slice_get, option_copied};
ghost use Rattle.instructions.specs.Steps.{number_at, offsets_of};

use crate::numbering::Numbering;
use crate::what::{Instr, Target};
use rows::Rows;
use std::marker::Model;

/// The instructions of a method, in order. Contracts see the list of them.
#[derive(Drop)]
pub struct Steps {
    steps: Rows<Instr<Target>>,
    offsets: Numbering,
}

impl Model for Steps {
    ghost use Rattle.std.specs.Prelude.{◌≡◌, List};
    ghost use Rattle.instructions.specs.declared.what.Instr.{Instr};
    ghost use Rattle.instructions.specs.declared.what.Target.{Target};
    ghost use Rattle.instructions.specs.Steps.{offsets_of};

    ghost Value = { List (Instr Target) };

    ghost view = { λ s. s.steps };

    ghost invariant = { λ s. s.offsets ≡ offsets_of s.steps };
}

impl Steps {
    /// The instructions, whose offsets are these. Takes no memory.
    pub fn new(steps: Rows<Instr<Target>>, offsets: Numbering) -> Self
        requires { offsets ≡ offsets_of steps }
        ensures { result ≡ steps }
    {
        Steps { steps, offsets }
    }

    /// The instructions as a slice.
    pub fn as_slice(&self) -> &[Instr<Target>]
        ensures { result.now ≡ self.now }
    {
        self.steps.as_slice()
    }

    /// How many instructions there are.
    pub fn len(&self) -> usize
        ensures { result ≡ length self.now }
    {
        self.steps.len()
    }

    /// Whether there are no instructions.
    pub fn is_empty(&self) -> bool
        ensures { result ≡ (length self.now == 0) }
    {
        self.steps.is_empty()
    }

    /// The instruction of a number, from 0, or `None` past the last.
    pub fn get(&self, number: u32) -> Option<&Instr<Target>>
        ensures { option_copied result ≡ slice_get self.now number }
    {
        self.steps.get(number as usize)
    }

    /// The number of the instruction at an offset, from 0, or `None` where none begins there.
    pub fn number_at(&self, offset: u32) -> Option<u32>
        ensures { result ≡ number_at self.now offset }
    {
        self.offsets.number_at(offset)
    }
}
