//! An accepted program with what its execution needs.

ghost use Rattle.std.specs.Prelude.{◌≡◌, IfOk};
ghost use Rattle.java_rows.specs.Program.{steps_of};
ghost use Rattle.java_rows.specs.Units.{literal_units};
ghost use Rattle.interp_local.specs.Quick.{quicks_of};

use crate::literals::{make_literals, units_of_literal};
use crate::quicks::{make_program_quicks, quicks_of_method};
use interp_local::Quick;
use link_types::MethodId;
use program_accept::{Program, World};
use rows::Rows;
use std::alloc::{AllocError, Global};
use std::marker::Model;

/// An accepted program, ready to be executed. Contracts see what they see of the program: its classes, and the method
/// with which it begins. Threads share it.
#[derive(Drop)]
pub struct JavaWorld<'p> {
    world: &'p World,
    main: MethodId,
    // By the file of the class and the place of the method there.
    quicks: Vec<Rows<Rows<Quick>>>,
    // By the numbers of the literals.
    literals: Vec<Rows<u16>>,
}

impl<'p> Model for JavaWorld<'p> {
    ghost use Rattle.program_accept.specs.Accepted.{Accepted};
    ghost use Rattle.java_world.specs.Literals.{AreLiteralsOf};
    ghost use Rattle.java_world.specs.Quicks.{AreQuicksOf};

    ghost Value = { Accepted };

    ghost view = { λ w. record { units = w.world.now; main = w.main } };

    ghost invariant = { λ w. AreQuicksOf w.world.now w.quicks.items × AreLiteralsOf w.world.now w.literals.items };
}

impl<'p> JavaWorld<'p> {
    /// The program with the quick forms of its instructions, one entry for each instruction, and the units of its
    /// string literals, which are given back with it.
    ///
    /// # Errors
    /// It fails only when memory runs out.
    pub fn new(alloc: Global, program: &'p Program) -> Result<Self, AllocError>
        ensures { IfOk result (λ world. world ≡ program.now) }
    {
        let world = program.world();
        let quicks = make_program_quicks(alloc, world.units())?;
        let literals = make_literals(alloc, world)?;
        Ok(JavaWorld {
            world,
            main: program.main(),
            quicks,
            literals,
        })
    }

    /// The linked classes.
    pub fn world(&self) -> &'p World
        ensures { result.now ≡ self.now.units }
    {
        self.world
    }

    /// The method with which the program begins: a static `main` with a parameter of type `String[]` and no result
    /// (JLS 12.1.4).
    pub fn main_method(&self) -> MethodId
        ensures { result ≡ self.now.main }
    {
        self.main
    }

    /// The quick forms of a method's instructions, none where it has no code.
    pub(crate) fn quicks_of(&self, method: MethodId) -> &[Quick]
        ensures { result.now ≡ quicks_of (steps_of self.now.units method) }
    {
        quicks_of_method(&self.quicks, method)
    }

    /// The UTF-16 code units of the string literal of a number, none where there is none.
    #[tactic(auto, using(crate::proofs::LiteralUnitLaws::literal_at))]
    pub(crate) fn units_of(&self, string: u32) -> &[u16]
        ensures { result.now ≡ literal_units self.now.units string }
    {
        units_of_literal(&self.literals, string)
    }
}
