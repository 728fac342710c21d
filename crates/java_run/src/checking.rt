//! The check of a journal against a program.

ghost use Rattle.std.specs.Prelude.{◌≡◌, [], IfOk, OnOk, Result};
ghost use Rattle.java_run.specs.Check.{Begins, FindsOn, Found, IsFed, Shows, state_in};
ghost use Rattle.ordinary_machine.specs.Machine.{machine_of};

use crate::answering::printed;
use crate::executing::started;
use interp_calls::{JavaCode, JavaProgram};
use java_machine::World;
use journal_check::Checking;
use op_core::NoMemory;
use ordinary_machine::Ordinary;
use ordinary_runs::made_texts;
use program_accept::Program;
use rows::{Bytes, Rows};
use std::alloc::Global;

/// What the check of a text came to.
#[derive(Drop)]
pub enum Checked {
    /// The text is the journal of an execution, which prints these lines.
    Execution(Rows<Bytes>),
    /// It is none. The line of this number shows it: the first fault of the text, or where it has none the first event
    /// that is no step.
    NotExecution(u32),
}

/// The check whether a text is the journal of an execution of a program. It is given the text piece by piece.
#[derive(Drop)]
pub struct JournalCheck<'p, P> {
    checking: Checking<JavaCode<'p, P>>,
}

// The lines that were printed up to this machine.
fn lines_of<P: JavaProgram>(
    alloc: Global,
    world: &World,
    machine: &Ordinary<JavaCode<'_, P>>,
) -> Result<Rows<Bytes>, NoMemory>
    ensures { IfOk result (λ lines. Shows world.now (Result.Ok (machine_of (state_in P.units) machine.now)) (Checked.Execution lines)) }
{
    let made = made_texts(alloc, machine)?;
    printed(alloc, world, made.as_slice(), machine.lines().as_slice())
}

impl<'p, P: JavaProgram> JournalCheck<'p, P> {
    /// The check before the first byte of a text. `program` is the accepted program, as the code of its threads sees it.
    ///
    /// # Errors
    /// `NoMemory` where memory runs out.
    pub fn begin(alloc: Global, program: &'p P, accepted: &Program) -> Result<Self, NoMemory>
        requires { P.units program.now ≡ accepted.now.units }
        ensures { IfOk result (Begins P.units accepted.now.units accepted.now.main) }
    {
        let machine = started(alloc, program, accepted)?;
        Ok(JournalCheck {
            checking: Checking::new(alloc, machine),
        })
    }

    /// Takes a piece more of the text.
    ///
    /// # Errors
    /// `NoMemory` where memory runs out; then the check can't go on.
    pub fn feed(&mut self, piece: &[u8]) -> Result<(), NoMemory>
        ensures { OnOk result (IsFed P.units self.old self.new piece.now) }
    {
        self.checking.feed(piece)
    }

    /// What the text came to, which has ended.
    ///
    /// # Errors
    /// `NoMemory` where memory runs out.
    pub fn finish(self, alloc: Global, world: &World) -> Result<Checked, NoMemory>
        ensures { IfOk result (λ checked. (found : Found) × FindsOn P.units self.entry [] found × Shows world.now found checked) }
    {
        match self.checking.finish() {
            Ok(machine) => Ok(Checked::Execution(lines_of(alloc, world, &machine)?)),
            Err(line) => Ok(Checked::NotExecution(line)),
        }
    }
}
