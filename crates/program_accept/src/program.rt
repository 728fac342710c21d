//! Programs that are accepted.

ghost use Rattle.std.specs.Prelude.{◌≡◌, ◌≤◌, ◌⊎◌, IfOk, IfErr, length, map};
ghost use Rattle.link_rules.specs.LinkRules.{link_rules};
ghost use Rattle.link_rules.specs.Units.{AreUnits};
ghost use Rattle.type_rules.specs.VerifyRules.{verify_rules};
ghost use Rattle.program_accept.specs.declared.refusal.AcceptRefusal.{AcceptRefusal};
ghost use Rattle.program_accept.specs.declared.refusal.AcceptRefusal.TheVariants.{NoMemory};
ghost use Rattle.program_accept.specs.Accepted.{Accepted, IsProgram, IsOnlyProgram, IsProgramOf, program_rules, unit_rules, told};
ghost use Rattle.program_accept.specs.Answers.{Decides, IsRefused};
ghost use Rattle.program_accept.specs.Refusals as refusals;

use crate::decoding::decode_files;
use crate::main_method::main_method;
use crate::reading::check_files;
use crate::refusal::{AcceptRefusal, link_refused, too_many, verify_refused};
use code_decode::ClassUnit;
use link_types::MethodId;
use std::alloc::Global;
use std::marker::Model;
use subset_verify::{World, link, verify};

/// The most files that a program has.
const MOST_FILES: usize = 1024;

/// A program that is accepted. Contracts see its classes, and the method with which it begins.
#[derive(Drop)]
pub struct Program {
    world: World,
    main: MethodId,
}

impl Model for Program {
    ghost use Rattle.program_accept.specs.Accepted.{Accepted};

    ghost Value = { Accepted };

    ghost view = { λ p. record { units = p.world; main = p.main } };
}

impl Program {
    /// The linked classes.
    pub fn world(&self) -> &World
        ensures { result.now ≡ self.now.units }
    {
        &self.world
    }

    /// The method with which the program begins.
    pub fn main(&self) -> MethodId
        ensures { result ≡ self.now.main }
    {
        self.main
    }
}

fn linked(alloc: Global, units: Vec<ClassUnit>) -> Result<World, AcceptRefusal>
    requires decoded { AreUnits units.items }
    ensures { Decides result (told refusals.link_refused (link_rules units.items)) (λ world. world ≡ units.items) }
{
    match link(alloc, units) {
        Ok(world) => Ok(world),
        Err(refusal) => Err(link_refused(refusal)),
    }
}

fn verified(alloc: Global, world: &World) -> Result<(), AcceptRefusal>
    ensures { Decides result (told refusals.verify_refused (verify_rules world.now)) (λ _. Unit {0}) }
{
    match verify(alloc, world) {
        Ok(()) => Ok(()),
        Err(refusal) => Err(verify_refused(refusal)),
    }
}

// The program of these classes.
fn accept_units(alloc: Global, units: Vec<ClassUnit>, main: &[u8]) -> Result<Program, AcceptRefusal>
    requires few { length units.items ≤ 1024 }
    requires decoded { AreUnits units.items }
    ensures { Decides result (unit_rules main.now units.items) (λ p. IsProgramOf units.items main.now p) }
{
    let world = match linked(alloc, units) {
        Ok(world) => world,
        Err(refusal) => return Err(refusal),
    };
    match verified(alloc, &world) {
        Ok(()) => {}
        Err(refusal) => return Err(refusal),
    }
    match main_method(world.units(), main) {
        Some(main) => Ok(Program { world, main }),
        None => Err(AcceptRefusal::NoMain),
    }
}

fn accept_files(alloc: Global, files: Vec<Vec<u8>>, main: &[u8]) -> Result<Program, AcceptRefusal>
    ensures { Decides result (program_rules (map (λ f. f.items) files.items) main.now) (λ p. IsOnlyProgram (map (λ f. f.items) files.items) main.now p) }
{
    if files.len() > MOST_FILES {
        return Err(too_many());
    }
    let listed = files.as_slice();
    match check_files(alloc, listed) {
        Ok(()) => {}
        Err(refusal) => return Err(refusal),
    }
    let units = match decode_files(alloc, listed) {
        Ok(units) => units,
        Err(refusal) => return Err(refusal),
    };
    drop(files);
    accept_units(alloc, units, main)
}

/// Reads, decodes, links and verifies the class files of a program that begins with the static method `main` of a
/// class: `Ok` exactly where all rules hold (`program_rules`), unless memory runs out. `main` is the internal form of
/// the class's name (JVMS 4.2.1), compared by bytes.
///
/// # Errors
/// The refusal of the first rule that is broken: that of more than 1,024 files; of the first file that isn't a class
/// file; of the first file whose code isn't well formed; of linking; of verification; and `NoMain` where no file has
/// the class, or the class declares no such method. `NoMemory` where memory runs out.
pub fn accept(alloc: Global, files: Vec<Vec<u8>>, main: &[u8]) -> Result<Program, AcceptRefusal>
    // What is accepted is the program of the files.
    ensures accepted { IfOk result (λ p. IsProgram (map (λ f. f.items) files.items) main.now p) }
    // They are no other program.
    ensures alone { IfOk result (λ p. (other : Accepted) → IsProgram (map (λ f. f.items) files.items) main.now other → other ≡ p) }
    // Where all rules hold it is accepted, unless memory runs out.
    ensures only { (program_rules (map (λ f. f.items) files.items) main.now).Hold → IfErr result (λ e. e ≡ NoMemory) }
    // What is refused is the first rule that is broken.
    ensures exact { IfErr result (λ e. (e ≡ NoMemory) ⊎ (program_rules (map (λ f. f.items) files.items) main.now).Refuse e) }
    // The first rule that is broken is refused, unless memory runs out.
    ensures first { (e : AcceptRefusal) → (program_rules (map (λ f. f.items) files.items) main.now).Refuse e → IsRefused result e }
{
    accept_files(alloc, files, main)
}
