//! All methods of a program.

ghost use Rattle.std.specs.Prelude.{◌≡◌, ◌<◌, ◌^◌, IfOk, IfErr, length};
ghost use Rattle.type_rules.specs.declared.refusal.VerifyRefusal.{VerifyRefusal};
ghost use Rattle.type_rules.specs.Environments.{environment_of};
ghost use Rattle.type_rules.specs.VerifyRules.{verify_rules, method_type_rules, method_of_file};
ghost use Rattle.subset_verify.specs.Answers.{Gives, Refuses, IsRefused};
ghost use Rattle.subset_verify.specs.Files.{file_type_rules};

use builtin_world::number::COUNT;
use code_decode::ClassUnit;
use link_types::MethodId;
use linked_methods::{LinkedMethod, World};
use method_check::{MethodRefusal, check_method};
use std::alloc::Global;
use type_rules::VerifyRefusal;

// A method of a file, where it has code.
fn verify_method(alloc: Global, world: &World, file: u32, method: u16) -> Result<(), VerifyRefusal>
    requires file { file < 1024 }
    ensures { Gives result (method_type_rules file method (environment_of world.now (method_of_file file method))) }
{
    let id = MethodId {
        class: COUNT + 1 + file,
        method,
    };
    let Some(linked) = LinkedMethod::new(world, id) else {
        return Ok(());
    };
    linked.arrays_have_room();
    let entry = linked.entry(alloc)?;
    match check_method(alloc, &linked, &linked, &entry, linked.code()) {
        Ok(()) => Ok(()),
        Err(MethodRefusal::NoMemory) => Err(VerifyRefusal::NoMemory),
        Err(MethodRefusal::At { kind, place }) => Err(VerifyRefusal::At {
            kind,
            class: file,
            method,
            place,
        }),
    }
}

// Verifies the methods of the file at a place.
fn verify_file(
    alloc: Global,
    world: &World,
    file: u32,
    unit: &ClassUnit,
) -> Result<(), VerifyRefusal>
    requires file { file < 1024 }
    requires methods { length unit.now.codes < 2 ^ 16 }
    ensures { Gives result (file_type_rules world.now file unit.now) }
{
    for (method, _) in unit.codes.as_slice().iter().enumerate() {
        verify_method(alloc, world, file, method as u16)?;
    }
    Ok(())
}

fn verify_files(alloc: Global, world: &World) -> Result<(), VerifyRefusal>
    ensures { Gives result (verify_rules world.now) }
{
    world.is_linked();
    for (file, unit) in world.units().iter().enumerate() {
        verify_file(alloc, world, file as u32, unit)?;
    }
    Ok(())
}

/// Checks whether each method of a linked program is type safe (JVMS 4.10.1): `Ok` exactly where all are, unless memory
/// runs out. All memory is given back.
///
/// # Errors
/// The first rule that fails, in the order of the files, of the methods of a file and of the instructions of a method.
/// `NoMemory` where memory runs out.
pub fn verify(alloc: Global, world: &World) -> Result<(), VerifyRefusal>
    ensures safe { IfOk result (λ _. (verify_rules world.now).Hold) }
    ensures exact { IfErr result (λ e. Refuses e (verify_rules world.now)) }
    ensures first { (e : VerifyRefusal) → (verify_rules world.now).Refuse e → IsRefused result e }
{
    verify_files(alloc, world)
}
