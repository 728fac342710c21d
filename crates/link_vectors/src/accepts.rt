//! Whether programs are type safe, and whether they are accepted.

use linker::World;
use program_accept::{AcceptRefusal, Program, Refusal, Stage, accept};
use std::alloc::AllocError;
use std::io;
use subset_verify::verify;
use type_rules::VerifyRefusal;

/// Prints whether the methods of a linked program are type safe, or the rule that is broken first.
pub fn show_verified<R: Print + AllocGlobal>(rt: &R, name: &str, world: &World) -> io::Result<()> {
    match verify(rt.alloc(), world) {
        Ok(()) => println!(rt; "{name} safe"),
        Err(
            VerifyRefusal::At {
                kind,
                class,
                method,
                place,
            },
        ) => {
            let number = kind.number();
            println!(rt; "{name} unsafe {number} {class} {method} {place}")
        }
        Err(VerifyRefusal::NoMemory) => Err(io::Error::from(AllocError)),
    }
}

fn stage_text(stage: Stage) -> &'static str {
    match stage {
        Stage::Read => "read",
        Stage::Code => "code",
        Stage::Link => "link",
        Stage::Verify => "verify",
    }
}

fn show_program<R: Print>(rt: &R, name: &str, program: &Program) -> io::Result<()> {
    let main = program.main();
    println!(rt; "{name} accepted {} {}", main.class, main.method)
}

fn show_refusal<R: Print>(rt: &R, name: &str, refusal: Refusal) -> io::Result<()> {
    let stage = stage_text(refusal.stage);
    let Refusal {
        class,
        number,
        method,
        place,
        ..
    } = refusal;
    println!(rt; "{name} refused {stage} {number} {class} {method} {place}")
}

/// Prints whether the program of some class files is accepted, where it begins with `main` of the class of a name, or the
/// rule that is broken first.
pub fn show_accepted<R: Print + AllocGlobal>(
    rt: &R,
    name: &str,
    files: Vec<Vec<u8>>,
    main: &str,
) -> io::Result<()> {
    match accept(rt.alloc(), files, main.as_bytes()) {
        Ok(program) => show_program(rt, name, &program),
        Err(AcceptRefusal::Refused(refusal)) => show_refusal(rt, name, refusal),
        Err(AcceptRefusal::NoMain) => println!(rt; "{name} no main"),
        Err(AcceptRefusal::NoMemory) => Err(io::Error::from(AllocError)),
    }
}
