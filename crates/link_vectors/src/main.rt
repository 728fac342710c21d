//! `link_vectors FILE..` links, verifies or accepts the programs of each file, as each asks for, and prints of each what
//! comes of it: that it is linked, type safe or accepted, or the refusal by numbers. Files whose names end in `.class` are
//! together one more program, which is linked and verified.
#![tactic(auto)]

mod accepts;
mod cases;
mod links;
mod members;
mod values;
mod worlds;

use accepts::{show_accepted, show_verified};
use cases::{Case, Wanted, cases_of};
use class_read::MOST_BYTES;
use linker::World;
use links::{Answer, Fault, file_of_text, link_files};
use std::env;
use std::fs::{self, File};
use std::io::{self, Read};
use std::rt::{Env, Files};
use worlds::show_world;

fn fault_text(fault: Fault) -> &'static str {
    match fault {
        Fault::NoMemory => "no memory",
        Fault::Text => "a text is not assembled",
        Fault::File => "a class file is not read",
        Fault::Code => "a class file is not decoded",
    }
}

/// Prints of a linked program what is wanted of it.
fn show_linked<R: Print + AllocGlobal>(
    rt: &R,
    name: &str,
    world: &World,
    wanted: &Wanted,
) -> io::Result<()> {
    match wanted {
        Wanted::Safe => show_verified(rt, name, world),
        Wanted::World => {
            println!(rt; "{name} linked")?;
            show_verified(rt, name, world)?;
            show_world(rt, world)
        }
        _ => println!(rt; "{name} linked"),
    }
}

/// Links the program of these class files, and prints what is wanted of it, or why it isn't linked.
fn show_program<R: Print + AllocGlobal>(
    rt: &R,
    name: &str,
    files: &[Vec<u8>],
    wanted: &Wanted,
) -> io::Result<()> {
    match link_files(rt.alloc(), files)? {
        Answer::Linked(world) => show_linked(rt, name, &world, wanted),
        Answer::Refused { kind, class, place } => println!(rt;
            "{name} refused {kind} {class} {place}"
        ),
        Answer::NoFile(fault) => println!(rt; "{name}: {}", fault_text(fault)),
    }
}

fn show_case<R: Print + AllocGlobal>(rt: &R, case: &Case) -> io::Result<()> {
    let name = case.name.as_str();
    let mut files = Vec::new(rt.alloc());
    for text in &case.texts {
        match file_of_text(rt.alloc(), text.as_str()) {
            Ok(file) => files.push(file)?,
            Err(fault) => return println!(rt; "{name}: {}", fault_text(fault)),
        }
    }
    match &case.wanted {
        Wanted::Accepted(main) => show_accepted(rt, name, files, main.as_str()),
        wanted => show_program(rt, name, &files, wanted),
    }
}

fn show_cases<R: Print + AllocGlobal + Files>(rt: &R, path: &str) -> io::Result<()> {
    let text = fs::read_to_string(rt, path)?;
    for case in &cases_of(rt.alloc(), text.as_str())? {
        show_case(rt, case)?;
    }
    Ok(())
}

fn class_file<R: AllocGlobal + Files>(rt: &R, path: &str) -> io::Result<Vec<u8>> {
    let mut bytes = Vec::new(rt.alloc());
    File::open(rt, path)?
        .take(MOST_BYTES as u64 + 1)
        .read_to_end(&mut bytes)?;
    Ok(bytes)
}

fn run<R: Print + AllocGlobal + Files + Env>(rt: &R) -> io::Result<()> {
    let mut files = Vec::new(rt.alloc());
    for path in env::args(rt)?.skip(1) {
        let path = path.as_str();
        if path.ends_with(".class") {
            files.push(class_file(rt, path)?)?;
        } else {
            show_cases(rt, path)?;
        }
    }
    if files.is_empty() {
        return Ok(());
    }
    show_program(rt, "files", &files, &Wanted::World)
}

fn main(rt: HostRuntime) -> io::Result<()> {
    run(&rt)
}
