//! Printing what an accepted program has.

use builtin_world::number::{COUNT, RUNNABLE};
use code_decode::ClassUnit;
use program_accept::{Program, World};
use std::io;

/// How many methods and instructions classes have.
fn sizes(units: &[ClassUnit]) -> (usize, usize) {
    let mut methods = 0usize;
    let mut steps = 0usize;
    for unit in units {
        methods = methods.saturating_add(unit.file.methods.as_slice().len());
        for code in unit.codes.as_slice() {
            if let Some(code) = code {
                steps = steps.saturating_add(code.steps.len());
            }
        }
    }
    (methods, steps)
}

/// How many classes of the program can be what a thread executes: they extend Thread or implement Runnable.
fn thread_classes(world: &World) -> u32 {
    let mut count = 0u32;
    for class in 1..=world.named_classes() {
        if class > COUNT && !world.is_interface(class) && world.is_subclass(class, RUNNABLE) {
            count = count.saturating_add(1);
        }
    }
    count
}

/// Prints what an accepted program of `count` class files has.
pub(crate) fn show_accepted<R: Print>(rt: &R, count: usize, program: &Program) -> io::Result<()> {
    let world = program.world();
    let (methods, steps) = sizes(world.units());
    let threads = thread_classes(world);
    let words = world.first_free().saturating_sub(1);
    println!(rt; "accepted {count}")?;
    println!(rt; "methods: {methods}")?;
    println!(rt; "instructions: {steps}")?;
    println!(rt; "classes that a thread can execute: {threads}")?;
    println!(rt; "words at the start: {words}")
}
