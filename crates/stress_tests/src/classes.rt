//! The class files of numbers at their ends.

use class_make::make_class;
use op_core::NoMemory;
use program_accept::accept;
use std::alloc::{AllocError, Global};
use std::fmt::Write;
use std::test::Fail;
use stress_texts::template::{BEGINS, KEEPS, MADE, MAKES, PUTS, RANKS, RUNS, WORKER};
use stress_texts::{STRESS_MAIN, stress_classes, stress_names};

/// Numbers, and the first z of each of their threads.
const LOADS: [(u64, &[u32]); 6] = [
    (0, &[0, 1]),
    (7, &[7, 8, 9, 10, 11, 12, 13, 14, 15]),
    (
        14,
        &[
            14, 15, 16, 17, 18, 19, 20, 21, 22, 23, 24, 25, 26, 27, 28, 29,
        ],
    ),
    (2_147_483_647, &[2_147_483_647, 0, 1, 2, 3, 4, 5, 6, 7]),
    (4_294_967_295, &[2_147_483_647, 0]),
    (18_446_744_073_709_551_615, &[2_147_483_647, 0]),
];

/// The priorities of the first threads.
const PRIORITIES: [u8; 16] = [1, 2, 3, 4, 5, 6, 7, 8, 9, 10, 1, 2, 3, 4, 5, 6];

fn stress_text(alloc: Global, seeds: &[u32]) -> Result<String, AllocError> {
    let threads = seeds.len();
    let mut text = String::new(alloc);
    writeln!(text, "{} {threads}", BEGINS)?;
    text.push_str(KEEPS)?;
    for (place, (seed, priority)) in seeds.iter().zip(&PRIORITIES).enumerate() {
        writeln!(text, "{} {place}", PUTS)?;
        writeln!(text, "{} {seed}", MAKES)?;
        writeln!(text, "{} {priority}", RANKS)?;
        text.push_str(MADE)?;
    }
    text.push_str(RUNS)?;
    Ok(text)
}

fn ample<T: Drop>(answer: Result<T, NoMemory>) -> Result<T, Fail> {
    match answer {
        Ok(value) => Ok(value),
        Err(NoMemory) => Err(Fail::from("there is memory")),
    }
}

fn is_of_text(alloc: Global, file: Option<&Vec<u8>>, text: &str) -> bool {
    match (file, make_class(alloc, text)) {
        (Some(file), Ok(wanted)) => *file == wanted,
        _ => false,
    }
}

#[test]
fn the_texts_have_the_numbers_of_the_load(rt: HostRuntime) -> Result<(), Fail> {
    for (number, seeds) in &LOADS {
        let files = ample(stress_classes(rt.alloc(), *number))?;
        let text = stress_text(rt.alloc(), seeds)?;
        assert!(rt; files.len() == 2);
        assert!(rt; is_of_text(rt.alloc(), files.get(0), text.as_str()));
        assert!(rt; is_of_text(rt.alloc(), files.get(1), WORKER));
    }
    Ok(())
}

#[test]
fn the_classes_are_a_program(rt: HostRuntime) -> Result<(), Fail> {
    for (number, _) in &LOADS {
        let files = ample(stress_classes(rt.alloc(), *number))?;
        assert!(rt; accept(rt.alloc(), files, STRESS_MAIN.as_bytes()).is_ok());
    }
    Ok(())
}

#[test]
fn the_files_have_the_names_of_their_classes(rt: HostRuntime) -> Result<(), Fail> {
    let names = stress_names(rt.alloc())?;
    assert!(rt; names.len() == 2);
    assert!(rt; names[0].as_str() == "Stress.class" && names[1].as_str() == "StressWorker.class");
    Ok(())
}
