//! The texts of the two classes.

ghost use Rattle.std.specs.Prelude.{◌≡◌, ◌<◌, ◌++◌, IfOk, OnOk, string_bytes};
ghost use Rattle.stress_texts.specs.Texts.{stress_text, with_number, worker_lines, worker_text};

use crate::template::{BEGINS, KEEPS, MADE, MAKES, PUTS, RANKS, RUNS, WORKER};
use std::alloc::{AllocError, Global};
use std::fmt::Write;

/// A worker's first number is below this.
const SEEDS: u64 = 2_147_483_648;

fn push_number(text: &mut String, lines: &str, number: u64) -> Result<(), AllocError>
    ensures { OnOk result (string_bytes text.new ≡ string_bytes text.old ++ with_number lines.now number) }
{
    writeln!(text, "{lines} {number}")
}

// Puts the lines that make the worker of a place at the end of a text.
fn push_worker(text: &mut String, number: u64, place: u64) -> Result<(), AllocError>
    requires { place < 16 }
    ensures { OnOk result (string_bytes text.new ≡ string_bytes text.old ++ worker_lines number place) }
{
    push_number(text, PUTS, place)?;
    push_number(text, MAKES, (number % SEEDS + place) % SEEDS)?;
    push_number(text, RANKS, 1 + place % 10)?;
    text.push_str(MADE)?;
    Ok(())
}

/// The text of the class `Stress` of a number. It fails only when memory runs out.
pub(crate) fn stress_text(alloc: Global, number: u64) -> Result<String, AllocError>
    ensures { IfOk result (λ text. string_bytes text ≡ stress_text number) }
{
    let workers = 2 + number % 15;
    let mut text = String::new(alloc);
    push_number(&mut text, BEGINS, workers)?;
    text.push_str(KEEPS)?;
    for place in 0..workers {
        push_worker(&mut text, number, place)?;
    }
    text.push_str(RUNS)?;
    Ok(text)
}

/// The text of the class `StressWorker`.
#[tactic(auto, unfolding(crate::specs::Texts::worker_text))]
pub(crate) fn worker_text() -> &'static str
    ensures { result.now ≡ worker_text }
{
    WORKER
}
