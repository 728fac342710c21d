//! `stress`.

ghost use Rattle.std.specs.Prelude.{◌≡◌, ◌∷◌, ◌++◌, [], ℕ, IfOk, OnOk, false};
ghost use Rattle.accepted_runs.specs.Programs.{IsOfFiles};
ghost use Rattle.java_run.specs.Run.{IsHostedRunOf, IsRunOf, shown};
ghost use Rattle.command_answers.specs.Answers as answers;
ghost use Rattle.command_answers.specs.Ends.{is_done};

use file_answers::{Judged, judge};
use java_run::{PrintedRun, execute_hosted_printed, execute_printed};
use java_world::JavaWorld;
use jr_ports::Gate;
use op_core::{Limits, NoMemory};
use program_accept::Program;
use program_answers::{Answer, Output, Status};
use rows::{Bytes, Rows};
use schedules::Schedule;
use std::alloc::{AllocError, Global};
use std::thread::Threads;
use stress_texts::{STRESS_MAIN, stress_classes, stress_names};

/// How many host threads give turns at once in the second run.
const WORKERS: u32 = 4;

/// How many turns a thread is given in a row in the second run, at most.
const SLICE: u32 = 10_000;

/// The limits of both runs.
const STRESS_LIMITS: Limits = Limits {
    turns: 1_000_000_000,
    heap: 4_194_304,
    sections: 16_777_215,
};

// A run by a number.
fn seeded(alloc: Global, accepted: &Program, number: u64) -> Result<PrintedRun, NoMemory>
    requires { IsOfFiles accepted.now }
    ensures { IfOk result (λ run. IsRunOf accepted.now.units accepted.now.main (answers.seeded number) answers.stress_limits false (shown run)) }
{
    let program = JavaWorld::new(alloc, accepted)?;
    let schedule = Schedule {
        order: Rows::new(alloc),
        seed: Some(number),
    };
    execute_printed(alloc, &program, accepted, &schedule, &STRESS_LIMITS, false)
}

// A run on host threads.
fn hosted<R: Threads + Sync, G: Gate + Sync>(
    rt: &R,
    alloc: Global,
    accepted: &Program,
    gate: &G,
) -> Result<PrintedRun, NoMemory>
    requires { IsOfFiles accepted.now }
    ensures { IfOk result (λ run. IsHostedRunOf accepted.now.units accepted.now.main answers.stress_limits false (shown run)) }
{
    let program = JavaWorld::new(alloc, accepted)?;
    execute_hosted_printed(
        rt,
        alloc,
        &program,
        accepted,
        &STRESS_LIMITS,
        WORKERS,
        SLICE,
        false,
        gate,
    )
}

// The lines of a run after a title.
fn push_titled(
    alloc: Global,
    out: &mut Vec<Bytes>,
    title: &[u8],
    lines: Rows<Bytes>,
) -> Result<(), AllocError>
    ensures { OnOk result (out.new.items ≡ out.old.items ++ title.now ∷ lines) }
{
    out.push(Bytes::from_slice(alloc, title)?)?;
    let mut lines = lines.into_vec();
    out.append(&mut lines)
}

// The answer of a first run after which there is no other.
fn first_answer(alloc: Global, first: PrintedRun) -> Result<Answer, AllocError>
    ensures { IfOk result (λ answer. answer ≡ answers.first_answer (shown first)) }
{
    let PrintedRun { status, lines, err } = first;
    let mut out = Vec::new(alloc);
    push_titled(alloc, &mut out, b"first\n", lines)?;
    Ok(Answer {
        status,
        out: Output::from_pieces(Rows::from_vec(out)),
        err,
    })
}

// The answer of two runs.
fn second_answer(alloc: Global, first: PrintedRun, second: PrintedRun) -> Result<Answer, AllocError>
    ensures { IfOk result (λ answer. answer ≡ answers.second_answer (shown first) (shown second)) }
{
    let PrintedRun { status, lines, err } = second;
    let mut out = Vec::new(alloc);
    push_titled(alloc, &mut out, b"first\n", first.lines)?;
    push_titled(alloc, &mut out, b"second\n", lines)?;
    Ok(Answer {
        status,
        out: Output::from_pieces(Rows::from_vec(out)),
        err,
    })
}

fn is_done(status: Status) -> bool
    ensures { result ≡ is_done status }
{
    matches!(status, Status::Done)
}

// What two runs of a program answer, by this number on one host thread, and on several of them, if the first ends well.
#[tactic(auto, using(crate::proofs::Answered::ran_once, crate::proofs::Answered::ran_twice))]
fn run_twice<R: Threads + Sync, G: Gate + Sync>(
    rt: &R,
    alloc: Global,
    number: u64,
    accepted: &Program,
    gate: &G,
) -> Result<Answer, NoMemory>
    requires { IsOfFiles accepted.now }
    ensures { IfOk result (λ answer. (count : ℕ) → answers.RunsTwice number count accepted.now answer) }
{
    let first = seeded(alloc, accepted, number)?;
    if is_done(first.status) {
        let second = hosted(rt, alloc, accepted, gate)?;
        Ok(second_answer(alloc, first, second)?)
    } else {
        Ok(first_answer(alloc, first)?)
    }
}

/// The answer of `stress` to a number: the class files that are made for it are judged as those of a folder are, and the
/// program is executed twice, by turns on one host thread and then on several of them, each of which passes the gate before it begins.
///
/// # Errors
/// It fails only when memory runs out.
pub fn answer_to_number<R: Threads + Sync, G: Gate + Sync>(
    rt: &R,
    alloc: Global,
    number: u64,
    gate: &G,
) -> Result<Answer, NoMemory>
    ensures { IfOk result (λ answer. answers.IsStressed number answer) }
{
    let files = stress_classes(alloc, number)?;
    let names = stress_names(alloc)?;
    let judged = judge(alloc, names.as_slice(), files, STRESS_MAIN)?;
    match judged {
        Judged::Program(program) => run_twice(rt, alloc, number, &program, gate),
        Judged::Other(answer) => Ok(answer),
    }
}
