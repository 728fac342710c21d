//! A program's threads run.

ghost use Rattle.std.specs.Prelude.{◌≡◌, ◌<◌, ◌^◌, IfOk};
ghost use Rattle.accepted_runs.specs.Programs.{IsOfFiles};
ghost use Rattle.java_run.specs.Check.{state_in};
ghost use Rattle.java_run.specs.Run.{IsHostedRunOf, IsRunOf, IsTraceOf, shown};
ghost use Rattle.java_words.specs.WordRun.{machine_at_start};
ghost use Rattle.ordinary_machine.specs.Machine.{machine_of};

use crate::answering::{PrintedRun, journal_answer, printed_run};
use interp_calls::{JavaCode, JavaProgram};
use java_machine::opening;
use java_words::{run_on_hosts, run_traced_words, run_words};
use jr_ports::Gate;
use op_core::{Limits, NoMemory};
use ordinary_machine::Ordinary;
use program_accept::Program;
use program_answers::{Answer, Output};
use schedules::Schedule;
use std::alloc::Global;
use std::thread::Threads;

// The machine with ordinary monitors at the start of a program.
pub(crate) fn started<'p, P: JavaProgram>(
    alloc: Global,
    program: &'p P,
    accepted: &Program,
) -> Result<Ordinary<JavaCode<'p, P>>, NoMemory>
    requires { P.units program.now ≡ accepted.now.units }
    ensures { IfOk result (λ machine. machine_of (state_in P.units) machine ≡ machine_at_start accepted.now.units accepted.now.main) }
{
    let opening = opening(alloc, accepted.world())?;
    let code = JavaCode::main(alloc, program, accepted.main())?;
    Ordinary::start(alloc, &opening, code)
}

// A run's status and lines as an answer.
fn answer(run: PrintedRun) -> Answer
    ensures { result ≡ shown run }
{
    Answer {
        status: run.status,
        out: Output::from_pieces(run.lines),
        err: run.err,
    }
}

/// Executes a program by a schedule and under limits on shared words, on one host thread, and gives its status and the lines
/// that it printed, with the counts of sections where `counts` asks for them; `program` is the same program, as the code of its
/// threads sees it. A thread that wants a monitor which a thread of lower priority holds takes it back.
///
/// There must be fewer than 2^24 sections, and fewer than 2^56 turns of each thread.
///
/// # Errors
/// `NoMemory` where memory runs out.
pub fn execute_printed<P: JavaProgram>(
    alloc: Global,
    program: &P,
    accepted: &Program,
    schedule: &Schedule,
    limits: &Limits,
    counts: bool,
) -> Result<PrintedRun, NoMemory>
    requires same { P.units program.now ≡ accepted.now.units }
    requires accepted { IsOfFiles accepted.now }
    requires sections { limits.now.sections < 2 ^ 24 }
    requires turns { limits.now.turns < 2 ^ 56 }
    ensures { IfOk result (λ run. IsRunOf accepted.now.units accepted.now.main schedule.now limits.now counts (shown run)) }
{
    let outcome = run_words(alloc, program, accepted, schedule, limits)?;
    printed_run(alloc, accepted.world(), counts, &outcome)
}

/// Executes a program in the same way, and answers the lines that it printed.
///
/// There must be fewer than 2^24 sections, and fewer than 2^56 turns of each thread.
///
/// # Errors
/// `NoMemory` where memory runs out.
pub fn execute<P: JavaProgram>(
    alloc: Global,
    program: &P,
    accepted: &Program,
    schedule: &Schedule,
    limits: &Limits,
    counts: bool,
) -> Result<Answer, NoMemory>
    requires same { P.units program.now ≡ accepted.now.units }
    requires accepted { IsOfFiles accepted.now }
    requires sections { limits.now.sections < 2 ^ 24 }
    requires turns { limits.now.turns < 2 ^ 56 }
    ensures { IfOk result (λ answer. IsRunOf accepted.now.units accepted.now.main schedule.now limits.now counts answer) }
{
    let run = execute_printed(alloc, program, accepted, schedule, limits, counts)?;
    Ok(answer(run))
}

/// Executes a program under limits on words that host threads share, and gives its status and the lines that it printed, with the
/// counts of sections where `counts` asks for them; `program` is the same program, as the code of its threads sees it. At most
/// `workers` host threads give the program's threads turns at once, at most `slice` turns to a thread in a row, and each of them passes
/// the gate before it begins. A thread of higher priority takes a monitor back from a thread of lower priority.
///
/// There must be fewer than 2^24 sections, and fewer than 2^56 turns of each thread.
///
/// # Errors
/// `NoMemory` where memory runs out.
pub fn execute_hosted_printed<P, R, G>(
    rt: &R,
    alloc: Global,
    program: &P,
    accepted: &Program,
    limits: &Limits,
    workers: u32,
    slice: u32,
    counts: bool,
    gate: &G,
) -> Result<PrintedRun, NoMemory>
where
    P: JavaProgram + Sync,
    R: Threads + Sync,
    G: Gate + Sync,
    requires same { P.units program.now ≡ accepted.now.units }
    requires accepted { IsOfFiles accepted.now }
    requires sections { limits.now.sections < 2 ^ 24 }
    requires turns { limits.now.turns < 2 ^ 56 }
    ensures { IfOk result (λ run. IsHostedRunOf accepted.now.units accepted.now.main limits.now counts (shown run)) }
{
    let outcome = run_on_hosts(rt, alloc, program, accepted, limits, workers, slice, gate)?;
    printed_run(alloc, accepted.world(), counts, &outcome)
}

/// Executes a program in the same way, and answers the lines that it printed.
///
/// There must be fewer than 2^24 sections, and fewer than 2^56 turns of each thread.
///
/// # Errors
/// `NoMemory` where memory runs out.
pub fn execute_hosted<P, R, G>(
    rt: &R,
    alloc: Global,
    program: &P,
    accepted: &Program,
    limits: &Limits,
    workers: u32,
    slice: u32,
    counts: bool,
    gate: &G,
) -> Result<Answer, NoMemory>
where
    P: JavaProgram + Sync,
    R: Threads + Sync,
    G: Gate + Sync,
    requires same { P.units program.now ≡ accepted.now.units }
    requires accepted { IsOfFiles accepted.now }
    requires sections { limits.now.sections < 2 ^ 24 }
    requires turns { limits.now.turns < 2 ^ 56 }
    ensures { IfOk result (λ answer. IsHostedRunOf accepted.now.units accepted.now.main limits.now counts answer) }
{
    let run = execute_hosted_printed(
        rt, alloc, program, accepted, limits, workers, slice, counts, gate,
    )?;
    Ok(answer(run))
}

/// Executes a program in the same way, up to the turn that makes event or undoing 4,194,304 at the latest, and answers the journal of
/// the run: the events that are left of it once the levels that are undone are left out, and the undoings.
///
/// There must be fewer than 2^24 sections, and fewer than 2^56 turns of each thread.
///
/// # Errors
/// `NoMemory` where memory runs out.
pub fn trace<P: JavaProgram>(
    alloc: Global,
    program: &P,
    accepted: &Program,
    schedule: &Schedule,
    limits: &Limits,
) -> Result<Answer, NoMemory>
    requires same { P.units program.now ≡ accepted.now.units }
    requires accepted { IsOfFiles accepted.now }
    requires sections { limits.now.sections < 2 ^ 24 }
    requires turns { limits.now.turns < 2 ^ 56 }
    ensures { IfOk result (λ answer. IsTraceOf accepted.now.units accepted.now.main schedule.now limits.now answer) }
{
    let outcome = run_traced_words(alloc, program, accepted, schedule, limits)?;
    journal_answer(alloc, accepted.world(), outcome)
}
