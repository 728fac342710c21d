//! `run`.

ghost use Rattle.std.specs.Prelude.{◌≡◌, ◌<◌, ◌^◌, List, ℕ, IfOk, OnOk, IfSome, None, take};
ghost use Rattle.jr_ports.specs.Stream.{Gains};
ghost use Rattle.encoded_texts.specs.Encoded.{encoded_text};
ghost use Rattle.accepted_runs.specs.Programs.{IsOfFiles};
ghost use Rattle.java_run.specs.Run.{IsHostedRunOf};
ghost use Rattle.command_answers.specs.Answers.{IsDecided, RunsHosted};
ghost use Rattle.file_answers.specs.Folder.{AreListed, ReadsInOrder};

use file_answers::{Failure, Judged, Loaded, load_folder};
use java_run::execute_hosted;
use java_world::JavaWorld;
use jr_ports::{ClassDir, Gate};
use op_core::{Limits, NoMemory};
use program_accept::Program;
use program_answers::Answer;
use std::alloc::Global;
use std::thread::Threads;

/// A run of a program under limits on host threads, with its counts where they are asked for. At most `workers` host threads give
/// the program's threads turns at once, at most `slice` turns to a thread in a row, and each of them passes the gate before it begins.
/// There are fewer than 2^24 sections, and fewer than 2^56 turns of each thread.
#[derive(Drop)]
pub struct HostedExecution<'a, R, G> {
    pub rt: &'a R,
    pub gate: &'a G,
    pub limits: &'a Limits,
    pub workers: u32,
    pub slice: u32,
    pub counts: bool,
    ghost sections: { limits.now.sections < 2 ^ 24 },
    ghost turns: { limits.now.turns < 2 ^ 56 },
}

// The answer to a program that is accepted. The bounds of the threads are asked for by a function of its own, since a method of an
// implementation can't hand its own bounds on to other threads.
fn executed<R: Threads + Sync, G: Gate + Sync>(
    alloc: Global,
    accepted: &Program,
    execution: &HostedExecution<'_, R, G>,
) -> Result<Answer, NoMemory>
    requires { IsOfFiles accepted.now }
    ensures { IfOk result (λ answer.
        IsHostedRunOf accepted.now.units accepted.now.main execution.now.limits.now execution.now.counts answer) }
{
    let program = JavaWorld::new(alloc, accepted)?;
    execute_hosted(
        execution.rt,
        alloc,
        &program,
        accepted,
        execution.limits,
        execution.workers,
        execution.slice,
        execution.counts,
        execution.gate,
    )
}

/// The answer of `run` to a folder and the name of its main class. All files are read before any is judged.
///
/// # Errors
/// `Failed` comes exactly where the folder's count of faults rose in this call.
pub fn decide_hosted<D: ClassDir, R: Threads + Sync, G: Gate + Sync>(
    alloc: Global,
    dir: &str,
    main: &str,
    classes: &mut D,
    execution: &HostedExecution<'_, R, G>,
) -> Result<Answer, Failure>
    requires { D.asked classes.old ≡ None }
    ensures answer { IfOk result (λ answer. (names : List (List ℕ))
        × AreListed (D.asked classes.new) (D.contents classes.old) dir.now names
        × Gains (D.read_names classes.old) (D.read_names classes.new) (take 1025 names)
        × IsDecided (RunsHosted execution.now.limits.now execution.now.counts) (encoded_text main.now)
        (D.contents classes.old) (take 1025 names) answer) }
    ensures cause { result ≡ Err Failure.Failed → D.faults classes.old < D.faults classes.new }
    ensures ok_faults { OnOk result (D.faults classes.new ≡ D.faults classes.old) }
    ensures memory_faults { result ≡ Err Failure.NoMemory → D.faults classes.new ≡ D.faults classes.old }
    ensures asked { IfSome (D.asked classes.new) (λ asked. asked.dir ≡ dir.now) }
    ensures order { ReadsInOrder 1025 (D.asked classes.new) (D.read_names classes.old) (D.read_names classes.new) }
{
    let loaded = load_folder(alloc, dir, main, classes)?;
    let Loaded { judged, .. } = loaded;
    match judged {
        Judged::Program(program) => Ok(executed(alloc, &program, execution)?),
        Judged::Other(answer) => Ok(answer),
    }
}
