//! How the tests run a program on host threads.

ghost use Rattle.std.specs.Prelude.{◌≡◌, ◌⊎◌, ◌<◌, ◌^◌, IfOk};
ghost use Rattle.op_core.specs.declared.script.Script.{Script};
ghost use Rattle.table_words.specs.declared.setup.Setup.{Setup};
ghost use Rattle.op_core.specs.Script.{script_code};
ghost use Rattle.epoch_host.specs.Runs.{IsHostRun};
ghost use Rattle.table_cases.specs.Program.{program_steps, waiting_steps, script_state, script_saved};

use epoch_host::{HostRun, run_hosts};
use jr_ports::{Gate, NoGate};
use op_core::{Limits, Script, ScriptStep};
use plain_words::{PlainWords, has_place};
use std::alloc::Global;
use std::test::Fail;
use std::thread::Threads;
use table_cases::{LIMITS, opening};

/// On how many host threads at once a program runs, and how long a slice is.
#[derive(Clone, Copy)]
pub struct Plan {
    pub workers: u32,
    pub slice: u32,
}

/// Runs a script of `table_cases` with this number of turns for each thread.
pub fn run_with<R: Threads + Sync, G: Gate + Sync>(
    rt: &R,
    alloc: Global,
    steps: &'static [ScriptStep],
    turns: u64,
    plan: Plan,
    gate: &G,
) -> Result<HostRun<Script<'static>>, Fail>
    requires steps { (steps.now ≡ program_steps) ⊎ (steps.now ≡ waiting_steps) }
    requires turns { turns < 2 ^ 56 }
    ensures { IfOk result (λ run. (k : Setup Script) × IsHostRun script_state script_saved script_code k run) }
{
    let opening = opening(alloc)?;
    let limits = Limits { turns, ..LIMITS };
    if !has_place(&opening, &limits) {
        return Err(Fail::from("the fixed objects have a place"));
    }
    let code = Script::new(alloc, steps);
    match run_hosts(
        rt,
        alloc,
        &opening,
        &limits,
        code,
        plan.workers,
        plan.slice,
        gate,
    ) {
        Ok(run) => Ok(run),
        Err(_) => Err(Fail::from("there is no memory")),
    }
}

/// The words of the table of a run that was handed over.
pub fn words_of(alloc: Global, run: HostRun<Script<'static>>) -> Result<PlainWords, Fail>
    requires { (k : Setup Script) × IsHostRun script_state script_saved script_code k run }
{
    let HostRun {
        table,
        first,
        rest,
        going: _,
    } = run;
    match table.finish(alloc, first, rest) {
        Ok(words) => Ok(words),
        Err(_) => Err(Fail::from("there is no memory")),
    }
}
