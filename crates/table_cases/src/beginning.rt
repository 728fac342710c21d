//! How the programs begin.

ghost use Rattle.std.specs.Prelude.{◌≡◌, IfOk, [], ◌∷◌};
ghost use Rattle.op_core.specs.Script.{script_code};
ghost use Rattle.table_words.specs.Setups.{first_birth};
ghost use Rattle.table_words.specs.Parts.{fresh_part};
ghost use Rattle.table_words.specs.Tables.{setup_in, parts_of_seat};
ghost use Rattle.table_hosts.specs.Standing.{ThreadsCanGoOn};
ghost use Rattle.table_hosts.specs.Seated.{StandsOn};
ghost use Rattle.table_cases.specs.Program.{script_state, script_saved, IsProgramWith, IsProgram};

use crate::program::{KIND_STEPS, LIMITS, STEPS, opening};
use op_core::{Script, ScriptStep, ThreadCode};
use plain_words::has_place;
use std::alloc::Global;
use std::test::Fail;
use table_hosts::{SeatedThread, begin};
use table_words::TableWords;

/// More turns than a thread of the program makes in a slice.
pub const MANY: u32 = 1000;

// The table of a program with these steps, and its first thread.
fn begin_steps(
    alloc: Global,
    steps: &'static [ScriptStep],
) -> Result<(TableWords<Script<'static>>, SeatedThread<Script<'static>>), Fail>
    ensures program { IfOk result (λ t. IsProgramWith steps.now 1000 (setup_in t.0)) }
    ensures stands { IfOk result (λ t. StandsOn script_state script_saved script_code t.0 t.1) }
    ensures view { IfOk result (λ t. parts_of_seat t.1.seat ≡ fresh_part (setup_in t.0) (first_birth (setup_in t.0)) ∷ []) }
{
    let opening = opening(alloc)?;
    if !has_place(&opening, &LIMITS) {
        return Err(Fail::from("the fixed objects have a place"));
    }
    match begin(alloc, &opening, &LIMITS, Script::new(alloc, steps)) {
        Ok(begun) => Ok(begun),
        Err(_) => Err(Fail::from("there is no memory")),
    }
}

/// The table of the program, and its first thread.
pub fn begin_program(
    alloc: Global,
) -> Result<(TableWords<Script<'static>>, SeatedThread<Script<'static>>), Fail>
    ensures program { IfOk result (λ t. IsProgram (setup_in t.0)) }
    ensures can { IfOk result (λ t. ThreadsCanGoOn script_state script_code (setup_in t.0)) }
    ensures stands { IfOk result (λ t. StandsOn script_state script_saved script_code t.0 t.1) }
    ensures view { IfOk result (λ t. parts_of_seat t.1.seat ≡ fresh_part (setup_in t.0) (first_birth (setup_in t.0)) ∷ []) }
{
    begin_steps(alloc, &STEPS)
}

/// The table of the program whose threads make steps of each kind, and its first thread.
pub fn begin_kinds(
    alloc: Global,
) -> Result<(TableWords<Script<'static>>, SeatedThread<Script<'static>>), Fail>
    ensures can { IfOk result (λ t. ThreadsCanGoOn script_state script_code (setup_in t.0)) }
    ensures stands { IfOk result (λ t. StandsOn script_state script_saved script_code t.0 t.1) }
    ensures view { IfOk result (λ t. parts_of_seat t.1.seat ≡ fresh_part (setup_in t.0) (first_birth (setup_in t.0)) ∷ []) }
{
    begin_steps(alloc, &KIND_STEPS)
}

/// The only one of them.
pub fn only<C: ThreadCode + Drop>(mut born: Vec<SeatedThread<C>>) -> Result<SeatedThread<C>, Fail>
    ensures { IfOk result (λ one. born.items ≡ one ∷ []) }
{
    match born.pop() {
        Some(one) if born.len() == 0 => Ok(one),
        _ => Err(Fail::from("not one thread was handed out")),
    }
}
