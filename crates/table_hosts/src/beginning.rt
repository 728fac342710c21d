//! A table and its first thread.

ghost use Rattle.std.specs.Prelude.{◌≡◌, [], ◌∷◌, IfOk};
ghost use Rattle.plain_words.specs.Opening.{HasPlace};
ghost use Rattle.table_words.specs.Setups.{setup, first_birth};
ghost use Rattle.table_words.specs.Parts.{fresh_part};
ghost use Rattle.table_words.specs.Tables.{setup_in, parts_of_seat};
ghost use Rattle.table_hosts.specs.Seated.{StandsOn};

use crate::SeatedThread;
use fixed_objects::Opening;
use op_core::{Limits, NoMemory, ThreadCode};
use rollback_core::ReadyThread;
use std::alloc::Global;
use table_words::TableWords;
use thread_automaton::Bounds;

/// The table of a program, and its first thread, which begins with this code. The fixed objects must have their places within
/// the limits, and of the code nothing must be saved.
///
/// # Errors
///
/// `NoMemory` where there was no memory.
pub fn begin<C: ThreadCode + Drop>(
    alloc: Global,
    opening: &Opening,
    limits: &Limits,
    code: C,
) -> Result<(TableWords<C>, SeatedThread<C>), NoMemory>
    requires place { HasPlace opening.now limits.now }
    requires saved { C.saved code ≡ [] }
    ensures setup { IfOk result (λ t. setup_in t.0 ≡ setup opening.now limits.now code) }
    ensures stands { IfOk result (λ t. StandsOn C.state C.saved C.code t.0 t.1) }
    ensures view { IfOk result (λ t. parts_of_seat t.1.seat ≡ fresh_part (setup_in t.0) (first_birth (setup_in t.0)) ∷ []) }
{
    let (table, seat) = TableWords::new(alloc, opening, limits, &code)?;
    let bounds = Bounds {
        limits: *limits,
        first: opening.first,
    };
    let thread = ReadyThread::first(alloc, code, 1, 5, bounds);
    Ok((table, SeatedThread { thread, seat }))
}
