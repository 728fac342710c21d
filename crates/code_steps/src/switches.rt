//! The operands of tableswitch and lookupswitch (JVMS 6.5).

ghost use Rattle.std.specs.Prelude.{◌≡◌, Ok, MatchResult};
ghost use Rattle.code_steps.specs.Operands.{padding_of};
ghost use Rattle.class_walk.specs.Reading.{items_at};
ghost use Rattle.code_steps.specs.Reading.{FailsExactly, GivesAndLeaves, GivesExactly, bytes_at, target_at, case_at, keys_between, is_below, rise, table_switch_at, lookup_switch_at};

use crate::cursor::Cursor;
use crate::fault::{StepFault, StepRefusal};
use instructions::{Case, What};
use rows::Rows;
use std::alloc::Global;

/// The bytes between the number of a switch and the next offset that is a multiple of 4. They may be any.
fn padding<'a>(at: u32, cursor: &mut Cursor<'a>) -> Result<&'a [u8], StepRefusal>
    ensures { MatchResult result
        (λ bytes. bytes_at at (padding_of at) cursor.old ≡ Ok (bytes.now, cursor.new))
        (λ e. FailsExactly e (bytes_at at (padding_of at) cursor.old)) }
{
    let bytes = cursor.next(at, 3 - at as usize % 4)?;
    Ok(bytes)
}

fn targets(
    alloc: Global,
    at: u32,
    count: u64,
    cursor: &mut Cursor<'_>,
) -> Result<Rows<i64>, StepRefusal>
    ensures { GivesAndLeaves result cursor.new (items_at (target_at at) count cursor.old) }
{
    let mut targets = Rows::new(alloc);
    for _ in 0..count {
        let target = cursor.target(at)?;
        targets.push(target)?;
    }
    Ok(targets)
}

/// How many keys there are from the lowest to the highest.
fn keys_between(low: i32, high: i32) -> u64
    ensures { result ≡ keys_between low high }
{
    u64::from(high.abs_diff(low)) + 1
}

/// The operands of a tableswitch at this offset: its targets are those of the keys from the lowest on.
#[tactic(auto, unfolding(crate::specs::Reading::table_switch_at))]
pub fn table_switch(
    alloc: Global,
    at: u32,
    cursor: &mut Cursor<'_>,
) -> Result<What<i64>, StepRefusal>
    ensures { GivesAndLeaves result cursor.new (table_switch_at at cursor.old) }
{
    padding(at, cursor)?;
    let default = cursor.target(at)?;
    let low = cursor.i32(at)?;
    let high = cursor.i32(at)?;
    if high < low {
        return Err(StepRefusal::Fault(StepFault::Switch(at)));
    }
    let targets = targets(alloc, at, keys_between(low, high), cursor)?;
    Ok(What::TableSwitch {
        default,
        low,
        targets,
    })
}

#[tactic(auto, unfolding(crate::specs::Reading::case_at))]
fn case(at: u32, cursor: &mut Cursor<'_>) -> Result<Case<i64>, StepRefusal>
    ensures { GivesExactly result cursor.new (case_at at cursor.old) }
{
    let key = cursor.i32(at)?;
    let target = cursor.target(at)?;
    Ok(Case { key, target })
}

fn cases(
    alloc: Global,
    at: u32,
    count: u32,
    cursor: &mut Cursor<'_>,
) -> Result<Rows<Case<i64>>, StepRefusal>
    ensures { GivesAndLeaves result cursor.new (items_at (case_at at) count cursor.old) }
{
    let mut cases = Rows::new(alloc);
    for _ in 0..count {
        let case = case(at, cursor)?;
        cases.push(case)?;
    }
    Ok(cases)
}

fn is_below(a: Case<i64>, b: Case<i64>) -> bool
    ensures { result ≡ is_below a b }
{
    a.key < b.key
}

/// Whether the keys rise.
fn rise(cases: &[Case<i64>]) -> bool
    ensures { result ≡ rise cases.now }
{
    cases.is_sorted_by(|a, b| is_below(*a, *b))
}

/// The operands of a lookupswitch at this offset. Its keys rise.
#[tactic(auto, unfolding(crate::specs::Reading::lookup_switch_at))]
pub fn lookup_switch(
    alloc: Global,
    at: u32,
    cursor: &mut Cursor<'_>,
) -> Result<What<i64>, StepRefusal>
    ensures { GivesAndLeaves result cursor.new (lookup_switch_at at cursor.old) }
{
    padding(at, cursor)?;
    let default = cursor.target(at)?;
    let count = cursor.u32(at)?;
    let cases = cases(alloc, at, count, cursor)?;
    if !rise(cases.as_slice()) {
        return Err(StepRefusal::Fault(StepFault::Switch(at)));
    }
    Ok(What::LookupSwitch { default, cases })
}
