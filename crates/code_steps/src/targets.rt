//! The targets of branches, from offsets to instructions.

ghost use Rattle.std.specs.Prelude.{◌≡◌, ◌<◌, ◌^◌, IfOk};
ghost use Rattle.std.specs.List.{All};
ghost use Rattle.code_steps.specs.Reading.{Returns};
ghost use Rattle.code_steps.specs.Targets.{target_of, all_of, case_of, what_of, step_of, steps_of};

use crate::fault::{StepFault, StepRefusal};
use instructions::{Case, Instr, Numbering, Target, What};
use rows::Rows;
use std::alloc::{AllocError, Global};

/// The instruction at an offset, if one begins there.
fn target(offsets: &Numbering, to: i64) -> Option<Target>
    requires { All (λ o. o < 2 ^ 32) offsets.now }
    ensures { result ≡ target_of offsets.now to }
{
    let Ok(at) = u32::try_from(to) else {
        return None;
    };
    let step = offsets.number_at(at)?;
    Some(Target { at, step })
}

fn targets(
    alloc: Global,
    offsets: &Numbering,
    from: &[i64],
) -> Result<Option<Rows<Target>>, AllocError>
    requires { All (λ o. o < 2 ^ 32) offsets.now }
    ensures { IfOk result (λ found. found ≡ all_of (target_of offsets.now) from.now) }
{
    let mut targets = Rows::new(alloc);
    for to in from {
        match target(offsets, *to) {
            Some(target) => targets.push(target)?,
            None => return Ok(None),
        }
    }
    Ok(Some(targets))
}

fn case(offsets: &Numbering, from: Case<i64>) -> Option<Case<Target>>
    requires { All (λ o. o < 2 ^ 32) offsets.now }
    ensures { result ≡ case_of (target_of offsets.now) from }
{
    let target = target(offsets, from.target)?;
    Some(Case {
        key: from.key,
        target,
    })
}

fn cases(
    alloc: Global,
    offsets: &Numbering,
    from: &[Case<i64>],
) -> Result<Option<Rows<Case<Target>>>, AllocError>
    requires { All (λ o. o < 2 ^ 32) offsets.now }
    ensures { IfOk result (λ found. found ≡ all_of (case_of (target_of offsets.now)) from.now) }
{
    let mut cases = Rows::new(alloc);
    for each in from {
        match case(offsets, *each) {
            Some(case) => cases.push(case)?,
            None => return Ok(None),
        }
    }
    Ok(Some(cases))
}

#[tactic(auto, unfolding(crate::specs::Targets::what_of))]
fn table_switch(
    alloc: Global,
    offsets: &Numbering,
    default: i64,
    low: i32,
    from: &[i64],
) -> Result<Option<What<Target>>, AllocError>
    requires { All (λ o. o < 2 ^ 32) offsets.now }
    ensures { IfOk result (λ found. found ≡ what_of (target_of offsets.now) (What.TableSwitch default low from.now)) }
{
    let Some(default) = target(offsets, default) else {
        return Ok(None);
    };
    let Some(targets) = targets(alloc, offsets, from)? else {
        return Ok(None);
    };
    Ok(Some(What::TableSwitch {
        default,
        low,
        targets,
    }))
}

#[tactic(auto, unfolding(crate::specs::Targets::what_of))]
fn lookup_switch(
    alloc: Global,
    offsets: &Numbering,
    default: i64,
    from: &[Case<i64>],
) -> Result<Option<What<Target>>, AllocError>
    requires { All (λ o. o < 2 ^ 32) offsets.now }
    ensures { IfOk result (λ found. found ≡ what_of (target_of offsets.now) (What.LookupSwitch default from.now)) }
{
    let Some(default) = target(offsets, default) else {
        return Ok(None);
    };
    let Some(cases) = cases(alloc, offsets, from)? else {
        return Ok(None);
    };
    Ok(Some(What::LookupSwitch { default, cases }))
}

/// The instruction with its targets, if each is an instruction.
#[tactic(auto, unfolding(crate::specs::Targets::what_of))]
fn what(
    alloc: Global,
    offsets: &Numbering,
    from: &What<i64>,
) -> Result<Option<What<Target>>, AllocError>
    requires { All (λ o. o < 2 ^ 32) offsets.now }
    ensures { IfOk result (λ found. found ≡ what_of (target_of offsets.now) from.now) }
{
    let same = match from {
        What::Plain(plain) => What::Plain(*plain),
        What::Int(int) => What::Int(*int),
        What::Long(long) => What::Long(*long),
        What::Constant(index) => What::Constant(*index),
        What::LongConstant(index) => What::LongConstant(*index),
        What::Local(access, local) => What::Local(*access, *local),
        What::Increment { local, by } => What::Increment {
            local: *local,
            by: *by,
        },
        What::Branch(test, to) => {
            return Ok(target(offsets, *to).map(|target| What::Branch(*test, target)));
        }
        What::TableSwitch {
            default,
            low,
            targets,
        } => return table_switch(alloc, offsets, *default, *low, targets.as_slice()),
        What::LookupSwitch { default, cases } => {
            return lookup_switch(alloc, offsets, *default, cases.as_slice());
        }
        What::Field(access, index) => What::Field(*access, *index),
        What::Call(call, index) => What::Call(*call, *index),
        What::InterfaceCall(index) => What::InterfaceCall(*index),
        What::Class(purpose, index) => What::Class(*purpose, *index),
        What::NewArray(element) => What::NewArray(*element),
    };
    Ok(Some(same))
}

fn step(alloc: Global, offsets: &Numbering, from: &Instr<i64>) -> Result<Instr<Target>, StepRefusal>
    requires { All (λ o. o < 2 ^ 32) offsets.now }
    ensures { Returns result (step_of offsets.now from.now) }
{
    match what(alloc, offsets, &from.what)? {
        Some(what) => Ok(Instr {
            at: from.at,
            next: from.next,
            what,
        }),
        None => Err(StepRefusal::Fault(StepFault::Target(from.at))),
    }
}

/// The instructions with their targets.
pub fn steps(
    alloc: Global,
    offsets: &Numbering,
    from: &[Instr<i64>],
) -> Result<Rows<Instr<Target>>, StepRefusal>
    requires { All (λ o. o < 2 ^ 32) offsets.now }
    ensures { Returns result (steps_of offsets.now from.now) }
{
    let mut steps = Rows::new(alloc);
    for each in from {
        let step = step(alloc, offsets, each)?;
        steps.push(step)?;
    }
    Ok(steps)
}
