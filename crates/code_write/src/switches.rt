//! Targets and switches (JVMS 6.5, tableswitch and lookupswitch).

ghost use Rattle.std.specs.Prelude.{◌≡◌, ◌++◌, All, FitsSigned, OnOk, OnErr};
ghost use Rattle.std.specs.List.{flat_map};
ghost use Rattle.std.specs.Int.{w16, w32};
ghost use Rattle.code_write.specs.Instruction.{case_bytes, distance, far_bytes, lookup_bytes, near_bytes, padding_bytes, table_bytes};
ghost use Rattle.code_write.specs.Instruction.{IsCaseInRange, IsFar, IsLookupInRange, IsTableInRange, HasKey, Keeps};

use crate::numbers::{put_i16, put_i32, put_u32};
use crate::range::{distance, highest};
use instructions::Case;
use std::alloc::AllocError;

/// The most padding that a switch has.
const PADDING: [u8; 3] = [0; 3];

/// Puts the distance of a target at the end, in two bytes.
pub(crate) fn put_near(out: &mut Vec<u8>, at: u32, target: u32) -> Result<(), AllocError>
    requires { FitsSigned w16 (distance at target) }
    ensures ok { OnOk result (out.new.items ≡ out.old.items ++ near_bytes at target) }
    ensures err { OnErr result (Keeps out.old.items out.new.items) }
{
    put_i16(out, distance(at, target) as i16)
}

/// Puts the distance of a target at the end, in four bytes.
pub(crate) fn put_far(out: &mut Vec<u8>, at: u32, target: u32) -> Result<(), AllocError>
    requires { IsFar at target }
    ensures ok { OnOk result (out.new.items ≡ out.old.items ++ far_bytes at target) }
    ensures err { OnErr result (Keeps out.old.items out.new.items) }
{
    put_i32(out, distance(at, target) as i32)
}

fn put_each_target(out: &mut Vec<u8>, at: u32, targets: &[u32]) -> Result<(), AllocError>
    requires { All (IsFar at) targets.now }
    ensures ok { OnOk result (out.new.items ≡ out.old.items ++ flat_map (far_bytes at) targets.now) }
    ensures err { OnErr result (Keeps out.old.items out.new.items) }
{
    for target in targets {
        put_far(out, at, *target)?;
    }
    Ok(())
}

fn put_case(out: &mut Vec<u8>, at: u32, case: Case<u32>) -> Result<(), AllocError>
    requires { IsCaseInRange at case }
    ensures ok { OnOk result (out.new.items ≡ out.old.items ++ case_bytes at case) }
    ensures key { HasKey case }
    ensures err { OnErr result (Keeps out.old.items out.new.items) }
{
    put_i32(out, case.key)?;
    put_far(out, at, case.target)
}

fn put_each_case(out: &mut Vec<u8>, at: u32, cases: &[Case<u32>]) -> Result<(), AllocError>
    requires { All (IsCaseInRange at) cases.now }
    ensures ok { OnOk result (out.new.items ≡ out.old.items ++ flat_map (case_bytes at) cases.now) }
    ensures keys { OnOk result (All HasKey cases.now) }
    ensures err { OnErr result (Keeps out.old.items out.new.items) }
{
    for case in cases {
        put_case(out, at, *case)?;
    }
    Ok(())
}

/// Appends the zeros that follow the opcode of a switch at this offset.
fn put_padding(out: &mut Vec<u8>, at: u32) -> Result<(), AllocError>
    ensures ok { OnOk result (out.new.items ≡ out.old.items ++ padding_bytes at) }
    ensures err { OnErr result (Keeps out.old.items out.new.items) }
{
    let count = 3 - at as usize % 4;
    out.extend_from_slice(&PADDING[..count])?;
    Ok(())
}

/// Puts the operands of a tableswitch at this offset at the end.
pub(crate) fn put_table(
    out: &mut Vec<u8>,
    at: u32,
    default: u32,
    low: i32,
    targets: &[u32],
) -> Result<(), AllocError>
    requires { IsTableInRange at default low targets.now }
    ensures ok { OnOk result (out.new.items ≡ out.old.items ++ table_bytes at default low targets.now) }
    ensures low { FitsSigned w32 low }
    ensures err { OnErr result (Keeps out.old.items out.new.items) }
{
    put_padding(out, at)?;
    put_far(out, at, default)?;
    put_i32(out, low)?;
    put_i32(out, highest(low, targets) as i32)?;
    put_each_target(out, at, targets)?;
    Ok(())
}

/// Puts the operands of a lookupswitch at this offset at the end.
pub(crate) fn put_lookup(
    out: &mut Vec<u8>,
    at: u32,
    default: u32,
    cases: &[Case<u32>],
) -> Result<(), AllocError>
    requires { IsLookupInRange at default cases.now }
    ensures ok { OnOk result (out.new.items ≡ out.old.items ++ lookup_bytes at default cases.now) }
    ensures keys { OnOk result (All HasKey cases.now) }
    ensures err { OnErr result (Keeps out.old.items out.new.items) }
{
    put_padding(out, at)?;
    put_far(out, at, default)?;
    put_u32(out, cases.len() as u32)?;
    put_each_case(out, at, cases)
}
