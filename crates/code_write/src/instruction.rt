//! The bytes of an instruction.

ghost use Rattle.std.specs.Prelude.{◌≡◌, ◌↔◌, ◌++◌, Err, OnOk, OnErr};
ghost use Rattle.class_walk.specs.Layout.{u1, u2};
ghost use Rattle.code_write.specs.declared.refusal.PutRefusal.TheVariants.{OutOfRange};
ghost use Rattle.code_write.specs.Instruction.{element_code, instruction_bytes, operand_bytes, s1, s2, wide_bytes, HasWidths, IsInRange, Keeps};

use crate::numbers::{put_i8, put_i16, put_u8, put_u16};
use crate::operands::{Operands, Written};
use crate::range::is_in_range;
use crate::refusal::PutRefusal;
use crate::switches::{put_far, put_lookup, put_near, put_table};
use instructions::PrimitiveType;
use std::alloc::AllocError;

/// The number of wide.
const WIDE: u8 = 196;

fn element_code(element: PrimitiveType) -> u8
    ensures { result ≡ element_code element }
{
    match element {
        PrimitiveType::Boolean => 4,
        PrimitiveType::Char => 5,
        PrimitiveType::Byte => 8,
        PrimitiveType::Short => 9,
        PrimitiveType::Int => 10,
        PrimitiveType::Long => 11,
    }
}

fn put_increment(out: &mut Vec<u8>, local: u8, by: i8) -> Result<(), AllocError>
    ensures ok { OnOk result (out.new.items ≡ out.old.items ++ (u1 local ++ s1 by)) }
    ensures err { OnErr result (Keeps out.old.items out.new.items) }
{
    put_u8(out, local)?;
    put_i8(out, by)
}

fn put_wide_increment(out: &mut Vec<u8>, local: u16, by: i16) -> Result<(), AllocError>
    ensures ok { OnOk result (out.new.items ≡ out.old.items ++ (u2 local ++ s2 by)) }
    ensures err { OnErr result (Keeps out.old.items out.new.items) }
{
    put_u16(out, local)?;
    put_i16(out, by)
}

/// The last byte of invokeinterface is 0.
fn put_interface_call(out: &mut Vec<u8>, index: u16, count: u8) -> Result<(), AllocError>
    ensures ok { OnOk result (out.new.items ≡ out.old.items ++ (u2 index ++ (u1 count ++ u1 0))) }
    ensures err { OnErr result (Keeps out.old.items out.new.items) }
{
    put_u16(out, index)?;
    put_u8(out, count)?;
    put_u8(out, 0)
}

/// Puts the operands of an instruction at this offset at the end.
fn put_operands(out: &mut Vec<u8>, at: u32, operands: &Operands<u32>) -> Result<(), AllocError>
    requires { IsInRange at operands.now }
    ensures ok { OnOk result (out.new.items ≡ out.old.items ++ operand_bytes at operands.now) }
    ensures widths { OnOk result (HasWidths operands.now) }
    ensures err { OnErr result (Keeps out.old.items out.new.items) }
{
    match operands {
        Operands::Absent => Ok(()),
        Operands::Byte(int) => put_i8(out, *int),
        Operands::Short(int) => put_i16(out, *int),
        Operands::ByteIndex(index) => put_u8(out, *index),
        Operands::Index(index) => put_u16(out, *index),
        Operands::Local(local) => put_u8(out, *local),
        Operands::WideLocal(local) => put_u16(out, *local),
        Operands::Increment { local, by } => put_increment(out, *local, *by),
        Operands::WideIncrement { local, by } => put_wide_increment(out, *local, *by),
        Operands::Near(target) => put_near(out, at, *target),
        Operands::Far(target) => put_far(out, at, *target),
        Operands::TableSwitch {
            default,
            low,
            targets,
        } => put_table(out, at, *default, *low, targets.as_slice()),
        Operands::LookupSwitch { default, cases } => {
            put_lookup(out, at, *default, cases.as_slice())
        }
        Operands::InterfaceCall { index, count } => put_interface_call(out, *index, *count),
        Operands::NewArray(element) => put_u8(out, element_code(*element)),
    }
}

/// Appends the opcode of wide where the operands are those of a widened instruction.
fn put_wide(out: &mut Vec<u8>, operands: &Operands<u32>) -> Result<(), AllocError>
    ensures ok { OnOk result (out.new.items ≡ out.old.items ++ wide_bytes operands.now) }
    ensures err { OnErr result (Keeps out.old.items out.new.items) }
{
    match operands {
        Operands::WideLocal(_) => out.push(WIDE)?,
        Operands::WideIncrement { .. } => out.push(WIDE)?,
        _ => (),
    }
    Ok(())
}

fn put_bytes(out: &mut Vec<u8>, at: u32, written: &Written<u32>) -> Result<(), AllocError>
    requires { IsInRange at written.now.operands }
    ensures ok { OnOk result (out.new.items ≡ out.old.items ++ instruction_bytes at written.now) }
    ensures widths { OnOk result (HasWidths written.now.operands) }
    ensures err { OnErr result (Keeps out.old.items out.new.items) }
{
    put_wide(out, &written.operands)?;
    out.push(written.number)?;
    put_operands(out, at, &written.operands)?;
    Ok(())
}

/// Appends the bytes of an instruction whose first byte is at this offset of the code (JVMS 6.5). After
/// [`PutRefusal::OutOfRange`] nothing was put; when memory runs out, some of the bytes may have been.
pub fn put_instruction(out: &mut Vec<u8>, at: u32, written: &Written<u32>) -> Result<(), PutRefusal>
    ensures ok { OnOk result (out.new.items ≡ out.old.items ++ instruction_bytes at written.now) }
    ensures in_range { OnOk result (IsInRange at written.now.operands) }
    ensures widths { OnOk result (HasWidths written.now.operands) }
    ensures out_of_range { (result ≡ Err OutOfRange) ↔ (¬ IsInRange at written.now.operands) }
    ensures unchanged { result ≡ Err OutOfRange → out.new.items ≡ out.old.items }
    ensures err { OnErr result (Keeps out.old.items out.new.items) }
{
    if !is_in_range(at, &written.operands) {
        return Err(PutRefusal::OutOfRange);
    }
    put_bytes(out, at, written)?;
    Ok(())
}
