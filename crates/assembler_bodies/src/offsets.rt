//! Operands that need no entry of the pool.

ghost use Rattle.std.specs.Prelude.{◌≡◌};
ghost use Rattle.std.specs.Int.{w8, w16};
ghost use Rattle.assembler_bodies.specs.Making.{Finds};
ghost use Rattle.assembler_bodies.specs.Marks.{marks_of};
ghost use Rattle.assembler_bodies.specs.Offsets.{offset_of, short_offset_of, each, case_of, narrow, byte, int_operand, local_operand, increment_operand, constant_operand, branch_operand, table_operand, lookup_operand};

use crate::labels::{Labels, has_one_byte, is_far};
use crate::refusal::BodyRefusal;
use assembler_lines::LabelledCase;
use code_write::Operands;
use instructions::{Case, Form};
use rows::{Bytes, Rows};
use std::alloc::Global;

/// The offset of a label that is there.
#[tactic(auto, unfolding(crate::specs::Offsets::offset_of))]
fn offset_of(labels: &Labels, name: &[u8]) -> Result<u32, BodyRefusal>
    ensures { Finds (λ offset. offset) result (offset_of (marks_of labels.now) name.now) }
{
    match labels.mark(name) {
        Some(mark) => Ok(mark.offset),
        None => Err(BodyRefusal::Refused),
    }
}

/// The offset of a label, where it has room in two bytes.
#[tactic(auto, unfolding(crate::specs::Offsets::short_offset_of))]
pub(crate) fn short_offset_of(labels: &Labels, name: &[u8]) -> Result<u16, BodyRefusal>
    ensures { Finds (λ offset. offset) result (short_offset_of (marks_of labels.now) name.now) }
{
    let offset = offset_of(labels, name)?;
    if offset > 0xFFFF {
        return Err(BodyRefusal::Refused);
    }
    Ok(offset as u16)
}

fn offsets_of(alloc: Global, labels: &Labels, names: &[Bytes]) -> Result<Rows<u32>, BodyRefusal>
    ensures { Finds (λ offsets. offsets) result (each (offset_of (marks_of labels.now)) names.now) }
{
    let mut offsets = Rows::new(alloc);
    for name in names {
        let offset = offset_of(labels, name.as_slice())?;
        offsets.push(offset)?;
    }
    Ok(offsets)
}

#[tactic(auto, unfolding(crate::specs::Offsets::case_of))]
fn case_of(labels: &Labels, said: &LabelledCase) -> Result<Case<u32>, BodyRefusal>
    ensures { Finds (λ case. case) result (case_of (marks_of labels.now) said.now) }
{
    let target = offset_of(labels, said.label.as_slice())?;
    Ok(Case {
        key: said.key,
        target,
    })
}

fn cases_of(
    alloc: Global,
    labels: &Labels,
    said: &[LabelledCase],
) -> Result<Rows<Case<u32>>, BodyRefusal>
    ensures { Finds (λ cases. cases) result (each (case_of (marks_of labels.now)) said.now) }
{
    let mut cases = Rows::new(alloc);
    for one in said {
        let case = case_of(labels, one)?;
        cases.push(case)?;
    }
    Ok(cases)
}

/// An int that has room in one byte.
#[tactic(auto, unfolding(crate::specs::Offsets::narrow))]
fn one_byte(int: i32) -> Result<i8, BodyRefusal>
    ensures { Finds (λ int. int) result (narrow w8 int) }
{
    if int < -128 || int > 127 {
        return Err(BodyRefusal::Refused);
    }
    Ok(int as i8)
}

/// An int that has room in two bytes.
#[tactic(auto, unfolding(crate::specs::Offsets::narrow))]
fn two_bytes(int: i32) -> Result<i16, BodyRefusal>
    ensures { Finds (λ int. int) result (narrow w16 int) }
{
    if int < -32_768 || int > 32_767 {
        return Err(BodyRefusal::Refused);
    }
    Ok(int as i16)
}

/// A local or an index that has room in one byte.
#[tactic(auto, unfolding(crate::specs::Offsets::byte))]
fn byte(number: u16) -> Result<u8, BodyRefusal>
    ensures { Finds (λ number. number) result (byte number) }
{
    if number > 0xFF {
        return Err(BodyRefusal::Refused);
    }
    Ok(number as u8)
}

/// The int of bipush or of sipush.
#[tactic(auto, unfolding(crate::specs::Offsets::int_operand))]
pub(crate) fn int_operand(form: Form, int: i32) -> Result<Operands<u32>, BodyRefusal>
    ensures { Finds (λ operands. operands) result (int_operand form int) }
{
    if has_one_byte(form) {
        let int = one_byte(int)?;
        Ok(Operands::Byte(int))
    } else {
        let int = two_bytes(int)?;
        Ok(Operands::Short(int))
    }
}

#[tactic(auto, unfolding(crate::specs::Offsets::local_operand))]
pub(crate) fn local_operand(is_wide: bool, number: u16) -> Result<Operands<u32>, BodyRefusal>
    ensures { Finds (λ operands. operands) result (local_operand is_wide number) }
{
    if is_wide {
        return Ok(Operands::WideLocal(number));
    }
    let local = byte(number)?;
    Ok(Operands::Local(local))
}

#[tactic(auto, unfolding(crate::specs::Offsets::increment_operand))]
pub(crate) fn increment_operand(
    is_wide: bool,
    number: u16,
    int: i16,
) -> Result<Operands<u32>, BodyRefusal>
    ensures { Finds (λ operands. operands) result (increment_operand is_wide number int) }
{
    if is_wide {
        return Ok(Operands::WideIncrement {
            local: number,
            by: int,
        });
    }
    let local = byte(number)?;
    let by = one_byte(i32::from(int))?;
    Ok(Operands::Increment { local, by })
}

/// The index of a constant, which has one byte for ldc.
#[tactic(auto, unfolding(crate::specs::Offsets::constant_operand))]
pub(crate) fn constant_operand(form: Form, number: u16) -> Result<Operands<u32>, BodyRefusal>
    ensures { Finds (λ operands. operands) result (constant_operand form number) }
{
    if !has_one_byte(form) {
        return Ok(Operands::Index(number));
    }
    let index = byte(number)?;
    Ok(Operands::ByteIndex(index))
}

#[tactic(auto, unfolding(crate::specs::Offsets::branch_operand))]
pub(crate) fn branch_operand(
    labels: &Labels,
    form: Form,
    label: &[u8],
) -> Result<Operands<u32>, BodyRefusal>
    ensures { Finds (λ operands. operands) result (branch_operand (marks_of labels.now) form label.now) }
{
    let target = offset_of(labels, label)?;
    if is_far(form) {
        Ok(Operands::Far(target))
    } else {
        Ok(Operands::Near(target))
    }
}

#[tactic(auto, unfolding(crate::specs::Offsets::table_operand))]
pub(crate) fn table_operand(
    alloc: Global,
    labels: &Labels,
    low: i32,
    label: &[u8],
    names: &[Bytes],
) -> Result<Operands<u32>, BodyRefusal>
    ensures { Finds (λ operands. operands) result (table_operand (marks_of labels.now) low label.now names.now) }
{
    let default = offset_of(labels, label)?;
    let targets = offsets_of(alloc, labels, names)?;
    Ok(Operands::TableSwitch {
        default,
        low,
        targets,
    })
}

#[tactic(auto, unfolding(crate::specs::Offsets::lookup_operand))]
pub(crate) fn lookup_operand(
    alloc: Global,
    labels: &Labels,
    label: &[u8],
    said: &[LabelledCase],
) -> Result<Operands<u32>, BodyRefusal>
    ensures { Finds (λ operands. operands) result (lookup_operand (marks_of labels.now) label.now said.now) }
{
    let default = offset_of(labels, label)?;
    let cases = cases_of(alloc, labels, said)?;
    Ok(Operands::LookupSwitch { default, cases })
}
