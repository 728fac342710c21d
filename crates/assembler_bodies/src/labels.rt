//! The labels of a body.

ghost use Rattle.std.specs.Prelude.{◌≡◌, ◌+◌, ℕ, List, Some, None, IfOk, OnOk, bytes_eq, if◌then◌else◌};
ghost use Rattle.instructions.specs.Table.{row_numbered};
ghost use Rattle.code_write.specs.Instruction.{size};
ghost use Rattle.assembler_bodies.specs.Labels.{has_one_byte, is_far, shape_of, capped, behind_row, offset_behind, is_end, first_mark, marks_in};
ghost use Rattle.assembler_bodies.specs.Marks.{mark_in, mark_at, marks_of};

use assembler_lines::{Line, Operands, Operation};
use assembler_text::Numbered;
use code_write::Shape;
use instructions::{Form, row};
use std::alloc::{AllocError, Global};
use std::collections::BTreeMap;

/// Where a label is.
#[derive(Clone, Copy)]
pub struct Mark {
    /// The number of its line.
    pub line: u32,
    /// The offset of the code after it.
    pub offset: u32,
}

/// The labels of a body. Contracts see the mark of each name as `marks_of` gives it.
#[derive(Drop)]
pub struct Labels {
    marks: BTreeMap<Vec<u8>, Mark>,
}

/// Whether an int or an index of the pool has one byte.
pub(crate) fn has_one_byte(form: Form) -> bool
    ensures { result ≡ has_one_byte form }
{
    matches!(form, Form::ByteInt | Form::ByteConstant)
}

/// Whether a distance has four bytes.
pub(crate) fn is_far(form: Form) -> bool
    ensures { result ≡ is_far form }
{
    matches!(form, Form::FarBranch(_))
}

/// How many targets a shape has, up to 2^32 - 1: with that many, the offset after it is the highest there is anyway.
fn count(targets: usize) -> u32
    ensures { result ≡ capped targets }
{
    targets.min(0xFFFF_FFFF) as u32
}

/// What the size of an instruction depends on, up to the highest offset.
fn shape_of(form: Form, is_wide: bool, operands: &Operands) -> Shape
    ensures { (at : ℕ) → capped (at + size at result) ≡ capped (at + size at (shape_of form is_wide operands.now)) }
{
    match operands {
        Operands::None => Shape::Fixed(1),
        Operands::Number(_) => Shape::Fixed(if has_one_byte(form) { 2 } else { 3 }),
        Operands::Local(_) => Shape::Fixed(if is_wide { 4 } else { 2 }),
        Operands::Increment { .. } => Shape::Fixed(if is_wide { 6 } else { 3 }),
        Operands::Constant(_) => Shape::Fixed(if has_one_byte(form) { 2 } else { 3 }),
        Operands::Long(_) => Shape::Fixed(3),
        Operands::Label(_) => Shape::Fixed(if is_far(form) { 5 } else { 3 }),
        Operands::TableSwitch { labels, .. } => Shape::TableSwitch(count(labels.len())),
        Operands::LookupSwitch { cases, .. } => Shape::LookupSwitch(count(cases.len())),
        Operands::Member { .. } => Shape::Fixed(3),
        Operands::InterfaceMethod { .. } => Shape::Fixed(5),
        Operands::Class(_) => Shape::Fixed(3),
        Operands::NewArray(_) => Shape::Fixed(2),
    }
}

/// The offset after an instruction at an offset.
fn behind_instruction(at: u32, operation: &Operation) -> u32
    ensures { result ≡ behind_row at (row_numbered operation.now.number) operation.now }
{
    match row(operation.number) {
        Some(row) => {
            let shape = shape_of(row.form, operation.is_wide, &operation.operands);
            let behind = u64::from(at).saturating_add(shape.size_at(at));
            behind.min(0xFFFF_FFFF) as u32
        }
        None => at,
    }
}

/// The offset after a line at an offset.
fn offset_behind(at: u32, line: &Option<Line>) -> u32
    ensures { result ≡ offset_behind at line.now }
{
    match line {
        Some(Line::Instruction(operation)) => behind_instruction(at, operation),
        _ => at,
    }
}

fn is_end(line: &Option<Line>) -> bool
    ensures { result ≡ is_end line.now }
{
    matches!(line, Some(Line::End))
}

/// Puts the mark of a name into the map, where it has none yet.
fn put_mark(
    alloc: Global,
    marks: &mut BTreeMap<Vec<u8>, Mark>,
    name: &[u8],
    mark: Mark,
) -> Result<(), AllocError>
    ensures { OnOk result ((q : List ℕ) → mark_in marks.new q ≡ first_mark (mark_in marks.old q) (if bytes_eq q name.now then Some mark else None)) }
{
    if marks.contains_key(name) {
        return Ok(());
    }
    let key = Vec::from_slice(alloc, name)?;
    marks.insert(key, mark)?;
    Ok(())
}

/// Puts the mark of a line that is a label into the map.
fn put_label(
    alloc: Global,
    marks: &mut BTreeMap<Vec<u8>, Mark>,
    offset: u32,
    numbered: &Numbered,
) -> Result<(), AllocError>
    ensures { OnOk result ((q : List ℕ) → mark_in marks.new q ≡ first_mark (mark_in marks.old q) (mark_at offset numbered.now q)) }
{
    if let Some(Line::Label(name)) = &numbered.line {
        let mark = Mark {
            line: numbered.number,
            offset,
        };
        put_mark(alloc, marks, name.as_slice(), mark)?;
    }
    Ok(())
}

/// The marks of the labels of some lines up to the first end.
fn marks_of(alloc: Global, lines: &[Numbered]) -> Result<BTreeMap<Vec<u8>, Mark>, AllocError>
    ensures { IfOk result (λ marks. (q : List ℕ) → mark_in marks q ≡ marks_in lines.now q) }
{
    let mut marks = BTreeMap::new(alloc);
    let mut offset = 0;
    for numbered in lines {
        if is_end(&numbered.line) {
            return Ok(marks);
        }
        put_label(alloc, &mut marks, offset, numbered)?;
        offset = offset_behind(offset, &numbered.line);
    }
    Ok(marks)
}

impl Labels {
    /// The labels of the lines after the one that begins a body, up to the first `end` or the last line. Each has
    /// its first line, and the offset at which its instruction begins; no offset is above 2^32 - 1.
    pub fn of(alloc: Global, lines: &[Numbered]) -> Result<Self, AllocError>
        ensures { IfOk result (λ labels. marks_of labels ≡ marks_in lines.now) }
    {
        let marks = marks_of(alloc, lines)?;
        Ok(Labels { marks })
    }

    /// Where the label of a name is, if there is one.
    pub fn mark(&self, name: &[u8]) -> Option<Mark>
        ensures { result ≡ marks_of self.now name.now }
    {
        self.marks.get(name).copied()
    }
}
