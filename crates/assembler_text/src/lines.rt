//! Cutting a text into lines, and numbering them.

ghost use Rattle.std.specs.Prelude.{◌≡◌, ◌+◌, ◌<◌, ◌≤◌, ◌^◌, [], length, drop, Option, MatchOption, IfOk, ◌==◌, not};
ghost use Rattle.std.specs.List.{prefix_len};
ghost use Rattle.assembler_lines.specs.declared.line.Line.{Line};
ghost use Rattle.assembler_text.specs.declared.lines.TextLines.{TextLines};
ghost use Rattle.assembler_text.specs.TextLines.{AreLinesOf, SaysAt, is_passed};
ghost use Rattle.assembler_text.specs.Reading.{IsFirstLine};

use assembler_lines::{Line, LineRefusal, line_of};
use rows::Rows;
use std::alloc::{AllocError, Global};

/// A line of a text by its number, from 1, and what it says; `None` where its bytes are no line.
#[derive(Drop)]
pub struct Numbered {
    pub number: u32,
    pub line: Option<Line>,
}

/// The lines of a text that aren't passed over, with their numbers, and the number of the line after the last.
#[derive(Drop)]
pub struct TextLines {
    pub lines: Rows<Numbered>,
    pub behind: u32,
}

/// The most bytes that a text has.
pub const MOST_BYTES: usize = 1_048_576;

/// How many bytes come before the first byte 10, or before the text's end.
fn line_len(text: &[u8]) -> usize
    ensures value { result ≡ prefix_len (λ b. not (b == 10)) text.now }
    ensures bound { result ≤ length text.now }
{
    text.iter().take_while(|byte| **byte != b'\n').count()
}

/// What comes after the byte that ends a line, where there is one.
fn behind_end(text: &[u8]) -> &[u8]
    ensures { result.now ≡ drop 1 text.now }
{
    match text.split_first() {
        Some((_, rest)) => rest,
        None => text,
    }
}

/// The bytes of the first line, and what comes after its end; `None` where there is no line.
fn next_line(text: &[u8]) -> Option<(&[u8], &[u8])>
    ensures { MatchOption result (text.now ≡ []) (λ x. IsFirstLine text.now x.0.now x.1.now) }
{
    if text.is_empty() {
        return None;
    }
    let (line, end) = text.split_at(line_len(text));
    Some((line, behind_end(end)))
}

/// Whether a line is passed over: an empty one, unless it ends past the most bytes that a text may have.
fn is_passed(line: &[u8], end: usize) -> bool
    ensures { result ≡ is_passed end line.now }
{
    line.is_empty() && end <= MOST_BYTES
}

/// What a line says that ends before a place in the text.
fn said(alloc: Global, line: &[u8], end: usize) -> Result<Option<Line>, AllocError>
    ensures found { IfOk result (λ said. SaysAt end line.now said) }
    ensures only { (other : Option Line) → SaysAt end line.now other → IfOk result (λ said. said ≡ other) }
{
    if end > MOST_BYTES {
        return Ok(None);
    }
    match line_of(alloc, line) {
        Ok(line) => Ok(Some(line)),
        Err(LineRefusal::Malformed) => Ok(None),
        Err(LineRefusal::NoMemory) => Err(AllocError),
    }
}

/// The lines of a text in order, except those that are empty and lie among the first [`MOST_BYTES`]. A line ends at a
/// byte 10 or at the text's end, and empty lines are counted. A line says nothing where its bytes are not a line, and
/// where a byte of it, or the byte 10 that ends it, is not among the first [`MOST_BYTES`] of the text. It fails only
/// when memory runs out.
pub fn lines_of(alloc: Global, text: &[u8]) -> Result<TextLines, AllocError>
    requires { length text.now + 1 < 2 ^ 32 }
    ensures found { IfOk result (λ made. AreLinesOf text.now made) }
    // There are no others.
    ensures only { (made : TextLines) → AreLinesOf text.now made → IfOk result (λ found. found ≡ made) }
{
    let mut lines = Rows::new(alloc);
    let mut number = 1;
    let mut rest = text;
    while let Some((line, after)) = next_line(rest) {
        let end = text.len() - after.len();
        if !is_passed(line, end) {
            let line = said(alloc, line, end)?;
            lines.push(Numbered { number, line })?;
        }
        number += 1;
        rest = after;
    }
    Ok(TextLines {
        lines,
        behind: number,
    })
}
