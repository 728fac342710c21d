//! Printed lines as bytes (java.io.PrintStream.println, String.valueOf).

ghost use Rattle.std.specs.Prelude.{◌≡◌, List, [], ◌∷◌, IfOk, encode_utf8_all, slice_get, string_bytes, unwrap_or};
ghost use Rattle.class_names.specs.ModifiedUtf8.{alone};
ghost use Rattle.link_rules.specs.Strings.{string_texts};
ghost use Rattle.op_core.specs.declared.MadeText.{MadeText};
ghost use Rattle.java_machine.specs.Made.{AreKept};
ghost use Rattle.java_machine.specs.Lines.{line_of, line_text, line_bytes};

use crate::MadeLines;
use linker::World;
use op_core::{Bytes, Line, NoMemory};
use std::alloc::{AllocError, Global};

/// A line with its end.
pub(crate) fn line_of(mut text: Vec<u8>) -> Result<Bytes, AllocError>
    ensures { IfOk result (λ bytes. bytes ≡ line_of text.items) }
{
    text.push(b'\n')?;
    Ok(Bytes::from_vec(text))
}

/// A UTF-16 code unit in UTF-8, a surrogate as `?`.
fn char_text(alloc: Global, unit: u16) -> Result<String, AllocError>
    ensures { IfOk result (λ text. string_bytes text ≡ encode_utf8_all (alone unit ∷ [])) }
{
    let mut text = String::new(alloc);
    text.push(char::from_u32(u32::from(unit)).unwrap_or('?'))?;
    Ok(text)
}

/// The text of a string literal, empty where the program has none of this number.
fn literal_text(world: &World, string: u32) -> &[u8]
    ensures { result.now ≡ unwrap_or (slice_get (string_texts world.now) string) [] }
{
    match world.string_at(string) {
        Some(text) => text.as_bytes(),
        None => &[],
    }
}

fn line_text(
    alloc: Global,
    world: &World,
    made: &MadeLines,
    line: Line,
) -> Result<Vec<u8>, AllocError>
    ensures { (texts : List MadeText) → AreKept texts made.now → IfOk result (λ text. text.items ≡ line_text world.now texts line) }
{
    match line {
        Line::Empty => Ok(Vec::new(alloc)),
        Line::Int(number) => Ok(number.to_string(alloc)?.into_bytes()),
        Line::Long(number) => Ok(number.to_string(alloc)?.into_bytes()),
        Line::Char(unit) => Ok(char_text(alloc, unit)?.into_bytes()),
        Line::Bool(true) => Vec::from_slice(alloc, b"true"),
        Line::Bool(false) => Vec::from_slice(alloc, b"false"),
        Line::Text(string) => Vec::from_slice(alloc, literal_text(world, string)),
        Line::Made(array) => Vec::from_slice(alloc, made.text(array)),
        Line::Null => Vec::from_slice(alloc, b"null"),
    }
}

/// The bytes of a printed line with byte 10 at the end: numbers in decimal, a char and a text in UTF-8, a surrogate that is
/// in no pair as `?`. A text that neither the program nor `made` has is empty. It fails where memory runs out alone.
pub fn line_bytes(
    alloc: Global,
    world: &World,
    made: &MadeLines,
    line: Line,
) -> Result<Bytes, NoMemory>
    ensures { (texts : List MadeText) → AreKept texts made.now → IfOk result (λ bytes. bytes ≡ line_bytes world.now texts line) }
{
    let text = line_text(alloc, world, made, line)?;
    Ok(line_of(text)?)
}
