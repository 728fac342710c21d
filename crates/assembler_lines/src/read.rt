//! Reading what the words of a line say.

ghost use Rattle.std.specs.Prelude.{◌≡◌, None, Some, Err, MatchOption, IfOk, MatchResult};
ghost use Rattle.assembler_lines.specs.declared.line.Line.{Line};
ghost use Rattle.assembler_lines.specs.declared.word.LineRefusal.TheVariants.{Malformed, NoMemory};
ghost use Rattle.assembler_lines.specs.Lines.{Says, IsLine};
ghost use Rattle.assembler_lines.specs.Front.{Gives, Answers, short};
ghost use Rattle.assembler_lines.specs.ReadingLine.{class_flags, class_at, super_at, implements_at, header_at, is_int_descriptor, number_value, value_of, constant_at, value_at, field_at, frame_room_at, room_at, method_at, handler_class, handler_at, label_of, word_line, keyword_line, line_with};

use crate::frames::frame_line;
use crate::front::{behind, first_plain, integer, is_text, number, only_plain, only_word};
use crate::line::{FieldValue, Line, Room};
use crate::operands::{operation, row_of};
use crate::word::{LineRefusal, Word};
use crate::words::words_of;
use rows::{Bytes, Rows};
use std::alloc::Global;

fn short(written: &[u8]) -> Result<u16, LineRefusal>
    ensures { Gives (λ number. number) result (short written.now) }
{
    let number = number(65535, written)?;
    Ok(number as u16)
}

fn class_flags(words: &[Word]) -> Result<u16, LineRefusal>
    ensures { Gives (λ flags. flags) result (class_flags words.now) }
{
    if words.is_empty() {
        return Ok(33);
    }
    short(only_plain(words)?)
}

#[tactic(auto, unfolding(crate::specs::ReadingLine::class_at))]
fn class_line(alloc: Global, words: &[Word]) -> Result<Line, LineRefusal>
    ensures { Gives (λ line. line) result (class_at words.now) }
{
    let (name, rest) = first_plain(words)?;
    let flags = class_flags(rest)?;
    let name = Bytes::from_slice(alloc, name)?;
    Ok(Line::Class { name, flags })
}

#[tactic(auto, unfolding(crate::specs::ReadingLine::super_at))]
fn super_line(alloc: Global, words: &[Word]) -> Result<Line, LineRefusal>
    ensures { Gives (λ line. line) result (super_at words.now) }
{
    let name = Bytes::from_slice(alloc, only_plain(words)?)?;
    Ok(Line::Super(name))
}

#[tactic(auto, unfolding(crate::specs::ReadingLine::implements_at))]
fn implements_line(alloc: Global, words: &[Word]) -> Result<Line, LineRefusal>
    ensures { Gives (λ line. line) result (implements_at words.now) }
{
    let name = Bytes::from_slice(alloc, only_plain(words)?)?;
    Ok(Line::Implements(name))
}

/// The flags, the name and the descriptor of a member, and the words after them.
#[tactic(auto, unfolding(crate::specs::ReadingLine::header_at))]
fn header(words: &[Word]) -> Result<(u16, &[u8], &[u8], &[Word]), LineRefusal>
    ensures { Gives (λ x. (x.0, x.1.now, x.2.now, x.3.now)) result (header_at words.now) }
{
    let (written, rest) = first_plain(words)?;
    let (name, rest) = first_plain(rest)?;
    let (descriptor, rest) = first_plain(rest)?;
    let flags = short(written)?;
    Ok((flags, name, descriptor, rest))
}

/// Whether a field's type is one whose constant is an int.
fn is_int_descriptor(descriptor: &[u8]) -> bool
    ensures { result ≡ is_int_descriptor descriptor.now }
{
    is_text(descriptor, b"I")
        || is_text(descriptor, b"S")
        || is_text(descriptor, b"C")
        || is_text(descriptor, b"B")
        || is_text(descriptor, b"Z")
}

fn number_value(descriptor: &[u8], written: &[u8]) -> Result<FieldValue, LineRefusal>
    ensures { Gives (λ value. value) result (number_value descriptor.now written.now) }
{
    if is_int_descriptor(descriptor) {
        let int = integer(2_147_483_647, written)?;
        Ok(FieldValue::Int(int as i32))
    } else if is_text(descriptor, b"J") {
        let long = integer(9_223_372_036_854_775_807, written)?;
        Ok(FieldValue::Long(long))
    } else {
        Err(LineRefusal::Malformed)
    }
}

fn value(alloc: Global, descriptor: &[u8], said: &Word) -> Result<FieldValue, LineRefusal>
    ensures { Gives (λ value. value) result (value_of descriptor.now said.now) }
{
    match said {
        Word::Plain(written) => number_value(descriptor, written.as_slice()),
        Word::Quoted(units) => {
            if !is_text(descriptor, b"Ljava/lang/String;") {
                return Err(LineRefusal::Malformed);
            }
            let units = Vec::from_slice(alloc, units.as_slice())?;
            Ok(FieldValue::Text(Rows::from_vec(units)))
        }
    }
}

#[tactic(auto, unfolding(crate::specs::ReadingLine::constant_at))]
fn constant(alloc: Global, descriptor: &[u8], words: &[Word]) -> Result<FieldValue, LineRefusal>
    ensures { Gives (λ value. value) result (constant_at descriptor.now words.now) }
{
    let rest = behind(b"=", words)?;
    let said = only_word(rest)?;
    value(alloc, descriptor, said)
}

/// The value of a field, where there is one.
fn field_value(
    alloc: Global,
    descriptor: &[u8],
    words: &[Word],
) -> Result<Option<FieldValue>, LineRefusal>
    ensures { Gives (λ value. value) result (value_at descriptor.now words.now) }
{
    if words.is_empty() {
        return Ok(None);
    }
    let value = constant(alloc, descriptor, words)?;
    Ok(Some(value))
}

#[tactic(auto, unfolding(crate::specs::ReadingLine::field_at))]
fn field_line(alloc: Global, words: &[Word]) -> Result<Line, LineRefusal>
    ensures { Gives (λ line. line) result (field_at words.now) }
{
    let (flags, name, descriptor, rest) = header(words)?;
    let value = field_value(alloc, descriptor, rest)?;
    let name = Bytes::from_slice(alloc, name)?;
    let descriptor = Bytes::from_slice(alloc, descriptor)?;
    Ok(Line::Field {
        flags,
        name,
        descriptor,
        value,
    })
}

#[tactic(auto, unfolding(crate::specs::ReadingLine::frame_room_at))]
fn frame_room(words: &[Word]) -> Result<Room, LineRefusal>
    ensures { Gives (λ room. room) result (frame_room_at words.now) }
{
    let rest = behind(b"stack", words)?;
    let (stack, rest) = first_plain(rest)?;
    let rest = behind(b"locals", rest)?;
    let locals = only_plain(rest)?;
    let stack = short(stack)?;
    let locals = short(locals)?;
    Ok(Room { stack, locals })
}

/// The room of a method, where it has code.
fn room(words: &[Word]) -> Result<Option<Room>, LineRefusal>
    ensures { Gives (λ room. room) result (room_at words.now) }
{
    if words.is_empty() {
        return Ok(None);
    }
    let room = frame_room(words)?;
    Ok(Some(room))
}

#[tactic(auto, unfolding(crate::specs::ReadingLine::method_at))]
fn method_line(alloc: Global, words: &[Word]) -> Result<Line, LineRefusal>
    ensures { Gives (λ line. line) result (method_at words.now) }
{
    let (flags, name, descriptor, rest) = header(words)?;
    let room = room(rest)?;
    let name = Bytes::from_slice(alloc, name)?;
    let descriptor = Bytes::from_slice(alloc, descriptor)?;
    Ok(Line::Method {
        flags,
        name,
        descriptor,
        room,
    })
}

/// The class that a handler catches, and none for any.
fn handler_class(alloc: Global, class: &[u8]) -> Result<Option<Bytes>, LineRefusal>
    ensures { Gives (λ class. class) result (Some (handler_class class.now)) }
{
    if is_text(class, b"any") {
        return Ok(None);
    }
    let class = Bytes::from_slice(alloc, class)?;
    Ok(Some(class))
}

#[tactic(auto, unfolding(crate::specs::ReadingLine::handler_at))]
fn handler_line(alloc: Global, words: &[Word]) -> Result<Line, LineRefusal>
    ensures { Gives (λ line. line) result (handler_at words.now) }
{
    let (from, rest) = first_plain(words)?;
    let (to, rest) = first_plain(rest)?;
    let (at, rest) = first_plain(rest)?;
    let class = only_plain(rest)?;
    let from = Bytes::from_slice(alloc, from)?;
    let to = Bytes::from_slice(alloc, to)?;
    let at = Bytes::from_slice(alloc, at)?;
    let class = handler_class(alloc, class)?;
    Ok(Line::Handler {
        from,
        to,
        at,
        class,
    })
}

/// The label of a word that ends in a colon.
fn label_of(word: &[u8]) -> Option<&[u8]>
    ensures { MatchOption result (label_of word.now ≡ None) (λ name. label_of word.now ≡ Some name.now) }
{
    if word.len() >= 2 && word[word.len() - 1] == b':' {
        Some(&word[..word.len() - 1])
    } else {
        None
    }
}

/// The line of one word.
#[tactic(auto, unfolding(crate::specs::ReadingLine::word_line))]
fn word_line(alloc: Global, word: &[u8]) -> Result<Line, LineRefusal>
    ensures { Gives (λ line. line) result (word_line word.now) }
{
    if is_text(word, b"end") {
        return Ok(Line::End);
    }
    match label_of(word) {
        Some(name) => {
            let name = Bytes::from_slice(alloc, name)?;
            Ok(Line::Label(name))
        }
        None => Err(LineRefusal::Malformed),
    }
}

/// The line of a keyword and the words after it.
#[tactic(auto, unfolding(crate::specs::ReadingLine::keyword_line))]
fn keyword_line(alloc: Global, keyword: &[u8], words: &[Word]) -> Result<Line, LineRefusal>
    ensures { Gives (λ line. line) result (keyword_line keyword.now words.now) }
{
    if is_text(keyword, b"class") {
        class_line(alloc, words)
    } else if is_text(keyword, b"super") {
        super_line(alloc, words)
    } else if is_text(keyword, b"implements") {
        implements_line(alloc, words)
    } else if is_text(keyword, b"field") {
        field_line(alloc, words)
    } else if is_text(keyword, b"method") {
        method_line(alloc, words)
    } else if is_text(keyword, b"handler") {
        handler_line(alloc, words)
    } else if is_text(keyword, b"frame") {
        frame_line(alloc, words)
    } else {
        Err(LineRefusal::Malformed)
    }
}

/// The line of a first word that is not a mnemonic, and of the words after it.
fn other_line(alloc: Global, first: &[u8], rest: &[Word]) -> Result<Line, LineRefusal>
    ensures { Gives (λ line. line) result (line_with (first.now, rest.now)) }
{
    if rest.is_empty() {
        word_line(alloc, first)
    } else {
        keyword_line(alloc, first, rest)
    }
}

/// The line that words say.
fn said_line(alloc: Global, words: &[Word]) -> Result<Line, LineRefusal>
    ensures { Answers (Says words.now) result }
{
    let (first, rest) = first_plain(words)?;
    match row_of(first) {
        Some(row) => {
            let operation = operation(alloc, row, rest)?;
            Ok(Line::Instruction(operation))
        }
        None => other_line(alloc, first, rest),
    }
}

/// What a line says, given its bytes without the byte that ends it. `Malformed` is for bytes that are no line.
pub fn line_of(alloc: Global, text: &[u8]) -> Result<Line, LineRefusal>
    ensures found { IfOk result (λ line. IsLine text.now line) }
    // There is one such line, and only memory can be wanting for it.
    ensures only { (line : Line) → IsLine text.now line → MatchResult result (λ found. found ≡ line) (λ refusal. refusal ≡ NoMemory) }
    ensures exact { result ≡ Err Malformed → (line : Line) → ¬ IsLine text.now line }
{
    let words = words_of(alloc, text)?;
    said_line(alloc, words.as_slice())
}
