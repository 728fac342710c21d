//! The literals of one file.

ghost use Rattle.std.specs.Prelude.{◌≡◌, ◌≢◌, ◌+◌, ◌<◌, ◌≤◌, ◌^◌, ℕ, None, Some, IfOk, OnOk, length, fold, filter_map, slice_get, replicate};
ghost use Rattle.class_names.specs.ModifiedUtf8.{IsModifiedUtf8};
ghost use Rattle.class_walk.specs.declared.class.Constant.TheVariants.{Str as str_entry};
ghost use Rattle.link_rules.specs.Classes.{utf8_at};
ghost use Rattle.link_rules.specs.Strings.{literal_text, literal_in};
ghost use Rattle.string_literals.specs.Texts.{with_text, with_literal, HasTexts, HasNumber, IsLiteralNumber, NumberLiterals, AreKept};

use crate::text_numbers::TextNumbers;
use class_names::decode_text;
use class_pool::utf8_at;
use class_walk::Constant;
use rows::{Rows, Text};
use std::alloc::{AllocError, Global};

fn no_numbers(alloc: Global, count: usize) -> Result<Vec<Option<u32>>, AllocError>
    ensures { IfOk result (λ numbers. numbers.items ≡ replicate count None) }
{
    let mut numbers = Vec::new(alloc);
    for _ in 0..count {
        numbers.push(None)?;
    }
    Ok(numbers)
}

fn number_at(numbers: &[Option<u32>], index: u16) -> Option<u32>
    ensures { (n : ℕ) → result ≡ Some n → slice_get numbers.now index ≡ Some (Some n) }
{
    match numbers.get(usize::from(index)) {
        Some(number) => *number,
        None => None,
    }
}

fn bytes_at(pool: &[Constant], index: u16) -> &[u8]
    ensures { result.now ≡ utf8_at pool.now index }
{
    utf8_at(pool, index).unwrap_or(b"")
}

/// The text of a Utf8 entry.
fn text_at(alloc: Global, pool: &[Constant], index: u16) -> Result<Text, AllocError>
    requires { IsModifiedUtf8 (utf8_at pool.now index) }
    ensures { IfOk result (λ text. text ≡ literal_text (utf8_at pool.now index)) }
{
    let text = decode_text(alloc, bytes_at(pool, index))?;
    Ok(text)
}

/// Keeps the number of the text of a Utf8 entry.
fn keep(by_text: &mut Vec<Option<u32>>, index: u16, number: u32)
    ensures count { length by_text.new.items ≡ length by_text.old.items }
    ensures here { (n : ℕ) → slice_get by_text.new.items index ≡ Some (Some n) → n ≡ number }
    ensures elsewhere { (i : ℕ) → i ≢ index → slice_get by_text.new.items i ≡ slice_get by_text.old.items i }
{
    if usize::from(index) < by_text.len() {
        by_text[usize::from(index)] = Some(number);
    }
}

/// The number of the text of a Utf8 entry, which is decoded where it wasn't yet.
fn text_number(
    alloc: Global,
    known: &mut TextNumbers,
    by_text: &mut Vec<Option<u32>>,
    pool: &[Constant],
    index: u16,
) -> Result<u32, AllocError>
    requires text { IsModifiedUtf8 (utf8_at pool.now index) }
    requires room { length known.old < 2 ^ 31 }
    requires kept { AreKept known.old pool.now by_text.old.items }
    ensures known { OnOk result (known.new ≡ with_text known.old (literal_text (utf8_at pool.now index))) }
    ensures kept { OnOk result (AreKept known.new pool.now by_text.new.items) }
    ensures number { IfOk result (λ n. HasNumber known.new (literal_text (utf8_at pool.now index)) n) }
{
    if let Some(number) = number_at(by_text, index) {
        return Ok(number);
    }
    let text = text_at(alloc, pool, index)?;
    let number = known.number(alloc, text)?;
    keep(by_text, index, number);
    Ok(number)
}

/// The number of the literal of an entry, where it is a literal.
fn entry_number(
    alloc: Global,
    known: &mut TextNumbers,
    by_text: &mut Vec<Option<u32>>,
    pool: &[Constant],
    entry: &Constant,
) -> Result<Option<u32>, AllocError>
    requires text { (text : ℕ) → entry.now ≡ str_entry text → IsModifiedUtf8 (utf8_at pool.now text) }
    requires room { length known.old < 2 ^ 31 }
    requires kept { AreKept known.old pool.now by_text.old.items }
    ensures known { OnOk result (known.new ≡ with_literal known.old (literal_in pool.now entry.now)) }
    ensures kept { OnOk result (AreKept known.new pool.now by_text.new.items) }
    ensures number { IfOk result (λ n. IsLiteralNumber known.new (literal_in pool.now entry.now) n) }
{
    match entry {
        Constant::Str(text) => Ok(Some(text_number(alloc, known, by_text, pool, *text)?)),
        _ => Ok(None),
    }
}

/// The numbers of the literals of a file by their indices. Each Utf8 entry is decoded once at most.
pub fn file_numbers(
    alloc: Global,
    known: &mut TextNumbers,
    pool: &[Constant],
) -> Result<Rows<Option<u32>>, AllocError>
    requires texts { HasTexts pool.now }
    requires few { length pool.now < 2 ^ 16 }
    requires room { length known.old < 2 ^ 30 }
    ensures known { OnOk result (known.new ≡ fold with_text known.old (filter_map (literal_in pool.now) pool.now)) }
    ensures few { OnOk result (length known.new ≤ length known.old + length pool.now) }
    ensures numbers { IfOk result (λ numbers. NumberLiterals known.new pool.now (length pool.now) numbers) }
{
    let mut by_text = no_numbers(alloc, pool.len())?;
    let mut numbers = Vec::new(alloc);
    for entry in pool {
        numbers.push(entry_number(alloc, known, &mut by_text, pool, entry)?)?;
    }
    Ok(Rows::from_vec(numbers))
}
