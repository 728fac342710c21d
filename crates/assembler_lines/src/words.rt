//! Splitting a line into words.

ghost use Rattle.std.specs.Prelude.{◌≡◌, ◌≢◌, ◌≤◌, ℕ, List, ◌∷◌, MatchOption, length, take, drop, IfOk, MatchResult};
ghost use Rattle.std.specs.List.{prefix_len};
ghost use Rattle.assembler_lines.specs.declared.word.Word.{Word};
ghost use Rattle.assembler_lines.specs.declared.word.Word.TheVariants.{Plain};
ghost use Rattle.assembler_lines.specs.declared.word.LineRefusal.TheVariants.{NoMemory};
ghost use Rattle.class_names.specs.ShortestForms.{encoded};
ghost use Rattle.assembler_lines.specs.Words.{is_plain_byte, AreWords};
ghost use Rattle.assembler_lines.specs.ReadingWords.{IsQuotedBefore, StandsBefore, IsEnd};

use crate::piece::next_piece;
use crate::word::{LineRefusal, Word};
use class_names::put_unit;
use rows::{Bytes, Rows};
use std::alloc::{AllocError, Global};

/// What comes after a byte at the front.
fn after_byte(byte: u8, bytes: &[u8]) -> Option<&[u8]>
    ensures { MatchOption result ((rest : List ℕ) → bytes.now ≢ byte ∷ rest) (λ rest. bytes.now ≡ byte ∷ rest.now) }
{
    let (first, rest) = bytes.split_first()?;
    if *first == byte { Some(rest) } else { None }
}

/// The code units of a quoted text whose first quote is read, and what comes after its last one.
fn quoted_text(alloc: Global, bytes: &[u8]) -> Result<(Rows<u16>, &[u8]), LineRefusal>
    ensures found { IfOk result (λ x. IsQuotedBefore bytes.now x.0 x.1.now) }
    ensures only { (units rest : List ℕ) → IsQuotedBefore bytes.now units rest →
        MatchResult result (λ x. (x.0 ≡ units) × (x.1.now ≡ rest)) (λ refusal. refusal ≡ NoMemory) }
{
    let mut units = Vec::new(alloc);
    let mut rest = bytes;
    while let Some((unit, after)) = next_piece(rest) {
        units.push(unit)?;
        rest = after;
    }
    match after_byte(b'"', rest) {
        Some(after) => Ok((Rows::from_vec(units), after)),
        None => Err(LineRefusal::Malformed),
    }
}

fn is_plain_byte(byte: u8) -> bool
    ensures { result ≡ is_plain_byte byte }
{
    byte <= 127 && !matches!(byte, b' ' | b'\n')
}

/// How many characters at the front are those of a plain word.
fn plain_len(bytes: &[u8]) -> usize
    ensures value { result ≡ prefix_len is_plain_byte bytes.now }
    ensures bound { result ≤ length bytes.now }
{
    bytes
        .iter()
        .take_while(|byte| is_plain_byte(**byte))
        .count()
}

/// The text of a plain word.
fn plain_text(alloc: Global, word: &[u8]) -> Result<Bytes, AllocError>
    ensures { IfOk result (λ text. text ≡ encoded word.now) }
{
    let mut text = Vec::new(alloc);
    for byte in word {
        put_unit(&mut text, u16::from(*byte))?;
    }
    Ok(Bytes::from_vec(text))
}

/// The quoted text whose first quote is read, and what comes after it.
fn quoted_word(alloc: Global, bytes: &[u8]) -> Result<(Word, &[u8]), LineRefusal>
    ensures found { IfOk result (λ x. StandsBefore (34 ∷ bytes.now) x.0 x.1.now) }
    ensures only { (word : Word) (rest : List ℕ) → StandsBefore (34 ∷ bytes.now) word rest →
        MatchResult result (λ x. (x.0 ≡ word) × (x.1.now ≡ rest)) (λ refusal. refusal ≡ NoMemory) }
{
    let (units, after) = quoted_text(alloc, bytes)?;
    Ok((Word::Quoted(units), after))
}

/// The plain word at the front, and what comes after it.
fn plain_word(alloc: Global, bytes: &[u8]) -> Result<(Word, &[u8]), LineRefusal>
    requires { (rest : List ℕ) → bytes.now ≢ 34 ∷ rest }
    ensures found { IfOk result (λ x. StandsBefore bytes.now x.0 x.1.now) }
    ensures only { (word : Word) (rest : List ℕ) → StandsBefore bytes.now word rest → IsEnd rest →
        MatchResult result (λ x. (x.0 ≡ word) × (x.1.now ≡ rest)) (λ refusal. refusal ≡ NoMemory) }
{
    let len = plain_len(bytes);
    if len == 0 {
        return Err(LineRefusal::Malformed);
    }
    let (word, rest) = bytes.split_at(len);
    let text = plain_text(alloc, word)?;
    Ok((Word::Plain(text), rest))
}

/// The word at the front, and what comes after it.
fn next_word(alloc: Global, bytes: &[u8]) -> Result<(Word, &[u8]), LineRefusal>
    ensures found { IfOk result (λ x. StandsBefore bytes.now x.0 x.1.now) }
    ensures only { (word : Word) (rest : List ℕ) → StandsBefore bytes.now word rest → IsEnd rest →
        MatchResult result (λ x. (x.0 ≡ word) × (x.1.now ≡ rest)) (λ refusal. refusal ≡ NoMemory) }
{
    match after_byte(b'"', bytes) {
        Some(rest) => quoted_word(alloc, rest),
        None => plain_word(alloc, bytes),
    }
}

/// The words of a line.
pub(crate) fn words_of(alloc: Global, text: &[u8]) -> Result<Vec<Word>, LineRefusal>
    ensures found { IfOk result (λ words. AreWords text.now words.items) }
    ensures only { (words : List Word) → AreWords text.now words →
        MatchResult result (λ found. found.items ≡ words) (λ refusal. refusal ≡ NoMemory) }
{
    let mut words = Vec::new(alloc);
    let mut rest = text;
    loop {
        let (word, after) = next_word(alloc, rest)?;
        words.push(word)?;
        if after.is_empty() {
            return Ok(words);
        }
        match after_byte(b' ', after) {
            Some(behind) => rest = behind,
            None => return Err(LineRefusal::Malformed),
        }
    }
}
