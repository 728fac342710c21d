//! Modified UTF-8 (JVMS 4.4.7).

ghost use Rattle.std.specs.Prelude.{◌≡◌, ◌↔◌, ℕ, List, None, Some, IsTrue, IfOk, MatchOption};
ghost use Rattle.class_names.specs.ModifiedUtf8.{IsModifiedUtf8, IsTextOf, is_continuation, is_high, is_low, pair_of, alone};
ghost use Rattle.class_names.specs.ReadingText.{unit_at, character_at};

use rows::Text;
use std::alloc::{AllocError, Global};

/// Whether a byte goes on with a form of several bytes.
fn is_continuation(byte: u8) -> bool
    ensures { result ≡ is_continuation byte }
{
    matches!(byte, 0x80..=0xbf)
}

/// The UTF-16 code unit of the form at the front, and what comes after it.
fn next_unit(bytes: &[u8]) -> Option<(u16, &[u8])>
    ensures { MatchOption result (unit_at bytes.now ≡ None) (λ x. unit_at bytes.now ≡ Some (x.0, x.1.now)) }
{
    let (first, rest) = bytes.split_first()?;
    if matches!(*first, 0x01..=0x7f) {
        return Some((u16::from(*first), rest));
    }
    let (second, rest) = rest.split_first()?;
    if !is_continuation(*second) {
        return None;
    }
    if matches!(*first, 0xc0..=0xdf) {
        let unit = u16::from(*first % 32) * 64 + u16::from(*second % 64);
        return Some((unit, rest));
    }
    let (third, rest) = rest.split_first()?;
    if !matches!(*first, 0xe0..=0xef) || !is_continuation(*third) {
        return None;
    }
    let unit = u16::from(*first % 16) * 4096
        + u16::from(*second % 64) * 64
        + u16::from(*third % 64);
    Some((unit, rest))
}

/// Whether bytes are modified UTF-8: a list of the forms `0xxxxxxx` other than 0, `110xxxxx 10xxxxxx` and
/// `1110xxxx 10xxxxxx 10xxxxxx` (JVMS 4.4.7). A form may be longer than its code unit needs.
pub fn is_modified_utf8(bytes: &[u8]) -> bool
    ensures { IsTrue result ↔ IsModifiedUtf8 bytes.now }
{
    let mut rest = bytes;
    while let Some((_, after)) = next_unit(rest) {
        rest = after;
    }
    rest.is_empty()
}

fn is_high_surrogate(unit: u16) -> bool
    ensures { result ≡ is_high unit }
{
    matches!(unit, 0xd800..=0xdbff)
}

fn is_low_surrogate(unit: u16) -> bool
    ensures { result ≡ is_low unit }
{
    matches!(unit, 0xdc00..=0xdfff)
}

/// The character of a surrogate pair.
fn paired(high: u16, low: u16) -> char
    requires high { IsTrue (is_high high) }
    requires low { IsTrue (is_low low) }
    ensures { result ≡ pair_of high low }
{
    let code = 0x1_0000 + (u32::from(high) - 0xd800) * 0x400 + (u32::from(low) - 0xdc00);
    char::from_u32(code).unwrap_or('?')
}

/// The character of a code unit that is in no pair: `?` for a surrogate.
fn alone(unit: u16) -> char
    ensures { result ≡ alone unit }
{
    char::from_u32(u32::from(unit)).unwrap_or('?')
}

/// The character at the front, and what comes after it.
#[tactic(auto, unfolding(crate::specs::ReadingText::character_at))]
fn next_character(bytes: &[u8]) -> Option<(char, &[u8])>
    ensures { MatchOption result (character_at bytes.now ≡ None) (λ x. character_at bytes.now ≡ Some (x.0, x.1.now)) }
{
    let (unit, rest) = next_unit(bytes)?;
    if is_high_surrogate(unit) {
        if let Some((low, after)) = next_unit(rest) {
            if is_low_surrogate(low) {
                return Some((paired(unit, low), after));
            }
        }
    }
    Some((alone(unit), rest))
}

/// The text that modified UTF-8 stands for (JVMS 4.4.7), as UTF-8: `C0 80` is the character 0, a pair of
/// surrogates is its character, and a surrogate in no pair is `?`. Fails only where memory runs out.
pub fn decode_text(alloc: Global, bytes: &[u8]) -> Result<Text, AllocError>
    requires { IsModifiedUtf8 bytes.now }
    ensures found { IfOk result (λ text. IsTextOf bytes.now text) }
    // There is one such text.
    ensures only { (text : List ℕ) → IsTextOf bytes.now text → IfOk result (λ read. read ≡ text) }
{
    let mut text = String::new(alloc);
    let mut rest = bytes;
    while let Some((character, after)) = next_character(rest) {
        text.push(character)?;
        rest = after;
    }
    Ok(Text::from_string(text))
}
