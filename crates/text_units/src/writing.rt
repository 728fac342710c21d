//! The text of units.

ghost use Rattle.std.specs.Prelude.{◌≡◌, ◌&&◌, ◌∷◌, [], ◌<◌, Some, None, length, if◌then◌else◌, IfOk, MatchOption};
ghost use Rattle.class_names.specs.ModifiedUtf8.{is_high, is_low, pair_of, alone, characters};
ghost use Rattle.text_units.specs.Units.{text_of_units};

use rows::Bytes;
use std::alloc::{AllocError, Global};

/// The character of two units, if they are a high surrogate and a low one.
fn paired(high: u16, low: u16) -> Option<char>
    ensures { result ≡ (if is_high high && is_low low then Some (pair_of high low) else None) }
{
    match (high, low) {
        (0xd800..=0xdbff, 0xdc00..=0xdfff) => {
            let above = (u32::from(high) - 0xd800) * 0x400 + (u32::from(low) - 0xdc00);
            char::from_u32(0x1_0000 + above)
        }
        _ => None,
    }
}

/// The character of a unit that is in no pair.
fn alone(unit: u16) -> char
    ensures { result ≡ alone unit }
{
    char::from_u32(u32::from(unit)).unwrap_or('?')
}

/// The character at the front, and the units after it.
fn next_character(units: &[u16]) -> Option<(char, &[u16])>
    ensures character { MatchOption result (units.now ≡ []) (λ x. characters units.now ≡ x.0 ∷ characters x.1.now) }
    ensures shorter { MatchOption result (units.now ≡ []) (λ x. length x.1.now < length units.now) }
{
    let (unit, rest) = units.split_first()?;
    let Some((low, after)) = rest.split_first() else {
        return Some((alone(*unit), rest));
    };
    match paired(*unit, *low) {
        Some(pair) => Some((pair, after)),
        None => Some((alone(*unit), rest)),
    }
}

/// The text of UTF-16 code units, in UTF-8: a pair of surrogates is one character, and `?` stands for a surrogate in no
/// pair. Fails only where memory runs out.
pub fn text_of_units(alloc: Global, units: &[u16]) -> Result<Bytes, AllocError>
    ensures { IfOk result (λ text. text ≡ text_of_units units.now) }
{
    let mut text = String::new(alloc);
    let mut rest = units;
    while let Some((character, after)) = next_character(rest) {
        text.push(character)?;
        rest = after;
    }
    Ok(Bytes::from_vec(text.into_bytes()))
}
