//! The words at the front of others.

ghost use Rattle.std.specs.Prelude.{◌≡◌, ◌<◌, ◌≤◌, ◌^◌, pos, negsuc, ◌≤ℤ◌, None, Some, IfOk, MatchOption};
ghost use Rattle.std.specs.Str.{bytes_eq};
ghost use Rattle.decimal_numbers.specs.Numbers.{number_up_to, integer_up_to};
ghost use Rattle.assembler_lines.specs.Front.{Gives, plain_at, only_plain, only_word, behind};

use crate::word::{LineRefusal, Word};

pub(crate) fn is_text(bytes: &[u8], text: &[u8]) -> bool
    ensures { result ≡ bytes_eq bytes.now text.now }
{
    bytes == text
}

/// The plain word at the front, and the words after it.
pub(crate) fn first_plain(words: &[Word]) -> Result<(&[u8], &[Word]), LineRefusal>
    ensures { Gives (λ x. (x.0.now, x.1.now)) result (plain_at words.now) }
{
    match words.split_first() {
        Some((Word::Plain(name), rest)) => Ok((name.as_slice(), rest)),
        _ => Err(LineRefusal::Malformed),
    }
}

/// The plain word, where it is the only word.
pub(crate) fn only_plain(words: &[Word]) -> Result<&[u8], LineRefusal>
    ensures { Gives (λ name. name.now) result (only_plain words.now) }
{
    let (name, rest) = first_plain(words)?;
    if rest.is_empty() {
        Ok(name)
    } else {
        Err(LineRefusal::Malformed)
    }
}

/// The word, where it is the only one.
pub(crate) fn only_word(words: &[Word]) -> Result<&Word, LineRefusal>
    ensures { Gives (λ word. word.now) result (only_word words.now) }
{
    match words {
        [word] => Ok(word),
        _ => Err(LineRefusal::Malformed),
    }
}

/// The words after one that is known.
pub(crate) fn behind<'a>(text: &[u8], words: &'a [Word]) -> Result<&'a [Word], LineRefusal>
    ensures { Gives (λ rest. rest.now) result (behind text.now words.now) }
{
    let (first, rest) = first_plain(words)?;
    if is_text(first, text) {
        Ok(rest)
    } else {
        Err(LineRefusal::Malformed)
    }
}

/// The number that a word is, if it is at most a limit.
pub(crate) fn number(limit: u64, written: &[u8]) -> Result<u64, LineRefusal>
    ensures value { Gives (λ number. number) result (number_up_to limit written.now) }
    ensures bound { IfOk result (λ number. number ≤ limit) }
{
    match decimal_numbers::number_up_to(limit, written) {
        Some(number) => Ok(number),
        None => Err(LineRefusal::Malformed),
    }
}

/// The number that a word is, with its sign: up to a limit, and down to one less than the limit's negative.
pub(crate) fn integer(limit: u64, written: &[u8]) -> Result<i64, LineRefusal>
    requires { limit < 2 ^ 63 }
    ensures value { Gives (λ number. number) result (integer_up_to limit written.now) }
    ensures bound { IfOk result (λ number. (negsuc limit ≤ℤ number) × (number ≤ℤ pos limit)) }
{
    match decimal_numbers::integer_up_to(limit, written) {
        Some(number) => Ok(number),
        None => Err(LineRefusal::Malformed),
    }
}
