//! The first line of a journal, and the last.

ghost use Rattle.std.specs.Prelude.{◌≡◌};
ghost use Rattle.decimal_numbers.specs.Numbers.{are_digits, has_no_leading_zero};
ghost use Rattle.trace_journal.specs.Parsing as spec;

use crate::cut::cut_word;
use decimal_numbers::number_up_to;

/// What the first line of a text is.
#[derive(Clone, Copy)]
pub enum Head {
    /// It names a version that is read.
    Known(u8),
    /// It names another version.
    Other,
    /// It isn't the first line of a journal.
    Wrong,
}

#[tactic(auto, using(crate::proofs::NumberLemmas::not_digits, crate::proofs::NumberLemmas::more_digits))]
fn are_digits(bytes: &[u8]) -> bool
    ensures { result ≡ are_digits bytes.now }
{
    for byte in bytes {
        if !byte.is_ascii_digit() {
            return false;
        }
    }
    true
}

fn has_no_leading_zero(bytes: &[u8]) -> bool
    ensures { result ≡ has_no_leading_zero bytes.now }
{
    match bytes {
        [] => false,
        [_] => true,
        [first, ..] => *first != b'0',
    }
}

// The version that a first line names.
fn version_of(number: &[u8]) -> Head
    ensures { result ≡ spec.version_at number.now }
{
    if number == b"1".as_slice() {
        Head::Known(1)
    } else if number == b"2".as_slice() {
        Head::Known(2)
    } else if has_no_leading_zero(number) && are_digits(number) {
        Head::Other
    } else {
        Head::Wrong
    }
}

/// What the first line of a text is.
pub fn head_of(line: &[u8]) -> Head
    ensures { result ≡ spec.head_at (spec.cut line.now) }
{
    let first = cut_word(line);
    match first.rest {
        Some(number) if first.word == b"jrev-trace".as_slice() => version_of(number),
        _ => Head::Wrong,
    }
}

/// Whether a line is the last one of a journal with this number of events.
pub fn is_end(line: &[u8], events: u32) -> bool
    ensures { result ≡ spec.ends_at events (spec.cut line.now) }
{
    let first = cut_word(line);
    match first.rest {
        Some(number) if first.word == b"end".as_slice() => {
            match number_up_to(4_294_967_295, number) {
                Some(number) => number == u64::from(events),
                None => false,
            }
        }
        _ => false,
    }
}
