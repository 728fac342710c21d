//! Numbers in a range.

ghost use Rattle.std.specs.Prelude.{◌≡◌, ◌≤◌, IfSome};
ghost use Rattle.command_words.specs.Options.{number_between};

use decimal_numbers::number_up_to;

/// The number from a least to a greatest one that a text is.
pub(crate) fn number_between(low: u64, high: u64, text: &[u8]) -> Option<u64>
    ensures value { result ≡ number_between low high text.now }
    ensures bound { IfSome result (λ n. n ≤ high) }
{
    number_up_to(high, text).filter(|n| low <= *n)
}
