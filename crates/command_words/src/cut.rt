//! Texts that are cut at a byte.

ghost use Rattle.std.specs.Prelude.{◌≡◌, ◌==◌, ◌<◌, IfSome, MatchOption, length, position};
ghost use Rattle.command_words.specs.Cut.{cut};

fn place_of(byte: u8, text: &[u8]) -> Option<usize>
    ensures place { result ≡ position (λ b. b == byte) text.now }
    ensures inside { IfSome result (λ at. at < length text.now) }
{
    text.iter().position(|b| *b == byte)
}

/// What comes before the first such byte, and after it.
pub(crate) fn cut(byte: u8, text: &[u8]) -> Option<(&[u8], &[u8])>
    ensures { MatchOption result (cut byte text.now ≡ None) (λ p. cut byte text.now ≡ Some (p.0.now, p.1.now)) }
{
    let at = place_of(byte, text)?;
    Some((&text[..at], &text[at + 1..]))
}
