//! Pieces of a quoted text.

ghost use Rattle.std.specs.Prelude.{◌≡◌, ◌<◌, None, Some, IfSome, MatchOption};
ghost use Rattle.assembler_lines.specs.Piece.{stands_for_itself, hex_value};
ghost use Rattle.assembler_lines.specs.ReadingPiece.{hex_digits, escape_at, piece_at};

/// Whether a character of a quoted text stands for itself.
fn stands_for_itself(byte: u8) -> bool
    ensures { result ≡ stands_for_itself byte }
{
    byte <= 127 && !matches!(byte, b'\n' | b'"' | b'\\')
}

/// What a hexadecimal digit is worth.
fn hex_value(byte: u8) -> Option<u16>
    ensures value { result ≡ hex_value byte }
    ensures bound { IfSome result (λ value. value < 16) }
{
    match byte {
        b'0'..=b'9' => Some(u16::from(byte - b'0')),
        b'A'..=b'F' => Some(u16::from(byte - 55)),
        b'a'..=b'f' => Some(u16::from(byte - 87)),
        _ => None,
    }
}

/// The code unit of four hexadecimal digits, and what comes after them.
fn hex_digits(bytes: &[u8]) -> Option<(u16, &[u8])>
    ensures { MatchOption result (hex_digits bytes.now ≡ None) (λ x. hex_digits bytes.now ≡ Some (x.0, x.1.now)) }
{
    let (first, rest) = bytes.split_first()?;
    let (second, rest) = rest.split_first()?;
    let (third, rest) = rest.split_first()?;
    let (fourth, rest) = rest.split_first()?;
    let first = hex_value(*first)?;
    let second = hex_value(*second)?;
    let third = hex_value(*third)?;
    let fourth = hex_value(*fourth)?;
    Some((first * 4096 + second * 256 + third * 16 + fourth, rest))
}

/// The code unit of an escape whose backslash is read, and what comes after the escape.
fn escape(bytes: &[u8]) -> Option<(u16, &[u8])>
    ensures { MatchOption result (escape_at bytes.now ≡ None) (λ x. escape_at bytes.now ≡ Some (x.0, x.1.now)) }
{
    let (kind, rest) = bytes.split_first()?;
    match *kind {
        b'u' => hex_digits(rest),
        b'n' => Some((10, rest)),
        b'"' | b'\\' => Some((u16::from(*kind), rest)),
        _ => None,
    }
}

/// The code unit of the piece at the front, and what comes after the piece.
pub(crate) fn next_piece(bytes: &[u8]) -> Option<(u16, &[u8])>
    ensures { MatchOption result (piece_at bytes.now ≡ None) (λ x. piece_at bytes.now ≡ Some (x.0, x.1.now)) }
{
    let (first, rest) = bytes.split_first()?;
    if stands_for_itself(*first) {
        Some((u16::from(*first), rest))
    } else if *first == b'\\' {
        escape(rest)
    } else {
        None
    }
}
