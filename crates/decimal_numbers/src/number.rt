//! Numbers in decimal digits.

ghost use Rattle.std.specs.Prelude.{◌≡◌, ◌<◌, ◌≤◌, ◌+◌, ◌&&◌, ◌*◌, pos, negsuc, ◌≤ℤ◌, ◌^◌, None, Some, IfSome, nat_le, if◌then◌else◌, option_map};
ghost use Rattle.std.specs.Option.{option_and_then};
ghost use Rattle.decimal_numbers.specs.Numbers.{is_digit, are_digits, digits_value, has_no_leading_zero, number_up_to, negative, integer_up_to};

/// The number of some digits, if it is at most a limit.
fn digits_up_to(limit: u64, bytes: &[u8]) -> Option<u64>
    ensures value { result ≡ (if are_digits bytes.now && nat_le (digits_value 0 bytes.now) limit then Some (digits_value 0 bytes.now) else None) }
    ensures bound { IfSome result (λ number. number ≤ limit) }
{
    let mut value: u128 = 0;
    for byte in bytes {
        if !byte.is_ascii_digit() {
            return None;
        }
        value = value * 10 + u128::from(*byte - b'0');
        if value > u128::from(limit) {
            return None;
        }
    }
    Some(value as u64)
}

fn has_no_leading_zero(bytes: &[u8]) -> bool
    ensures { result ≡ has_no_leading_zero bytes.now }
{
    match bytes {
        [] => false,
        [_] => true,
        [first, ..] => *first != b'0',
    }
}

/// The number that bytes are, if it is at most a limit.
pub fn number_up_to(limit: u64, bytes: &[u8]) -> Option<u64>
    ensures value { result ≡ number_up_to limit bytes.now }
    ensures bound { IfSome result (λ number. number ≤ limit) }
{
    if has_no_leading_zero(bytes) {
        digits_up_to(limit, bytes)
    } else {
        None
    }
}

/// The number below zero whose digits follow the sign.
fn negative(number: u64) -> Option<i64>
    requires { number ≤ 2 ^ 63 }
    ensures { result ≡ negative number }
{
    if number == 0 {
        None
    } else {
        Some(-1 - (number - 1) as i64)
    }
}

/// The number that bytes are, with its sign: up to a limit, and down to one less than the limit's negative.
pub fn integer_up_to(limit: u64, bytes: &[u8]) -> Option<i64>
    requires { limit < 2 ^ 63 }
    ensures value { result ≡ integer_up_to limit bytes.now }
    ensures bound { IfSome result (λ number. (negsuc limit ≤ℤ number) × (number ≤ℤ pos limit)) }
{
    let (first, rest) = bytes.split_first()?;
    if *first == b'-' {
        negative(number_up_to(limit + 1, rest)?)
    } else {
        Some(number_up_to(limit, bytes)? as i64)
    }
}
