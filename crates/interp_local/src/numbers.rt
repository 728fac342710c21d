//! Numbers in words (JVMS 2.11.3, 2.11.4).

ghost use Rattle.std.specs.Prelude.{◌≡◌};
ghost use Rattle.std.specs.Int.{w32, w64};
ghost use Rattle.java_rows.specs.Numbers.{long_of, result_of, negative_of, int_shifted, long_shifted, holds, is_less, compared, byte_of, char_of, short_of, widened, long_words};
ghost use Rattle.interp_local.specs.Effects.{words_of};

use crate::effect::Words;
use instructions::{Arithmetic, Condition, Shift};

/// What an operation makes of two ints, wrapped (JVMS 6.5 iadd, idiv, iand); `None` of a zero divisor.
#[inline(always)]
pub fn int_result(op: Arithmetic, a: u32, b: u32) -> Option<u32>
    ensures { result ≡ result_of w32 op a b }
{
    let (x, y) = (a.cast_signed(), b.cast_signed());
    match op {
        Arithmetic::Add => Some(x.wrapping_add(y).cast_unsigned()),
        Arithmetic::Subtract => Some(x.wrapping_sub(y).cast_unsigned()),
        Arithmetic::Multiply => Some(x.wrapping_mul(y).cast_unsigned()),
        Arithmetic::Divide if b == 0 => None,
        Arithmetic::Divide => Some(x.wrapping_div(y).cast_unsigned()),
        Arithmetic::Remainder if b == 0 => None,
        Arithmetic::Remainder => Some(x.wrapping_rem(y).cast_unsigned()),
        Arithmetic::And => Some(a & b),
        Arithmetic::Or => Some(a | b),
        Arithmetic::Xor => Some(a ^ b),
    }
}

/// What an operation makes of two longs, wrapped (JVMS 6.5 ladd, ldiv, land); `None` of a zero divisor.
#[inline(always)]
pub fn long_result(op: Arithmetic, a: u64, b: u64) -> Option<u64>
    ensures { result ≡ result_of w64 op a b }
{
    let (x, y) = (a.cast_signed(), b.cast_signed());
    match op {
        Arithmetic::Add => Some(x.wrapping_add(y).cast_unsigned()),
        Arithmetic::Subtract => Some(x.wrapping_sub(y).cast_unsigned()),
        Arithmetic::Multiply => Some(x.wrapping_mul(y).cast_unsigned()),
        Arithmetic::Divide if b == 0 => None,
        Arithmetic::Divide => Some(x.wrapping_div(y).cast_unsigned()),
        Arithmetic::Remainder if b == 0 => None,
        Arithmetic::Remainder => Some(x.wrapping_rem(y).cast_unsigned()),
        Arithmetic::And => Some(a & b),
        Arithmetic::Or => Some(a | b),
        Arithmetic::Xor => Some(a ^ b),
    }
}

/// The negative of an int, wrapped (JVMS 6.5 ineg).
#[inline(always)]
pub fn int_negative(a: u32) -> u32
    ensures { result ≡ negative_of w32 a }
{
    a.cast_signed().wrapping_neg().cast_unsigned()
}

/// The negative of a long, wrapped (JVMS 6.5 lneg).
#[inline(always)]
pub fn long_negative(a: u64) -> u64
    ensures { result ≡ negative_of w64 a }
{
    a.cast_signed().wrapping_neg().cast_unsigned()
}

/// An int shifted by the low 5 bits of another one (JVMS 6.5 ishl, ishr, iushr).
#[inline(always)]
pub fn shift_int(op: Shift, a: u32, by: u32) -> u32
    ensures { result ≡ int_shifted op a by }
{
    match op {
        Shift::Left => a.cast_signed().wrapping_shl(by).cast_unsigned(),
        Shift::Right => a.cast_signed().wrapping_shr(by).cast_unsigned(),
        Shift::UnsignedRight => a.wrapping_shr(by),
    }
}

/// A long shifted by the low 6 bits of an int (JVMS 6.5 lshl, lshr, lushr).
#[inline(always)]
pub fn shift_long(op: Shift, a: u64, by: u32) -> u64
    ensures { result ≡ long_shifted op a by }
{
    match op {
        Shift::Left => a.cast_signed().wrapping_shl(by).cast_unsigned(),
        Shift::Right => a.cast_signed().wrapping_shr(by).cast_unsigned(),
        Shift::UnsignedRight => a.wrapping_shr(by),
    }
}

#[inline(always)]
fn less(a: u32, b: u32) -> bool
    ensures { result ≡ is_less a b }
{
    a.cast_signed() < b.cast_signed()
}

/// Whether two ints compare in a way.
#[inline(always)]
pub fn compare(condition: Condition, a: u32, b: u32) -> bool
    ensures { result ≡ holds condition a b }
{
    match condition {
        Condition::Equal => a == b,
        Condition::NotEqual => a != b,
        Condition::Less => less(a, b),
        Condition::GreaterOrEqual => !less(a, b),
        Condition::Greater => less(b, a),
        Condition::LessOrEqual => !less(b, a),
    }
}

/// The int that says how two longs compare.
#[inline(always)]
pub fn compare_longs(a: u64, b: u64) -> u32
    ensures { result ≡ compared a b }
{
    if a == b {
        0
    } else if a.cast_signed() < b.cast_signed() {
        u32::MAX
    } else {
        1
    }
}

/// The low 8 bits of an int as a byte, widened again (JVMS 6.5 i2b).
#[inline(always)]
pub fn to_byte(a: u32) -> u32
    ensures { result ≡ byte_of a }
{
    let byte = (a % 0x100) as u8;
    i32::from(byte.cast_signed()).cast_unsigned()
}

/// The low 16 bits of an int (JVMS 6.5 i2c).
#[inline(always)]
pub fn to_char(a: u32) -> u32
    ensures { result ≡ char_of a }
{
    a % 0x1_0000
}

/// The low 16 bits of an int as a short, widened again (JVMS 6.5 i2s).
#[inline(always)]
pub fn to_short(a: u32) -> u32
    ensures { result ≡ short_of a }
{
    let short = (a % 0x1_0000) as u16;
    i32::from(short.cast_signed()).cast_unsigned()
}

/// The long of an int (JVMS 6.5 i2l).
#[inline(always)]
pub fn to_long(a: u32) -> u64
    ensures { result ≡ widened a }
{
    i64::from(a.cast_signed()).cast_unsigned()
}

/// A long by its two halves.
#[inline(always)]
pub fn long(low: u32, high: u32) -> u64
    ensures { result ≡ long_of low high }
{
    u64::from(low) + u64::from(high) * 0x1_0000_0000
}

/// The words of a long, the high half on top.
#[inline(always)]
pub fn halves(number: u64) -> Words
    ensures { words_of result ≡ long_words number }
{
    let high = (number / 0x1_0000_0000) as u32;
    let low = (number % 0x1_0000_0000) as u32;
    Words::Two(high, low)
}
