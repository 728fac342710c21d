//! Words as stores into fields leave them.

ghost use Rattle.std.specs.Prelude.{◌≡◌, length, bytes_eq};
ghost use Rattle.std.specs.Int.{w32, cast_unsigned};
ghost use Rattle.link_rules.specs.Classes.{utf8_at};
ghost use Rattle.link_rules.specs.FixedObjects.{stored_word};

use class_pool::is_utf8_at;
use class_walk::Constant;

/// Whether the Utf8 entry at an index has this text.
fn is_type(pool: &[Constant], descriptor: u16, name: &[u8]) -> bool
    requires { length name.now ≡ 1 }
    ensures { result ≡ bytes_eq (utf8_at pool.now descriptor) name.now }
{
    is_utf8_at(pool, descriptor, name)
}

/// A word as it is in a field of the type at an index: a boolean's low bit, a byte, a char or a short, widened again.
pub fn stored_word(pool: &[Constant], descriptor: u16, word: u32) -> u32
    ensures { result ≡ stored_word (utf8_at pool.now descriptor) word }
{
    if is_type(pool, descriptor, b"Z") {
        word % 2
    } else if is_type(pool, descriptor, b"B") {
        i32::from(((word % 0x100) as u8).cast_signed()).cast_unsigned()
    } else if is_type(pool, descriptor, b"C") {
        word % 0x1_0000
    } else if is_type(pool, descriptor, b"S") {
        i32::from(((word % 0x1_0000) as u16).cast_signed()).cast_unsigned()
    } else {
        word
    }
}
