//! The locals with which a method begins (JVMS 4.10.1.6).

ghost use Rattle.std.specs.Prelude.{◌≡◌};
ghost use Rattle.class_read.specs.MemberRules.{receiver_words};
ghost use Rattle.code_decode.specs.Entry.{HasMethodType, IsEntryCount};

use access_flags::{STATIC, has};
use class_read::{Member, Pool};

/// How many values the receiver of a method is: one, or none where the method is static.
fn receiver_count(flags: u16) -> u16
    ensures { result ≡ receiver_words flags }
{
    if has(flags, STATIC) { 0 } else { 1 }
}

/// How many values a method begins with: its receiver, where it has one, and its parameters.
pub fn entry_count(pool: &Pool<'_>, method: &Member) -> u16
    requires { HasMethodType pool.now method.now }
    ensures { IsEntryCount pool.now method.now result }
{
    let Some(text) = pool.text_use(method.descriptor) else {
        unreachable!()
    };
    let Some(size) = text.parameters else {
        unreachable!()
    };
    receiver_count(method.flags) + u16::from(size.count)
}
