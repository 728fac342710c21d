//! Tests of modified UTF-8: which bytes are a text, and what the text is in UTF-8.

use class_names::{decode_text, is_modified_utf8};
use rows::Text;
use std::alloc::Global;

/// Bytes, and the UTF-8 of their text where they are modified UTF-8.
type Case = (&'static [u8], Option<&'static [u8]>);

/// First constants as javac wrote them, and what `getBytes(StandardCharsets.UTF_8)` gives of them.
static CASES: [Case; 16] = [
    (b"a\xc0\x80b", Some(b"a\0b")),
    (b"\xed\xa0\xbd\xed\xb8\x80", Some(b"\xf0\x9f\x98\x80")),
    (b"x\xed\xa0\xbdy", Some(b"x?y")),
    (b"\xed\xb8\x80\xed\xa0\xbd", Some(b"??")),
    (
        b"\xc3\xa9\xe2\x82\xac\xc3\x9f",
        Some(b"\xc3\xa9\xe2\x82\xac\xc3\x9f"),
    ),
    (
        b"\xed\xa0\xbd\xed\xa0\xbd\xed\xb8\x80\xed\xb8\x80",
        Some(b"?\xf0\x9f\x98\x80?"),
    ),
    (b"", Some(b"")),
    (b"\xc1\x81\xe0\x81\x81", Some(b"AA")),
    (b"\0", None),
    (b"\x80", None),
    (b"\xc3", None),
    (b"\xe2\x82", None),
    (b"\xc3)", None),
    (b"\xe2\x82)", None),
    (b"a\xff", None),
    (b"\xf0\x9f\x98\x80", None),
];

fn decoded(alloc: Global, bytes: &[u8]) -> Option<Text> {
    if !is_modified_utf8(bytes) {
        return None;
    }
    decode_text(alloc, bytes).ok()
}

fn is_so(alloc: Global, (bytes, wanted): Case) -> bool {
    match (decoded(alloc, bytes), wanted) {
        (Some(text), Some(wanted)) => text.as_bytes() == wanted,
        (None, None) => true,
        _ => false,
    }
}

#[test]
fn modified_utf8_stands_for_texts(rt: HostRuntime) {
    for case in CASES {
        assert!(rt; is_so(rt.alloc(), case));
    }
}
