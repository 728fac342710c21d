//! A small class file that the tests read: the bytes of the class One.

use std::alloc::{AllocError, Global};

/// `class One`, a class with one method that prints a sum, as an assembler made it; `javap -v` shows what is
/// in it.
static PARTS: [&[u8]; 5] = [
    b"\xca\xfe\xba\xbe\0\0\0\x34\0\x14\x01\0\x03One\x07\0\x01\x01\0\x10java/lang/Object\x07\0\x03",
    b"\x01\0\x04main\x01\0\x16([Ljava/lang/String;)V\x01\0\x04Code\x01\0\x10java/lang/System\x07\0\x08",
    b"\x01\0\x03out\x01\0\x15Ljava/io/PrintStream;\x0c\0\x0a\0\x0b\x09\0\x09\0\x0c\x01\0\x13java/io/PrintStream",
    b"\x07\0\x0e\x01\0\x07println\x01\0\x04(I)V\x0c\0\x10\0\x11\x0a\0\x0f\0\x12\0\x21\0\x02\0\x04\0\0\0\0\0\x01",
    b"\0\x09\0\x05\0\x06\0\x01\0\x07\0\0\0\x16\0\x03\0\x01\0\0\0\x0a\xb2\0\x0d\x05\x06\x60\xb6\0\x13\xb1\0\0\0\0\0\0",
];

/// The bytes of the class One.
pub fn one(alloc: Global) -> Result<Vec<u8>, AllocError> {
    let mut bytes = Vec::new(alloc);
    for part in PARTS {
        bytes.extend_from_slice(part)?;
    }
    Ok(bytes)
}

/// The code of its method.
pub static CODE: &[u8] = b"\xb2\0\x0d\x05\x06\x60\xb6\0\x13\xb1";
