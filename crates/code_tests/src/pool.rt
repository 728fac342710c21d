//! The constant pool of the tests.

use class_read::Constant;
use rows::Bytes;
use std::alloc::{AllocError, Global};

/// By index from 0: tag, indices and text of each entry.
const POOL: [(u8, u16, u16, &[u8]); 24] = [
    (0, 0, 0, b""),
    (1, 0, 0, b"A"),
    (7, 1, 0, b""),
    (1, 0, 0, b"m"),
    (1, 0, 0, b"(IJ)V"),
    (12, 3, 4, b""),
    (10, 2, 5, b""),
    (11, 2, 5, b""),
    (9, 2, 5, b""),
    (3, 0, 0, b""),
    (5, 0, 0, b""),
    (0, 0, 0, b""),
    (8, 1, 0, b""),
    (1, 0, 0, b"[I"),
    (7, 13, 0, b""),
    (1, 0, 0, b"<init>"),
    (12, 15, 4, b""),
    (10, 2, 16, b""),
    (11, 2, 16, b""),
    (1, 0, 0, b"<clinit>"),
    (12, 19, 4, b""),
    (10, 2, 20, b""),
    (1, 0, 0, &[b'['; 255]),
    (7, 22, 0, b""),
];

fn entry(alloc: Global, row: (u8, u16, u16, &[u8])) -> Result<Constant, AllocError> {
    let (tag, first, second, text) = row;
    Ok(match tag {
        1 => Constant::Utf8(Bytes::from_slice(alloc, text)?),
        3 => Constant::Integer(7),
        5 => Constant::Long(9),
        7 => Constant::Class(first),
        8 => Constant::Str(first),
        9 => Constant::Field(first, second),
        10 => Constant::Method(first, second),
        11 => Constant::IfaceMethod(first, second),
        12 => Constant::Pair(first, second),
        _ => Constant::Gap,
    })
}

/// The pool of the tests.
pub fn pool(alloc: Global) -> Result<Vec<Constant>, AllocError> {
    let mut pool = Vec::new(alloc);
    for row in &POOL {
        pool.push(entry(alloc, *row)?)?;
    }
    Ok(pool)
}
