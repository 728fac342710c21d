//! Tests of what is at an index of a constant pool.

use crate::pool::pool;
use class_pool::{class_name_at, name_and_type_at, reference_at, utf8_at};
use class_read::Constant;
use std::test::Fail;

/// An index of the pool, and what is there: a text, the name of a class, a name and a type, or a class with a name
/// and a type.
type Case = (u16, &'static [&'static [u8]]);

static CASES: [Case; 12] = [
    (0, &[]),
    (1, &[b"A"]),
    (2, &[b"A"]),
    (4, &[b"(IJ)V"]),
    (5, &[b"m", b"(IJ)V"]),
    (6, &[b"A", b"m", b"(IJ)V"]),
    (7, &[b"A", b"m", b"(IJ)V"]),
    (8, &[b"A", b"m", b"(IJ)V"]),
    (9, &[]),
    (14, &[b"[I"]),
    (17, &[b"A", b"<init>", b"(IJ)V"]),
    (24, &[]),
];

fn is_only(found: Option<&[u8]>, texts: &[&[u8]]) -> bool {
    match (found, texts) {
        (Some(found), [text]) => found == *text,
        _ => false,
    }
}

fn is_member(pool: &[Constant], index: u16, texts: &[&[u8]]) -> bool {
    match (
        name_and_type_at(pool, index),
        reference_at(pool, index),
        texts,
    ) {
        (Some((name, descriptor)), None, [first, second]) => {
            name == *first && descriptor == *second
        }
        (None, Some(found), [class, name, descriptor]) => {
            found.class == *class && found.name == *name && found.descriptor == *descriptor
        }
        (None, None, []) => utf8_at(pool, index).is_none() && class_name_at(pool, index).is_none(),
        _ => false,
    }
}

#[test]
fn what_stands_at_an_index(rt: HostRuntime) -> Result<(), Fail> {
    let pool = pool(rt.alloc())?;
    let pool = pool.as_slice();
    for (index, texts) in &CASES {
        assert!(rt;
            is_only(utf8_at(pool, *index), texts)
                || is_only(class_name_at(pool, *index), texts)
                || is_member(pool, *index, texts)
        );
    }
    Ok(())
}
