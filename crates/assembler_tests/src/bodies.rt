//! Tests of method bodies: a Code attribute as javac writes it, labels, and refused lines.

use assembler_bodies::{Body, BodyRefusal, Entry, Labels, Mark, index_of};
use assembler_lines::Room;
use assembler_pool::PoolMaker;
use assembler_text::{Numbered, lines_of};
use rows::Rows;
use std::alloc::Global;

/// A method that divides in a loop: its handler, its instructions, and a full frame at the loop's head and at the
/// handler's.
const LOOP: &[u8] = b"handler start until catch java/lang/ArithmeticException
start:
iconst_0
istore_1
bipush 100
istore_2
iconst_2
istore_3
iconst_3
istore 4
again:
frame int int int int int /
iload_1
iload_2
iload_0
idiv
iadd
istore_1
iinc 0 -1
iload_0
ifgt again
iload_1
until:
ireturn
catch:
frame int / java/lang/ArithmeticException
astore_1
iconst_m1
ireturn";

/// The content of the attribute Code of that method, as `javac --release 8` wrote it.
const CODE: &[u8] = b"\x00\x03\x00\x05\x00\x00\x00\x1c\x03\x3c\x10\x64\x3d\x05\x3e\x06\
    \x36\x04\x1b\x1c\x1a\x6c\x60\x3c\x84\x00\xff\x1a\x9d\xff\xf6\x1b\
    \xac\x4c\x02\xac\x00\x01\x00\x00\x00\x18\x00\x19\x00\x07\x00\x01\
    \x00\x0e\x00\x00\x00\x19\x00\x02\xff\x00\x0a\x00\x05\x01\x01\x01\
    \x01\x01\x00\x00\xff\x00\x0e\x00\x01\x01\x00\x01\x07\x00\x07";

/// Bodies of which the last line is refused, and no other.
const REFUSED: [&[u8]; 9] = [
    b"goto nowhere",
    b"a:\nnop\na:",
    b"frame /\nframe int /",
    b"a:\nhandler a b a any",
    b"frame new:a /",
    b"a:\ntableswitch 0 a b",
    b"end",
    b"super A",
    b"ldc int 254\nldc_w int 255\nldc int 255",
];

fn lines(alloc: Global, text: &[u8]) -> Option<Rows<Numbered>> {
    if text.len() > 1000 {
        return None;
    }
    let text = lines_of(alloc, text).ok()?;
    Some(text.lines)
}

/// Puts ints into the pool.
fn put_ints(pool: &mut PoolMaker, from: i32, to: i32) -> Option<()> {
    for int in from..to {
        let _ = index_of(pool, Entry::Integer(int)).ok()?;
    }
    Some(())
}

/// The content of the attribute Code of a body. In the pool, other entries of the class come before those of the first
/// line, and also between those of the first line and those of the other lines.
fn content(alloc: Global, text: &[u8], before: i32, between: i32) -> Option<Vec<u8>> {
    let lines = lines(alloc, text)?;
    let labels = Labels::of(alloc, lines.as_slice()).ok()?;
    let mut pool = PoolMaker::new(alloc).ok()?;
    let room = Room {
        stack: 3,
        locals: 5,
    };
    let mut body = Body::new(alloc, room);
    put_ints(&mut pool, 0, before)?;
    for line in lines.as_slice() {
        body.line(&mut pool, &labels, line).ok()?;
        put_ints(&mut pool, before, between)?;
    }
    body.finish().ok()
}

#[test]
fn a_body_is_as_javac_writes_it(rt: HostRuntime) {
    let content = content(rt.alloc(), LOOP, 5, 11);
    assert!(rt; content.is_some_and(|content| content.as_slice() == CODE));
}

#[test]
fn an_index_of_ldc_has_one_byte(rt: HostRuntime) {
    let content = content(rt.alloc(), b"ldc int 254\nldc_w int 255", 256, 0);
    let wanted = b"\x00\x03\x00\x05\x00\x00\x00\x05\x12\xff\x13\x01\x00\x00\x00\x00\x00";
    assert!(rt; content.is_some_and(|content| content.as_slice() == wanted.as_slice()));
}

#[test]
fn labels_have_their_marks(rt: HostRuntime) {
    let lines = lines(rt.alloc(), LOOP).unwrap_or(Rows::new(rt.alloc()));
    let labels = Labels::of(rt.alloc(), lines.as_slice());
    assert!(rt;
        labels.is_ok_and(|labels| {
            matches!(
                labels.mark(b"again"),
                Some(Mark {
                    line: 11,
                    offset: 10
                })
            ) && labels.mark(b"nowhere").is_none()
        })
    );
}

/// How many lines of a body are made before the first that is refused, and how many there are.
fn made_lines(alloc: Global, text: &[u8]) -> Option<(usize, usize)> {
    let lines = lines(alloc, text)?;
    let labels = Labels::of(alloc, lines.as_slice()).ok()?;
    let mut pool = PoolMaker::new(alloc).ok()?;
    put_ints(&mut pool, 0, 256)?;
    let room = Room {
        stack: 1,
        locals: 1,
    };
    let mut body = Body::new(alloc, room);
    for (made, line) in lines.as_slice().iter().enumerate() {
        match body.line(&mut pool, &labels, line) {
            Ok(()) => {}
            Err(BodyRefusal::Refused) => return Some((made, lines.len())),
            Err(BodyRefusal::NoMemory) => return None,
        }
    }
    None
}

#[test]
fn lines_without_a_meaning_are_refused(rt: HostRuntime) {
    for text in REFUSED {
        let made = made_lines(rt.alloc(), text);
        assert!(rt; made.is_some_and(|(made, all)| made.saturating_add(1) == all));
    }
}
