//! Tests of taking a class file apart, and of each fault with its place.

use crate::class_one::{CODE, one};
use class_walk::{
    Constant, RawAttribute, RawClass, RawMember, WalkFault, WalkRefusal, code_content, walk,
};
use std::alloc::Global;
use std::test::Fail;

/// What is answered for bytes: whether they are a class, or a fault and its number.
fn answer(alloc: Global, bytes: &[u8]) -> (&'static str, u32) {
    match walk(alloc, bytes) {
        Ok(_) => ("class", 0),
        Err(WalkRefusal::NoMemory) => ("no memory", 0),
        Err(WalkRefusal::Fault(fault)) => match fault {
            WalkFault::TooLong => ("too long", 0),
            WalkFault::Truncated(length) => ("truncated", length),
            WalkFault::Magic => ("magic", 0),
            WalkFault::Version => ("version", 0),
            WalkFault::PoolTag(index) => ("tag", u32::from(index)),
            WalkFault::Trailing(place) => ("trailing", place),
        },
    }
}

type Case = (&'static [u8], &'static str, u32);

/// The last four are small classes of version 50.
static CASES: [Case; 7] = [
    (b"code", "magic", 0),
    (b"\xca\xfe\xba\xbe\0\0\0\x31", "version", 0),
    (b"\xca\xfe\xba\xbe\0\0\0\x35", "version", 0),
    (
        b"\xca\xfe\xba\xbe\0\x03\0\x32\0\0\0\x20\0\x01\0\x02\0\0\0\0\0\0\0\0",
        "tag",
        0,
    ),
    (
        b"\xca\xfe\xba\xbe\0\x03\0\x32\0\x04\x07\0\x02\x01\0\0\x11\0\x20\0\x01\0\x02\0\0\0\0\0\0\0\0",
        "tag",
        3,
    ),
    (
        b"\xca\xfe\xba\xbe\0\x03\0\x32\0\x01\0\x20\0\x01\0\x02\0\0\0\0\0\0\0\0",
        "class",
        0,
    ),
    (
        b"\xca\xfe\xba\xbe\0\x03\0\x32\0\x01\0\x20\0\x01\0\x02\0\0\0\0\0\0\0\0\0",
        "trailing",
        24,
    ),
];

#[test]
fn each_fault_comes_where_its_bytes_are(rt: HostRuntime) -> Result<(), Fail> {
    for (bytes, what, number) in CASES {
        assert!(rt; answer(rt.alloc(), bytes) == (what, number));
    }
    let zeros = vec![in rt.alloc(); 0u8; 1_048_577]?;
    assert!(rt; answer(rt.alloc(), &zeros).0 == "too long");
    assert!(rt; answer(rt.alloc(), &zeros[1..]).0 == "magic");
    Ok(())
}

#[test]
fn a_cut_class_file_is_truncated_at_its_length(rt: HostRuntime) -> Result<(), Fail> {
    let bytes = one(rt.alloc())?;
    for length in 0..244u32 {
        let cut = bytes
            .get(..length as usize)
            .ok_or("the class has 244 bytes")?;
        assert!(rt; answer(rt.alloc(), cut) == ("truncated", length));
    }
    assert!(rt; answer(rt.alloc(), &bytes).0 == "class");
    Ok(())
}

fn has_header(class: &RawClass) -> bool {
    class.minor == 0
        && class.major == 52
        && class.flags == 0x21
        && class.this_class == 2
        && class.super_class == 4
        && class.interfaces.is_empty()
        && class.fields.is_empty()
        && class.attributes.is_empty()
}

fn has_constants(pool: &[Constant]) -> bool {
    pool.len() == 20
        && matches!(pool.first(), Some(Constant::Gap))
        && matches!(pool.get(2), Some(Constant::Class(1)))
        && matches!(pool.get(12), Some(Constant::Pair(10, 11)))
        && matches!(pool.get(13), Some(Constant::Field(9, 12)))
        && matches!(pool.get(19), Some(Constant::Method(15, 18)))
}

fn is_text(constant: Option<&Constant>, wanted: &[u8]) -> bool {
    match constant {
        Some(Constant::Utf8(text)) => text.as_slice() == wanted,
        _ => false,
    }
}

fn is_code(alloc: Global, attribute: &RawAttribute) -> bool {
    match code_content(alloc, attribute.content.as_slice()) {
        Ok(code) => {
            attribute.at == 214
                && attribute.name == 7
                && code.max_stack == 3
                && code.max_locals == 1
                && code.bytes.as_slice() == CODE
                && code.handlers.is_empty()
                && code.attributes.is_empty()
        }
        Err(_) => false,
    }
}

fn is_main(alloc: Global, method: &RawMember) -> bool {
    method.at == 206
        && method.flags == 9
        && method.name == 5
        && method.descriptor == 6
        && match method.attributes.as_slice() {
            [attribute] => is_code(alloc, attribute),
            _ => false,
        }
}

#[test]
fn a_class_file_is_taken_apart(rt: HostRuntime) -> Result<(), Fail> {
    let bytes = one(rt.alloc())?;
    let class = walk(rt.alloc(), &bytes).ok().ok_or("the file is a class")?;
    assert!(rt; has_header(&class));
    assert!(rt; has_constants(class.pool.as_slice()));
    assert!(rt; is_text(class.pool.get(16), b"println"));
    assert!(rt; class.methods.len() == 1);
    let method = class.methods.get(0).ok_or("there is a method")?;
    assert!(rt; is_main(rt.alloc(), method));
    Ok(())
}

/// A class of version 50 with a long, an int and a double.
static NUMBERS: &[u8] = b"\xca\xfe\xba\xbe\0\x03\0\x32\0\x05\
    \x05\xff\xff\xff\xff\xff\xff\xff\xfe\x03\x80\0\0\0\x06\x3f\xf0\0\0\0\0\0\0\
    \0\x20\0\x01\0\x02\0\0\0\0\0\0\0\0";

#[test]
fn a_long_takes_two_indices_but_at_the_end(rt: HostRuntime) -> Result<(), Fail> {
    let class = walk(rt.alloc(), NUMBERS).ok().ok_or("the file is a class")?;
    assert!(rt; class.minor == 3 && class.pool.len() == 5);
    let pool = class.pool.as_slice();
    assert!(rt; matches!(pool.get(1), Some(Constant::Long(-2))));
    assert!(rt; matches!(pool.get(2), Some(Constant::Gap)));
    assert!(rt; matches!(pool.get(3), Some(Constant::Integer(i32::MIN))));
    assert!(rt; matches!(pool.get(4), Some(Constant::Double(0x3ff0_0000_0000_0000))));
    assert!(rt; pool[1].is_wide() && pool[4].is_wide() && !pool[3].is_wide());
    Ok(())
}
