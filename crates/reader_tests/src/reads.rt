//! Tests of reading class files: what is read, what is refused, and the numbers of refusals.

use crate::class_one::{CODE, one};
use class_names::ParameterSize;
use class_read::{ClassFile, CodeAttribute, Constant, Member, Pool, ReadRefusal, read_class};
use std::alloc::Global;
use std::test::Fail;

fn shown(alloc: Global, refusal: ReadRefusal) -> Result<String, Fail> {
    Ok(format!(in alloc; "{refusal}")?)
}

fn answer(alloc: Global, bytes: &[u8]) -> Result<String, Fail> {
    match read_class(alloc, bytes) {
        Ok(_) => Ok(String::from_str(alloc, "read")?),
        Err(refusal) => shown(alloc, refusal),
    }
}

/// The class One with other bytes at a place, in place of `count` of its own.
fn edited(alloc: Global, at: usize, count: usize, bytes: &[u8]) -> Result<Vec<u8>, Fail> {
    let class = one(alloc)?;
    let (front, rest) = class.split_at_checked(at).ok_or("a place in the class")?;
    let (_, back) = rest.split_at_checked(count).ok_or("a place in the class")?;
    let mut edited = Vec::from_slice(alloc, front)?;
    edited.extend_from_slice(bytes)?;
    edited.extend_from_slice(back)?;
    Ok(edited)
}

/// A place in the class One, how many of its bytes are others there, these, and what is answered.
type Case = (usize, usize, &'static [u8], &'static str);

/// First one byte is another, then there is an attribute of the class, a method twice, and another class.
static CASES: [Case; 21] = [
    (0, 1, b"\xcb", "Magic"),
    (7, 1, b"\x35", "Version"),
    (10, 1, b"\x02", "PoolTag 1"),
    (18, 1, b"\x02", "PoolIndex 2"),
    (199, 1, b"\0", "PoolIndex 0"),
    (215, 1, b"\x02", "PoolIndex 2"),
    (13, 1, b"\xff", "BadUtf 1"),
    (13, 1, b".", "BadDescriptor 1"),
    (181, 1, b"X", "BadDescriptor 17"),
    (44, 1, b"<", "BadDescriptor 5"),
    (227, 1, b"\x0b", "Attribute 214"),
    (194, 1, b"\x02", "Flags"),
    (207, 1, b"\x0b", "Flags"),
    (206, 1, b"\x01", "Member 206"),
    (242, 2, b"\0\x01\0\x07\0\0\0\x02\x09\x09", "read"),
    (242, 2, b"\0\x01\0\x07\0\0\0\x01\x09\x09", "Trailing 251"),
    (
        242,
        2,
        b"\0\x01\0\x07\xff\xff\xff\xff\x09\x09",
        "Truncated 252",
    ),
    (
        205,
        1,
        b"\x02\0\x09\0\x05\0\x06\0\x01\0\x07\0\0\0\x16\0\x03\0\x01\0\0\0\x0a\xb2\0\x0d\x05\x06\x60\xb6\0\x13\xb1\0\0\0\0",
        "Member 242",
    ),
    (
        0,
        244,
        b"\xca\xfe\xba\xbe\0\0\0\x34\xff\xff\x01",
        "Truncated 11",
    ),
    (
        9,
        235,
        b"\x07\x01\0\x01A\x07\0\x01\x01\0\x10java/lang/Object\x07\0\x03\
          \x04\x7f\xc0\0\0\x12\xff\xff\xff\xff\0\x21\0\x02\0\x04\0\0\0\0\0\0\0\0",
        "read",
    ),
    (0, 0, b"", "read"),
];

#[test]
fn each_refusal_comes_where_its_bytes_are(rt: HostRuntime) -> Result<(), Fail> {
    for (at, count, bytes, wanted) in CASES {
        let class = edited(rt.alloc(), at, count, bytes)?;
        assert!(rt; answer(rt.alloc(), class.as_slice())?.as_str() == wanted);
    }
    let zeros = vec![in rt.alloc(); 0u8; 1_048_577]?;
    assert!(rt; answer(rt.alloc(), &zeros)?.as_str() == "TooLong");
    Ok(())
}

#[test]
fn a_cut_class_is_truncated_at_its_length(rt: HostRuntime) -> Result<(), Fail> {
    let bytes = one(rt.alloc())?;
    for length in 0..244u32 {
        let cut = bytes
            .get(..length as usize)
            .ok_or("the class has 244 bytes")?;
        let refusal = read_class(rt.alloc(), cut).err();
        assert!(rt; matches!(refusal, Some(ReadRefusal::Truncated(at)) if at == length));
    }
    Ok(())
}

/// Class A of version 52 with one method, whose descriptor has 255 ints, and these bytes after the pool.
fn of_words(alloc: Global, behind: &[u8]) -> Result<Vec<u8>, Fail> {
    let mut new = Vec::from_slice(
        alloc,
        b"\x07\x01\0\x01A\x07\0\x01\x01\0\x10java/lang/Object\x07\0\x03\x01\x01\x02(",
    )?;
    new.extend_from_slice(&[b'I'; 255])?;
    new.extend_from_slice(b")V\x01\0\x01m")?;
    new.extend_from_slice(behind)?;
    edited(alloc, 9, 235, &new)
}

#[test]
fn the_receiver_takes_one_of_255_words(rt: HostRuntime) -> Result<(), Fail> {
    let of_object = of_words(
        rt.alloc(),
        b"\x05\x21\0\x02\0\x04\0\0\0\0\0\x01\x04\x01\0\x06\0\x05\0\0\0\0",
    )?;
    assert!(rt; answer(rt.alloc(), &of_object)?.as_str() == "BadDescriptor 5");
    let of_class = of_words(
        rt.alloc(),
        b"\x04\x21\0\x02\0\x04\0\0\0\0\0\x01\x01\x09\0\x06\0\x05\0\0\0\0",
    )?;
    assert!(rt; answer(rt.alloc(), &of_class)?.as_str() == "read");
    Ok(())
}

fn is_code(code: &CodeAttribute) -> bool {
    code.max_stack == 3
        && code.max_locals == 1
        && code.bytes.as_slice() == CODE
        && code.handlers.is_empty()
        && code.maps.is_empty()
}

fn is_main(method: &Member) -> bool {
    method.flags == 9
        && method.name == 5
        && method.descriptor == 6
        && method.constant.is_none()
        && match &method.code {
            Some(code) => is_code(code),
            None => false,
        }
}

fn has_header(class: &ClassFile) -> bool {
    class.major == 52
        && class.flags == 0x21
        && class.this_class == 2
        && class.super_class == 4
        && class.interfaces.is_empty()
        && class.fields.is_empty()
}

#[test]
fn a_class_is_read(rt: HostRuntime) -> Result<(), Fail> {
    let bytes = one(rt.alloc())?;
    let class = read_class(rt.alloc(), &bytes).ok().ok_or("a class")?;
    assert!(rt; has_header(&class));
    assert!(rt; matches!(class.pool.get(13), Some(Constant::Field(9, 12))));
    assert!(rt; class.methods.len() == 1);
    let method = class.methods.get(0).ok_or("there is a method")?;
    assert!(rt; is_main(method));
    Ok(())
}

#[test]
fn constants_that_nothing_looks_at_are_kept(rt: HostRuntime) -> Result<(), Fail> {
    let (at, count, bytes, _) = CASES[19];
    let bytes = edited(rt.alloc(), at, count, bytes)?;
    let class = read_class(rt.alloc(), &bytes).ok().ok_or("a class")?;
    assert!(rt; matches!(class.pool.get(5), Some(Constant::Float(0x7fc0_0000))));
    assert!(rt; matches!(class.pool.get(6), Some(Constant::Dynamic(65535, 65535))));
    Ok(())
}

#[test]
fn a_refusal_shows_its_name_and_number(rt: HostRuntime) -> Result<(), Fail> {
    for (refusal, text) in [
        (ReadRefusal::NoMemory, "NoMemory"),
        (ReadRefusal::PoolTag(0), "PoolTag 0"),
        (ReadRefusal::PoolIndex(65535), "PoolIndex 65535"),
        (ReadRefusal::Attribute(1_048_576), "Attribute 1048576"),
    ] {
        assert!(rt; shown(rt.alloc(), refusal)?.as_str() == text);
    }
    Ok(())
}

#[test]
fn a_pool_says_what_its_texts_are_used_as(rt: HostRuntime) -> Result<(), Fail> {
    let bytes = one(rt.alloc())?;
    let class = read_class(rt.alloc(), &bytes).ok().ok_or("a class")?;
    let pool = Pool::new(rt.alloc(), class.pool.as_slice())?;
    assert!(rt; pool.constants().len() == 20);
    let name = pool.text_use(16).ok_or("println")?;
    assert!(rt; name.is_method_name && name.is_class_name && !name.is_field_type);
    let descriptor = pool.text_use(17).ok_or("(I)V")?;
    assert!(rt;
        matches!(
            descriptor.parameters,
            Some(ParameterSize { count: 1, words: 1 })
        )
    );
    assert!(rt; pool.text_use(19).is_none());
    Ok(())
}

/// Each refusal with its number and its place.
static NUMBERS: [(ReadRefusal, u8, u32); 13] = [
    (ReadRefusal::Magic, 1, 0),
    (ReadRefusal::Version, 2, 0),
    (ReadRefusal::Truncated(1_048_576), 3, 1_048_576),
    (ReadRefusal::PoolTag(7), 4, 7),
    (ReadRefusal::PoolIndex(7), 5, 7),
    (ReadRefusal::BadUtf(65_535), 6, 65_535),
    (ReadRefusal::BadDescriptor(7), 7, 7),
    (ReadRefusal::Trailing(7), 8, 7),
    (ReadRefusal::TooLong, 9, 0),
    (ReadRefusal::Attribute(7), 10, 7),
    (ReadRefusal::Flags, 11, 0),
    (ReadRefusal::Member(7), 12, 7),
    (ReadRefusal::NoMemory, 13, 0),
];

#[test]
fn refusals_have_numbers(rt: HostRuntime) -> Result<(), Fail> {
    for (refusal, number, place) in &NUMBERS {
        assert!(rt; refusal.number() == *number && refusal.place() == *place);
    }
    Ok(())
}
