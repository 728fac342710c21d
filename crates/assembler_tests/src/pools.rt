//! Tests of making a constant pool: its entries, their reuse, and a full pool.

use assembler_pool::{PoolMaker, PoolRefusal};
use class_walk::Constant;

/// The kind of an entry, its text, and the indices that it names.
type Entry<'a> = (char, &'a [u8], u16, u16);

/// The pool of a class file that an assembler made of a class whose method prints an int.
const ONE: [Entry<'static>; 20] = [
    ('-', b"", 0, 0),
    ('t', b"One", 0, 0),
    ('c', b"", 1, 0),
    ('t', b"java/lang/Object", 0, 0),
    ('c', b"", 3, 0),
    ('t', b"main", 0, 0),
    ('t', b"([Ljava/lang/String;)V", 0, 0),
    ('t', b"Code", 0, 0),
    ('t', b"java/lang/System", 0, 0),
    ('c', b"", 8, 0),
    ('t', b"out", 0, 0),
    ('t', b"Ljava/io/PrintStream;", 0, 0),
    ('p', b"", 10, 11),
    ('f', b"", 9, 12),
    ('t', b"java/io/PrintStream", 0, 0),
    ('c', b"", 14, 0),
    ('t', b"println", 0, 0),
    ('t', b"(I)V", 0, 0),
    ('p', b"", 16, 17),
    ('m', b"", 15, 18),
];

fn shown(entry: &Constant) -> Entry<'_> {
    match entry {
        Constant::Gap => ('-', b"", 0, 0),
        Constant::Utf8(bytes) => ('t', bytes.as_slice(), 0, 0),
        Constant::Class(name) => ('c', b"", *name, 0),
        Constant::Pair(name, descriptor) => ('p', b"", *name, *descriptor),
        Constant::Field(class, pair) => ('f', b"", *class, *pair),
        Constant::Method(class, pair) => ('m', b"", *class, *pair),
        _ => ('?', b"", 0, 0),
    }
}

/// The indices of what the class names, in the order in which it names it.
fn named_by_one(maker: &mut PoolMaker) -> Result<[u16; 8], PoolRefusal> {
    Ok([
        maker.class(b"One")?,
        maker.class(b"java/lang/Object")?,
        maker.utf8(b"main")?,
        maker.utf8(b"([Ljava/lang/String;)V")?,
        maker.utf8(b"Code")?,
        maker.field(b"java/lang/System", b"out", b"Ljava/io/PrintStream;")?,
        maker.method(b"java/io/PrintStream", b"println", b"(I)V")?,
        maker.class(b"java/lang/System")?,
    ])
}

fn is_one(entries: &[Constant]) -> bool {
    entries.len() == ONE.len()
        && entries
            .iter()
            .zip(ONE)
            .all(|(entry, wanted)| shown(entry) == wanted)
}

#[test]
fn a_small_class_has_the_pool_of_its_file(rt: HostRuntime) -> Result<(), std::test::Fail> {
    let mut maker = PoolMaker::new(rt.alloc())?;
    let named = named_by_one(&mut maker);
    assert!(rt; named.is_ok_and(|indices| indices == [2, 4, 5, 6, 7, 13, 19, 9]));
    assert!(rt; is_one(maker.into_entries().as_slice()));
    Ok(())
}

/// The indices of entries that are named twice. The string has the characters 0, A and U+07FF, and a high surrogate.
fn named_again(maker: &mut PoolMaker) -> Result<[u16; 9], PoolRefusal> {
    Ok([
        maker.long(5)?,
        maker.integer(5)?,
        maker.long(5)?,
        maker.integer(5)?,
        maker.string(&[0, 0x41, 0x7ff, 0xd800])?,
        maker.utf8(b"\xc0\x80A\xdf\xbf\xed\xa0\x80")?,
        maker.interface_method(b"java/lang/Runnable", b"run", b"()V")?,
        maker.interface_method(b"java/lang/Runnable", b"run", b"()V")?,
        maker.method(b"java/lang/Runnable", b"run", b"()V")?,
    ])
}

#[test]
fn entries_are_used_again(rt: HostRuntime) -> Result<(), std::test::Fail> {
    let mut maker = PoolMaker::new(rt.alloc())?;
    let named = named_again(&mut maker);
    assert!(rt; named.is_ok_and(|indices| indices == [1, 3, 1, 3, 5, 4, 11, 11, 12]));
    assert!(rt; maker.entries().len() == 13);
    Ok(())
}

/// Adds ints from 1 to 65,533.
fn fill(maker: &mut PoolMaker) -> bool {
    (1..65_534).all(|value| maker.integer(value).is_ok())
}

#[test]
fn a_full_pool_takes_no_more(rt: HostRuntime) -> Result<(), std::test::Fail> {
    let mut maker = PoolMaker::new(rt.alloc())?;
    let long = vec![in rt.alloc(); 65u8; 65_536]?;
    assert!(rt; matches!(maker.utf8(&long), Err(PoolRefusal::Full)));
    assert!(rt; fill(&mut maker));
    assert!(rt; matches!(maker.long(0), Err(PoolRefusal::Full)));
    assert!(rt; matches!(maker.integer(0), Ok(65_534)));
    assert!(rt; matches!(maker.integer(-1), Err(PoolRefusal::Full)));
    assert!(rt; matches!(maker.integer(9), Ok(9)));
    Ok(())
}
