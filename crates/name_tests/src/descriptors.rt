//! Tests of field and method descriptors: which texts are one, and the kinds that they name.

use class_names::{
    BaseKind, BaseShape, Descriptor, Kind, KindShape, NameRefusal, Parameters, descriptor_of,
    field_shape, is_array_descriptor, is_field_descriptor, is_method_descriptor, method_shape,
    parameter_size,
};
use std::alloc::{AllocError, Global};
use std::test::Fail;

/// A text, what it is the descriptor of, and how many parameters it has of how many words.
type Case = (&'static [u8], &'static str, Option<(u8, u8)>);

/// Three that javac wrote, the example of JVMS 4.3.3, one more that javac wrote, and others.
static CASES: [Case; 27] = [
    (b"[[[J", "array", None),
    (b"LVectors;", "field", None),
    (b"Ljava/io/PrintStream;", "field", None),
    (
        b"(IDLjava/lang/Thread;)Ljava/lang/Object;",
        "method",
        Some((3, 4)),
    ),
    (
        b"(J[Ljava/lang/String;ZBCSF[[I)Ljava/lang/Runnable;",
        "method",
        Some((8, 9)),
    ),
    (b"()V", "method", Some((0, 0))),
    (b"(IJ)V", "method", Some((2, 3))),
    (b"IJ", "nothing", None),
    (b"", "nothing", None),
    (b"V", "nothing", None),
    (b"II", "nothing", None),
    (b"Q", "nothing", None),
    (b"[", "nothing", None),
    (b"[V", "nothing", None),
    (b"L;", "nothing", None),
    (b"Lfoo", "nothing", None),
    (b"La.b;", "nothing", None),
    (b"L[I;", "nothing", None),
    (b"La//b;", "nothing", None),
    (b"(", "nothing", None),
    (b"()", "nothing", None),
    (b"(I", "nothing", None),
    (b"(V)V", "nothing", None),
    (b"()VV", "nothing", None),
    (b"()[V", "nothing", None),
    (b"(I)J)", "nothing", None),
    (b"foo", "nothing", None),
];

/// A front, a byte that follows it, how often, and a back; and what these are together, as in the cases above.
type LongCase = (
    &'static [u8],
    u8,
    u32,
    &'static [u8],
    &'static str,
    Option<(u8, u8)>,
);

/// The limits of dimensions and words, and the longest name of a class.
static LONG_CASES: [LongCase; 7] = [
    (b"", b'[', 255, b"I", "array", None),
    (b"", b'[', 256, b"I", "nothing", None),
    (b"(", b'J', 127, b"I)V", "method", Some((128, 255))),
    (b"(", b'J', 128, b")V", "nothing", None),
    (b"(", b'I', 255, b")V", "method", Some((255, 255))),
    (b"([", b'I', 256, b")V", "nothing", None),
    (b"L", b'/', 65_533, b";", "nothing", None),
];

/// What bytes are the descriptor of.
fn described(alloc: Global, bytes: &[u8]) -> &'static str {
    match descriptor_of(alloc, bytes) {
        Ok(Descriptor::Field(Kind::Base(_))) => "field",
        Ok(Descriptor::Field(Kind::Array(..))) => "array",
        Ok(Descriptor::Method(..)) => "method",
        Err(NameRefusal::Bad) => "nothing",
        Err(NameRefusal::NoMemory) => "no memory",
    }
}

/// Whether the functions that take no memory say the same of bytes.
fn is_said(bytes: &[u8], what: &str) -> bool {
    let array = what == "array";
    is_array_descriptor(bytes) == array
        && is_field_descriptor(bytes) == (array || what == "field")
        && is_method_descriptor(bytes) == (what == "method")
        && field_shape(bytes).is_some() == (array || what == "field")
        && method_shape(bytes).is_some() == (what == "method")
}

fn is_so(alloc: Global, bytes: &[u8], what: &str, size: Option<(u8, u8)>) -> bool {
    let found = parameter_size(bytes).map(|size| (size.count, size.words));
    described(alloc, bytes) == what && is_said(bytes, what) && found == size
}

#[test]
fn texts_are_descriptors_or_not(rt: HostRuntime) {
    for (text, what, size) in CASES {
        assert!(rt; is_so(rt.alloc(), text, what, size));
    }
}

fn repeated(
    alloc: Global,
    front: &[u8],
    byte: u8,
    count: u32,
    back: &[u8],
) -> Result<Vec<u8>, AllocError> {
    let mut bytes = Vec::from_slice(alloc, front)?;
    for _ in 0..count {
        bytes.push(byte)?;
    }
    bytes.extend_from_slice(back)?;
    Ok(bytes)
}

#[test]
fn long_texts_are_descriptors_or_not(rt: HostRuntime) -> Result<(), Fail> {
    for (front, byte, count, back, what, size) in LONG_CASES {
        let text = repeated(rt.alloc(), front, byte, count, back)?;
        assert!(rt; is_so(rt.alloc(), text.as_slice(), what, size));
    }
    Ok(())
}

/// The longest constants that a class file can have.
#[test]
fn the_longest_texts_are_no_descriptors(rt: HostRuntime) -> Result<(), Fail> {
    for byte in *b"[(/L;IJ" {
        let text = repeated(rt.alloc(), b"", byte, 65_535, b"")?;
        assert!(rt; is_so(rt.alloc(), text.as_slice(), "nothing", None));
        let text = repeated(rt.alloc(), b"(", byte, 65_534, b"")?;
        assert!(rt; is_so(rt.alloc(), text.as_slice(), "nothing", None));
    }
    Ok(())
}

/// How many dimensions a kind has, and the type after them.
type Wanted = (u8, &'static [u8]);

fn base_name(base: &BaseKind) -> &[u8] {
    match base {
        BaseKind::Int => b"int",
        BaseKind::Byte => b"byte",
        BaseKind::Char => b"char",
        BaseKind::Short => b"short",
        BaseKind::Boolean => b"boolean",
        BaseKind::Long => b"long",
        BaseKind::Float => b"float",
        BaseKind::Double => b"double",
        BaseKind::Class(name) => name.as_slice(),
    }
}

fn is_kind(kind: &Kind, (dimensions, name): Wanted) -> bool {
    match kind {
        Kind::Base(base) => dimensions == 0 && base_name(base) == name,
        Kind::Array(found, base) => *found == dimensions && base_name(base) == name,
    }
}

/// A method descriptor, the kinds of its parameters, and of its result.
type Method = (&'static [u8], &'static [Wanted], Option<Wanted>);

/// The example of JVMS 4.3.3, one that javac wrote, and two without a result.
static METHODS: [Method; 4] = [
    (
        b"(IDLjava/lang/Thread;)Ljava/lang/Object;",
        &[(0, b"int"), (0, b"double"), (0, b"java/lang/Thread")],
        Some((0, b"java/lang/Object")),
    ),
    (
        b"(J[Ljava/lang/String;ZBCSF[[I)Ljava/lang/Runnable;",
        &[
            (0, b"long"),
            (1, b"java/lang/String"),
            (0, b"boolean"),
            (0, b"byte"),
            (0, b"char"),
            (0, b"short"),
            (0, b"float"),
            (2, b"int"),
        ],
        Some((0, b"java/lang/Runnable")),
    ),
    (b"()V", &[], None),
    (b"(IJ)V", &[(0, b"int"), (0, b"long")], None),
];

fn are_kinds(kinds: &[Kind], wanted: &[Wanted]) -> bool {
    kinds.len() == wanted.len()
        && kinds
            .iter()
            .zip(wanted)
            .all(|(kind, wanted)| is_kind(kind, *wanted))
}

fn is_returned(returned: Option<Kind>, wanted: Option<Wanted>) -> bool {
    match (returned, wanted) {
        (Some(kind), Some(wanted)) => is_kind(&kind, wanted),
        (None, None) => true,
        _ => false,
    }
}

fn is_method(alloc: Global, (text, parameters, kind): Method) -> bool {
    match descriptor_of(alloc, text) {
        Ok(Descriptor::Method(found, returned)) => {
            are_kinds(found.as_slice(), parameters) && is_returned(returned, kind)
        }
        _ => false,
    }
}

#[test]
fn method_descriptors_have_kinds(rt: HostRuntime) {
    for method in METHODS {
        assert!(rt; is_method(rt.alloc(), method));
    }
}

fn shape_name<'a>(base: BaseShape<'a>) -> &'a [u8] {
    match base {
        BaseShape::Int => b"int",
        BaseShape::Byte => b"byte",
        BaseShape::Char => b"char",
        BaseShape::Short => b"short",
        BaseShape::Boolean => b"boolean",
        BaseShape::Long => b"long",
        BaseShape::Float => b"float",
        BaseShape::Double => b"double",
        BaseShape::Class(name) => name,
    }
}

fn is_shape(shape: KindShape<'_>, (dimensions, name): Wanted) -> bool {
    shape.dimensions == dimensions && shape_name(shape.base) == name
}

fn are_shapes(mut parameters: Parameters<'_>, wanted: &[Wanted]) -> bool {
    for wanted in wanted {
        let Some(shape) = parameters.next() else {
            return false;
        };
        if !is_shape(shape, *wanted) {
            return false;
        }
    }
    parameters.next().is_none()
}

fn is_method_shape((text, parameters, kind): Method) -> bool {
    let Some(shape) = method_shape(text) else {
        return false;
    };
    let returned = match (shape.returned, kind) {
        (Some(returned), Some(wanted)) => is_shape(returned, wanted),
        (None, None) => true,
        _ => false,
    };
    returned && are_shapes(shape.parameters, parameters)
}

#[test]
fn method_descriptors_are_read_without_memory(rt: HostRuntime) {
    for method in METHODS {
        assert!(rt; is_method_shape(method));
    }
}

fn is_field(alloc: Global, text: &[u8], wanted: Wanted) -> bool {
    match descriptor_of(alloc, text) {
        Ok(Descriptor::Field(kind)) => is_kind(&kind, wanted),
        _ => false,
    }
}

#[test]
fn array_descriptors_have_dimensions(rt: HostRuntime) -> Result<(), Fail> {
    assert!(rt; is_field(rt.alloc(), b"[[[J", (3, b"long")));
    let most = repeated(rt.alloc(), b"", b'[', 255, b"I")?;
    assert!(rt; is_field(rt.alloc(), most.as_slice(), (255, b"int")));
    Ok(())
}
