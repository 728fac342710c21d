//! Tests of which texts are names of classes, fields and methods.

use class_names::{is_class_name, is_member_name, is_method_name};

/// A text, and whether it is the name of a class, of a field and of a method (JVMS 4.2).
type Name = (&'static [u8], bool, bool, bool);

/// First names that javac wrote, and then other texts.
static NAMES: [Name; 21] = [
    (b"Vectors$Inner", true, true, true),
    (b"java/lang/invoke/MethodHandles$Lookup", true, false, false),
    (b"this$0", true, true, true),
    (b"out", true, true, true),
    (b"ZERO", true, true, true),
    (b"<init>", true, true, true),
    (b"<clinit>", true, true, true),
    (b"lambda$make$0", true, true, true),
    (b"", false, false, false),
    (b"/a", false, false, false),
    (b"a/", false, false, false),
    (b"a//b", false, false, false),
    (b"a.b", false, false, false),
    (b"a;", false, false, false),
    (b"[I", false, false, false),
    (b"/", false, false, false),
    (b"a/b", true, false, false),
    (b"<x>", true, true, false),
    (b"<", true, true, false),
    (b"a>", true, true, false),
    (b"<init>x", true, true, false),
];

fn is_so((text, class, field, method): Name) -> bool {
    is_class_name(text) == class && is_member_name(text) == field && is_method_name(text) == method
}

#[test]
fn texts_are_names_or_not(rt: HostRuntime) {
    for name in NAMES {
        assert!(rt; is_so(name));
    }
}
