//! Names (JVMS 4.2).

ghost use Rattle.std.specs.Prelude.{◌≡◌, ◌↔◌, IsTrue, false};
ghost use Rattle.std.specs.List.{AllByRecursion};
ghost use Rattle.class_names.specs.Names.{is_name_byte, is_plain_byte, IsPlainByte, IsMemberName, IsMethodName, IsClassName};
ghost use Rattle.class_names.specs.Reading.{spells_class_name};

/// Whether a byte may occur in an unqualified name (JVMS 4.2.2).
fn is_name_byte(byte: u8) -> bool
    ensures { result ≡ is_name_byte byte }
{
    !matches!(byte, b'.' | b';' | b'[' | b'/')
}

/// Whether bytes are a member name: an unqualified name, which is not empty and has none of the bytes
/// `.`, `;`, `[` and `/` (JVMS 4.2.2).
pub fn is_member_name(bytes: &[u8]) -> bool
    ensures { IsTrue result ↔ IsMemberName bytes.now }
{
    !bytes.is_empty() && bytes.iter().all(|byte| is_name_byte(*byte))
}

/// Whether a byte is neither `<` nor `>`.
fn is_plain_byte(byte: u8) -> bool
    ensures { result ≡ is_plain_byte byte }
{
    !matches!(byte, b'<' | b'>')
}

fn has_plain_bytes(bytes: &[u8]) -> bool
    ensures { IsTrue result ↔ AllByRecursion IsPlainByte bytes.now }
{
    bytes.iter().all(|byte| is_plain_byte(*byte))
}

/// Whether bytes are a method name: a member name without `<` and `>`, or `<init>` or `<clinit>`
/// (JVMS 4.2.2).
pub fn is_method_name(bytes: &[u8]) -> bool
    ensures { IsTrue result ↔ IsMethodName bytes.now }
{
    bytes == b"<init>".as_slice()
        || bytes == b"<clinit>".as_slice()
        || (is_member_name(bytes) && has_plain_bytes(bytes))
}

/// Goes over the bytes once. A part begins after each `/`.
pub(crate) fn is_spelled_class_name(bytes: &[u8]) -> bool
    ensures { result ≡ spells_class_name false bytes.now }
{
    let mut part_begun = false;
    for byte in bytes {
        if is_name_byte(*byte) {
            part_begun = true;
        } else if *byte == b'/' && part_begun {
            part_begun = false;
        } else {
            return false;
        }
    }
    part_begun
}

/// Whether bytes are the name of a class or an interface in its internal form: unqualified names joined by
/// `/` (JVMS 4.2.1). The descriptor of an array class is none.
pub fn is_class_name(bytes: &[u8]) -> bool
    ensures { IsTrue result ↔ IsClassName bytes.now }
{
    is_spelled_class_name(bytes)
}
