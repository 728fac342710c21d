//! Tests of the content of a Code attribute, taken apart and written again.

use class_walk::{ContentRefusal, RawAttribute, RawCode, RawHandler, code_content};
use class_write::{read_classes_can_be_written, write_code};
use std::alloc::Global;
use std::test::Fail;

/// Two words of stack, one local, a return, a handler, and an attribute of no byte and one of one byte.
static CONTENT: &[u8] = b"\0\x02\0\x01\0\0\0\x01\xb1\0\x01\0\0\0\x01\0\x03\0\x09\
    \0\x02\0\x05\0\0\0\0\0\x06\0\0\0\x01\x07";

fn is_handler(handler: &RawHandler) -> bool {
    handler.from == 0 && handler.to == 1 && handler.at == 3 && handler.kind == 9
}

fn is_attribute(attribute: &RawAttribute) -> bool {
    attribute.at == 27 && attribute.name == 6 && attribute.content.as_slice() == [7].as_slice()
}

fn is_read(code: &RawCode) -> bool {
    let handler = match code.handlers.as_slice() {
        [handler] => is_handler(handler),
        _ => false,
    };
    handler
        && match code.attributes.as_slice() {
            [_, attribute] => is_attribute(attribute),
            _ => false,
        }
}

fn answer(alloc: Global, content: &[u8]) -> &'static str {
    match code_content(alloc, content) {
        Ok(code) if is_read(&code) => "read",
        Ok(_) => "read otherwise",
        Err(ContentRefusal::Malformed) => "malformed",
        Err(ContentRefusal::NoMemory) => "no memory",
    }
}

#[test]
fn code_has_handlers_and_attributes(rt: HostRuntime) -> Result<(), Fail> {
    assert!(rt; answer(rt.alloc(), CONTENT) == "read");
    for length in 0..34usize {
        let cut = CONTENT.get(..length).ok_or("the content has 34 bytes")?;
        assert!(rt; answer(rt.alloc(), cut) == "malformed");
    }
    assert!(rt; answer(rt.alloc(), &[0; 13]) == "malformed");
    Ok(())
}

/// Whether a content, taken apart and written, is the same again.
fn is_written_again(alloc: Global, content: &[u8]) -> bool {
    read_classes_can_be_written();
    match code_content(alloc, content) {
        Ok(code) => match write_code(alloc, &code) {
            Ok(written) => written.as_slice() == content,
            Err(_) => false,
        },
        Err(_) => false,
    }
}

#[test]
fn a_written_code_is_the_content(rt: HostRuntime) {
    assert!(rt; is_written_again(rt.alloc(), CONTENT));
}
