//! Tests of the text, the numbers and the places of the refusals of code.

use code_decode::CodeRefusal;
use std::test::Fail;

#[test]
fn want_of_memory_is_shown(rt: HostRuntime) -> Result<(), Fail> {
    let text = CodeRefusal::NoMemory.to_string(rt.alloc())?;
    assert!(rt; text.as_str() == "NoMemory");
    Ok(())
}

/// Each refusal with its number and its place.
static NUMBERS: [(CodeRefusal, u8, u32); 10] = [
    (CodeRefusal::Opcode(7), 1, 7),
    (CodeRefusal::Unsupported(65_534), 2, 65_534),
    (CodeRefusal::Cut(7), 3, 7),
    (CodeRefusal::Target(7), 4, 7),
    (CodeRefusal::Handler(7), 5, 7),
    (CodeRefusal::Frame(65_535), 6, 65_535),
    (CodeRefusal::Length, 7, 0),
    (CodeRefusal::Switch(7), 8, 7),
    (CodeRefusal::Operand(7), 9, 7),
    (CodeRefusal::NoMemory, 10, 0),
];

#[test]
fn refusals_have_numbers(rt: HostRuntime) -> Result<(), Fail> {
    for (refusal, number, place) in &NUMBERS {
        assert!(rt; refusal.number() == *number && refusal.place() == *place);
    }
    Ok(())
}
