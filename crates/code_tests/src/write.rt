//! Tests of the bytes of written instructions, switches and full stack map frames.

ghost use Rattle.std.specs.Prelude.{◌<◌, ◌^◌, IfOk};
ghost use Rattle.code_write.specs.Instruction.{count};

use code_write::{
    Operands, PutRefusal, VerificationType, Written, put_full_frame, put_instruction,
};
use instructions::{Case, PrimitiveType};
use rows::Rows;
use std::alloc::Global;
use std::test::Fail;

/// The bytes of an instruction at an offset, or none where they have no room for its numbers.
fn bytes_at(
    alloc: Global,
    at: u32,
    number: u8,
    operands: Operands<u32>,
) -> Result<Option<Vec<u8>>, Fail> {
    let mut out = Vec::new(alloc);
    match put_instruction(&mut out, at, &Written { number, operands }) {
        Ok(()) => Ok(Some(out)),
        Err(PutRefusal::OutOfRange) => Ok(None),
        Err(PutRefusal::NoMemory) => Err(Fail::from("there is memory")),
    }
}

/// Operands by a number of the tests.
fn operands(case: u8) -> Operands<u32> {
    match case {
        0 => Operands::Near(19),
        1 => Operands::Increment { local: 0, by: -1 },
        2 => Operands::WideIncrement { local: 1, by: 1000 },
        3 => Operands::Near(2),
        4 => Operands::InterfaceCall { index: 9, count: 2 },
        5 => Operands::NewArray(PrimitiveType::Boolean),
        6 => Operands::Far(0),
        7 => Operands::Near(32_767),
        _ => Operands::Near(32_768),
    }
}

/// Operands, the offset and the number of the instruction, and its bytes. The first six are from a loop and a call
/// that javac --release 8 wrote. A target that is further than two bytes say has no bytes.
const WRITTEN: [(u8, u32, u8, &[u8]); 9] = [
    (0, 4, 162, &[0xa2, 0x00, 0x0f]),
    (1, 7, 132, &[0x84, 0x00, 0xff]),
    (2, 10, 132, &[0xc4, 0x84, 0x00, 0x01, 0x03, 0xe8]),
    (3, 16, 167, &[0xa7, 0xff, 0xf2]),
    (4, 3, 185, &[0xb9, 0x00, 0x09, 0x02, 0x00]),
    (5, 10, 188, &[0xbc, 0x04]),
    (6, 40_000, 200, &[0xc8, 0xff, 0xff, 0x63, 0xc0]),
    (7, 0, 167, &[0xa7, 0x7f, 0xff]),
    (8, 0, 167, &[]),
];

#[test]
fn instructions_are_as_javac_writes_them(rt: HostRuntime) -> Result<(), Fail> {
    for (case, at, number, wanted) in &WRITTEN {
        let bytes = match bytes_at(rt.alloc(), *at, *number, operands(*case))? {
            Some(bytes) => bytes,
            None => Vec::new(rt.alloc()),
        };
        assert!(rt; bytes.as_slice() == *wanted, "case {case}");
    }
    Ok(())
}

/// A tableswitch and a lookupswitch over an int, at offset 1, as javac --release 8 writes them.
const TABLE: &[u8] =
    b"\xaa\0\0\0\0\0\x28\0\0\0\x01\0\0\0\x04\0\0\0\x1f\0\0\0\x22\0\0\0\x28\0\0\0\x25";

const LOOKUP: &[u8] =
    b"\xab\0\0\0\0\0\x1f\0\0\0\x02\xff\xff\xff\xfb\0\0\0\x1b\0\0\x03\xe8\0\0\0\x1d";

fn table(alloc: Global) -> Result<Operands<u32>, Fail>
    ensures { IfOk result (λ operands. count operands < 2 ^ 32) }
{
    let targets = Rows::from_vec(Vec::from_slice(alloc, &[32, 35, 41, 38])?);
    Ok(Operands::TableSwitch {
        default: 41,
        low: 1,
        targets,
    })
}

/// A case of the lookupswitch.
fn case(key: i32, target: u32) -> Case<u32> {
    Case { key, target }
}

fn lookup(alloc: Global) -> Result<Operands<u32>, Fail>
    ensures { IfOk result (λ operands. count operands < 2 ^ 32) }
{
    let cases = Rows::from_vec(Vec::from_slice(alloc, &[case(-5, 28), case(1000, 30)])?);
    Ok(Operands::LookupSwitch { default: 32, cases })
}

#[test]
fn switches_are_as_javac_writes_them(rt: HostRuntime) -> Result<(), Fail> {
    let operands = table(rt.alloc())?;
    assert!(rt; operands.shape().size_at(1) == 31);
    let written = bytes_at(rt.alloc(), 1, 170, operands)?.ok_or("there is room")?;
    assert!(rt; written.as_slice() == TABLE);
    let operands = lookup(rt.alloc())?;
    assert!(rt; operands.shape().size_at(1) == 27);
    let written = bytes_at(rt.alloc(), 1, 171, operands)?.ok_or("there is room")?;
    assert!(rt; written.as_slice() == LOOKUP);
    Ok(())
}

#[test]
fn a_full_frame_is_written(rt: HostRuntime) -> Result<(), Fail> {
    let mut out = Vec::new(rt.alloc());
    let locals = [VerificationType::UninitThis, VerificationType::Long];
    let stack = [VerificationType::Object(258), VerificationType::Uninit(3)];
    put_full_frame(&mut out, 513, &locals, &stack)?;
    let wanted: &[u8] = b"\xff\x02\x01\0\x02\x06\x04\0\x02\x07\x01\x02\x08\0\x03";
    assert!(rt; out.as_slice() == wanted);
    Ok(())
}
