//! Tests of what a line of the assembler says.

use assembler_lines::{FieldValue, Line, LineRefusal, Operands, Operation, line_of};

#[test]
fn a_field_says_its_value(rt: HostRuntime) {
    let line = line_of(rt.alloc(), b"field 26 a Z = 1");
    assert!(rt;
        matches!(
            line,
            Ok(Line::Field {
                flags: 26,
                value: Some(FieldValue::Int(1)),
                ..
            })
        )
    );
}

#[test]
fn an_interface_call_says_its_count(rt: HostRuntime) {
    let line = line_of(rt.alloc(), b"invokeinterface Store put (JI)V");
    assert!(rt;
        matches!(
            line,
            Ok(Line::Instruction(Operation {
                number: 185,
                is_wide: false,
                operands: Operands::InterfaceMethod { count: 4, .. }
            }))
        )
    );
}

#[test]
fn no_bytes_are_no_line(rt: HostRuntime) {
    let line = line_of(rt.alloc(), b"");
    assert!(rt; matches!(line, Err(LineRefusal::Malformed)));
}
