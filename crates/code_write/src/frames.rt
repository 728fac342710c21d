//! The bytes of full frames (JVMS 4.7.4).

ghost use Rattle.std.specs.Prelude.{◌≡◌, ◌<◌, ◌^◌, ◌++◌, OnOk, OnErr, length, flat_map};
ghost use Rattle.class_walk.specs.Layout.{table};
ghost use Rattle.code_write.specs.Frame.{full_frame, type_bytes};
ghost use Rattle.code_write.specs.Instruction.{Keeps};

use crate::numbers::{put_u8, put_u16};
use std::alloc::AllocError;

/// A verification type as frames spell it (JVMS 4.7.4).
#[derive(Clone, Copy)]
pub enum VerificationType {
    Top,
    Int,
    Float,
    Double,
    Long,
    Null,
    /// The object that a constructor has yet to initialize.
    UninitThis,
    /// A reference to a class, by the index of its Class entry.
    Object(u16),
    /// What the `new` at an offset made, not yet initialized.
    Uninit(u16),
}

fn put_type(out: &mut Vec<u8>, kind: VerificationType) -> Result<(), AllocError>
    ensures ok { OnOk result (out.new.items ≡ out.old.items ++ type_bytes kind) }
    ensures err { OnErr result (Keeps out.old.items out.new.items) }
{
    match kind {
        VerificationType::Top => put_u8(out, 0),
        VerificationType::Int => put_u8(out, 1),
        VerificationType::Float => put_u8(out, 2),
        VerificationType::Double => put_u8(out, 3),
        VerificationType::Long => put_u8(out, 4),
        VerificationType::Null => put_u8(out, 5),
        VerificationType::UninitThis => put_u8(out, 6),
        VerificationType::Object(index) => {
            put_u8(out, 7)?;
            put_u16(out, index)
        }
        VerificationType::Uninit(at) => {
            put_u8(out, 8)?;
            put_u16(out, at)
        }
    }
}

fn put_each_type(out: &mut Vec<u8>, types: &[VerificationType]) -> Result<(), AllocError>
    ensures ok { OnOk result (out.new.items ≡ out.old.items ++ flat_map type_bytes types.now) }
    ensures err { OnErr result (Keeps out.old.items out.new.items) }
{
    for kind in types {
        put_type(out, *kind)?;
    }
    Ok(())
}

fn put_types(out: &mut Vec<u8>, types: &[VerificationType]) -> Result<(), AllocError>
    requires { length types.now < 2 ^ 16 }
    ensures ok { OnOk result (out.new.items ≡ out.old.items ++ table type_bytes types.now) }
    ensures err { OnErr result (Keeps out.old.items out.new.items) }
{
    put_u16(out, types.len() as u16)?;
    put_each_type(out, types)
}

/// Puts a full_frame at the end (JVMS 4.7.4). Without memory some of its bytes may have been put.
pub fn put_full_frame(
    out: &mut Vec<u8>,
    delta: u16,
    locals: &[VerificationType],
    stack: &[VerificationType],
) -> Result<(), AllocError>
    requires locals { length locals.now < 2 ^ 16 }
    requires stack { length stack.now < 2 ^ 16 }
    ensures ok { OnOk result (out.new.items ≡ out.old.items ++ full_frame delta locals.now stack.now) }
    ensures err { OnErr result (Keeps out.old.items out.new.items) }
{
    put_u8(out, 255)?;
    put_u16(out, delta)?;
    put_types(out, locals)?;
    put_types(out, stack)
}
