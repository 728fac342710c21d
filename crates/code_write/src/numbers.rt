//! Numbers, the highest byte first (JVMS 4).

ghost use Rattle.std.specs.Prelude.{◌≡◌, ◌++◌, OnOk, OnErr};
ghost use Rattle.class_walk.specs.Layout.{u1, u2, u4};
ghost use Rattle.code_write.specs.Instruction.{Keeps, s1, s2, s4};

use std::alloc::AllocError;

/// Puts a number of one byte at the end.
pub(crate) fn put_u8(out: &mut Vec<u8>, number: u8) -> Result<(), AllocError>
    ensures ok { OnOk result (out.new.items ≡ out.old.items ++ u1 number) }
    ensures err { OnErr result (Keeps out.old.items out.new.items) }
{
    out.extend_from_slice(&number.to_be_bytes())?;
    Ok(())
}

/// Puts a number of two bytes at the end.
pub(crate) fn put_u16(out: &mut Vec<u8>, number: u16) -> Result<(), AllocError>
    ensures ok { OnOk result (out.new.items ≡ out.old.items ++ u2 number) }
    ensures err { OnErr result (Keeps out.old.items out.new.items) }
{
    out.extend_from_slice(&number.to_be_bytes())?;
    Ok(())
}

/// Puts a number of four bytes at the end.
pub(crate) fn put_u32(out: &mut Vec<u8>, number: u32) -> Result<(), AllocError>
    ensures ok { OnOk result (out.new.items ≡ out.old.items ++ u4 number) }
    ensures err { OnErr result (Keeps out.old.items out.new.items) }
{
    out.extend_from_slice(&number.to_be_bytes())?;
    Ok(())
}

/// Puts a signed number of one byte at the end.
pub(crate) fn put_i8(out: &mut Vec<u8>, number: i8) -> Result<(), AllocError>
    ensures ok { OnOk result (out.new.items ≡ out.old.items ++ s1 number) }
    ensures err { OnErr result (Keeps out.old.items out.new.items) }
{
    put_u8(out, number.cast_unsigned())
}

/// Puts a signed number of two bytes at the end.
pub(crate) fn put_i16(out: &mut Vec<u8>, number: i16) -> Result<(), AllocError>
    ensures ok { OnOk result (out.new.items ≡ out.old.items ++ s2 number) }
    ensures err { OnErr result (Keeps out.old.items out.new.items) }
{
    put_u16(out, number.cast_unsigned())
}

/// Puts a signed number of four bytes at the end.
pub(crate) fn put_i32(out: &mut Vec<u8>, number: i32) -> Result<(), AllocError>
    ensures ok { OnOk result (out.new.items ≡ out.old.items ++ s4 number) }
    ensures err { OnErr result (Keeps out.old.items out.new.items) }
{
    put_u32(out, number.cast_unsigned())
}
