//! Numbers, the highest byte first (JVMS 4).

ghost use Rattle.std.specs.Prelude.{◌≡◌, ◌++◌, OnOk};
ghost use Rattle.class_walk.specs.Layout.{u1, u2, u4, u8};

use std::alloc::AllocError;

/// Puts a number of one byte at the end.
pub fn put_u8(out: &mut Vec<u8>, number: u8) -> Result<(), AllocError>
    ensures { OnOk result (out.new.items ≡ out.old.items ++ u1 number) }
{
    out.extend_from_slice(&number.to_be_bytes())?;
    Ok(())
}

/// Puts a number of two bytes at the end.
pub fn put_u16(out: &mut Vec<u8>, number: u16) -> Result<(), AllocError>
    ensures { OnOk result (out.new.items ≡ out.old.items ++ u2 number) }
{
    out.extend_from_slice(&number.to_be_bytes())?;
    Ok(())
}

/// Puts a number of four bytes at the end.
pub fn put_u32(out: &mut Vec<u8>, number: u32) -> Result<(), AllocError>
    ensures { OnOk result (out.new.items ≡ out.old.items ++ u4 number) }
{
    out.extend_from_slice(&number.to_be_bytes())?;
    Ok(())
}

/// Puts a number of eight bytes at the end.
pub fn put_u64(out: &mut Vec<u8>, number: u64) -> Result<(), AllocError>
    ensures { OnOk result (out.new.items ≡ out.old.items ++ u8 number) }
{
    out.extend_from_slice(&number.to_be_bytes())?;
    Ok(())
}
