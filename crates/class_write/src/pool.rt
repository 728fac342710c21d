//! The constant pool (JVMS 4.4).

ghost use Rattle.std.specs.Prelude.{◌≡◌, ◌<◌, ◌^◌, ◌++◌, OnOk, length, flat_map};
ghost use Rattle.std.specs.List.{AllByRecursion};
ghost use Rattle.class_walk.specs.Layout.{u1, u2, constant, pool_table};
ghost use Rattle.class_write.specs.Writable.{IsWritableConstant};

use crate::numbers::{put_u8, put_u16, put_u32, put_u64};
use class_walk::Constant;
use std::alloc::AllocError;

/// A constant of two indices.
fn put_pair(out: &mut Vec<u8>, tag: u8, first: u16, second: u16) -> Result<(), AllocError>
    ensures { OnOk result (out.new.items ≡ out.old.items ++ (u1 tag ++ u2 first ++ u2 second)) }
{
    put_u8(out, tag)?;
    put_u16(out, first)?;
    put_u16(out, second)
}

/// A constant of one index.
fn put_index(out: &mut Vec<u8>, tag: u8, index: u16) -> Result<(), AllocError>
    ensures { OnOk result (out.new.items ≡ out.old.items ++ (u1 tag ++ u2 index)) }
{
    put_u8(out, tag)?;
    put_u16(out, index)
}

fn put_utf8(out: &mut Vec<u8>, bytes: &[u8]) -> Result<(), AllocError>
    requires { length bytes.now < 2 ^ 16 }
    ensures { OnOk result (out.new.items ≡ out.old.items ++ (u1 1 ++ u2 (length bytes.now) ++ bytes.now)) }
{
    put_u8(out, 1)?;
    put_u16(out, bytes.len() as u16)?;
    out.extend_from_slice(bytes)?;
    Ok(())
}

/// Puts an entry at the end.
fn put_constant(out: &mut Vec<u8>, entry: &Constant) -> Result<(), AllocError>
    requires { IsWritableConstant entry.now }
    ensures { OnOk result (out.new.items ≡ out.old.items ++ constant entry.now) }
{
    match entry {
        Constant::Gap => Ok(()),
        Constant::Utf8(bytes) => put_utf8(out, bytes.as_slice()),
        Constant::Integer(value) => {
            put_u8(out, 3)?;
            put_u32(out, value.cast_unsigned())
        }
        Constant::Float(bits) => {
            put_u8(out, 4)?;
            put_u32(out, *bits)
        }
        Constant::Long(value) => {
            put_u8(out, 5)?;
            put_u64(out, value.cast_unsigned())
        }
        Constant::Double(bits) => {
            put_u8(out, 6)?;
            put_u64(out, *bits)
        }
        Constant::Class(name) => put_index(out, 7, *name),
        Constant::Str(text) => put_index(out, 8, *text),
        Constant::Field(class, pair) => put_pair(out, 9, *class, *pair),
        Constant::Method(class, pair) => put_pair(out, 10, *class, *pair),
        Constant::IfaceMethod(class, pair) => put_pair(out, 11, *class, *pair),
        Constant::Pair(name, descriptor) => put_pair(out, 12, *name, *descriptor),
        Constant::Handle(kind, index) => {
            put_u8(out, 15)?;
            put_u8(out, *kind)?;
            put_u16(out, *index)
        }
        Constant::MethodType(descriptor) => put_index(out, 16, *descriptor),
        Constant::Dynamic(bootstrap, pair) => put_pair(out, 18, *bootstrap, *pair),
    }
}

fn put_constants(out: &mut Vec<u8>, pool: &[Constant]) -> Result<(), AllocError>
    requires { AllByRecursion IsWritableConstant pool.now }
    ensures { OnOk result (out.new.items ≡ out.old.items ++ flat_map constant pool.now) }
{
    for entry in pool {
        put_constant(out, entry)?;
    }
    Ok(())
}

/// Puts the count and the entries at the end.
pub fn put_pool(out: &mut Vec<u8>, pool: &[Constant]) -> Result<(), AllocError>
    requires count { length pool.now < 2 ^ 16 }
    requires each { AllByRecursion IsWritableConstant pool.now }
    ensures { OnOk result (out.new.items ≡ out.old.items ++ pool_table pool.now) }
{
    put_u16(out, pool.len() as u16)?;
    put_constants(out, pool)
}
