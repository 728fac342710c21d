//! A class (JVMS 4.1).

ghost use Rattle.std.specs.Prelude.{◌≡◌, ◌<◌, ◌^◌, ◌++◌, OnOk, IfOk, length, flat_map};
ghost use Rattle.class_walk.specs.Layout.{u2, front, spelling, table};
ghost use Rattle.class_write.specs.Writable.{IsWritable};

use crate::members::{put_attributes, put_members};
use crate::numbers::{put_u16, put_u32};
use crate::pool::put_pool;
use class_walk::RawClass;
use std::alloc::{AllocError, Global};

/// The number with which each class file begins.
const MAGIC: u32 = 0xCAFE_BABE;

fn put_each_index(out: &mut Vec<u8>, indices: &[u16]) -> Result<(), AllocError>
    ensures { OnOk result (out.new.items ≡ out.old.items ++ flat_map u2 indices.now) }
{
    for index in indices {
        put_u16(out, *index)?;
    }
    Ok(())
}

fn put_indices(out: &mut Vec<u8>, indices: &[u16]) -> Result<(), AllocError>
    requires { length indices.now < 2 ^ 16 }
    ensures { OnOk result (out.new.items ≡ out.old.items ++ table u2 indices.now) }
{
    put_u16(out, indices.len() as u16)?;
    put_each_index(out, indices)
}

/// Appends what comes before the fields.
fn put_front(out: &mut Vec<u8>, class: &RawClass) -> Result<(), AllocError>
    requires { IsWritable class.now }
    ensures { OnOk result (out.new.items ≡ out.old.items ++ front class.now) }
{
    put_u32(out, MAGIC)?;
    put_u16(out, class.minor)?;
    put_u16(out, class.major)?;
    put_pool(out, class.pool.as_slice())?;
    put_u16(out, class.flags)?;
    put_u16(out, class.this_class)?;
    put_u16(out, class.super_class)?;
    put_indices(out, class.interfaces.as_slice())
}

/// The bytes of a class. The places in it are not looked at.
pub fn write_class(alloc: Global, class: &RawClass) -> Result<Vec<u8>, AllocError>
    requires { IsWritable class.now }
    ensures { IfOk result (λ bytes. bytes.items ≡ spelling class.now) }
{
    let mut out = Vec::new(alloc);
    put_front(&mut out, class)?;
    put_members(&mut out, class.fields.as_slice())?;
    put_members(&mut out, class.methods.as_slice())?;
    put_attributes(&mut out, class.attributes.as_slice())?;
    Ok(out)
}
