//! Attributes, fields and methods (JVMS 4.5 to 4.7).

ghost use Rattle.std.specs.Prelude.{◌≡◌, ◌<◌, ◌^◌, ◌++◌, OnOk, length, flat_map};
ghost use Rattle.std.specs.List.{AllByRecursion};
ghost use Rattle.class_walk.specs.Layout.{attribute, member, table, IsCounted};
ghost use Rattle.class_write.specs.Writable.{IsWritableAttribute, IsWritableMember};

use crate::numbers::{put_u16, put_u32};
use class_walk::{RawAttribute, RawMember};
use std::alloc::AllocError;

/// Puts an attribute at the end.
fn put_attribute(out: &mut Vec<u8>, raw: &RawAttribute) -> Result<(), AllocError>
    requires { IsWritableAttribute raw.now }
    ensures { OnOk result (out.new.items ≡ out.old.items ++ attribute raw.now) }
{
    let content = raw.content.as_slice();
    put_u16(out, raw.name)?;
    put_u32(out, content.len() as u32)?;
    out.extend_from_slice(content)?;
    Ok(())
}

fn put_each_attribute(out: &mut Vec<u8>, attributes: &[RawAttribute]) -> Result<(), AllocError>
    requires { AllByRecursion IsWritableAttribute attributes.now }
    ensures { OnOk result (out.new.items ≡ out.old.items ++ flat_map attribute attributes.now) }
{
    for attribute in attributes {
        put_attribute(out, attribute)?;
    }
    Ok(())
}

/// Puts a table of attributes at the end.
pub fn put_attributes(out: &mut Vec<u8>, attributes: &[RawAttribute]) -> Result<(), AllocError>
    requires { IsCounted IsWritableAttribute attributes.now }
    ensures { OnOk result (out.new.items ≡ out.old.items ++ table attribute attributes.now) }
{
    put_u16(out, attributes.len() as u16)?;
    put_each_attribute(out, attributes)
}

/// Puts a field or a method at the end.
fn put_member(out: &mut Vec<u8>, raw: &RawMember) -> Result<(), AllocError>
    requires { IsWritableMember raw.now }
    ensures { OnOk result (out.new.items ≡ out.old.items ++ member raw.now) }
{
    put_u16(out, raw.flags)?;
    put_u16(out, raw.name)?;
    put_u16(out, raw.descriptor)?;
    put_attributes(out, raw.attributes.as_slice())
}

fn put_each_member(out: &mut Vec<u8>, members: &[RawMember]) -> Result<(), AllocError>
    requires { AllByRecursion IsWritableMember members.now }
    ensures { OnOk result (out.new.items ≡ out.old.items ++ flat_map member members.now) }
{
    for member in members {
        put_member(out, member)?;
    }
    Ok(())
}

/// Puts a table of fields or of methods at the end.
pub fn put_members(out: &mut Vec<u8>, members: &[RawMember]) -> Result<(), AllocError>
    requires { IsCounted IsWritableMember members.now }
    ensures { OnOk result (out.new.items ≡ out.old.items ++ table member members.now) }
{
    put_u16(out, members.len() as u16)?;
    put_each_member(out, members)
}
