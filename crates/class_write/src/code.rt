//! The content of a Code attribute (JVMS 4.7.3).

ghost use Rattle.std.specs.Prelude.{◌≡◌, ◌<◌, ◌^◌, ◌++◌, OnOk, IfOk, length, flat_map};
ghost use Rattle.class_walk.specs.Layout.{code_spelling, handler, table};
ghost use Rattle.class_write.specs.Writable.{IsWritableCode};

use crate::members::put_attributes;
use crate::numbers::{put_u16, put_u32};
use class_walk::{RawCode, RawHandler};
use std::alloc::{AllocError, Global};

fn put_handler(out: &mut Vec<u8>, raw: RawHandler) -> Result<(), AllocError>
    ensures { OnOk result (out.new.items ≡ out.old.items ++ handler raw) }
{
    put_u16(out, raw.from)?;
    put_u16(out, raw.to)?;
    put_u16(out, raw.at)?;
    put_u16(out, raw.kind)
}

fn put_each_handler(out: &mut Vec<u8>, handlers: &[RawHandler]) -> Result<(), AllocError>
    ensures { OnOk result (out.new.items ≡ out.old.items ++ flat_map handler handlers.now) }
{
    for handler in handlers {
        put_handler(out, *handler)?;
    }
    Ok(())
}

fn put_handlers(out: &mut Vec<u8>, handlers: &[RawHandler]) -> Result<(), AllocError>
    requires { length handlers.now < 2 ^ 16 }
    ensures { OnOk result (out.new.items ≡ out.old.items ++ table handler handlers.now) }
{
    put_u16(out, handlers.len() as u16)?;
    put_each_handler(out, handlers)
}

/// The bytes of the content of a Code attribute. The places in it are not looked at.
pub fn write_code(alloc: Global, code: &RawCode) -> Result<Vec<u8>, AllocError>
    requires { IsWritableCode code.now }
    ensures { IfOk result (λ bytes. bytes.items ≡ code_spelling code.now) }
{
    let bytes = code.bytes.as_slice();
    let mut out = Vec::new(alloc);
    put_u16(&mut out, code.max_stack)?;
    put_u16(&mut out, code.max_locals)?;
    put_u32(&mut out, bytes.len() as u32)?;
    out.extend_from_slice(bytes)?;
    put_handlers(&mut out, code.handlers.as_slice())?;
    put_attributes(&mut out, code.attributes.as_slice())?;
    Ok(out)
}
