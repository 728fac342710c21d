//! The code of a method (JVMS 4.7.3).

ghost use Rattle.std.specs.Prelude.{◌≡◌, ◌<◌, ◌^◌, ◌⊎◌, IfOk, IfErr, length};
ghost use Rattle.code_decode.specs.declared.code.Code.{Code};
ghost use Rattle.code_decode.specs.declared.refusal.CodeRefusal.{CodeRefusal};
ghost use Rattle.code_decode.specs.declared.refusal.CodeRefusal.TheVariants.{NoMemory};
ghost use Rattle.code_decode.specs.Answer.{IsAnswer, IsRead, IsRefused};
ghost use Rattle.code_decode.specs.Entry.{HasMethodType};
ghost use Rattle.code_decode.specs.Code.{IsCode, CodeRefuses};
ghost use Rattle.code_decode.specs.Method.{StandsForFile, HasCode, IsMethodCode, MethodRefuses, IsCodeOf, CodeOfRefuses};

use crate::code::Code;
use crate::entry::entry_count;
use crate::handlers::handlers;
use crate::parts::{frames, steps};
use crate::refusal::CodeRefusal;
use class_read::{ClassFile, CodeAttribute, Member, Pool};
use std::alloc::Global;

/// The code that an attribute stands for, in a method that begins with `entry` values.
fn code(
    alloc: Global,
    pool: &Pool<'_>,
    entry: u16,
    attribute: &CodeAttribute,
) -> Result<Code, CodeRefusal>
    requires { length attribute.now.handlers < 2 ^ 16 }
    ensures { IsAnswer result (IsCode pool.now entry attribute.now) (CodeRefuses pool.now entry attribute.now) }
{
    let constants = pool.constants();
    let bytes = attribute.bytes.as_slice();
    let steps = steps(alloc, pool, bytes)?;
    let size = bytes.len() as u32;
    let handlers = handlers(
        alloc,
        constants,
        &steps,
        size,
        attribute.handlers.as_slice(),
    )?;
    let frames = frames(alloc, constants, &steps, entry, attribute.maps.as_slice())?;
    Ok(Code {
        max_stack: attribute.max_stack,
        max_locals: attribute.max_locals,
        steps,
        handlers,
        frames,
    })
}

/// The code of a method that has this attribute.
fn method_code(
    alloc: Global,
    pool: &Pool<'_>,
    method: &Member,
    attribute: &CodeAttribute,
) -> Result<Code, CodeRefusal>
    requires kind { HasMethodType pool.now method.now }
    requires count { length attribute.now.handlers < 2 ^ 16 }
    ensures { IsAnswer result (IsMethodCode pool.now method.now attribute.now) (MethodRefuses pool.now method.now attribute.now) }
{
    let entry = entry_count(pool, method);
    code(alloc, pool, entry, attribute)
}

/// The code of a method, by its number in the class, whose constant pool is this one.
pub fn code_of(
    alloc: Global,
    pool: &Pool<'_>,
    file: &ClassFile,
    method: u16,
) -> Result<Code, CodeRefusal>
    requires pool { pool.now ≡ file.now.pool }
    requires file { StandsForFile file.now }
    requires code { HasCode file.now method }
    ensures { IsAnswer result (IsCodeOf file.now method) (CodeOfRefuses file.now method) }
{
    match file.methods.get(usize::from(method)) {
        Some(member) => match &member.code {
            Some(attribute) => method_code(alloc, pool, member, attribute),
            None => unreachable!(),
        },
        None => unreachable!(),
    }
}

/// Reads the code of a method, by its number in the class.
///
/// What is refused is the first that is wrong: the code's length, the instructions by offset, the targets of
/// branches by offset, the exception handlers, the stack map frames. `NoMemory` may come anywhere.
pub fn decode(alloc: Global, file: &ClassFile, method: u16) -> Result<Code, CodeRefusal>
    requires file { StandsForFile file.now }
    requires code { HasCode file.now method }
    // What is read is the code of the method.
    ensures found { IfOk result (λ code. IsCodeOf file.now method code) }
    // It is read, unless memory runs out.
    ensures only { (code : Code) → IsCodeOf file.now method code → IsRead result code }
    // What is refused is the first that is wrong.
    ensures exact { IfErr result (λ e. (e ≡ NoMemory) ⊎ CodeOfRefuses file.now method e) }
    // The first that is wrong is refused, unless memory runs out.
    ensures first { (e : CodeRefusal) → CodeOfRefuses file.now method e → IsRefused result e }
{
    let pool = Pool::new(alloc, file.pool.as_slice())?;
    code_of(alloc, &pool, file, method)
}
