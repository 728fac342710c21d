//! The code of each method of a class.

ghost use Rattle.std.specs.Prelude.{◌≡◌, ◌<◌, ◌⊎◌, IfOk, IfErr, length};
ghost use Rattle.code_decode.specs.declared.code.ClassUnit.{ClassUnit};
ghost use Rattle.code_decode.specs.declared.code.CodeAt.{CodeAt};
ghost use Rattle.code_decode.specs.declared.refusal.CodeRefusal.TheVariants.{NoMemory};
ghost use Rattle.code_decode.specs.Method.{StandsForFile, CodeOfRefuses};
ghost use Rattle.code_decode.specs.Answer.{IsAnswer};
ghost use Rattle.code_decode.specs.Unit.{IsCodeEntry, AreCodesRead, IsUnit, ClassRefuses, IsUnitRead, IsRefusedAt};

use crate::code::{ClassUnit, Code, CodeAt};
use crate::method::code_of;
use crate::refusal::CodeRefusal;
use class_read::{ClassFile, Pool};
use rows::Rows;
use std::alloc::Global;

/// The code of a method, if it has one.
fn code_entry(
    alloc: Global,
    pool: &Pool<'_>,
    file: &ClassFile,
    method: u16,
) -> Result<Option<Code>, CodeRefusal>
    requires pool { pool.now ≡ file.now.pool }
    requires file { StandsForFile file.now }
    requires method { method < length file.now.methods }
    ensures { IsAnswer result (IsCodeEntry file.now method) (CodeOfRefuses file.now method) }
{
    match file.methods.get(usize::from(method)) {
        Some(member) => match &member.code {
            Some(_) => {
                let code = code_of(alloc, pool, file, method)?;
                Ok(Some(code))
            }
            None => Ok(None),
        },
        None => unreachable!(),
    }
}

/// The codes of the methods, by number.
fn codes(alloc: Global, pool: &Pool<'_>, file: &ClassFile) -> Result<Rows<Option<Code>>, CodeAt>
    requires pool { pool.now ≡ file.now.pool }
    requires file { StandsForFile file.now }
    ensures { AreCodesRead result file.now }
{
    let mut codes = Rows::new(alloc);
    for method in 0..file.methods.len() as u16 {
        let code = match code_entry(alloc, pool, file, method) {
            Ok(code) => code,
            Err(refusal) => return Err(CodeAt { method, refusal }),
        };
        match codes.push(code) {
            Ok(()) => {}
            Err(error) => {
                let refusal = CodeRefusal::from(error);
                return Err(CodeAt { method, refusal });
            }
        }
    }
    Ok(codes)
}

/// The codes of the methods. What the texts of the pool are is found once for all of them.
fn all_codes(alloc: Global, file: &ClassFile) -> Result<Rows<Option<Code>>, CodeAt>
    requires { StandsForFile file.now }
    ensures { AreCodesRead result file.now }
{
    match Pool::new(alloc, file.pool.as_slice()) {
        Ok(pool) => codes(alloc, &pool, file),
        Err(error) => Err(CodeAt {
            method: 0,
            refusal: CodeRefusal::from(error),
        }),
    }
}

/// Reads the code of each method of a class.
///
/// What is refused is the first method whose code [`decode`](crate::decode) refuses, with its refusal. `NoMemory` may come at
/// any method.
pub fn decode_class(alloc: Global, file: ClassFile) -> Result<ClassUnit, CodeAt>
    requires { StandsForFile file }
    // What is read is the code of each method.
    ensures found { IfOk result (λ unit. IsUnit file unit) }
    // It is read, unless memory runs out.
    ensures only { (unit : ClassUnit) → IsUnit file unit → IsUnitRead result unit }
    // What is refused is the first method whose code is.
    ensures exact { IfErr result (λ at. (at.refusal ≡ NoMemory) ⊎ ClassRefuses file at) }
    // The first is refused, unless memory runs out.
    ensures first { (at : CodeAt) → ClassRefuses file at → IsRefusedAt result at }
{
    let codes = all_codes(alloc, &file)?;
    Ok(ClassUnit { file, codes })
}
