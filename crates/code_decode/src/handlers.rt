//! Exception handlers (JVMS 4.7.3).

ghost use Rattle.std.specs.Prelude.{◌≡◌, ◌↔◌, ◌<◌, ◌^◌, ℕ, IsTrue, MatchOption, length};
ghost use Rattle.code_decode.specs.Answer.{IsAnswer};
ghost use Rattle.code_decode.specs.declared.code.Handler.{Handler};
ghost use Rattle.code_decode.specs.Handlers.{IsCaught, end_at, IsHandler, AreHandlers, HandlersRefuse};

use crate::code::Handler;
use crate::refusal::CodeRefusal;
use class_read::{Constant, RawHandler};
use instructions::Steps;
use rows::Rows;
use std::alloc::Global;

/// Whether a handler may catch this: a class, or everything.
fn is_caught(pool: &[Constant], kind: u16) -> bool
    ensures { IsTrue result ↔ IsCaught pool.now kind }
{
    kind == 0 || matches!(pool.get(usize::from(kind)), Some(Constant::Class(_)))
}

/// The number of the instruction at an offset, or the count of instructions at the code's end.
fn end_at(steps: &Steps, size: u32, offset: u32) -> Option<u32>
    requires { length steps.now < 2 ^ 32 }
    ensures { result ≡ end_at steps.now size offset }
{
    if offset == size {
        Some(steps.len() as u32)
    } else {
        steps.number_at(offset)
    }
}

/// The handler that an entry of the exception table stands for, if there is one.
fn handler(pool: &[Constant], steps: &Steps, size: u32, raw: RawHandler) -> Option<Handler>
    requires { length steps.now < 2 ^ 32 }
    ensures { MatchOption result ((h : Handler) → ¬ IsHandler pool.now steps.now size raw h) (λ h. IsHandler pool.now steps.now size raw h) }
{
    let (from, to, at) = (u32::from(raw.from), u32::from(raw.to), u32::from(raw.at));
    let first = steps.number_at(from)?;
    let end = end_at(steps, size, to)?;
    let entry = steps.number_at(at)?;
    if from >= to || !is_caught(pool, raw.kind) {
        return None;
    }
    Some(Handler {
        from,
        to,
        at,
        kind: raw.kind,
        first,
        end,
        entry,
    })
}

/// The handlers of an exception table, of a code of `size` bytes.
pub fn handlers(
    alloc: Global,
    pool: &[Constant],
    steps: &Steps,
    size: u32,
    table: &[RawHandler],
) -> Result<Rows<Handler>, CodeRefusal>
    requires steps { length steps.now < 2 ^ 32 }
    requires count { length table.now < 2 ^ 16 }
    ensures { IsAnswer result (AreHandlers pool.now steps.now size table.now) (HandlersRefuse pool.now steps.now size table.now) }
{
    let mut handlers = Rows::new(alloc);
    for (number, raw) in table.iter().enumerate() {
        match handler(pool, steps, size, *raw) {
            Some(handler) => handlers.push(handler)?,
            None => return Err(CodeRefusal::Handler(number as u16)),
        }
    }
    Ok(handlers)
}
