//! The words of values that objects hold. Of a long the low half comes first.

ghost use Rattle.std.specs.Prelude.{◌≡◌, ◌<◌, ◌+◌, ◌^◌, ◌++◌, drop};
ghost use Rattle.java_rows.specs.Plan.{completes};
ghost use Rattle.frame_snapshot.specs.declared.stage.Caller.{Caller};
ghost use Rattle.java_rows.specs.Numbers.{kept};
ghost use Rattle.java_rows.specs.Objects.{reads_value, reads_long, writes_long};
ghost use Rattle.interp_plans.specs.Todos.{plan_of};
ghost use Rattle.interp_plans.specs.Uses.{frame_of};

use crate::here::Here;
use crate::program::JavaProgram;
use frame_snapshot::{CallSite, Caller, Then, Todo};
use interp_local::{to_byte, to_char, to_short};
use link_types::ValueType;
use op_core::Op;

/// A part of an instruction with `count` operands.
#[inline(always)]
pub fn with_operands(count: u16) -> CallSite
    ensures { result ≡ record { caller = Caller.Instruction; operands = count } }
{
    CallSite {
        caller: Caller::Instruction,
        operands: count,
    }
}

/// The word that a field of a type keeps of an int (JVMS 6.5 putfield).
#[inline(always)]
pub fn kept_word(kind: ValueType, word: u32) -> u32
    ensures { result ≡ kept kind word }
{
    match kind {
        ValueType::Boolean => word % 2,
        ValueType::Byte => to_byte(word),
        ValueType::Char => to_char(word),
        ValueType::Short => to_short(word),
        _ => word,
    }
}

impl<'a, P: JavaProgram> Here<'a, P> {
    /// A long is read from a place of an object, and takes the place of `count` operands.
    #[inline(always)]
    pub fn read_long(&self, count: u16, object: u32, place: u32) -> Todo
        requires { place + 1 < 2 ^ 32 }
        ensures { reads_long object place (λ words. completes (frame_of self.now.frames.now.here) (words ++ drop count self.now.frames.now.here.stack))
            ≡ plan_of (P.units self.now.program.now) self.now.thread (frame_of self.now.frames.now.here) result }
    {
        let then = Then::LowRead {
            site: with_operands(count),
            object,
            place: place + 1,
        };
        Todo::Wants(Op::Read(object, place), then)
    }

    /// A value of a type is read, and takes the place of `count` operands.
    #[inline(always)]
    pub fn read_value(&self, count: u16, kind: ValueType, object: u32, place: u32) -> Todo
        requires { place + 1 < 2 ^ 32 }
        ensures { reads_value kind object place (λ words. completes (frame_of self.now.frames.now.here) (words ++ drop count self.now.frames.now.here.stack))
            ≡ plan_of (P.units self.now.program.now) self.now.thread (frame_of self.now.frames.now.here) result }
    {
        match kind {
            ValueType::Long => self.read_long(count, object, place),
            _ => Todo::Wants(Op::Read(object, place), Then::Read(with_operands(count))),
        }
    }

    /// A long is written to a place of an object, which takes `count` operands off the stack.
    #[inline(always)]
    pub fn write_long(&self, count: u16, object: u32, place: u32, low: u32, high: u32) -> Todo
        requires { place + 1 < 2 ^ 32 }
        ensures { writes_long object place low high (completes (frame_of self.now.frames.now.here) (drop count self.now.frames.now.here.stack))
            ≡ plan_of (P.units self.now.program.now) self.now.thread (frame_of self.now.frames.now.here) result }
    {
        let then = Then::LowWritten {
            site: with_operands(count),
            object,
            place: place + 1,
            high,
        };
        Todo::Wants(Op::Write(object, place, low), then)
    }
}
