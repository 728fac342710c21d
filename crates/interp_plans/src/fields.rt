//! Fields of objects (JVMS 6.5 getfield, putfield).

ghost use Rattle.std.specs.Prelude.{◌≡◌, ◌<◌, ◌+◌, ◌^◌};
ghost use Rattle.java_rows.specs.Objects.{gets_field, puts_field, puts_long, puts_word};
ghost use Rattle.java_rows.specs.Program.{field_at};
ghost use Rattle.interp_plans.specs.Todos.{plan_of};
ghost use Rattle.interp_plans.specs.Uses.{frame_of};

use crate::here::Here;
use crate::program::JavaProgram;
use crate::values::{kept_word, with_operands};
use builtin_world::number::NULL_POINTER_EXCEPTION;
use frame_snapshot::{Then, Todo};
use interp_local::{one, three, two};
use link_types::ValueType;
use op_core::Op;

impl<'a, P: JavaProgram> Here<'a, P> {
    /// A field is read.
    #[inline(always)]
    pub fn get_field(&self, index: u16) -> Todo
        ensures { gets_field (frame_of self.now.frames.now.here) (field_at (P.units self.now.program.now) self.now.frames.now.here.method.class index) self.now.frames.now.here.stack
            ≡ plan_of (P.units self.now.program.now) self.now.thread (frame_of self.now.frames.now.here) result }
    {
        let Some(field) = self.field_at(index) else {
            return Todo::Stuck;
        };
        let Some(object) = one(self.frames) else {
            return Todo::Stuck;
        };
        if object == 0 {
            return self.fail(NULL_POINTER_EXCEPTION);
        }
        self.read_value(1, field.kind, object, field.place)
    }

    #[inline(always)]
    fn put_word(&self, kind: ValueType, place: u32) -> Todo
        ensures { puts_word (frame_of self.now.frames.now.here) kind place self.now.frames.now.here.stack
            ≡ plan_of (P.units self.now.program.now) self.now.thread (frame_of self.now.frames.now.here) result }
    {
        let Some((word, object)) = two(self.frames) else {
            return Todo::Stuck;
        };
        if object == 0 {
            return self.fail(NULL_POINTER_EXCEPTION);
        }
        let write = Op::Write(object, place, kept_word(kind, word));
        Todo::Wants(write, Then::Done(with_operands(2)))
    }

    #[inline(always)]
    fn put_long(&self, place: u32) -> Todo
        requires { place + 1 < 2 ^ 32 }
        ensures { puts_long (frame_of self.now.frames.now.here) place self.now.frames.now.here.stack
            ≡ plan_of (P.units self.now.program.now) self.now.thread (frame_of self.now.frames.now.here) result }
    {
        let Some((high, low, object)) = three(self.frames) else {
            return Todo::Stuck;
        };
        if object == 0 {
            return self.fail(NULL_POINTER_EXCEPTION);
        }
        self.write_long(3, object, place, low, high)
    }

    /// A field is written.
    #[inline(always)]
    pub fn put_field(&self, index: u16) -> Todo
        ensures { puts_field (frame_of self.now.frames.now.here) (field_at (P.units self.now.program.now) self.now.frames.now.here.method.class index) self.now.frames.now.here.stack
            ≡ plan_of (P.units self.now.program.now) self.now.thread (frame_of self.now.frames.now.here) result }
    {
        let Some(field) = self.field_at(index) else {
            return Todo::Stuck;
        };
        match field.kind {
            ValueType::Long => self.put_long(field.place),
            kind => self.put_word(kind, field.place),
        }
    }
}
