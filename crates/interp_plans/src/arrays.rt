//! Arrays (JVMS 6.5 iaload, aastore, arraylength, newarray).

ghost use Rattle.std.specs.Prelude.{◌≡◌};
ghost use Rattle.java_rows.specs.Objects.{gets_length, loads_element, makes_array, stores_element};
ghost use Rattle.interp_plans.specs.Todos.{plan_of};
ghost use Rattle.interp_plans.specs.Uses.{frame_of};

use crate::here::Here;
use crate::program::JavaProgram;
use crate::values::with_operands;
use builtin_world::number::{NEGATIVE_ARRAY_SIZE_EXCEPTION, NULL_POINTER_EXCEPTION};
use frame_snapshot::{Then, Todo};
use instructions::ElementKind;
use interp_local::{four, one, three, two};
use op_core::Op;

impl<'a, P: JavaProgram> Here<'a, P> {
    /// An element is read.
    #[inline(always)]
    pub fn load(&self, kind: ElementKind) -> Todo
        ensures { loads_element (frame_of self.now.frames.now.here) kind self.now.frames.now.here.stack
            ≡ plan_of (P.units self.now.program.now) self.now.thread (frame_of self.now.frames.now.here) result }
    {
        let Some((_, array)) = two(self.frames) else {
            return Todo::Stuck;
        };
        if array == 0 {
            return self.fail(NULL_POINTER_EXCEPTION);
        }
        Todo::Wants(Op::ClassOf(array), Then::Loads(kind))
    }

    /// An element is written.
    #[inline(always)]
    pub fn store(&self, kind: ElementKind) -> Todo
        ensures { stores_element (P.units self.now.program.now) (frame_of self.now.frames.now.here) kind self.now.frames.now.here.stack
            ≡ plan_of (P.units self.now.program.now) self.now.thread (frame_of self.now.frames.now.here) result }
    {
        let array = match kind {
            ElementKind::Long => match four(self.frames) {
                Some((_, _, _, array)) => array,
                None => return Todo::Stuck,
            },
            _ => match three(self.frames) {
                Some((_, _, array)) => array,
                None => return Todo::Stuck,
            },
        };
        if array == 0 {
            return self.fail(NULL_POINTER_EXCEPTION);
        }
        Todo::Wants(Op::ClassOf(array), Then::Stores(kind))
    }

    /// The length of an array.
    #[inline(always)]
    pub fn array_length(&self) -> Todo
        ensures { gets_length (frame_of self.now.frames.now.here) self.now.frames.now.here.stack
            ≡ plan_of (P.units self.now.program.now) self.now.thread (frame_of self.now.frames.now.here) result }
    {
        let Some(array) = one(self.frames) else {
            return Todo::Stuck;
        };
        if array == 0 {
            return self.fail(NULL_POINTER_EXCEPTION);
        }
        Todo::Wants(Op::ClassOf(array), Then::Length(with_operands(1)))
    }

    /// A new array of a class.
    pub fn make_array(&self, class: Option<u32>) -> Todo
        ensures { makes_array (frame_of self.now.frames.now.here) class self.now.frames.now.here.stack
            ≡ plan_of (P.units self.now.program.now) self.now.thread (frame_of self.now.frames.now.here) result }
    {
        let Some(class) = class else {
            return Todo::Stuck;
        };
        let Some(length) = one(self.frames) else {
            return Todo::Stuck;
        };
        if length >= 1 << 31 {
            return self.fail(NEGATIVE_ARRAY_SIZE_EXCEPTION);
        }
        Todo::Wants(Op::New(class, length), Then::Made(with_operands(1)))
    }
}
