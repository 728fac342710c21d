//! Classes of objects, monitors, thrown objects and returns (JVMS 6.5 checkcast, monitorenter, athrow, ireturn).

ghost use Rattle.std.specs.Prelude.{◌≡◌};
ghost use Rattle.java_rows.specs.Objects.{casts, enters_monitor, exits_monitor, tests_class};
ghost use Rattle.java_rows.specs.Program.{class_at};
ghost use Rattle.java_rows.specs.Throws.{returns, throws_it};
ghost use Rattle.interp_plans.specs.Todos.{plan_of};
ghost use Rattle.interp_plans.specs.Uses.{frame_of};

use crate::here::Here;
use crate::program::JavaProgram;
use crate::values::with_operands;
use builtin_world::number::NULL_POINTER_EXCEPTION;
use frame_snapshot::{FrameEnd, Then, Todo, Value};
use instructions::ValueKind;
use interp_local::{one, two};
use op_core::Op;

impl<'a, P: JavaProgram> Here<'a, P> {
    /// The class of an object is checked.
    pub fn cast(&self, index: u16) -> Todo
        ensures { casts (P.units self.now.program.now) (frame_of self.now.frames.now.here) (class_at (P.units self.now.program.now) self.now.frames.now.here.method.class index) self.now.frames.now.here.stack
            ≡ plan_of (P.units self.now.program.now) self.now.thread (frame_of self.now.frames.now.here) result }
    {
        let Some(class) = self.class_at(index) else {
            return Todo::Stuck;
        };
        let Some(object) = one(self.frames) else {
            return Todo::Stuck;
        };
        if object == 0 {
            return Todo::Completes(with_operands(1), Value::Word(0));
        }
        Todo::Wants(Op::ClassOf(object), Then::Cast { object, class })
    }

    /// The class of an object is tested.
    pub fn test(&self, index: u16) -> Todo
        ensures { tests_class (P.units self.now.program.now) (frame_of self.now.frames.now.here) (class_at (P.units self.now.program.now) self.now.frames.now.here.method.class index) self.now.frames.now.here.stack
            ≡ plan_of (P.units self.now.program.now) self.now.thread (frame_of self.now.frames.now.here) result }
    {
        let Some(class) = self.class_at(index) else {
            return Todo::Stuck;
        };
        let Some(object) = one(self.frames) else {
            return Todo::Stuck;
        };
        if object == 0 {
            return Todo::Completes(with_operands(1), Value::Word(0));
        }
        Todo::Wants(Op::ClassOf(object), Then::Tested(class))
    }

    /// A monitor is entered.
    pub fn enter_monitor(&self) -> Todo
        ensures { enters_monitor (frame_of self.now.frames.now.here) self.now.frames.now.here.stack
            ≡ plan_of (P.units self.now.program.now) self.now.thread (frame_of self.now.frames.now.here) result }
    {
        let Some(object) = one(self.frames) else {
            return Todo::Stuck;
        };
        if object == 0 {
            return self.fail(NULL_POINTER_EXCEPTION);
        }
        Todo::Wants(Op::Enter(object), Then::Done(with_operands(1)))
    }

    /// A monitor is exited.
    pub fn exit_monitor(&self) -> Todo
        ensures { exits_monitor (frame_of self.now.frames.now.here) self.now.frames.now.here.stack
            ≡ plan_of (P.units self.now.program.now) self.now.thread (frame_of self.now.frames.now.here) result }
    {
        let Some(object) = one(self.frames) else {
            return Todo::Stuck;
        };
        if object == 0 {
            return self.fail(NULL_POINTER_EXCEPTION);
        }
        Todo::Wants(Op::Exit(object), Then::Exited(with_operands(1)))
    }

    /// An object is thrown.
    pub fn throw(&self) -> Todo
        ensures { throws_it (frame_of self.now.frames.now.here) self.now.frames.now.here.stack
            ≡ plan_of (P.units self.now.program.now) self.now.thread (frame_of self.now.frames.now.here) result }
    {
        let Some(object) = one(self.frames) else {
            return Todo::Stuck;
        };
        if object == 0 {
            return self.fail(NULL_POINTER_EXCEPTION);
        }
        Todo::Wants(Op::ClassOf(object), Then::Thrown(object))
    }

    /// The frame returns.
    pub fn return_value(&self, kind: Option<ValueKind>) -> Todo
        ensures { returns (frame_of self.now.frames.now.here) kind self.now.frames.now.here.stack
            ≡ plan_of (P.units self.now.program.now) self.now.thread (frame_of self.now.frames.now.here) result }
    {
        match kind {
            None => self.leave(FrameEnd::Returned(Value::None)),
            Some(ValueKind::Long) => match two(self.frames) {
                Some((high, low)) => self.leave(FrameEnd::Returned(Value::Long { high, low })),
                None => Todo::Stuck,
            },
            Some(_) => match one(self.frames) {
                Some(word) => self.leave(FrameEnd::Returned(Value::Word(word))),
                None => Todo::Stuck,
            },
        }
    }
}
