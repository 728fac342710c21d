//! What the instruction at which a frame begins comes to.

ghost use Rattle.std.specs.Prelude.{◌≡◌, Some, IfSome, IsNone};
ghost use Rattle.interp_local.specs.declared.step.LocalStep.{LocalStep};
ghost use Rattle.interp_local.specs.Steps.{kind_of, local_now};
ghost use Rattle.java_rows.specs.Program.{steps_of};
ghost use Rattle.java_rows.specs.Rows.{row_with_operations, plain_plan, field_plan, call_plan, class_plan};
ghost use Rattle.java_rows.specs.Thread.{begun};
ghost use Rattle.interp_plans.specs.Initializing.{instruction_at};
ghost use Rattle.interp_plans.specs.Todos.{plan_of};
ghost use Rattle.interp_plans.specs.Uses.{frame_of};
ghost use Rattle.instructions.specs.declared.what.What.{What};

use crate::here::Here;
use crate::program::JavaProgram;
use frame_snapshot::Todo;
use instructions::{Call, ClassUse, FieldAccess, Instr, Plain, Target, What};
use interp_local::{LocalStep, look_ahead};

impl<'a, P: JavaProgram> Here<'a, P> {
    fn plain(&self, op: Plain) -> Todo
        ensures { plain_plan (P.units self.now.program.now) (frame_of self.now.frames.now.here) op
            ≡ plan_of (P.units self.now.program.now) self.now.thread (frame_of self.now.frames.now.here) result }
    {
        match op {
            Plain::ArrayLoad(kind) => self.load(kind),
            Plain::ArrayStore(kind) => self.store(kind),
            Plain::Return(kind) => self.return_value(kind),
            Plain::ArrayLength => self.array_length(),
            Plain::Throw => self.throw(),
            Plain::MonitorEnter => self.enter_monitor(),
            Plain::MonitorExit => self.exit_monitor(),
            _ => Todo::Stuck,
        }
    }

    fn field(&self, access: FieldAccess, index: u16) -> Todo
        requires { instruction_at (P.units self.now.program.now) (frame_of self.now.frames.now.here) ≡ Some (What.Field access index) }
        ensures { field_plan (P.units self.now.program.now) (frame_of self.now.frames.now.here) access index
            ≡ plan_of (P.units self.now.program.now) self.now.thread (frame_of self.now.frames.now.here) result }
    {
        match access {
            FieldAccess::GetStatic => self.get_static(index),
            FieldAccess::PutStatic => self.put_static(index),
            FieldAccess::GetField => self.get_field(index),
            FieldAccess::PutField => self.put_field(index),
        }
    }

    fn call_by(&self, call: Call, index: u16) -> Todo
        requires { instruction_at (P.units self.now.program.now) (frame_of self.now.frames.now.here) ≡ Some (What.Call call index) }
        ensures { call_plan (P.units self.now.program.now) self.now.thread (frame_of self.now.frames.now.here) call index
            ≡ plan_of (P.units self.now.program.now) self.now.thread (frame_of self.now.frames.now.here) result }
    {
        match call {
            Call::Virtual => self.call_virtual(index),
            Call::Special => self.call_special(index),
            Call::Static => self.call_static(index),
        }
    }

    fn class(&self, purpose: ClassUse, index: u16) -> Todo
        requires { instruction_at (P.units self.now.program.now) (frame_of self.now.frames.now.here) ≡ Some (What.Class purpose index) }
        ensures { class_plan (P.units self.now.program.now) (frame_of self.now.frames.now.here) purpose index
            ≡ plan_of (P.units self.now.program.now) self.now.thread (frame_of self.now.frames.now.here) result }
    {
        match purpose {
            ClassUse::New => self.make_object(index),
            ClassUse::NewArray => self.make_array(self.array_at(index)),
            ClassUse::CheckCast => self.cast(index),
            ClassUse::InstanceOf => self.test(index),
        }
    }

    #[inline(always)]
    fn with_operations(&self, what: &What<Target>) -> Todo
        requires { instruction_at (P.units self.now.program.now) (frame_of self.now.frames.now.here) ≡ Some what.now }
        ensures { row_with_operations (P.units self.now.program.now) self.now.thread (frame_of self.now.frames.now.here) what.now
            ≡ plan_of (P.units self.now.program.now) self.now.thread (frame_of self.now.frames.now.here) result }
    {
        match what {
            What::Plain(op) => self.plain(*op),
            What::Field(access, index) => self.field(*access, *index),
            What::Call(call, index) => self.call_by(*call, *index),
            What::InterfaceCall(index) => self.call_interface(*index),
            What::Class(purpose, index) => self.class(*purpose, *index),
            What::NewArray(kind) => self.make_array(self.program.primitive_array(*kind)),
            _ => Todo::Stuck,
        }
    }

    /// What is to be done at the instruction's beginning, given the instructions of the frame's method and what a local
    /// step there would come to; `None` where it needs no operation.
    #[inline(always)]
    #[tactic(auto, using(crate::proofs::BeginLemmas::begun_none, crate::proofs::BeginLemmas::begun_other))]
    pub fn begin_by(&self, steps: &[Instr<Target>], step: LocalStep) -> Option<Todo>
        requires steps { steps.now ≡ steps_of (P.units self.now.program.now) self.now.frames.now.here.method }
        requires step { step ≡ kind_of (local_now (P.units self.now.program.now) (steps_of (P.units self.now.program.now) self.now.frames.now.here.method) self.now.frames.now) }
        ensures some { IfSome result (λ todo. begun (P.units self.now.program.now) self.now.thread (frame_of self.now.frames.now.here)
            ≡ plan_of (P.units self.now.program.now) self.now.thread (frame_of self.now.frames.now.here) todo) }
        ensures none { IsNone result → step ≡ LocalStep.Moved }
    {
        match step {
            LocalStep::Moved => None,
            LocalStep::Throw(class) => Some(self.fail(class)),
            LocalStep::Other => match self.instruction_among(steps) {
                Some(instruction) => Some(self.with_operations(&instruction.what)),
                None => Some(Todo::Stuck),
            },
        }
    }

    /// What is to be done at the instruction's beginning; `None` where it needs no operation.
    pub fn begin(&self) -> Option<Todo>
        ensures some { IfSome result (λ todo. begun (P.units self.now.program.now) self.now.thread (frame_of self.now.frames.now.here)
            ≡ plan_of (P.units self.now.program.now) self.now.thread (frame_of self.now.frames.now.here) todo) }
        ensures none { IsNone result → kind_of (local_now (P.units self.now.program.now) (steps_of (P.units self.now.program.now) self.now.frames.now.here.method) self.now.frames.now) ≡ LocalStep.Moved }
    {
        let steps = self.steps();
        self.begin_by(steps, look_ahead(self.program, steps, self.frames))
    }
}
