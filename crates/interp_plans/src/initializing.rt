//! Initialization of classes, and the instructions that begin with it (JVMS 5.5, 6.5 new, getstatic, invokestatic).

ghost use Rattle.std.specs.Prelude.{◌≡◌, ◌<◌, ◌+◌, ◌^◌, Some, IfSome, slice_get, suc};
ghost use Rattle.frame_snapshot.specs.declared.stage.Caller.{Caller};
ghost use Rattle.instructions.specs.declared.operation.Call.{Call};
ghost use Rattle.instructions.specs.declared.operation.ClassUse.{ClassUse};
ghost use Rattle.instructions.specs.declared.operation.FieldAccess.{FieldAccess};
ghost use Rattle.instructions.specs.declared.what.What.{What};
ghost use Rattle.java_rows.specs.Initialization.{makes_object, gets_static, puts_static, calls_static};
ghost use Rattle.java_rows.specs.Program.{class_at, field_at, method_at};
ghost use Rattle.link_rules.specs.Operands.{operand};
ghost use Rattle.interp_plans.specs.Initializing as spec;
ghost use Rattle.interp_plans.specs.Initializing.{chain_of, instruction_at};
ghost use Rattle.interp_plans.specs.Todos.{plan_of, plan_reached};
ghost use Rattle.interp_plans.specs.Uses.{frame_of};

use crate::here::Here;
use crate::program::JavaProgram;
use crate::reached::Reached;
use crate::values::{kept_word, with_operands};
use frame_snapshot::{CallSite, Caller, Then, Todo, Value};
use instructions::{Call, ClassUse, FieldAccess, Target, What};
use interp_local::{one, two};
use link_types::{FieldOperand, Operand, ValueType};
use op_core::Op;

impl<'a, P: JavaProgram> Here<'a, P> {
    // ---- the class that is initialized

    fn owner(&self, index: u16) -> u32
        ensures { result ≡ spec.owner_of (field_at (P.units self.now.program.now) self.now.frames.now.here.method.class index) }
    {
        match self.field_at(index) {
            Some(field) => field.owner,
            None => 0,
        }
    }

    fn declarer(&self, index: u16) -> u32
        ensures { result ≡ spec.declarer_of (method_at (P.units self.now.program.now) self.now.frames.now.here.method.class index) }
    {
        match self.method_at(index) {
            Some(method) => method.method.class,
            None => 0,
        }
    }

    fn class_of_instruction(&self, what: &What<Target>) -> u32
        ensures { result ≡ spec.class_of_instruction (P.units self.now.program.now) self.now.frames.now.here.method.class what.now }
    {
        match what {
            What::Class(ClassUse::New, index) => self.class_at(*index).unwrap_or(0),
            What::Field(FieldAccess::GetStatic | FieldAccess::PutStatic, index) => {
                self.owner(*index)
            }
            What::Call(Call::Static, index) => self.declarer(*index),
            _ => 0,
        }
    }

    fn initialized_class(&self, caller: Caller) -> u32
        ensures { result ≡ spec.initialized_class (P.units self.now.program.now) (frame_of self.now.frames.now.here) caller }
    {
        match caller {
            Caller::Instruction => match self.instruction() {
                Some(instruction) => self.class_of_instruction(&instruction.what),
                None => 0,
            },
            Caller::Launch => self.frames.method().class,
        }
    }

    /// The class at a place.
    pub fn class_in_chain(&self, caller: Caller, place: u32) -> Option<u32>
        ensures is { result ≡ slice_get (chain_of (P.units self.now.program.now) (frame_of self.now.frames.now.here) caller) place }
        ensures few { IfSome result (λ c. place < 2 ^ 16) }
    {
        self.program
            .initialized_with(self.initialized_class(caller), place)
    }

    // ---- what is executed after it

    fn made_behind(&self, index: u16) -> Todo
        ensures { spec.made_behind (frame_of self.now.frames.now.here) (class_at (P.units self.now.program.now) self.now.frames.now.here.method.class index)
            ≡ plan_of (P.units self.now.program.now) self.now.thread (frame_of self.now.frames.now.here) result }
    {
        match self.class_at(index) {
            Some(class) => Todo::Wants(Op::New(class, 0), Then::Made(with_operands(0))),
            None => Todo::Stuck,
        }
    }

    fn got_behind(&self, index: u16) -> Todo
        ensures { spec.got_behind (P.units self.now.program.now) (frame_of self.now.frames.now.here) (field_at (P.units self.now.program.now) self.now.frames.now.here.method.class index)
            ≡ plan_of (P.units self.now.program.now) self.now.thread (frame_of self.now.frames.now.here) result }
    {
        let Some(field) = self.field_at(index) else {
            return Todo::Stuck;
        };
        let object = self.program.statics(self.frames.method().class, index);
        self.read_value(0, field.kind, object, field.place)
    }

    fn put_long_static(&self, object: u32, field: FieldOperand) -> Todo
        requires { field.place + 1 < 2 ^ 32 }
        ensures { spec.long_put (frame_of self.now.frames.now.here) object field self.now.frames.now.here.stack
            ≡ plan_of (P.units self.now.program.now) self.now.thread (frame_of self.now.frames.now.here) result }
    {
        match two(self.frames) {
            Some((high, low)) => self.write_long(2, object, field.place, low, high),
            None => Todo::Stuck,
        }
    }

    fn put_value(&self, object: u32, field: FieldOperand) -> Todo
        requires { field.place + 1 < 2 ^ 32 }
        ensures { spec.value_put (frame_of self.now.frames.now.here) object field field.kind
            ≡ plan_of (P.units self.now.program.now) self.now.thread (frame_of self.now.frames.now.here) result }
    {
        match field.kind {
            ValueType::Long => self.put_long_static(object, field),
            kind => match one(self.frames) {
                Some(word) => {
                    let write = Op::Write(object, field.place, kept_word(kind, word));
                    Todo::Wants(write, Then::Done(with_operands(1)))
                }
                None => Todo::Stuck,
            },
        }
    }

    fn put_behind(&self, index: u16) -> Todo
        ensures { spec.put_behind (P.units self.now.program.now) (frame_of self.now.frames.now.here) (field_at (P.units self.now.program.now) self.now.frames.now.here.method.class index)
            ≡ plan_of (P.units self.now.program.now) self.now.thread (frame_of self.now.frames.now.here) result }
    {
        match self.field_at(index) {
            Some(field) => {
                let object = self.program.statics(self.frames.method().class, index);
                self.put_value(object, field)
            }
            None => Todo::Stuck,
        }
    }

    fn called_behind(&self, index: u16) -> Todo
        ensures { spec.called_behind (P.units self.now.program.now) self.now.thread (frame_of self.now.frames.now.here) (method_at (P.units self.now.program.now) self.now.frames.now.here.method.class index)
            ≡ plan_of (P.units self.now.program.now) self.now.thread (frame_of self.now.frames.now.here) result }
    {
        let Some(named) = self.method_at(index) else {
            return Todo::Stuck;
        };
        let words = u16::from(self.program.argument_words(named.method));
        if !self.frames.has(usize::from(words)) {
            return Todo::Stuck;
        }
        self.invoke(named.method, with_operands(words))
    }

    fn instruction_behind(&self, what: &What<Target>) -> Todo
        ensures { spec.instruction_behind (P.units self.now.program.now) self.now.thread (frame_of self.now.frames.now.here) what.now
            ≡ plan_of (P.units self.now.program.now) self.now.thread (frame_of self.now.frames.now.here) result }
    {
        match what {
            What::Class(ClassUse::New, index) => self.made_behind(*index),
            What::Field(FieldAccess::GetStatic, index) => self.got_behind(*index),
            What::Field(FieldAccess::PutStatic, index) => self.put_behind(*index),
            What::Call(Call::Static, index) => self.called_behind(*index),
            _ => Todo::Stuck,
        }
    }

    fn launched_behind(&self) -> Todo
        ensures { spec.behind (P.units self.now.program.now) self.now.thread (frame_of self.now.frames.now.here) Caller.Launch
            ≡ plan_of (P.units self.now.program.now) self.now.thread (frame_of self.now.frames.now.here) result }
    {
        let caller = Caller::Launch;
        if self.frames.has(1) {
            return self.invoke(
                self.frames.method(),
                CallSite {
                    caller,
                    operands: 1,
                },
            );
        }
        self.invoke(
            self.frames.method(),
            CallSite {
                caller,
                operands: 0,
            },
        )
    }

    fn behind(&self, caller: Caller) -> Todo
        ensures { spec.behind (P.units self.now.program.now) self.now.thread (frame_of self.now.frames.now.here) caller
            ≡ plan_of (P.units self.now.program.now) self.now.thread (frame_of self.now.frames.now.here) result }
    {
        match caller {
            Caller::Instruction => match self.instruction() {
                Some(instruction) => self.instruction_behind(&instruction.what),
                None => Todo::Stuck,
            },
            Caller::Launch => self.launched_behind(),
        }
    }

    // ---- at a place of the chain

    // The class above the one at a place is initialized: the initializer of that one follows.
    fn initialized_above(&self, caller: Caller, place: u32) -> Todo
        ensures { spec.done_at (P.units self.now.program.now) self.now.thread (frame_of self.now.frames.now.here) caller (chain_of (P.units self.now.program.now) (frame_of self.now.frames.now.here) caller) (suc place)
            ≡ plan_of (P.units self.now.program.now) self.now.thread (frame_of self.now.frames.now.here) result }
    {
        let Some(class) = self.class_in_chain(caller, place) else {
            return Todo::Stuck;
        };
        match self.program.initializer(class) {
            Some(method) => Todo::Initializes {
                method,
                caller,
                place,
            },
            None => Todo::Wants(Op::InitDone(class, true), Then::Settled { caller, place }),
        }
    }

    /// The class at a place is initialized: the initializer of the class below follows.
    pub fn initialized(&self, caller: Caller, place: u32) -> Todo
        ensures { spec.done_at (P.units self.now.program.now) self.now.thread (frame_of self.now.frames.now.here) caller (chain_of (P.units self.now.program.now) (frame_of self.now.frames.now.here) caller) place
            ≡ plan_of (P.units self.now.program.now) self.now.thread (frame_of self.now.frames.now.here) result }
    {
        if place == 0 {
            return self.behind(caller);
        }
        self.initialized_above(caller, place - 1)
    }

    /// A thrown object of a class ends the initialization of the class below.
    pub fn broken(&self, caller: Caller, place: u32, object: u32, class: u32) -> Reached
        ensures { spec.broken_at (P.units self.now.program.now) (frame_of self.now.frames.now.here) caller (chain_of (P.units self.now.program.now) (frame_of self.now.frames.now.here) caller) place object class
            ≡ plan_reached (P.units self.now.program.now) self.now.thread (frame_of self.now.frames.now.here) result }
    {
        if place == 0 {
            return self.thrown(caller, object, class);
        }
        let place = place - 1;
        let Some(below) = self.class_in_chain(caller, place) else {
            return Reached::Goes(Todo::Stuck);
        };
        let then = Then::Broken {
            caller,
            place,
            object,
            class,
        };
        Reached::Goes(Todo::Wants(Op::InitDone(below, false), then))
    }

    /// The class at a place is asked for.
    #[tactic(auto, using(crate::proofs::ChainLemmas::asks_class_at, crate::proofs::ChainLemmas::asks_none_at))]
    pub fn ask(&self, caller: Caller, place: u32) -> Todo
        ensures { spec.asks_at (P.units self.now.program.now) self.now.thread (frame_of self.now.frames.now.here) caller (chain_of (P.units self.now.program.now) (frame_of self.now.frames.now.here) caller) place
            ≡ plan_of (P.units self.now.program.now) self.now.thread (frame_of self.now.frames.now.here) result }
    {
        match self.class_in_chain(caller, place) {
            Some(class) => Todo::Wants(Op::Init(class), Then::Asked { caller, place }),
            None => self.initialized(caller, place),
        }
    }

    // ---- instructions

    /// An object is made.
    pub fn make_object(&self, index: u16) -> Todo
        requires { instruction_at (P.units self.now.program.now) (frame_of self.now.frames.now.here) ≡ Some (What.Class ClassUse.New index) }
        ensures { makes_object (P.units self.now.program.now) (frame_of self.now.frames.now.here) (class_at (P.units self.now.program.now) self.now.frames.now.here.method.class index)
            ≡ plan_of (P.units self.now.program.now) self.now.thread (frame_of self.now.frames.now.here) result }
    {
        match self.class_at(index) {
            Some(_) => self.ask(Caller::Instruction, 0),
            None => Todo::Stuck,
        }
    }

    /// A static field is read.
    pub fn get_static(&self, index: u16) -> Todo
        requires { instruction_at (P.units self.now.program.now) (frame_of self.now.frames.now.here) ≡ Some (What.Field FieldAccess.GetStatic index) }
        ensures { gets_static (P.units self.now.program.now) (frame_of self.now.frames.now.here) (operand (P.units self.now.program.now) self.now.frames.now.here.method.class index)
            ≡ plan_of (P.units self.now.program.now) self.now.thread (frame_of self.now.frames.now.here) result }
    {
        match self.program.operand(self.frames.method().class, index) {
            Operand::Out => Todo::Completes(
                with_operands(0),
                Value::Word(self.program.system_out()),
            ),
            Operand::Field(_) => self.ask(Caller::Instruction, 0),
            _ => Todo::Stuck,
        }
    }

    /// A static field is written.
    pub fn put_static(&self, index: u16) -> Todo
        requires { instruction_at (P.units self.now.program.now) (frame_of self.now.frames.now.here) ≡ Some (What.Field FieldAccess.PutStatic index) }
        ensures { puts_static (P.units self.now.program.now) (frame_of self.now.frames.now.here) (field_at (P.units self.now.program.now) self.now.frames.now.here.method.class index) self.now.frames.now.here.stack
            ≡ plan_of (P.units self.now.program.now) self.now.thread (frame_of self.now.frames.now.here) result }
    {
        let Some(field) = self.field_at(index) else {
            return Todo::Stuck;
        };
        match field.kind {
            ValueType::Long => match two(self.frames) {
                Some(_) => self.ask(Caller::Instruction, 0),
                None => Todo::Stuck,
            },
            _ => match one(self.frames) {
                Some(_) => self.ask(Caller::Instruction, 0),
                None => Todo::Stuck,
            },
        }
    }

    /// A static method is called.
    pub fn call_static(&self, index: u16) -> Todo
        requires { instruction_at (P.units self.now.program.now) (frame_of self.now.frames.now.here) ≡ Some (What.Call Call.Static index) }
        ensures { calls_static (P.units self.now.program.now) self.now.thread (frame_of self.now.frames.now.here) (method_at (P.units self.now.program.now) self.now.frames.now.here.method.class index)
            ≡ plan_of (P.units self.now.program.now) self.now.thread (frame_of self.now.frames.now.here) result }
    {
        let Some(named) = self.method_at(index) else {
            return Todo::Stuck;
        };
        let words = u16::from(self.program.argument_words(named.method));
        if !self.frames.has(usize::from(words)) {
            return Todo::Stuck;
        }
        self.ask(Caller::Instruction, 0)
    }
}
