//! What the instruction names in the constant pool of its class (JVMS 5.1).

ghost use Rattle.std.specs.Prelude.{◌≡◌, ◌<◌, ◌+◌, ◌^◌, ◌↔◌, IfSome, IsTrue, option_copied, slice_get};
ghost use Rattle.link_types.specs.declared.operands.FieldOperand.{FieldOperand};
ghost use Rattle.link_types.specs.declared.operands.Operand.{Operand};
ghost use Rattle.link_rules.specs.Operands.{operand};
ghost use Rattle.java_rows.specs.Calls as spec;
ghost use Rattle.java_rows.specs.Program.{array_at, class_at, field_at, method_at, steps_of};

use crate::here::Here;
use crate::program::JavaProgram;
use instructions::{Instr, Target};
use link_types::{FieldOperand, MethodOperand, ObjectType, Operand};

/// The number of a class, 0 for another type.
pub fn class_of_type(kind: ObjectType) -> u32
    ensures { result ≡ spec.class_of_type kind }
{
    match kind {
        ObjectType::Class(class) => class,
        _ => 0,
    }
}

impl<'a, P: JavaProgram> Here<'a, P> {
    #[inline(always)]
    fn operand(&self, index: u16) -> Operand
        ensures is { result ≡ operand (P.units self.now.program.now) self.now.frames.now.here.method.class index }
        ensures places { (field : FieldOperand) → result ≡ Operand.Field field → field.place + 1 < 2 ^ 32 }
    {
        self.program.operand(self.frames.method().class, index)
    }

    /// The number of a class.
    pub fn class_at(&self, index: u16) -> Option<u32>
        ensures { result ≡ class_at (P.units self.now.program.now) self.now.frames.now.here.method.class index }
    {
        match self.operand(index) {
            Operand::Class(class) => class.number,
            _ => None,
        }
    }

    /// The number of the arrays of a class.
    pub fn array_at(&self, index: u16) -> Option<u32>
        ensures { result ≡ array_at (P.units self.now.program.now) self.now.frames.now.here.method.class index }
    {
        match self.operand(index) {
            Operand::Class(class) => class.array,
            _ => None,
        }
    }

    /// A field.
    #[inline(always)]
    pub fn field_at(&self, index: u16) -> Option<FieldOperand>
        ensures is { result ≡ field_at (P.units self.now.program.now) self.now.frames.now.here.method.class index }
        ensures place { IfSome result (λ field. field.place + 1 < 2 ^ 32) }
    {
        match self.operand(index) {
            Operand::Field(field) => Some(field),
            _ => None,
        }
    }

    /// Whether it is the field `out` of System.
    pub fn is_out(&self, index: u16) -> bool
        ensures { IsTrue result ↔ (operand (P.units self.now.program.now) self.now.frames.now.here.method.class index ≡ Operand.Out) }
    {
        matches!(self.operand(index), Operand::Out)
    }

    /// A method.
    pub fn method_at(&self, index: u16) -> Option<MethodOperand>
        ensures { result ≡ method_at (P.units self.now.program.now) self.now.frames.now.here.method.class index }
    {
        match self.operand(index) {
            Operand::Method(method) => Some(method),
            _ => None,
        }
    }

    /// The instructions of the frame's method.
    pub fn steps(&self) -> &[Instr<Target>]
        ensures { result.now ≡ steps_of (P.units self.now.program.now) self.now.frames.now.here.method }
    {
        match self.program.code(self.frames.method()) {
            Some(code) => code.steps.as_slice(),
            None => &[],
        }
    }

    /// The instruction at which the frame is, if there is one, given the instructions of its method.
    #[inline(always)]
    pub fn instruction_among<'s>(&self, steps: &'s [Instr<Target>]) -> Option<&'s Instr<Target>>
        requires { steps.now ≡ steps_of (P.units self.now.program.now) self.now.frames.now.here.method }
        ensures { option_copied result
            ≡ slice_get (steps_of (P.units self.now.program.now) self.now.frames.now.here.method) self.now.frames.now.here.step }
    {
        steps.get(self.frames.step())
    }

    /// The instruction at which the frame is, if there is one.
    pub fn instruction(&self) -> Option<&Instr<Target>>
        ensures { option_copied result
            ≡ slice_get (steps_of (P.units self.now.program.now) self.now.frames.now.here.method) self.now.frames.now.here.step }
    {
        self.steps().get(self.frames.step())
    }
}
