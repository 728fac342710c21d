//! What the rules of the type checker ask of a method.

ghost use Rattle.std.specs.Prelude.{◌≡◌, map, option_copied, option_and_then, slice_get};
ghost use Rattle.instructions.specs.Steps.{number_at};
ghost use Rattle.type_rules.specs.Environments.{typed_handler};
ghost use Rattle.linked_methods.specs.Methods.{code_of_method, environment_of_method, operands_of_method};

use crate::classes::LinkedClasses;
use crate::made::made_by;
use crate::method::LinkedMethod;
use builtin_world::number::OBJECT;
use code_decode::Code;
use instructions::{Instr, Target};
use link_types::{MethodId, ObjectType, Operand, ValueType};
use step_wants::MethodWorld;

impl<'a> LinkedMethod<'a> {
    /// The code of the method: its instructions and handlers are those that the rules see.
    pub fn code(&self) -> &Code
        ensures value { result.now ≡ code_of_method self.now }
        ensures steps { (environment_of_method self.now).steps ≡ result.now.steps }
        ensures handlers { (environment_of_method self.now).handlers
            ≡ map (typed_handler (operands_of_method self.now)) result.now.handlers }
    {
        self.code
    }

    // The instruction at an offset.
    fn step_at(&self, offset: u32) -> Option<&Instr<Target>>
        ensures { option_copied result
            ≡ option_and_then (slice_get (code_of_method self.now).steps)
            (number_at (code_of_method self.now).steps offset) }
    {
        let number = self.code.steps.number_at(offset)?;
        self.code.steps.get(number)
    }
}

impl<'a> MethodWorld for LinkedMethod<'a> {
    ghost use Rattle.linked_methods.specs.Methods.{environment_of_method};

    ghost environment = { environment_of_method };

    type Classes = LinkedClasses<'a>;

    fn classes(&self) -> &LinkedClasses<'a> {
        &self.classes
    }

    fn class(&self) -> u32 {
        self.id.class
    }

    fn direct_super(&self) -> u32 {
        self.classes.world.super_class(self.id.class)
    }

    fn return_type(&self) -> Option<ValueType> {
        self.kind.result
    }

    fn max_locals(&self) -> u16 {
        self.code.max_locals
    }

    fn max_stack(&self) -> u16 {
        self.code.max_stack
    }

    fn operand(&self, index: u16) -> Operand {
        self.classes.world.operand(self.id.class, index)
    }

    fn made_at(&self, offset: u32) -> ObjectType {
        match self.step_at(offset) {
            Some(step) => made_by(self, &step.what),
            None => ObjectType::Class(OBJECT),
        }
    }

    fn parameters(&self, method: MethodId) -> &[ValueType] {
        match self.classes.world.method(method) {
            Some(method) => method.kind.parameters.as_slice(),
            None => &[],
        }
    }

    fn result_of(&self, method: MethodId) -> Option<ValueType> {
        match self.classes.world.method(method) {
            Some(method) => method.kind.result,
            None => None,
        }
    }
}
