//! The constant pool of a method's class.

use crate::method::LinkedMethod;
use link_types::Operand;
use map_frames::PoolOperands;

impl<'a> PoolOperands for LinkedMethod<'a> {
    ghost use Rattle.linked_methods.specs.Methods.{operands_of_method};

    ghost operands = { operands_of_method };

    fn operand(&self, index: u16) -> Operand {
        self.classes.world.operand(self.id.class, index)
    }
}
