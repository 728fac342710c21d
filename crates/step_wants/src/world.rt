//! A method with code, as the rules of the type checker see it.

use link_types::{MethodId, ObjectType, Operand, ValueType};
use word_types::ClassHierarchy;

/// Says what the rules see of a method with code (JVMS 4.10.1.1), all by numbers. No call takes memory.
pub trait MethodWorld {
    ghost use Rattle.std.specs.Prelude.{◌≡◌};
    ghost use Rattle.type_rules.specs.Environment.{Environment};

    /// What the rules see.
    ghost environment: { Self → Environment };

    /// What says how the classes of the program are related.
    type Classes: ClassHierarchy;

    /// The classes of the program.
    fn classes(&self) -> &Self::Classes
        ensures { (environment self.now).hierarchy ≡ Self.Classes.hierarchy result.now };

    /// The class that declares the method.
    fn class(&self) -> u32
        ensures { (environment self.now).class ≡ result };

    /// The superclass of that class.
    fn direct_super(&self) -> u32
        ensures { (environment self.now).super ≡ result };

    /// What the method returns.
    fn return_type(&self) -> Option<ValueType>
        ensures { (environment self.now).return_type ≡ result };

    /// How many words its locals have.
    fn max_locals(&self) -> u16
        ensures { (environment self.now).max_locals ≡ result };

    /// How many words its stack may have.
    fn max_stack(&self) -> u16
        ensures { (environment self.now).max_stack ≡ result };

    /// What an index of the constant pool stands for.
    fn operand(&self, index: u16) -> Operand
        ensures { (environment self.now).operand index ≡ result };

    /// What the `new` at an offset makes.
    fn made_at(&self, offset: u32) -> ObjectType
        ensures { (environment self.now).made_at offset ≡ result };

    /// The types of the parameters of a method of the program.
    fn parameters(&self, method: MethodId) -> &[ValueType]
        ensures { (environment self.now).parameters method ≡ result.now };

    /// The type of the result of a method of the program.
    fn result_of(&self, method: MethodId) -> Option<ValueType>
        ensures { (environment self.now).result method ≡ result };
}
