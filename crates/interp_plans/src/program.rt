//! What the code of a thread asks of its program.

use code_decode::Code;
use instructions::PrimitiveType;
use interp_local::{Constants, Quick};
use link_types::{MethodBody, MethodId, Operand};

/// A linked program. Each call takes no memory, and answers for any numbers.
pub trait JavaProgram: Constants {
    ghost use Rattle.std.specs.Prelude.{◌≡◌, ◌<◌, ◌+◌, ◌^◌, true, slice_get, IfSome};
    ghost use Rattle.std.specs.Option.{option_map};
    ghost use Rattle.access_flags.specs.declared.TheConstants.{SYNCHRONIZED};
    ghost use Rattle.interp_local.specs.Quick.{quicks_of};
    ghost use Rattle.link_types.specs.declared.operands.FieldOperand.{FieldOperand};
    ghost use Rattle.link_types.specs.declared.operands.Operand.{Operand};
    ghost use Rattle.java_rows.specs.Initialization.{statics_of};
    ghost use Rattle.java_rows.specs.Units.{literal_units};
    ghost use Rattle.java_rows.specs.Program.{argument_words, body_of, field_at, initialized_with, is_boolean_array, is_subclass, method_has, select, steps_of, takes_element};
    ghost use Rattle.link_rules.specs.Classes.{classes_of};
    ghost use Rattle.link_rules.specs.FixedObjects.{arguments_object, class_object, main_thread_object, system_out_object};
    ghost use Rattle.link_rules.specs.Methods.{initializer, method_code};
    ghost use Rattle.link_rules.specs.Names.{program_names};
    ghost use Rattle.link_rules.specs.Layout.{object_words};
    ghost use Rattle.link_rules.specs.Operands.{operand};
    ghost use Rattle.link_rules.specs.Readers.{primitive_array_number};

    /// The code of a method, if it has one.
    fn code(&self, method: MethodId) -> Option<&Code>
        ensures { option_map (λ c. c.now) result ≡ method_code (Self.units self.now) method };

    /// The quick forms of a method's instructions, none where it has no code.
    fn quicks(&self, method: MethodId) -> &[Quick]
        ensures { result.now ≡ quicks_of (steps_of (Self.units self.now) method) };

    /// What a call of a method executes.
    fn body(&self, method: MethodId) -> Option<MethodBody>
        ensures { result ≡ body_of (Self.units self.now) method };

    /// Whether a method has an access flag (JVMS 4.6).
    fn method_has(&self, method: MethodId, flag: u16) -> bool
        ensures { result ≡ method_has (Self.units self.now) method flag };

    /// The words of a method's parameters without the receiver.
    fn argument_words(&self, method: MethodId) -> u8
        ensures { result ≡ argument_words (Self.units self.now) method };

    /// The class object whose monitor a static synchronized method enters.
    fn class_monitor(&self, method: MethodId) -> u32
        ensures { method_has (Self.units self.now) method SYNCHRONIZED ≡ true
            → result ≡ class_object (program_names (Self.units self.now)) method.class };

    /// The method that a call of a method executes on an object of a class.
    fn select(&self, class: u32, method: MethodId) -> Option<MethodId>
        ensures { result ≡ select (Self.units self.now) class method };

    /// What an index of the constant pool of a class stands for.
    fn operand(&self, class: u32, index: u16) -> Operand
        ensures is { result ≡ operand (Self.units self.now) class index }
        ensures places { (field : FieldOperand) → result ≡ Operand.Field field → field.place + 1 < 2 ^ 32 };

    /// The object with the static fields of the class that declares a field, which an index of a constant pool stands for.
    fn statics(&self, class: u32, index: u16) -> u32
        ensures { option_map (statics_of (Self.units self.now)) (field_at (Self.units self.now) class index)
            ≡ option_map (λ f. result) (field_at (Self.units self.now) class index) };

    /// Whether an object of the first class passes `instanceof` of the second one.
    fn is_subclass(&self, low: u32, high: u32) -> bool
        ensures { result ≡ is_subclass (Self.units self.now) low high };

    /// Whether the elements of an array class of references take objects of a class.
    fn takes_element(&self, array: u32, class: u32) -> bool
        ensures { result ≡ takes_element (Self.units self.now) array class };

    /// Whether a class is that of the arrays of boolean.
    fn is_boolean_array(&self, class: u32) -> bool
        ensures { result ≡ is_boolean_array (Self.units self.now) class };

    /// The class of the arrays of a primitive type, if the program has it.
    fn primitive_array(&self, kind: PrimitiveType) -> Option<u32>
        ensures { result ≡ primitive_array_number (program_names (Self.units self.now)) kind };

    /// The class at a place of those that are initialized with a class, from that class at place 0 upward (JVMS 5.5).
    fn initialized_with(&self, class: u32, place: u32) -> Option<u32>
        ensures is { result ≡ slice_get (initialized_with (Self.units self.now) class) place }
        ensures few { IfSome result (λ c. place < 2 ^ 16) };

    /// The method that initializes a class, if it has one.
    fn initializer(&self, class: u32) -> Option<MethodId>
        ensures { result ≡ initializer (classes_of (Self.units self.now)) class };

    /// The object that is the value of `System.out`.
    fn system_out(&self) -> u32
        ensures { result ≡ system_out_object (program_names (Self.units self.now)) };

    /// The object of the thread that executes `main`.
    fn main_thread(&self) -> u32
        ensures { result ≡ main_thread_object (program_names (Self.units self.now)) };

    /// The array with the arguments of `main`.
    fn arguments(&self) -> u32
        ensures { result ≡ arguments_object (program_names (Self.units self.now)) };

    /// The UTF-16 code units of the string literal of a number, none where the program has none.
    fn literal_units(&self, string: u32) -> &[u16]
        ensures { result.now ≡ literal_units (Self.units self.now) string };

    /// How many words a new object of a class has, with `elements` elements where it is an array.
    fn words(&self, class: u32, elements: u32) -> u64
        ensures { result ≡ object_words (program_names (Self.units self.now)) class elements };
}
