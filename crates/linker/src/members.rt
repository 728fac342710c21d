//! What is asked of the members of a linked program.

ghost use Rattle.std.specs.Prelude.{◌≡◌, ◌≤◌, option_map};
ghost use Rattle.link_rules.specs.Classes.{classes_of};
ghost use Rattle.link_rules.specs.Methods.{initializer, method_code, selection_start, select_virtual};
ghost use Rattle.link_rules.specs.Names.{program_names, class_count};
ghost use Rattle.link_rules.specs.Operands.{operand};
ghost use Rattle.method_table.specs.Called.{called, shown};

use crate::world::World;
use builtin_world::number::{COUNT, OBJECT};
use code_decode::Code;
use link_types::{Method, MethodId, Operand};
use method_table::code;

impl World {
    /// The class at which selection begins: an array has the methods of Object.
    fn selection_start(&self, class: u32) -> u32
        ensures { result ≡ selection_start (program_names self.now) class }
    {
        match self.tables.classes.arrays.array_type(class) {
            Some(_) => OBJECT,
            None => class,
        }
    }

    /// A method: its flags, its parameters and result, and what a call of it executes. `None` where the class or the
    /// method isn't there.
    pub fn method(&self, id: MethodId) -> Option<Method<'_>>
        ensures { option_map shown result ≡ called self.now id }
    {
        self.tables.members.methods.method(id)
    }

    /// The code of a method of a class file. `None` where it has none.
    pub fn code(&self, id: MethodId) -> Option<&Code>
        ensures { option_map (λ c. c.now) result ≡ method_code self.now id }
    {
        code(&self.units, id)
    }

    /// The method that initializes a class (JVMS 2.9). `None` where it has none, and of what is no class.
    pub fn initializer(&self, class: u32) -> Option<MethodId>
        ensures { result ≡ initializer (classes_of self.now) class }
    {
        self.tables.members.methods.initializer(class)
    }

    /// The method that a call of a method executes on an object of a class or array class (JVMS 6.5, invokevirtual and
    /// invokeinterface): a private one itself. `None` where the selected method is abstract, or there is none.
    pub fn select_virtual(&self, class: u32, method: MethodId) -> Option<MethodId>
        ensures { class ≤ class_count (program_names self.now) → result ≡ select_virtual (program_names self.now) class method }
    {
        let start = self.selection_start(class);
        self.tables.members.selection.select(start, method)
    }

    /// What an index of the pool of the class of a file stands for: `Nothing` where no instruction can use it, and past
    /// the pool.
    pub fn operand(&self, class: u32, index: u16) -> Operand
        ensures { result ≡ operand self.now class index }
    {
        match class.checked_sub(COUNT + 1) {
            Some(file) => self.tables.members.operands.operand(file, index),
            None => Operand::Nothing,
        }
    }
}
