//! The program that the code of a thread asks.

use crate::classes::{is_boolean_array, takes_element};
use crate::initialized::initialized_at;
use crate::methods::{argument_words, body_of, class_monitor, method_has, select};
use crate::operands::{operand_at, statics_at};
use crate::world::JavaWorld;
use code_decode::Code;
use instructions::PrimitiveType;
use interp_local::Quick;
use interp_plans::JavaProgram;
use link_types::{MethodBody, MethodId, Operand};

impl<'p> JavaProgram for JavaWorld<'p> {
    fn code(&self, method: MethodId) -> Option<&Code> {
        self.world().code(method)
    }

    fn quicks(&self, method: MethodId) -> &[Quick] {
        self.quicks_of(method)
    }

    fn body(&self, method: MethodId) -> Option<MethodBody> {
        body_of(self.world(), method)
    }

    fn method_has(&self, method: MethodId, flag: u16) -> bool {
        method_has(self.world(), method, flag)
    }

    fn argument_words(&self, method: MethodId) -> u8 {
        argument_words(self.world(), method)
    }

    fn class_monitor(&self, method: MethodId) -> u32 {
        class_monitor(self.world(), method)
    }

    fn select(&self, class: u32, method: MethodId) -> Option<MethodId> {
        select(self.world(), class, method)
    }

    fn operand(&self, class: u32, index: u16) -> Operand {
        operand_at(self.world(), class, index)
    }

    fn statics(&self, class: u32, index: u16) -> u32 {
        statics_at(self.world(), class, index)
    }

    fn is_subclass(&self, low: u32, high: u32) -> bool {
        self.world().is_subclass(low, high)
    }

    fn takes_element(&self, array: u32, class: u32) -> bool {
        takes_element(self.world(), array, class)
    }

    fn is_boolean_array(&self, class: u32) -> bool {
        is_boolean_array(self.world(), class)
    }

    fn primitive_array(&self, kind: PrimitiveType) -> Option<u32> {
        self.world().primitive_array(kind)
    }

    fn initialized_with(&self, class: u32, place: u32) -> Option<u32> {
        initialized_at(self.world(), class, place)
    }

    fn initializer(&self, class: u32) -> Option<MethodId> {
        self.world().initializer(class)
    }

    fn system_out(&self) -> u32 {
        self.world().system_out()
    }

    fn main_thread(&self) -> u32 {
        self.world().main_thread()
    }

    fn arguments(&self) -> u32 {
        self.world().arguments()
    }

    fn literal_units(&self, string: u32) -> &[u16] {
        self.units_of(string)
    }

    fn words(&self, class: u32, elements: u32) -> u64 {
        self.world().words(class, elements)
    }
}
