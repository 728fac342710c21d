//! Calls of methods of objects (JVMS 6.5 invokevirtual, invokespecial, invokeinterface).

ghost use Rattle.std.specs.Prelude.{◌≡◌, Some};
ghost use Rattle.java_rows.specs.Calls.{calls_virtual, calls_special, calls_special_method, calls_interface};
ghost use Rattle.java_rows.specs.Program as programs;
ghost use Rattle.java_rows.specs.Program.{method_at};
ghost use Rattle.interp_plans.specs.Calls.{call_site};
ghost use Rattle.interp_plans.specs.Todos.{plan_of};
ghost use Rattle.interp_plans.specs.Uses.{frame_of};

use crate::here::Here;
use crate::pool::class_of_type;
use crate::program::JavaProgram;
use crate::values::with_operands;
use access_flags::FINAL;
use builtin_world::number::{COUNT, NULL_POINTER_EXCEPTION, PRINT_STREAM};
use frame_snapshot::{CallSite, Then, Todo};
use link_types::MethodId;
use op_core::Op;

impl<'a, P: JavaProgram> Here<'a, P> {
    // A call of a method of an object: its operands are the receiver and the arguments.
    fn call_site(&self, method: MethodId) -> CallSite
        ensures { result ≡ call_site (P.units self.now.program.now) method }
    {
        with_operands(u16::from(self.program.argument_words(method)) + 1)
    }

    fn calls_without_class(&self, method: MethodId) -> bool
        ensures { result ≡ programs.calls_without_class (P.units self.now.program.now) method }
    {
        let is_built_in = 1 <= method.class && method.class <= COUNT;
        is_built_in && (method.class == PRINT_STREAM || self.program.method_has(method, FINAL))
    }

    /// A method is called that the class of the receiver selects.
    #[tactic(auto, using(crate::proofs::CallLemmas::virtual_closed, crate::proofs::CallLemmas::virtual_null, crate::proofs::CallLemmas::virtual_asks, crate::proofs::CallLemmas::virtual_lacks))]
    pub fn call_virtual(&self, index: u16) -> Todo
        ensures { calls_virtual (P.units self.now.program.now) self.now.thread (frame_of self.now.frames.now.here) (method_at (P.units self.now.program.now) self.now.frames.now.here.method.class index)
            ≡ plan_of (P.units self.now.program.now) self.now.thread (frame_of self.now.frames.now.here) result }
    {
        let Some(named) = self.method_at(index) else {
            return Todo::Stuck;
        };
        let method = named.method;
        let site = self.call_site(method);
        if !self.frames.has(usize::from(site.operands)) {
            return Todo::Stuck;
        }
        let receiver = self.first_argument(site);
        if receiver == 0 {
            return self.fail(NULL_POINTER_EXCEPTION);
        }
        if self.calls_without_class(method) {
            return self.invoke(method, site);
        }
        Todo::Wants(Op::ClassOf(receiver), Then::Selects { method, site })
    }

    #[tactic(auto, using(crate::proofs::OperandLemmas::receiver_is, crate::proofs::OperandLemmas::receiver_missing))]
    fn call_special_method(&self, method: MethodId) -> Todo
        ensures { calls_special_method (P.units self.now.program.now) self.now.thread (frame_of self.now.frames.now.here) (Some method)
            ≡ plan_of (P.units self.now.program.now) self.now.thread (frame_of self.now.frames.now.here) result }
    {
        let site = self.call_site(method);
        if !self.frames.has(usize::from(site.operands)) {
            return Todo::Stuck;
        }
        if self.first_argument(site) == 0 {
            return self.fail(NULL_POINTER_EXCEPTION);
        }
        self.invoke(method, site)
    }

    /// A constructor, a private method or a method of a superclass is called.
    pub fn call_special(&self, index: u16) -> Todo
        ensures { calls_special (P.units self.now.program.now) self.now.thread (frame_of self.now.frames.now.here) (method_at (P.units self.now.program.now) self.now.frames.now.here.method.class index)
            ≡ plan_of (P.units self.now.program.now) self.now.thread (frame_of self.now.frames.now.here) result }
    {
        let Some(named) = self.method_at(index) else {
            return Todo::Stuck;
        };
        match named.special {
            Some(method) => self.call_special_method(method),
            None => Todo::Stuck,
        }
    }

    /// A method of an interface is called.
    #[tactic(auto, using(crate::proofs::CallLemmas::interface_null, crate::proofs::CallLemmas::interface_asks, crate::proofs::CallLemmas::interface_lacks))]
    pub fn call_interface(&self, index: u16) -> Todo
        ensures { calls_interface (P.units self.now.program.now) self.now.thread (frame_of self.now.frames.now.here) (method_at (P.units self.now.program.now) self.now.frames.now.here.method.class index)
            ≡ plan_of (P.units self.now.program.now) self.now.thread (frame_of self.now.frames.now.here) result }
    {
        let Some(named) = self.method_at(index) else {
            return Todo::Stuck;
        };
        let method = named.method;
        let site = self.call_site(method);
        if !self.frames.has(usize::from(site.operands)) {
            return Todo::Stuck;
        }
        let receiver = self.first_argument(site);
        if receiver == 0 {
            return self.fail(NULL_POINTER_EXCEPTION);
        }
        let then = Then::SelectsFor {
            interface: class_of_type(named.named),
            method,
            site,
        };
        Todo::Wants(Op::ClassOf(receiver), then)
    }
}
