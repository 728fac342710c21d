//! Calls of methods (JVMS 2.11.8, 2.11.10).

ghost use Rattle.std.specs.Prelude.{◌≡◌, ◌≤◌, length};
ghost use Rattle.java_rows.specs.Calls.{calls_method, invokes, invokes_selected, monitor_for};
ghost use Rattle.interp_plans.specs.Todos.{plan_of};
ghost use Rattle.interp_plans.specs.Uses.{arguments_at, frame_of, use_at};

use crate::here::Here;
use crate::program::JavaProgram;
use access_flags::{STATIC, SYNCHRONIZED};
use builtin_world::number::INCOMPATIBLE_CLASS_CHANGE_ERROR;
use frame_snapshot::{CallSite, Then, Todo};
use link_types::{MethodBody, MethodId};
use op_core::Op;

impl<'a, P: JavaProgram> Here<'a, P> {
    // The object whose monitor a method enters, 0 for none.
    fn monitor_for(&self, method: MethodId, site: CallSite) -> u32
        requires { site.operands ≤ length self.now.frames.now.here.stack }
        ensures { result ≡ monitor_for (P.units self.now.program.now) method (arguments_at (frame_of self.now.frames.now.here) site) }
    {
        if !self.program.method_has(method, SYNCHRONIZED) {
            return 0;
        }
        if self.program.method_has(method, STATIC) {
            self.program.class_monitor(method)
        } else {
            self.first_argument(site)
        }
    }

    // A method with code is called.
    fn call(&self, method: MethodId, site: CallSite) -> Todo
        requires { site.operands ≤ length self.now.frames.now.here.stack }
        ensures { calls_method (P.units self.now.program.now) method (arguments_at (frame_of self.now.frames.now.here) site) (use_at (frame_of self.now.frames.now.here) site)
            ≡ plan_of (P.units self.now.program.now) self.now.thread (frame_of self.now.frames.now.here) result }
    {
        let monitor = self.monitor_for(method, site);
        if monitor == 0 {
            return Todo::Calls {
                method,
                site,
                monitor: 0,
            };
        }
        let then = Then::Entered {
            method,
            site,
            monitor,
        };
        Todo::Wants(Op::Enter(monitor), then)
    }

    /// A method is called, whose arguments are the operands, which must be on the stack.
    pub fn invoke(&self, method: MethodId, site: CallSite) -> Todo
        requires { site.operands ≤ length self.now.frames.now.here.stack }
        ensures { invokes (P.units self.now.program.now) self.now.thread method (arguments_at (frame_of self.now.frames.now.here) site) (use_at (frame_of self.now.frames.now.here) site)
            ≡ plan_of (P.units self.now.program.now) self.now.thread (frame_of self.now.frames.now.here) result }
    {
        match self.program.body(method) {
            Some(MethodBody::Native(native)) => self.native(native, site),
            Some(MethodBody::Code) => match self.program.code(method) {
                Some(_) => self.call(method, site),
                None => Todo::Stuck,
            },
            _ => Todo::Stuck,
        }
    }

    /// The method that was selected is called; without one an exception of the machine is thrown.
    pub fn invoke_selected(&self, method: Option<MethodId>, site: CallSite) -> Todo
        requires { site.operands ≤ length self.now.frames.now.here.stack }
        ensures { invokes_selected (P.units self.now.program.now) self.now.thread (arguments_at (frame_of self.now.frames.now.here) site) (use_at (frame_of self.now.frames.now.here) site) method
            ≡ plan_of (P.units self.now.program.now) self.now.thread (frame_of self.now.frames.now.here) result }
    {
        match method {
            Some(method) => self.invoke(method, site),
            None => self.raise(site, INCOMPATIBLE_CLASS_CHANGE_ERROR),
        }
    }
}
