//! How frames end, and which handler takes a thrown object (JVMS 2.6.4, 2.6.5, 2.10).

ghost use Rattle.std.specs.Prelude.{◌≡◌, option_map};
ghost use Rattle.java_rows.specs.Program.{handlers_of};
ghost use Rattle.java_rows.specs.Throws as spec;
ghost use Rattle.java_rows.specs.Throws.{leaves, looks_for, handler_for};
ghost use Rattle.interp_plans.specs.Todos.{plan_of};
ghost use Rattle.interp_plans.specs.Uses.{end_of, frame_of};

use crate::here::Here;
use crate::program::JavaProgram;
use code_decode::Handler;
use frame_snapshot::{FrameEnd, Then, Todo};
use link_types::MethodId;
use op_core::Op;

fn covers(step: usize, handler: &Handler) -> bool
    ensures { result ≡ spec.covers step handler.now }
{
    handler.first as usize <= step && step < handler.end as usize
}

impl<'a, P: JavaProgram> Here<'a, P> {
    /// The frame ends, after the exit of its monitor.
    pub fn leave(&self, outcome: FrameEnd) -> Todo
        ensures { leaves (frame_of self.now.frames.now.here) (end_of outcome)
            ≡ plan_of (P.units self.now.program.now) self.now.thread (frame_of self.now.frames.now.here) result }
    {
        let monitor = self.frames.monitor();
        if monitor == 0 {
            return Todo::Ends(outcome);
        }
        Todo::Wants(Op::Exit(monitor), Then::Leaves(outcome))
    }

    fn catches(&self, class: u32, handler: &Handler) -> bool
        ensures { result ≡ spec.catches (P.units self.now.program.now) self.now.frames.now.here.method.class class handler.now }
    {
        if handler.kind == 0 {
            return true;
        }
        match self.class_at(handler.kind) {
            Some(caught) => self.program.is_subclass(class, caught),
            None => false,
        }
    }

    fn handlers(&self, method: MethodId) -> &[Handler]
        ensures { result.now ≡ handlers_of (P.units self.now.program.now) method }
    {
        match self.program.code(method) {
            Some(code) => code.handlers.as_slice(),
            None => &[],
        }
    }

    fn handler(&self, class: u32) -> Option<&Handler>
        ensures { option_map (λ h. h.now) result
            ≡ handler_for (P.units self.now.program.now) (frame_of self.now.frames.now.here) class }
    {
        let step = self.frames.step();
        self.handlers(self.frames.method()).iter().find(|handler| covers(step, handler)
            && self.catches(class, handler))
    }

    /// A thrown object of a class is taken by the first handler that covers the instruction and takes it, or ends the
    /// frame.
    pub fn look_for(&self, object: u32, class: u32) -> Todo
        ensures { looks_for (P.units self.now.program.now) (frame_of self.now.frames.now.here) object class
            ≡ plan_of (P.units self.now.program.now) self.now.thread (frame_of self.now.frames.now.here) result }
    {
        match self.handler(class) {
            Some(handler) => Todo::Catches {
                entry: handler.entry,
                object,
            },
            None => self.leave(FrameEnd::Threw { object, class }),
        }
    }
}
