//! How the parts of an instruction go on.

ghost use Rattle.std.specs.Prelude.{◌≡◌};
ghost use Rattle.java_rows.specs.Plan.{fails, raises};
ghost use Rattle.interp_plans.specs.Todos.{plan_of, plan_reached};
ghost use Rattle.interp_plans.specs.Uses.{frame_of, use_at, thrown_by, value_words};

use crate::here::Here;
use crate::program::JavaProgram;
use crate::reached::Reached;
use frame_snapshot::{CallSite, Caller, Then, Todo, Value};
use op_core::Op;

impl<'a, P: JavaProgram> Here<'a, P> {
    /// A part is through, with a value.
    #[inline(always)]
    pub fn value(&self, site: CallSite, value: Value) -> Reached
        ensures { (use_at (frame_of self.now.frames.now.here) site).value (value_words value)
            ≡ plan_reached (P.units self.now.program.now) self.now.thread (frame_of self.now.frames.now.here) result }
    {
        match site.caller {
            Caller::Instruction => Reached::Completed {
                operands: site.operands,
                value,
            },
            Caller::Launch => Reached::Goes(Todo::Wants(Op::End(None), Then::Ended)),
        }
    }

    /// An object of a class is thrown.
    pub fn thrown(&self, caller: Caller, object: u32, class: u32) -> Reached
        ensures { thrown_by (frame_of self.now.frames.now.here) caller object class
            ≡ plan_reached (P.units self.now.program.now) self.now.thread (frame_of self.now.frames.now.here) result }
    {
        match caller {
            Caller::Instruction => Reached::Throws { object, class },
            Caller::Launch => Reached::Goes(Todo::Wants(Op::End(Some(class)), Then::Ended)),
        }
    }

    /// A new exception of the machine, of a class, is thrown.
    #[tactic(auto, using(crate::proofs::UseLemmas::raises_by))]
    pub fn raise(&self, site: CallSite, class: u32) -> Todo
        ensures { raises (use_at (frame_of self.now.frames.now.here) site) class
            ≡ plan_of (P.units self.now.program.now) self.now.thread (frame_of self.now.frames.now.here) result }
    {
        let caller = site.caller;
        Todo::Wants(Op::New(class, 0), Then::Raised { caller, class })
    }

    /// The instruction throws a new exception of a class.
    #[inline(always)]
    pub fn fail(&self, class: u32) -> Todo
        ensures { fails (frame_of self.now.frames.now.here) class
            ≡ plan_of (P.units self.now.program.now) self.now.thread (frame_of self.now.frames.now.here) result }
    {
        let caller = Caller::Instruction;
        Todo::Wants(Op::New(class, 0), Then::Raised { caller, class })
    }
}
