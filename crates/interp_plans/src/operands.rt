//! The operands of a call.

ghost use Rattle.std.specs.Prelude.{◌≡◌, ◌≤◌, length, drop};
ghost use Rattle.java_rows.specs.Calls.{first_of};
ghost use Rattle.interp_plans.specs.Operands.{AreArguments};
ghost use Rattle.interp_plans.specs.Uses.{arguments_at, frame_of};

use crate::here::Here;
use frame_snapshot::CallSite;
use interp_local::{one, three, two};

/// The arguments of a call in the order of locals, where they are three words or fewer.
#[derive(Clone, Copy)]
pub enum Arguments {
    None,
    One(u32),
    Two(u32, u32),
    Three(u32, u32, u32),
    Many,
}

impl<'a, P> Here<'a, P> {
    /// The operands, which must be on the stack.
    pub fn arguments(&self, site: CallSite) -> Arguments
        requires { site.operands ≤ length self.now.frames.now.here.stack }
        ensures { AreArguments result (arguments_at (frame_of self.now.frames.now.here) site) }
    {
        match site.operands {
            0 => Arguments::None,
            1 => match one(self.frames) {
                Some(a) => Arguments::One(a),
                None => Arguments::Many,
            },
            2 => match two(self.frames) {
                Some((b, a)) => Arguments::Two(a, b),
                None => Arguments::Many,
            },
            3 => match three(self.frames) {
                Some((c, b, a)) => Arguments::Three(a, b, c),
                None => Arguments::Many,
            },
            _ => Arguments::Many,
        }
    }

    /// The first of the operands, which must be on the stack, or 0 where there is none.
    #[tactic(auto, using(crate::proofs::OperandLemmas::first_operand))]
    pub fn first_argument(&self, site: CallSite) -> u32
        requires { site.operands ≤ length self.now.frames.now.here.stack }
        ensures { result ≡ first_of (arguments_at (frame_of self.now.frames.now.here) site) }
    {
        if site.operands == 0 {
            return 0;
        }
        self.frames.word(usize::from(site.operands) - 1)
    }

    /// The same call where it has no more operands than the stack has words.
    #[tactic(auto, using(crate::proofs::OperandLemmas::take_all, crate::proofs::OperandLemmas::drop_all))]
    pub fn within_stack(&self, site: CallSite) -> CallSite
        ensures caller { result.caller ≡ site.caller }
        ensures operands { result.operands ≤ length self.now.frames.now.here.stack }
        ensures arguments { arguments_at (frame_of self.now.frames.now.here) result ≡ arguments_at (frame_of self.now.frames.now.here) site }
        ensures rest { drop result.operands self.now.frames.now.here.stack ≡ drop site.operands self.now.frames.now.here.stack }
    {
        let length = self.frames.stack_len();
        if usize::from(site.operands) <= length {
            return site;
        }
        CallSite {
            caller: site.caller,
            operands: length as u16,
        }
    }
}
