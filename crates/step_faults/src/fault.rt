//! The rules of an instruction by itself, in their order.

ghost use Rattle.std.specs.Prelude.{◌≡◌, ◌+◌, ℕ, ◌&&◌, not, length, nat_le};
ghost use Rattle.type_rules.specs.Environment.{TypeFrame};
ghost use Rattle.type_rules.specs.FrameAfter.{after_what};
ghost use Rattle.type_rules.specs.Wants as wants;
ghost use Rattle.word_types.specs.Verdicts.{verdict_meant};
ghost use Rattle.type_rules.specs.TypeFaults as faults;

use crate::frame::FrameWords;
use crate::locals::{are_locals_there, is_local_right};
use crate::returned::{is_initialization_right, returns_rightly};
use crate::room::has_room;
use crate::taken::take_wanted;
use instructions::{Instr, Target, What};
use step_wants::{MethodWorld, wants_of};
use type_rules::VerifyKind;
use word_types::Verdict;

fn is_wrong(verdict: Verdict) -> bool
    ensures { result ≡ wants.is_wrong (verdict_meant verdict) }
{
    matches!(verdict, Verdict::Wrong)
}

fn is_uninitialized(verdict: Verdict) -> bool
    ensures { result ≡ wants.is_uninitialized (verdict_meant verdict) }
{
    matches!(verdict, Verdict::Uninitialized)
}

// Tests whether what is taken and the local that is read have the types that are wanted.
fn has_right_types<W: MethodWorld, F: FrameWords>(
    world: &W,
    frame: &F,
    what: &What<Target>,
    verdict: Verdict,
) -> bool
    ensures { result ≡ not (wants.is_wrong (verdict_meant verdict))
        && faults.is_local_right (W.environment world.now) what.now (F.frame frame.now) }
{
    !is_wrong(verdict) && is_local_right(world, frame, what)
}

// Tests whether what is taken is initialized, and what is made and returned is as it must be.
fn is_initialized<F: FrameWords>(frame: &F, instruction: &Instr<Target>, verdict: Verdict) -> bool
    ensures { result ≡ not (wants.is_uninitialized (verdict_meant verdict))
        && faults.is_initialization_right instruction.now instruction.now.what (F.frame frame.now) }
{
    !is_uninitialized(verdict) && is_initialization_right(frame, instruction)
}

// Tests whether the method has the locals and the stack that an instruction needs, where `left` words stay under
// those that it takes.
fn is_within_limits<W: MethodWorld>(world: &W, what: &What<Target>, left: u32) -> bool
    ensures { (at : ℕ) (f : TypeFrame)
        → left + wants.words_wanted (wants.wants (W.environment world.now) what.now) ≡ length f.stack
        → result ≡ faults.are_locals_there (W.environment world.now) what.now
        && nat_le (length (after_what (W.environment world.now) at what.now f).stack)
        (W.environment world.now).max_stack }
{
    are_locals_there(world, what) && has_room(world, what, left)
}

/// The first rule that an instruction breaks by itself in a frame, in this order, each over all of the instruction:
/// StackShape, TypeMismatch, Uninit, Limits, ReturnType. `None` where it breaks none.
pub fn own_fault<W: MethodWorld, F: FrameWords>(
    world: &W,
    frame: &F,
    instruction: &Instr<Target>,
) -> Option<VerifyKind>
    ensures { result ≡ faults.own_fault (W.environment world.now) instruction.now (F.frame frame.now) }
{
    let what = &instruction.what;
    let Some(taken) = take_wanted(world, frame, wants_of(world, what)) else {
        return Some(VerifyKind::StackShape);
    };
    if !has_right_types(world, frame, what, taken.verdict) {
        return Some(VerifyKind::TypeMismatch);
    }
    if !is_initialized(frame, instruction, taken.verdict) {
        return Some(VerifyKind::Uninit);
    }
    if !is_within_limits(world, what, taken.left) {
        return Some(VerifyKind::Limits);
    }
    if !returns_rightly(world, frame, what) {
        return Some(VerifyKind::ReturnType);
    }
    None
}
