//! The room that an instruction needs on the stack.

ghost use Rattle.std.specs.Prelude.{◌≡◌, ◌+◌, ◌≤◌, ℕ, List, length, nat_le};
ghost use Rattle.type_rules.specs.Environment.{TypeFrame};
ghost use Rattle.type_rules.specs.FrameAfter as after;
ghost use Rattle.type_rules.specs.Wants as wants;
ghost use Rattle.type_rules.specs.declared.types.VerificationType.{VerificationType};
ghost use Rattle.step_faults.specs.Moves.{stack_operation_of, IsPut};

use crate::pushed::words_pushed;
use instructions::{Plain, StackOperation, Target, What};
use step_wants::MethodWorld;

/// How an instruction moves the words on top, if it moves words.
pub fn stack_operation(what: &What<Target>) -> Option<StackOperation>
    ensures { result ≡ stack_operation_of what.now }
{
    match what {
        What::Plain(Plain::Stack(operation)) => Some(*operation),
        _ => None,
    }
}

// How many words replace those that are moved.
fn words_moved(operation: StackOperation) -> u32
    ensures { (left : ℕ) (stack : List VerificationType)
        → left + wants.words_wanted (wants.stack_wants operation) ≡ length stack
        → length (after.moved_words operation stack) ≡ left + result }
{
    match operation {
        StackOperation::Pop | StackOperation::Pop2 => 0,
        StackOperation::Dup | StackOperation::Swap => 2,
        StackOperation::DupX1 => 3,
        StackOperation::DupX2 | StackOperation::Dup2 => 4,
        StackOperation::Dup2X1 => 5,
        StackOperation::Dup2X2 => 6,
    }
}

// How many words an instruction puts in place of those that it takes.
fn words_put<W: MethodWorld>(world: &W, what: &What<Target>) -> u32
    ensures { IsPut (W.environment world.now) what.now result }
{
    match stack_operation(what) {
        Some(operation) => words_moved(operation),
        None => words_pushed(world, what),
    }
}

/// Tests whether there is room for the stack after an instruction, where `left` words stay under those that it takes.
pub(crate) fn has_room<W: MethodWorld>(world: &W, what: &What<Target>, left: u32) -> bool
    ensures { (at : ℕ) (f : TypeFrame)
        → left + wants.words_wanted (wants.wants (W.environment world.now) what.now) ≡ length f.stack
        → result ≡ nat_le (length (after.after_what (W.environment world.now) at what.now f).stack)
        (W.environment world.now).max_stack }
{
    u64::from(left) + u64::from(words_put(world, what)) <= u64::from(world.max_stack())
}
