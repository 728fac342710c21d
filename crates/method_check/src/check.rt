//! Methods that are type safe.

ghost use Rattle.std.specs.Prelude.{◌≡◌, Some, IfErr, IfOk};
ghost use Rattle.type_rules.specs.Environment.{entry_frame};
ghost use Rattle.type_rules.specs.TypeSafe.{IsTypeSafe};
ghost use Rattle.map_frames.specs.Here.{shown_if};
ghost use Rattle.method_check.specs.Method.{IsMethodOf, TellsMethodFault, refusal_of};
ghost use Rattle.method_check.specs.Walk.{HasComeTo, IsWalked};

use crate::refusal::MethodRefusal;
use crate::walk::{Walk, WalkedMethod};
use code_decode::Code;
use handler_frames::MethodHandlers;
use map_frames::{MapFrames, MethodEntry, PoolOperands};
use std::alloc::Global;
use step_wants::MethodWorld;
use typing_frames::{CheckStop, FrameStores};

// The refusal at the instruction of an offset.
fn refusal_at(stop: CheckStop, place: u32) -> MethodRefusal
    ensures { result ≡ refusal_of stop place }
{
    match stop {
        CheckStop::NoMemory => MethodRefusal::NoMemory,
        CheckStop::At(kind) => MethodRefusal::At { kind, place },
    }
}

// Goes over the instructions of a method from the first one on.
fn walk_all<W: MethodWorld, P: PoolOperands>(
    world: &W,
    pool: &P,
    method: &WalkedMethod<'_>,
    walk: &mut Walk,
) -> Result<(), MethodRefusal>
    requires walked { IsWalked (W.environment world.now) (P.operands pool.now) method.now walk.old.stores }
    requires comes { HasComeTo (W.environment world.now) walk.old 0 }
    requires before { shown_if walk.old.stores walk.old.before ≡ Some (entry_frame (W.environment world.now)) }
    ensures safe { IfOk result (λ _. IsTypeSafe (W.environment world.now)) }
    ensures first { IfErr result (λ e. TellsMethodFault (W.environment world.now) e) }
{
    for (number, instruction) in method.steps.as_slice().iter().enumerate() {
        // No code has 2^32 instructions or more.
        let Ok(step) = u32::try_from(number) else {
            return Err(MethodRefusal::NoMemory);
        };
        if let Err(stop) = walk.step(world, pool, method, step, instruction) {
            return Err(refusal_at(stop, instruction.at));
        }
    }
    Ok(())
}

/// Checks whether a method is type safe (JVMS 4.10.1.5). `world` is what the rules see of it, `pool` what the indices
/// of its class's constant pool stand for, `entry` what it begins with, and `code` its code. All memory that is taken
/// is given back.
///
/// # Errors
///
/// The first rule that is broken, by the order of the instructions, and the offset of the instruction at which it is.
/// `NoMemory` may come anywhere, and says nothing about the method.
pub fn check_method<'a, W: MethodWorld, P: PoolOperands>(
    alloc: Global,
    world: &W,
    pool: &P,
    entry: &'a MethodEntry,
    code: &'a Code,
) -> Result<(), MethodRefusal>
    requires method { IsMethodOf (W.environment world.now) (P.operands pool.now) entry.now code.now }
    ensures safe { IfOk result (λ _. IsTypeSafe (W.environment world.now)) }
    ensures first { IfErr result (λ e. TellsMethodFault (W.environment world.now) e) }
{
    let mut stores = FrameStores::new(alloc, entry.max_locals, entry.max_stack);
    let maps = MapFrames::new(alloc, &mut stores, entry, pool, &code.frames)?;
    let method = WalkedMethod {
        begins: entry,
        steps: &code.steps,
        handlers: MethodHandlers {
            handlers: code.handlers.as_slice(),
            frames: &code.frames,
            maps: &maps,
        },
    };
    let mut walk = Walk::new(alloc, world, pool, &method, stores)?;
    walk_all(world, pool, &method, &mut walk)
}
