//! One instruction.

ghost use Rattle.std.specs.Prelude.{◌≡◌, ◌+◌, Some, None, IfOk, slice_get, if◌then◌else◌};
ghost use Rattle.instructions.specs.What.{falls_through};
ghost use Rattle.type_rules.specs.FrameAfter.{frame_after};
ghost use Rattle.type_rules.specs.TypeFaults as faults;
ghost use Rattle.typing_frames.specs.Frames.{shown, IsFrame, StoresFollow};
ghost use Rattle.typing_frames.specs.Told.{Tells};
ghost use Rattle.map_frames.specs.Here.{shown_if};
ghost use Rattle.step_frames.specs.Arrays.{MakesArray};
ghost use Rattle.handler_frames.specs.Known.{FitsStores, KnowsHandlers};
ghost use Rattle.method_check.specs.Walk.{AreStoresOf, FallsOn, HasComeTo, IsWalked};

use crate::flows::{check_end, check_flows};
use crate::walk::{Walk, WalkedMethod};
use instructions::{Instr, Target, What};
use map_frames::{PoolOperands, frame_here};
use step_frames::{after_instruction, check_instruction};
use step_wants::MethodWorld;
use typing_frames::{CheckStop, CurrentFrame, FrameStores};

// The frame after an instruction, in place of the frame.
fn frame_behind<W: MethodWorld>(
    world: &W,
    stores: &mut FrameStores,
    frame: CurrentFrame,
    instruction: &Instr<Target>,
) -> Result<CurrentFrame, CheckStop>
    requires frame { IsFrame stores.old frame }
    requires stores { AreStoresOf (W.environment world.now) stores.old }
    requires array { MakesArray (W.environment world.now) instruction.now.what }
    ensures follows { StoresFollow stores.old stores.new }
    ensures stores { AreStoresOf (W.environment world.now) stores.new }
    ensures frame { IfOk result (λ made. IsFrame stores.new made) }
    ensures shown { IfOk result (λ made. shown stores.new made
        ≡ frame_after (W.environment world.now) instruction.now (shown stores.old frame)) }
    ensures told { Tells result (faults.own_fault (W.environment world.now) instruction.now (shown stores.old frame)) }
{
    check_instruction(world, stores, frame, instruction)?;
    Ok(after_instruction(world, stores, frame, instruction)?)
}

// What falls through into the next instruction, where this is the frame after the instruction.
fn fallen(what: &What<Target>, frame: CurrentFrame) -> Option<CurrentFrame>
    ensures { result ≡ (if falls_through what.now then Some frame else None) }
{
    if what.falls_through() {
        Some(frame)
    } else {
        None
    }
}

impl Walk {
    // Checks the rules of an instruction in its frame, and returns the frame after it, in place of that frame.
    fn check_frame<W: MethodWorld, P: PoolOperands>(
        &mut self,
        world: &W,
        pool: &P,
        method: &WalkedMethod<'_>,
        step: u32,
        frame: CurrentFrame,
        instruction: &Instr<Target>,
    ) -> Result<CurrentFrame, CheckStop>
        requires walked { IsWalked (W.environment world.now) (P.operands pool.now) method.now self.old.stores }
        requires comes { HasComeTo (W.environment world.now) self.old step }
        requires there { slice_get (W.environment world.now).steps step ≡ Some instruction.now }
        requires frame { IsFrame self.old.stores frame }
        ensures walked { IfOk result (λ _. IsWalked (W.environment world.now) (P.operands pool.now) method.now self.new.stores) }
        ensures fits { IfOk result (λ _. FitsStores (W.environment world.now).hierarchy self.new.stores self.new.handlers) }
        ensures knows { IfOk result (λ _. KnowsHandlers self.new.stores self.new.handlers (W.environment world.now) (step + 1)) }
        ensures frame { IfOk result (λ made. IsFrame self.new.stores made) }
        ensures shown { IfOk result (λ made. shown self.new.stores made
            ≡ frame_after (W.environment world.now) instruction.now (shown self.old.stores frame)) }
        ensures told { Tells result (faults.instruction_fault (W.environment world.now) step instruction.now (shown self.old.stores frame)) }
    {
        self.handlers.check(
            &mut self.stores,
            world.classes(),
            pool,
            method.handlers,
            step,
            frame,
        )?;
        let behind = frame_behind(world, &mut self.stores, frame, instruction)?;
        check_flows(
            &mut self.stores,
            world.classes(),
            method.handlers,
            behind,
            &instruction.what,
        )?;
        check_end(method.steps, step, &instruction.what)?;
        Ok(behind)
    }

    /// Goes over the instruction of a number, which the walk has come to: each rule holds there (JVMS 4.10.1.5).
    ///
    /// # Errors
    ///
    /// The first rule that is broken.
    pub(crate) fn step<W: MethodWorld, P: PoolOperands>(
        &mut self,
        world: &W,
        pool: &P,
        method: &WalkedMethod<'_>,
        step: u32,
        instruction: &Instr<Target>,
    ) -> Result<(), CheckStop>
        requires walked { IsWalked (W.environment world.now) (P.operands pool.now) method.now self.old.stores }
        requires comes { HasComeTo (W.environment world.now) self.old step }
        requires there { slice_get (W.environment world.now).steps step ≡ Some instruction.now }
        ensures walked { IfOk result (λ _. IsWalked (W.environment world.now) (P.operands pool.now) method.now self.new.stores) }
        ensures comes { IfOk result (λ _. HasComeTo (W.environment world.now) self.new (step + 1)) }
        ensures falls { IfOk result (λ _. FallsOn (W.environment world.now) step instruction.now
            (shown_if self.old.stores self.old.before) (shown_if self.new.stores self.new.before)) }
        ensures told { Tells result (faults.fault_at (W.environment world.now) step instruction.now (shown_if self.old.stores self.old.before)) }
    {
        let map = method.handlers.maps.at(method.handlers.frames, step);
        let frame = frame_here(
            &mut self.stores,
            world.classes(),
            method.begins,
            step,
            self.before,
            map,
        )?;
        let behind = self.check_frame(world, pool, method, step, frame, instruction)?;
        self.before = fallen(&instruction.what, behind);
        Ok(())
    }
}
