//! A walk over the instructions of a method.

ghost use Rattle.std.specs.Prelude.{◌≡◌, Some, IfOk};
ghost use Rattle.type_rules.specs.Environment.{entry_frame};
ghost use Rattle.map_frames.specs.Here.{shown_if};
ghost use Rattle.method_check.specs.Walk.{HasComeTo, IsWalked};

use crate::begin::entry_frame;
use handler_frames::{CoveringHandlers, MethodHandlers};
use instructions::Steps;
use map_frames::{MethodEntry, PoolOperands};
use std::alloc::{AllocError, Global};
use step_wants::MethodWorld;
use typing_frames::{CurrentFrame, FrameStores};

/// What a walk reads of a method.
#[derive(Clone, Copy)]
pub(crate) struct WalkedMethod<'a> {
    pub(crate) begins: &'a MethodEntry,
    pub(crate) steps: &'a Steps,
    pub(crate) handlers: MethodHandlers<'a>,
}

/// A walk over the instructions of a method.
#[derive(Drop)]
pub(crate) struct Walk {
    pub(crate) stores: FrameStores,
    pub(crate) handlers: CoveringHandlers,
    // What falls into the next instruction.
    pub(crate) before: Option<CurrentFrame>,
}

impl Walk {
    /// A walk that has come to the first instruction, in stores in which the map frames of the method are.
    pub(crate) fn new<W: MethodWorld, P: PoolOperands>(
        alloc: Global,
        world: &W,
        pool: &P,
        method: &WalkedMethod<'_>,
        mut stores: FrameStores,
    ) -> Result<Self, AllocError>
        requires walked { IsWalked (W.environment world.now) (P.operands pool.now) method.now stores }
        requires constructs { (W.environment world.now).constructs ≡ method.now.begins.now.constructs }
        ensures walked { IfOk result (λ made. IsWalked (W.environment world.now) (P.operands pool.now) method.now made.stores) }
        ensures comes { IfOk result (λ made. HasComeTo (W.environment world.now) made 0) }
        ensures before { IfOk result (λ made. shown_if made.stores made.before ≡ Some (entry_frame (W.environment world.now))) }
    {
        let frame = entry_frame(&mut stores, method.begins)?;
        let handlers = CoveringHandlers::new(
            alloc,
            &stores,
            world.classes(),
            pool,
            method.handlers,
        )?;
        Ok(Walk {
            stores,
            handlers,
            before: Some(frame),
        })
    }
}
