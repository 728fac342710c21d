//! Handlers that are looked at one after the other.

ghost use Rattle.std.specs.Prelude.{◌≡◌, ◌&&◌, ◌∷◌, [], IfOk, IfSome};
ghost use Rattle.link_types.specs.declared.types.ObjectType.{ObjectType};
ghost use Rattle.type_rules.specs.declared.types.VerificationType.TheVariants.{Object};
ghost use Rattle.type_rules.specs.Assignable as assignable;
ghost use Rattle.type_rules.specs.Environment.{Environment, TypeFrame, TypedHandler};
ghost use Rattle.type_rules.specs.Environments as environments;
ghost use Rattle.type_rules.specs.TypeFaults as faults;
ghost use Rattle.type_rules.specs.Wants.{throwable_type};
ghost use Rattle.typing_frames.specs.Frames.{shown, IsFrame, LeavesFrames, StoresRemember};
ghost use Rattle.typing_frames.specs.Told.{Tells};
ghost use Rattle.map_frames.specs.Mapped.{AreLocals, Maps, MapsAt};
ghost use Rattle.handler_frames.specs.Methods.{AreHandlersOf, AreMade, takes_only};

use crate::method::MethodHandlers;
use builtin_world::number::THROWABLE;
use code_decode::Handler;
use link_types::ObjectType;
use map_frames::{MappedFrame, PoolOperands, object_type};
use std::alloc::AllocError;
use type_rules::{VerificationType, VerifyKind};
use typing_frames::{CheckStop, CurrentFrame, FrameStores};
use word_types::{ClassHierarchy, is_assignable, is_object_assignable};

// What a handler catches that names an entry of the pool, or none.
pub(crate) fn caught_type<P: PoolOperands>(pool: &P, kind: u16) -> ObjectType
    ensures { result ≡ environments.caught_type (P.operands pool.now) kind }
{
    if kind == 0 {
        return ObjectType::Class(THROWABLE);
    }
    object_type(pool.operand(kind))
}

// Tests whether what is caught is a Throwable.
pub(crate) fn is_thrown<H: ClassHierarchy>(hierarchy: &H, caught: ObjectType) -> bool
    ensures { result ≡ assignable.is_object_assignable (H.hierarchy hierarchy.now) caught throwable_type }
{
    is_object_assignable(hierarchy, caught, ObjectType::Class(THROWABLE))
}

// Tests whether the stack of a map frame is one word that takes what is caught.
pub(crate) fn takes_caught<H: ClassHierarchy>(
    hierarchy: &H,
    map: MappedFrame,
    caught: ObjectType,
) -> bool
    ensures { result ≡ takes_only (H.hierarchy hierarchy.now) map.only caught }
{
    match map.only {
        Some(word) => is_assignable(hierarchy, VerificationType::Object(caught), word),
        None => false,
    }
}

// Tests whether the locals of a frame are assignable to those of a map frame.
fn takes_locals<H: ClassHierarchy>(
    stores: &mut FrameStores,
    hierarchy: &H,
    map: MappedFrame,
    frame: CurrentFrame,
) -> Result<bool, AllocError>
    requires map { AreLocals stores.old map.locals }
    requires frame { IsFrame stores.old frame }
    requires remembered { StoresRemember (H.hierarchy hierarchy.now) stores.old }
    ensures leaves { LeavesFrames stores.old stores.new }
    ensures remembered { StoresRemember (H.hierarchy hierarchy.now) stores.new }
    ensures told { (g : TypeFrame) → Maps stores.old map g
        → IfOk result (λ b. b ≡ assignable.are_locals_assignable (H.hierarchy hierarchy.now) (shown stores.old frame).locals g.locals) }
{
    if map.passes {
        return Ok(false);
    }
    stores
        .locals
        .are_assignable(hierarchy, frame.locals, map.locals)
}

// Checks that a handler takes a frame, where this is the map frame at its entry.
fn check_handler<H: ClassHierarchy>(
    stores: &mut FrameStores,
    hierarchy: &H,
    map: Option<MappedFrame>,
    caught: ObjectType,
    frame: CurrentFrame,
) -> Result<(), CheckStop>
    requires map { IfSome map (λ m. AreLocals stores.old m.locals) }
    requires frame { IsFrame stores.old frame }
    requires remembered { StoresRemember (H.hierarchy hierarchy.now) stores.old }
    ensures leaves { LeavesFrames stores.old stores.new }
    ensures remembered { StoresRemember (H.hierarchy hierarchy.now) stores.new }
    ensures told { (env : Environment) (h : TypedHandler) → env.hierarchy ≡ H.hierarchy hierarchy.now → h.caught ≡ caught → MapsAt stores.old map (env.map_at h.entry)
        → Tells result (faults.handler_fault env (shown stores.old frame) h) }
{
    if frame.unset {
        return Err(CheckStop::At(VerifyKind::InitCovered));
    }
    let Some(map) = map else {
        return Err(CheckStop::At(VerifyKind::FrameMissing));
    };
    if !takes_caught(hierarchy, map, caught) {
        return Err(CheckStop::At(VerifyKind::FrameMismatch));
    }
    if !takes_locals(stores, hierarchy, map, frame)? {
        return Err(CheckStop::At(VerifyKind::FrameMismatch));
    }
    if !is_thrown(hierarchy, caught) {
        return Err(CheckStop::At(VerifyKind::TypeMismatch));
    }
    Ok(())
}

// Checks that a handler takes a frame, if it covers the instruction.
fn check_covering<H: ClassHierarchy, P: PoolOperands>(
    stores: &mut FrameStores,
    hierarchy: &H,
    pool: &P,
    method: MethodHandlers<'_>,
    handler: &Handler,
    step: u32,
    frame: CurrentFrame,
) -> Result<(), CheckStop>
    requires made { AreMade stores.old method }
    requires frame { IsFrame stores.old frame }
    requires remembered { StoresRemember (H.hierarchy hierarchy.now) stores.old }
    ensures leaves { LeavesFrames stores.old stores.new }
    ensures remembered { StoresRemember (H.hierarchy hierarchy.now) stores.new }
    ensures told { (env : Environment) → env.hierarchy ≡ H.hierarchy hierarchy.now → AreHandlersOf env stores.old (P.operands pool.now) method.entry
        → Tells result (faults.handlers_fault env step (shown stores.old frame) (environments.typed_handler (P.operands pool.now) handler.now ∷ [])) }
{
    if step < handler.first || handler.end <= step {
        return Ok(());
    }
    let map = method.maps.at(method.frames, handler.entry);
    check_handler(
        stores,
        hierarchy,
        map,
        caught_type(pool, handler.kind),
        frame,
    )
}

// Checks that each handler that covers an instruction takes the frame there, one after the other.
pub(crate) fn check_in_order<H: ClassHierarchy, P: PoolOperands>(
    stores: &mut FrameStores,
    hierarchy: &H,
    pool: &P,
    method: MethodHandlers<'_>,
    step: u32,
    frame: CurrentFrame,
) -> Result<(), CheckStop>
    requires made { AreMade stores.old method }
    requires frame { IsFrame stores.old frame }
    requires remembered { StoresRemember (H.hierarchy hierarchy.now) stores.old }
    ensures leaves { LeavesFrames stores.old stores.new }
    ensures remembered { StoresRemember (H.hierarchy hierarchy.now) stores.new }
    ensures told { (env : Environment) → env.hierarchy ≡ H.hierarchy hierarchy.now → AreHandlersOf env stores.old (P.operands pool.now) method.entry
        → Tells result (faults.handlers_fault env step (shown stores.old frame) env.handlers) }
{
    for handler in method.handlers {
        check_covering(stores, hierarchy, pool, method, handler, step, frame)?;
    }
    Ok(())
}
