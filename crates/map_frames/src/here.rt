//! The frame of an instruction: the map frame there, or else what falls into the instruction.

ghost use Rattle.std.specs.Prelude.{◌≡◌, ◌≤◌, None, Option, Some, IfErr, IfOk, IfSome};
ghost use Rattle.type_rules.specs.Environment.{Environment, TypeFrame};
ghost use Rattle.type_rules.specs.TypeFaults as faults;
ghost use Rattle.typing_frames.specs.Frames.{shown, IsFrame, LeavesFrames, StoresRemember};
ghost use Rattle.typing_frames.specs.Told.{Tells};
ghost use Rattle.typing_frames.specs.declared.stores.FrameStores.{FrameStores};
ghost use Rattle.map_frames.specs.Here.{IsEntryOf, shown_if};
ghost use Rattle.map_frames.specs.Making.{IsFrameInRoom};
ghost use Rattle.map_frames.specs.Mapped.{Maps, MapsAt};

use crate::entry::MethodEntry;
use crate::mapped::MappedFrame;
use type_rules::VerifyKind;
use typing_frames::{CheckStop, CurrentFrame, FrameStores};
use word_types::ClassHierarchy;

// The method has room for what it begins with.
fn entry_room(entry: &MethodEntry, step: u32) -> Result<(), CheckStop>
    ensures { (env : Environment) → IsEntryOf env entry.now → Tells result (faults.entry_fault env step) }
{
    if step == 0 && usize::from(entry.max_locals) < entry.words.len() {
        return Err(CheckStop::At(VerifyKind::Limits));
    }
    Ok(())
}

// The method has room for a map frame.
fn map_room(entry: &MethodEntry, map: Option<MappedFrame>) -> Result<(), CheckStop>
    ensures room { IfOk result (λ _. IfSome map (λ m. m.frame.depth ≤ entry.now.max_stack)) }
    ensures told { (env : Environment) (stores : FrameStores) (g : Option TypeFrame) → IsEntryOf env entry.now → MapsAt stores map g
        → Tells result (faults.room_fault env g) }
{
    let Some(map) = map else {
        return Ok(());
    };
    if u32::from(entry.max_locals) < map.words {
        return Err(CheckStop::At(VerifyKind::Limits));
    }
    if u32::from(entry.max_stack) < map.frame.depth {
        return Err(CheckStop::At(VerifyKind::Limits));
    }
    Ok(())
}

// What falls into the first instruction is the map frame there.
fn meets_first(
    stores: &FrameStores,
    entry: &MethodEntry,
    frame: CurrentFrame,
    map: MappedFrame,
) -> Result<(), CheckStop>
    requires locals { entry.now.max_locals ≡ stores.now.locals.most }
    requires stack { entry.now.max_stack ≡ stores.now.stacks.most }
    ensures told { (env : Environment) (g : TypeFrame) → IsEntryOf env entry.now → Maps stores.now map g → faults.room_fault env (Some g) ≡ None
        → Tells result (faults.meeting_fault env 0 (Some (shown stores.now frame)) (Some g)) }
{
    if !stores.is_same_frame(entry.max_locals, frame, map.frame) {
        return Err(CheckStop::At(VerifyKind::FrameMismatch));
    }
    Ok(())
}

// What falls into a later instruction is assignable to the map frame there.
fn meets_later<H: ClassHierarchy>(
    stores: &mut FrameStores,
    hierarchy: &H,
    frame: CurrentFrame,
    map: MappedFrame,
) -> Result<(), CheckStop>
    requires map { IsFrameInRoom stores.old map.frame }
    requires frame { IsFrame stores.old frame }
    requires remembered { StoresRemember (H.hierarchy hierarchy.now) stores.old }
    ensures leaves { LeavesFrames stores.old stores.new }
    ensures remembered { StoresRemember (H.hierarchy hierarchy.now) stores.new }
    ensures told { (env : Environment) (g : TypeFrame) → env.hierarchy ≡ H.hierarchy hierarchy.now → Maps stores.old map g
        → Tells result (faults.unless (faults.is_frame_assignable env (shown stores.old frame) g) VerifyKind.FrameMismatch) }
{
    if !map.takes(stores, hierarchy, frame)? {
        return Err(CheckStop::At(VerifyKind::FrameMismatch));
    }
    Ok(())
}

// What falls into an instruction and the map frame there agree.
fn meets<H: ClassHierarchy>(
    stores: &mut FrameStores,
    hierarchy: &H,
    entry: &MethodEntry,
    step: u32,
    frame: CurrentFrame,
    map: MappedFrame,
) -> Result<(), CheckStop>
    requires locals { entry.now.max_locals ≡ stores.old.locals.most }
    requires stack { entry.now.max_stack ≡ stores.old.stacks.most }
    requires map { IsFrame stores.old map.frame }
    requires frame { IsFrame stores.old frame }
    requires remembered { StoresRemember (H.hierarchy hierarchy.now) stores.old }
    ensures leaves { LeavesFrames stores.old stores.new }
    ensures remembered { StoresRemember (H.hierarchy hierarchy.now) stores.new }
    ensures told { (env : Environment) (g : TypeFrame) → IsEntryOf env entry.now → env.hierarchy ≡ H.hierarchy hierarchy.now → Maps stores.old map g
        → faults.room_fault env (Some g) ≡ None → Tells result (faults.meeting_fault env step (Some (shown stores.old frame)) (Some g)) }
{
    if step == 0 {
        return meets_first(stores, entry, frame, map);
    }
    meets_later(stores, hierarchy, frame, map)
}

// What falls into an instruction without a map frame.
fn only_before(before: Option<CurrentFrame>) -> Result<CurrentFrame, CheckStop>
    ensures there { IfOk result (λ made. before ≡ Some made) }
    ensures none { IfErr result (λ stop. (before ≡ None) × (stop ≡ CheckStop.At VerifyKind.FrameMissing)) }
{
    match before {
        Some(frame) => Ok(frame),
        None => Err(CheckStop::At(VerifyKind::FrameMissing)),
    }
}

// The frame of an instruction for whose map frame there is room.
fn frame_met<H: ClassHierarchy>(
    stores: &mut FrameStores,
    hierarchy: &H,
    entry: &MethodEntry,
    step: u32,
    before: Option<CurrentFrame>,
    map: Option<MappedFrame>,
) -> Result<CurrentFrame, CheckStop>
    requires locals { entry.now.max_locals ≡ stores.old.locals.most }
    requires stack { entry.now.max_stack ≡ stores.old.stacks.most }
    requires map { IfSome map (λ m. IsFrame stores.old m.frame) }
    requires before { IfSome before (λ f. IsFrame stores.old f) }
    requires remembered { StoresRemember (H.hierarchy hierarchy.now) stores.old }
    ensures leaves { LeavesFrames stores.old stores.new }
    ensures remembered { StoresRemember (H.hierarchy hierarchy.now) stores.new }
    ensures frame { IfOk result (λ made. IsFrame stores.new made) }
    ensures here { (env : Environment) (g : Option TypeFrame) → IsEntryOf env entry.now → MapsAt stores.old map g
        → IfOk result (λ made. faults.frame_here env g (shown_if stores.old before) ≡ Some (shown stores.new made)) }
    ensures told { (env : Environment) (g : Option TypeFrame) → IsEntryOf env entry.now → env.hierarchy ≡ H.hierarchy hierarchy.now → MapsAt stores.old map g
        → faults.room_fault env g ≡ None → Tells result (faults.meeting_fault env step (shown_if stores.old before) g) }
{
    let Some(map) = map else {
        return only_before(before);
    };
    let Some(frame) = before else {
        return Ok(map.frame);
    };
    meets(stores, hierarchy, entry, step, frame, map)?;
    Ok(map.frame)
}

/// The frame of the instruction of a number: the map frame there, or else what falls into the instruction
/// (JVMS 4.10.1.6). `before` is what falls into it, the entry frame at the first one, and `map` the map frame there. It
/// is an error where the method has no room for its entry or for the map frame, where there is neither frame, and where
/// what falls in doesn't fit the map frame. All frames stay as they are, also after an error.
pub fn frame_here<H: ClassHierarchy>(
    stores: &mut FrameStores,
    hierarchy: &H,
    entry: &MethodEntry,
    step: u32,
    before: Option<CurrentFrame>,
    map: Option<MappedFrame>,
) -> Result<CurrentFrame, CheckStop>
    requires locals { entry.now.max_locals ≡ stores.old.locals.most }
    requires stack { entry.now.max_stack ≡ stores.old.stacks.most }
    requires map { IfSome map (λ m. IsFrameInRoom stores.old m.frame) }
    requires before { IfSome before (λ f. IsFrame stores.old f) }
    requires remembered { StoresRemember (H.hierarchy hierarchy.now) stores.old }
    ensures leaves { LeavesFrames stores.old stores.new }
    ensures remembered { StoresRemember (H.hierarchy hierarchy.now) stores.new }
    ensures frame { IfOk result (λ made. IsFrame stores.new made) }
    ensures here { (env : Environment) → IsEntryOf env entry.now → MapsAt stores.old map (env.map_at step)
        → IfOk result (λ made. faults.frame_here env (env.map_at step) (shown_if stores.old before) ≡ Some (shown stores.new made)) }
    ensures told { (env : Environment) → IsEntryOf env entry.now → env.hierarchy ≡ H.hierarchy hierarchy.now → MapsAt stores.old map (env.map_at step)
        → Tells result (faults.frame_fault env step (shown_if stores.old before)) }
{
    entry_room(entry, step)?;
    map_room(entry, map)?;
    frame_met(stores, hierarchy, entry, step, before, map)
}
