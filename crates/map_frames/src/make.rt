//! The map frames of a method are made.

ghost use Rattle.std.specs.Prelude.{◌≡◌, ◌&&◌, IfOk, List, map, nat_lt, reverse};
ghost use Rattle.code_frames.specs.Locals.{changed};
ghost use Rattle.code_frames.specs.declared.types.VType.{VType};
ghost use Rattle.type_rules.specs.Assignable as assignable;
ghost use Rattle.type_rules.specs.Environments.{words_of_values};
ghost use Rattle.type_rules.specs.MapFrames as table;
ghost use Rattle.type_rules.specs.declared.types.VerificationType.{VerificationType};
ghost use Rattle.typing_frames.specs.Frames.{IsKeptFrame, StoresFollow, StoresRemember};
ghost use Rattle.map_frames.specs.Making.{AreItems, AreWords};
ghost use Rattle.map_frames.specs.Mapped.{only_word, AreMapFrames, Maps};

use crate::entry::MethodEntry;
use crate::items::{LocalItems, is_wide};
use crate::mapped::{MapFrames, MappedFrame};
use crate::pool::{PoolOperands, item_type};
use crate::stack::with_types;
use crate::words::LocalWords;
use code_frames::{Frames, MapFrame, VType};
use std::alloc::{AllocError, Global};
use type_rules::VerificationType;
use typing_frames::{CurrentFrame, FrameStores};

fn are_some(count: u32) -> bool
    ensures { result ≡ nat_lt 0 count }
{
    0 < count
}

fn is_unset(constructs: bool, uninits: u32) -> bool
    ensures { result ≡ (constructs && nat_lt 0 uninits) }
{
    constructs && 0 < uninits
}

// The word of a stack of one word.
fn only_word<P: PoolOperands>(
    pool: &P,
    entry: &[VerificationType],
    stack: &[VType],
) -> Option<VerificationType>
    ensures { result ≡ only_word (reverse (table.item_words (table.item_type (P.operands pool.now) entry.now) stack.now)) }
{
    if stack.len() != 1 {
        return None;
    }
    let word = item_type(pool, entry, stack[0]);
    if is_wide(word) {
        return None;
    }
    Some(word)
}

// The map frame with these locals, which are kept, and with this stack.
fn mapped_frame<P: PoolOperands>(
    stores: &mut FrameStores,
    entry: &MethodEntry,
    pool: &P,
    locals: LocalWords,
    stack: &[VType],
) -> Result<MappedFrame, AllocError>
    requires kept { IsKeptFrame stores.old locals.frame }
    requires stack { entry.now.max_stack ≡ stores.old.stacks.most }
    ensures follows { StoresFollow stores.old stores.new }
    ensures remembered { (h : assignable.Hierarchy) → StoresRemember h stores.old → StoresRemember h stores.new }
    ensures made { (ws : List VerificationType) → AreWords stores.old locals ws → IfOk result (λ made. Maps stores.new made
        (table.frame_with_flag entry.now.constructs ws (reverse (table.item_words (table.item_type (P.operands pool.now) entry.now.words.items) stack.now)))) }
{
    let empty = CurrentFrame {
        locals: locals.frame.locals,
        stack: locals.frame.stack,
        depth: locals.frame.depth,
        unset: is_unset(entry.constructs, locals.uninits),
    };
    let frame = with_types(
        stores,
        entry.max_stack,
        empty,
        pool,
        entry.words.as_slice(),
        stack,
    )?;
    let only = only_word(pool, entry.words.as_slice(), stack);
    stores.keep();
    Ok(MappedFrame {
        frame,
        locals: locals.frame.locals,
        only,
        words: locals.count,
        passes: are_some(locals.passing),
    })
}

// The map frame of the next frame of a table, after the one with these locals.
fn next_frame<P: PoolOperands>(
    stores: &mut FrameStores,
    entry: &MethodEntry,
    pool: &P,
    locals: &mut LocalItems,
    frame: &MapFrame,
) -> Result<MappedFrame, AllocError>
    requires are { AreItems stores.old locals.old }
    requires locals { entry.now.max_locals ≡ stores.old.locals.most }
    requires stack { entry.now.max_stack ≡ stores.old.stacks.most }
    ensures follows { StoresFollow stores.old stores.new }
    ensures remembered { (h : assignable.Hierarchy) → StoresRemember h stores.old → StoresRemember h stores.new }
    ensures are { IfOk result (λ _. AreItems stores.new locals.new) }
    ensures items { (types : List VType) → locals.old.items.items ≡ map (table.item_type (P.operands pool.now) entry.now.words.items) types
        → IfOk result (λ _. locals.new.items.items ≡ map (table.item_type (P.operands pool.now) entry.now.words.items) (changed types frame.now.locals)) }
    ensures made { IfOk result (λ made. Maps stores.new made
        (table.frame_with_flag entry.now.constructs (words_of_values locals.new.items.items) (reverse (table.item_words (table.item_type (P.operands pool.now) entry.now.words.items) frame.now.stack)))) }
{
    locals.change(
        stores,
        entry.max_locals,
        pool,
        entry.words.as_slice(),
        &frame.locals,
    )?;
    stores.keep();
    let made = mapped_frame(stores, entry, pool, locals.words, frame.stack.as_slice())?;
    Ok(made)
}

impl MapFrames {
    /// The map frames of a method from its table (JVMS 4.7.4), in the stores that are made for the method. They are kept.
    /// Each kept frame stays as it was, also after an error.
    pub fn new<P: PoolOperands>(
        alloc: Global,
        stores: &mut FrameStores,
        entry: &MethodEntry,
        pool: &P,
        frames: &Frames,
    ) -> Result<Self, AllocError>
        requires locals { entry.now.max_locals ≡ stores.old.locals.most }
        requires stack { entry.now.max_stack ≡ stores.old.stacks.most }
        ensures follows { StoresFollow stores.old stores.new }
        ensures remembered { (h : assignable.Hierarchy) → StoresRemember h stores.old → StoresRemember h stores.new }
        ensures made { IfOk result (λ made.
            AreMapFrames stores.new made (table.item_type (P.operands pool.now) entry.now.words.items) entry.now.constructs entry.now.values.items frames.now) }
    {
        let mut locals = LocalItems::new(alloc, stores);
        locals.push_values(stores, entry.max_locals, entry.values.as_slice())?;
        let mut made = Vec::new(alloc);
        for frame in frames.as_slice() {
            let next = next_frame(stores, entry, pool, &mut locals, frame)?;
            made.push(next)?;
        }
        Ok(MapFrames { frames: made })
    }
}
