//! The items of the locals of a map frame.

ghost use Rattle.std.specs.Prelude.{◌≡◌, ◌-◌, ◌∷◌, ◌++◌, [], List, IfOk, length, map, take, true, false};
ghost use Rattle.code_frames.specs.Locals as table;
ghost use Rattle.code_frames.specs.declared.types.VType.{VType};
ghost use Rattle.type_rules.specs.Assignable as assignable;
ghost use Rattle.type_rules.specs.declared.types.VerificationType.{VerificationType};
ghost use Rattle.type_rules.specs.declared.types.VerificationType.TheVariants.{Second};
ghost use Rattle.type_rules.specs.Environment.{in_locals};
ghost use Rattle.type_rules.specs.MapFrames as frames;
ghost use Rattle.typing_frames.specs.Frames.{IsFrame, StoresFollow, StoresRemember};
ghost use Rattle.map_frames.specs.Making.{AreItems, AreWords};

use crate::pool::{PoolOperands, item_type};
use crate::words::LocalWords;
use code_frames::{LocalsChange, VType};
use std::alloc::{AllocError, Global};
use type_rules::VerificationType;
use typing_frames::FrameStores;

// The locals of a map frame while it is made, a long or a double being one item.
#[derive(Drop)]
pub(crate) struct LocalItems {
    pub(crate) words: LocalWords,
    pub(crate) items: Vec<VerificationType>,
}

// Tests whether an item takes two words.
pub(crate) fn is_wide(item: VerificationType) -> bool
    ensures wide { result ≡ true → in_locals item ≡ item ∷ Second ∷ [] }
    ensures narrow { result ≡ false → in_locals item ≡ item ∷ [] }
{
    matches!(item, VerificationType::Long | VerificationType::Double)
}

// Locals with an item appended.
fn with_item(
    words: LocalWords,
    stores: &mut FrameStores,
    max_locals: u16,
    item: VerificationType,
) -> Result<LocalWords, AllocError>
    requires frame { IsFrame stores.old words.frame }
    requires locals { max_locals ≡ stores.old.locals.most }
    ensures follows { StoresFollow stores.old stores.new }
    ensures remembered { (h : assignable.Hierarchy) → StoresRemember h stores.old → StoresRemember h stores.new }
    ensures words { (ws : List VerificationType) → AreWords stores.old words ws → IfOk result (λ made. AreWords stores.new made (ws ++ in_locals item)) }
{
    let made = words.with_word(stores, max_locals, item)?;
    if !is_wide(item) {
        return Ok(made);
    }
    made.with_word(stores, max_locals, VerificationType::Second)
}

// Locals without this item at their end.
fn without_item(
    words: LocalWords,
    stores: &mut FrameStores,
    max_locals: u16,
    item: VerificationType,
) -> Result<LocalWords, AllocError>
    requires frame { IsFrame stores.old words.frame }
    requires locals { max_locals ≡ stores.old.locals.most }
    ensures follows { StoresFollow stores.old stores.new }
    ensures remembered { (h : assignable.Hierarchy) → StoresRemember h stores.old → StoresRemember h stores.new }
    ensures words { (ws : List VerificationType) → AreWords stores.old words (ws ++ in_locals item) → IfOk result (λ made. AreWords stores.new made ws) }
{
    if !is_wide(item) {
        return words.without_word(stores, max_locals, item);
    }
    let first = words.without_word(stores, max_locals, VerificationType::Second)?;
    first.without_word(stores, max_locals, item)
}

impl LocalItems {
    // No locals.
    pub(crate) fn new(alloc: Global, stores: &FrameStores) -> Self
        ensures are { AreItems stores.now result }
        ensures items { result.items.items ≡ [] }
    {
        LocalItems {
            words: LocalWords::none(stores),
            items: Vec::new(alloc),
        }
    }

    // Appends an item.
    fn push(
        &mut self,
        stores: &mut FrameStores,
        max_locals: u16,
        item: VerificationType,
    ) -> Result<(), AllocError>
        requires are { AreItems stores.old self.old }
        requires locals { max_locals ≡ stores.old.locals.most }
        ensures follows { StoresFollow stores.old stores.new }
        ensures remembered { (h : assignable.Hierarchy) → StoresRemember h stores.old → StoresRemember h stores.new }
        ensures are { IfOk result (λ _. AreItems stores.new self.new) }
        ensures items { IfOk result (λ _. self.new.items.items ≡ self.old.items.items ++ item ∷ []) }
    {
        self.items.push(item)?;
        self.words = with_item(self.words, stores, max_locals, item)?;
        Ok(())
    }

    // Takes the last item away, if there is one.
    fn pop(&mut self, stores: &mut FrameStores, max_locals: u16) -> Result<(), AllocError>
        requires are { AreItems stores.old self.old }
        requires locals { max_locals ≡ stores.old.locals.most }
        ensures follows { StoresFollow stores.old stores.new }
        ensures remembered { (h : assignable.Hierarchy) → StoresRemember h stores.old → StoresRemember h stores.new }
        ensures are { IfOk result (λ _. AreItems stores.new self.new) }
        ensures items { IfOk result (λ _. self.new.items.items ≡ take (length self.old.items.items - 1) self.old.items.items) }
    {
        let Some(item) = self.items.pop() else {
            return Ok(());
        };
        self.words = without_item(self.words, stores, max_locals, item)?;
        Ok(())
    }

    // Takes `removed` items away at the end.
    fn pop_all(
        &mut self,
        stores: &mut FrameStores,
        max_locals: u16,
        removed: u8,
    ) -> Result<(), AllocError>
        requires are { AreItems stores.old self.old }
        requires locals { max_locals ≡ stores.old.locals.most }
        ensures follows { StoresFollow stores.old stores.new }
        ensures remembered { (h : assignable.Hierarchy) → StoresRemember h stores.old → StoresRemember h stores.new }
        ensures are { IfOk result (λ _. AreItems stores.new self.new) }
        ensures items { IfOk result (λ _. self.new.items.items ≡ take (length self.old.items.items - removed) self.old.items.items) }
    {
        for _ in 0..removed {
            self.pop(stores, max_locals)?;
        }
        Ok(())
    }

    // Appends values.
    pub(crate) fn push_values(
        &mut self,
        stores: &mut FrameStores,
        max_locals: u16,
        values: &[VerificationType],
    ) -> Result<(), AllocError>
        requires are { AreItems stores.old self.old }
        requires locals { max_locals ≡ stores.old.locals.most }
        ensures follows { StoresFollow stores.old stores.new }
        ensures remembered { (h : assignable.Hierarchy) → StoresRemember h stores.old → StoresRemember h stores.new }
        ensures are { IfOk result (λ _. AreItems stores.new self.new) }
        ensures items { IfOk result (λ _. self.new.items.items ≡ self.old.items.items ++ values.now) }
    {
        for value in values {
            self.push(stores, max_locals, *value)?;
        }
        Ok(())
    }

    // Appends what items of a table stand for.
    fn push_types<P: PoolOperands>(
        &mut self,
        stores: &mut FrameStores,
        max_locals: u16,
        pool: &P,
        entry: &[VerificationType],
        types: &[VType],
    ) -> Result<(), AllocError>
        requires are { AreItems stores.old self.old }
        requires locals { max_locals ≡ stores.old.locals.most }
        ensures follows { StoresFollow stores.old stores.new }
        ensures remembered { (h : assignable.Hierarchy) → StoresRemember h stores.old → StoresRemember h stores.new }
        ensures are { IfOk result (λ _. AreItems stores.new self.new) }
        ensures items { IfOk result (λ _. self.new.items.items ≡ self.old.items.items ++ map (frames.item_type (P.operands pool.now) entry.now) types.now) }
    {
        for item in types {
            self.push(stores, max_locals, item_type(pool, entry, *item))?;
        }
        Ok(())
    }

    // Puts what items of a table stand for in place of all others.
    fn put_types<P: PoolOperands>(
        &mut self,
        stores: &mut FrameStores,
        max_locals: u16,
        pool: &P,
        entry: &[VerificationType],
        types: &[VType],
    ) -> Result<(), AllocError>
        requires are { AreItems stores.old self.old }
        requires locals { max_locals ≡ stores.old.locals.most }
        ensures follows { StoresFollow stores.old stores.new }
        ensures remembered { (h : assignable.Hierarchy) → StoresRemember h stores.old → StoresRemember h stores.new }
        ensures are { IfOk result (λ _. AreItems stores.new self.new) }
        ensures items { IfOk result (λ _. self.new.items.items ≡ map (frames.item_type (P.operands pool.now) entry.now) types.now) }
    {
        self.items.clear();
        self.words = LocalWords::none(stores);
        self.push_types(stores, max_locals, pool, entry, types)
    }

    // Changes the locals as a frame of a table does.
    pub(crate) fn change<P: PoolOperands>(
        &mut self,
        stores: &mut FrameStores,
        max_locals: u16,
        pool: &P,
        entry: &[VerificationType],
        change: &LocalsChange,
    ) -> Result<(), AllocError>
        requires are { AreItems stores.old self.old }
        requires locals { max_locals ≡ stores.old.locals.most }
        ensures follows { StoresFollow stores.old stores.new }
        ensures remembered { (h : assignable.Hierarchy) → StoresRemember h stores.old → StoresRemember h stores.new }
        ensures are { IfOk result (λ _. AreItems stores.new self.new) }
        ensures items { (types : List VType) → self.old.items.items ≡ map (frames.item_type (P.operands pool.now) entry.now) types
            → IfOk result (λ _. self.new.items.items ≡ map (frames.item_type (P.operands pool.now) entry.now) (table.changed types change.now)) }
    {
        match change {
            LocalsChange::Same => Ok(()),
            LocalsChange::Append(added) => {
                self.push_types(stores, max_locals, pool, entry, added.as_slice())
            }
            LocalsChange::Chop(removed) => self.pop_all(stores, max_locals, *removed),
            LocalsChange::Full(all) => {
                self.put_types(stores, max_locals, pool, entry, all.as_slice())
            }
        }
    }
}
