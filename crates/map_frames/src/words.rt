//! The words of the locals of a map frame.

ghost use Rattle.std.specs.Prelude.{◌≡◌, ◌+◌, ◌-◌, ◌&&◌, ◌∷◌, ◌++◌, [], List, IfOk, nat_le, slice_set};
ghost use Rattle.type_rules.specs.Assignable as assignable;
ghost use Rattle.type_rules.specs.declared.types.VerificationType.{VerificationType};
ghost use Rattle.type_rules.specs.MapFrames as frames;
ghost use Rattle.typing_frames.specs.Frames.{shown, IsFrame, StoresFollow, StoresRemember};
ghost use Rattle.map_frames.specs.Mapped as mapped;
ghost use Rattle.map_frames.specs.Making.{one_if, AreWords};

use std::alloc::AllocError;
use type_rules::VerificationType;
use typing_frames::{CurrentFrame, FrameStores};
use word_types::is_same_type;

// Locals: those that the method has, in a frame with an empty stack, and counts of all that there are.
#[derive(Clone, Copy)]
pub(crate) struct LocalWords {
    pub(crate) frame: CurrentFrame,
    // How many words there are.
    pub(crate) count: u32,
    // How many of those past the method's locals aren't Top.
    pub(crate) passing: u32,
    // How many are UninitThis.
    pub(crate) uninits: u32,
}

fn is_uninit_this(word: VerificationType) -> bool
    ensures { result ≡ frames.is_uninit_this word }
{
    matches!(word, VerificationType::UninitThis)
}

// Tests whether a word at a place is one past the method's locals, and isn't Top.
fn is_passing(max_locals: u16, at: u32, word: VerificationType) -> bool
    ensures { result ≡ (nat_le max_locals at && mapped.is_word word) }
{
    u32::from(max_locals) <= at && !is_same_type(word, VerificationType::Top)
}

// A count with one more, if it counts.
fn counted(count: u32, counts: bool) -> Result<u32, AllocError>
    ensures { IfOk result (λ n. n ≡ count + one_if counts) }
{
    if !counts {
        return Ok(count);
    }
    if count == u32::MAX {
        return Err(AllocError);
    }
    Ok(count + 1)
}

// .. and with one less.
fn uncounted(count: u32, counts: bool) -> u32
    ensures { result ≡ count - one_if counts }
{
    if counts {
        count.saturating_sub(1)
    } else {
        count
    }
}

// A frame with another word in a local, if the method has that local.
fn with_local(
    stores: &mut FrameStores,
    max_locals: u16,
    frame: CurrentFrame,
    at: u32,
    word: VerificationType,
) -> Result<CurrentFrame, AllocError>
    requires frame { IsFrame stores.old frame }
    requires locals { max_locals ≡ stores.old.locals.most }
    ensures follows { StoresFollow stores.old stores.new }
    ensures remembered { (h : assignable.Hierarchy) → StoresRemember h stores.old → StoresRemember h stores.new }
    ensures frame { IfOk result (λ made. IsFrame stores.new made) }
    ensures shown { IfOk result (λ made. shown stores.new made ≡ record (shown stores.old frame) { locals = slice_set (shown stores.old frame).locals at word }) }
{
    if u32::from(max_locals) <= at {
        return Ok(frame);
    }
    stores.set_local(frame, at, word)
}

impl LocalWords {
    // No locals.
    pub(crate) fn none(stores: &FrameStores) -> Self
        ensures { AreWords stores.now result [] }
    {
        LocalWords {
            frame: stores.empty(false),
            count: 0,
            passing: 0,
            uninits: 0,
        }
    }

    // The locals with a word appended.
    pub(crate) fn with_word(
        self,
        stores: &mut FrameStores,
        max_locals: u16,
        word: VerificationType,
    ) -> Result<Self, AllocError>
        requires frame { IsFrame stores.old self.frame }
        requires locals { max_locals ≡ stores.old.locals.most }
        ensures follows { StoresFollow stores.old stores.new }
        ensures remembered { (h : assignable.Hierarchy) → StoresRemember h stores.old → StoresRemember h stores.new }
        ensures frame { IfOk result (λ made. IsFrame stores.new made.frame) }
        ensures words { (ws : List VerificationType) → AreWords stores.old self ws → IfOk result (λ made. AreWords stores.new made (ws ++ word ∷ [])) }
    {
        let passing = counted(self.passing, is_passing(max_locals, self.count, word))?;
        let uninits = counted(self.uninits, is_uninit_this(word))?;
        let count = counted(self.count, true)?;
        let frame = with_local(stores, max_locals, self.frame, self.count, word)?;
        Ok(LocalWords {
            frame,
            count,
            passing,
            uninits,
        })
    }

    // The locals without this word at their end.
    pub(crate) fn without_word(
        self,
        stores: &mut FrameStores,
        max_locals: u16,
        word: VerificationType,
    ) -> Result<Self, AllocError>
        requires frame { IsFrame stores.old self.frame }
        requires locals { max_locals ≡ stores.old.locals.most }
        ensures follows { StoresFollow stores.old stores.new }
        ensures remembered { (h : assignable.Hierarchy) → StoresRemember h stores.old → StoresRemember h stores.new }
        ensures frame { IfOk result (λ made. IsFrame stores.new made.frame) }
        ensures words { (ws : List VerificationType) → AreWords stores.old self (ws ++ word ∷ []) → IfOk result (λ made. AreWords stores.new made ws) }
    {
        let count = uncounted(self.count, true);
        let passing = uncounted(self.passing, is_passing(max_locals, count, word));
        let uninits = uncounted(self.uninits, is_uninit_this(word));
        let top = VerificationType::Top;
        let frame = with_local(stores, max_locals, self.frame, count, top)?;
        Ok(LocalWords {
            frame,
            count,
            passing,
            uninits,
        })
    }
}
