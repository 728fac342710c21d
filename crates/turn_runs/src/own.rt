//! What is kept of a thread beside its code: what it says of words, and how turns change it. For hosts of the thread's code.

ghost use Rattle.std.specs.Prelude.{◌≡◌, ◌+◌, ◌≤◌, ◌<◌};
ghost use Rattle.turn_runs.specs.Own.{is_safe_for, written_by, has_unseen_level, own_quiet, own_counted};

use heap_words::{HeapWord, Tag};
use thread_moves::Own;

/// The number of the kind of a step that loads a word of an object.
pub const LOAD_WORD: u8 = 1;

/// That of one that exchanges such a word.
pub const SWAP_WORD: u8 = 2;

/// Whether a level is open that the thread hasn't seen pinned.
#[inline(always)]
pub fn has_unseen_level(own: &Own) -> bool
    ensures { result ≡ has_unseen_level own.now }
{
    own.pinned < own.levels
}

/// Whether the thread may read or overwrite this word of an object at once: it was written in no section, in the thread's own one,
/// or in the one that the thread knows to stay as deep as the word was written.
#[inline(always)]
pub fn is_safe(own: &Own, word: u64) -> bool
    ensures { result ≡ is_safe_for own.now word }
{
    let packed = HeapWord::unpack(word).tag;
    let tag = Tag::unpack(packed);
    let is_known = tag.section == own.known && tag.level <= own.known_depth;
    packed == 0 || tag.section == own.section || is_known
}

/// The word with this value that the thread writes: its tag is the thread's section with its innermost level.
#[inline(always)]
pub fn written_word(own: &Own, value: u32) -> u64
    ensures { result ≡ written_by own.now value }
{
    let tag = Tag {
        section: own.section,
        level: own.levels,
    };
    let word = HeapWord {
        value,
        tag: tag.pack(),
    };
    word.pack()
}

/// Counts this many silent turns. The thread must have this many left.
#[inline(always)]
pub fn count_silent(own: &mut Own, made: u64)
    requires { own.old.counted + made ≤ own.old.bounds.limits.turns }
    ensures { own.old.silents ≤ own.old.counted → own.new ≡ own_quiet own.old made }
{
    if made > 0 {
        own.counted += made;
        own.silents = own.silents.saturating_add(made);
        own.last_kind = 0;
    }
}

/// Counts a turn with an event, whose step has this kind. The thread must have one left.
#[inline(always)]
pub fn count_event(own: &mut Own, kind: u8)
    requires { own.old.counted < own.old.bounds.limits.turns }
    ensures { own.new ≡ own_counted own.old kind }
{
    own.counted += 1;
    own.silents = 0;
    own.last_kind = kind;
}

/// Keeps the kind of a step that doesn't count.
pub fn probe(own: &mut Own, kind: u8)
    ensures { own.new ≡ record own.old { last_kind = kind } }
{
    own.last_kind = kind;
}
