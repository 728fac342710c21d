//! What is kept of a thread beside its code: what it says of classes, how turns change it, and room in its log.

ghost use Rattle.std.specs.Prelude.{◌≡◌, ◌+◌, ◌≤◌, ◌<◌, IsTrue, true};
ghost use Rattle.turn_runs.specs.Own.{own_quiet};
ghost use Rattle.turn_runs.specs.Own.{is_safe_for, written_by, has_unseen_level, own_counted};
ghost use Rattle.quick_turns.specs.Paths.{own_knowing, HasWritten, IsInitialized};

use heap_words::ClassWord;
use thread_moves::Own;
use turn_runs::{SWAP_WORD, has_unseen_level};
use write_log::Noted;

/// The number of the kind of a step that loads the word of a section.
pub(crate) const LOAD_SECTION: u8 = 6;

/// That of one that loads the word of a class.
pub(crate) const LOAD_CLASS: u8 = 25;

/// Whether the word of a class says that it is initialized, or that the thread itself initializes it.
pub(crate) fn is_initialized(own: &Own, word: u64) -> bool
    ensures { IsTrue result → IsInitialized own.now word }
{
    match ClassWord::unpack(word) {
        Some(ClassWord::Ready) => true,
        Some(ClassWord::Claimed(thread)) => thread == own.number,
        _ => false,
    }
}

/// Makes room in the log for one more word, where a word that is overwritten can be put back, and says whether there was memory.
/// Nothing that is seen of the thread changes.
pub(crate) fn make_log_room(own: &mut Own) -> bool
    ensures own { own.new ≡ record own.old { log = own.new.log } }
    ensures noted { own.new.log.noted ≡ own.old.log.noted }
    ensures room { result ≡ true → has_unseen_level own.old ≡ true → 0 < own.new.log.spare }
{
    if has_unseen_level(own) {
        own.log.reserve().is_ok()
    } else {
        true
    }
}

/// Keeps how deep words of a section are safe, once its word was loaded.
pub(crate) fn know(own: &mut Own, section: u32, depth: u8)
    ensures { own.new ≡ own_knowing own.old section depth }
{
    own.known = section;
    own.known_depth = depth;
    own.last_kind = LOAD_SECTION;
}

/// Counts the turn in which a word was overwritten, and logs the word where it can be put back. There must be room in the log.
#[inline(always)]
pub(crate) fn count_write(own: &mut Own, at: u32, old: u64)
    requires counted { own.old.counted < own.old.bounds.limits.turns }
    requires room { has_unseen_level own.old ≡ true → 0 < own.old.log.spare }
    ensures { HasWritten at old own.old own.new }
{
    if has_unseen_level(own) {
        own.log.note(Noted { at, old });
    }
    own.counted += 1;
    own.silents = 0;
    own.last_kind = SWAP_WORD;
}
