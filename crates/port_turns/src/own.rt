//! How an attempt goes on that met a word of another section.

ghost use Rattle.std.specs.Prelude.{◌≡◌};
ghost use Rattle.port_turns.specs.Words.{own_at, meeting};

use heap_words::{HeapWord, Tag};
use thread_automaton::Attempt;
use thread_moves::Own;
use turn_runs::LOAD_WORD;

/// Keeps that the thread goes on with a look at the section that wrote this word, which it has loaded.
pub(crate) fn meet_writer(own: &mut Own, word: u64)
    ensures { own.new ≡ own_at own.old (meeting word) 1 }
{
    let tag = Tag::unpack(HeapWord::unpack(word).tag);
    own.attempt = Attempt::Meets(tag.section, tag.level);
    own.last_kind = LOAD_WORD;
}
