//! The words that threads have logged along a run, and the tags that they carry. A law alone.
//!
//! The function does nothing: its contract is the law.

ghost use Rattle.written_words.specs.Noted.{NotedWordsAreOwn};

use op_core::ThreadCode;

/// What a thread has logged since one of its levels opened carries the tag of its section, at that level or further inside.
pub fn noted_words_are_own<C: ThreadCode>()
    ensures { NotedWordsAreOwn C.code }
{}
