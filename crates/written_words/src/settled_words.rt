//! What the events that are left have made of each word of an object, along a run. Laws alone.
//!
//! Each function does nothing: its contract is the law.

ghost use Rattle.written_words.specs.SettledWords.{WordsSettle, ReadsAgree};

use op_core::ThreadCode;

/// A word that nobody is to put back has the value that the events which are left have made, and any other will have it
/// once it is put back.
pub fn words_settle<C: ThreadCode>()
    ensures { WordsSettle C.code }
{}

/// A read that is answered while its thread has no level open that is to be undone finds the value that the events which
/// are left have made.
pub fn reads_agree<C: ThreadCode>()
    ensures { ReadsAgree C.code }
{}
