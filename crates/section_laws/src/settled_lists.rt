//! Laws of what the remaining events have made of words and monitors, where it is known which levels are to be undone.
//!
//! While a thread has a level open that is to be undone, a word of an object may have a value that none of the
//! remaining events has written. What is settled is then found by replay: the words that the thread logged since that
//! level opened are put back. Each law says how that goes on with one kind of step. It is the contract of a function
//! with no parameters and an empty body, for the crates above to cite.

ghost use Rattle.section_laws.specs.Laws.{KeptWritesSettle, NotedWritesSettle, WordsPutBackSettle, OpenedLevelsPutBackTheSame, ClosedLevelsPutBackTheSame, UndoneLevelsPutBackNone, NotedWordsArePutBack, TakenMonitorsSettle, DeepenedMonitorsSettle, ReleasedMonitorsSettle, OpenedLevelsKeepDepths, ClosedLevelsKeepDepths};

/// A write that is left settles its word.
pub fn kept_writes_settle()
    ensures { KeptWritesSettle }
{}

/// A write that is to be undone leaves what is settled as it is.
pub fn noted_writes_settle()
    ensures { NotedWritesSettle }
{}

/// So does putting a word back.
pub fn words_put_back_settle()
    ensures { WordsPutBackSettle }
{}

/// The same words are to be put back after a level was opened,
pub fn opened_levels_put_back_the_same()
    ensures { OpenedLevelsPutBackTheSame }
{}

/// and after levels were closed.
pub fn closed_levels_put_back_the_same()
    ensures { ClosedLevelsPutBackTheSame }
{}

/// None is left once all levels are undone that are to be.
pub fn undone_levels_put_back_none()
    ensures { UndoneLevelsPutBackNone }
{}

/// A word that is logged in a level that is to be undone is one of those that are put back.
pub fn noted_words_are_put_back()
    ensures { NotedWordsArePutBack }
{}

/// A free monitor may be taken,
pub fn taken_monitors_settle()
    ensures { TakenMonitorsSettle }
{}

/// one that is held may get another depth,
pub fn deepened_monitors_settle()
    ensures { DeepenedMonitorsSettle }
{}

/// and one may be released: what is settled of monitors goes on.
pub fn released_monitors_settle()
    ensures { ReleasedMonitorsSettle }
{}

/// How often a monitor will be held once all is undone that is to be stays as a level is opened,
pub fn opened_levels_keep_depths()
    ensures { OpenedLevelsKeepDepths }
{}

/// and as levels are closed.
pub fn closed_levels_keep_depths()
    ensures { ClosedLevelsKeepDepths }
{}
