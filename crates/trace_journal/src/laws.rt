//! Laws of all journals, each as the contract of a function with no parameters and an empty body, for the crates above to cite.

ghost use Rattle.trace_journal.specs.Laws.{TextsHaveOneReading, ReadingsAreJournals, JournalsReadBack, JournalsFit};

/// A text is read in one way.
pub fn texts_have_one_reading()
    ensures { TextsHaveOneReading }
{}

/// A text that is read as a journal is the text of that journal.
pub fn readings_are_journals()
    ensures { ReadingsAreJournals }
{}

/// The text of a journal within the limits is read as that journal.
pub fn journals_read_back()
    ensures { JournalsReadBack }
{}

/// A journal of at most 4,194,304 events and undos has at most 268,435,456 bytes.
pub fn journals_fit()
    ensures { JournalsFit }
{}
