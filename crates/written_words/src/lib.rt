//! Who wrote each word of an object along a run: the levels that were open as it was written. Laws alone.
//!
//! Each function does nothing: its contract is the law.
#![tactic(auto)]

pub mod noted_words;
pub mod settled_words;
pub mod undone_monitors;

ghost use Rattle.written_words.specs.Writers.{OpenLevelsAreOfSections};
ghost use Rattle.written_words.specs.Tags.{TagsSayWriters, OldTagsSayWriters};
ghost use Rattle.written_words.specs.Written.{LevelsWriteWhatIsLogged, CarriedWordsAreLogged};
ghost use Rattle.written_words.specs.Undone.{DoomedWritersAreOpen, ObservedLevelsStay, UndoneLevelsAreInNoWriter, UndoneLevelsHaveWrittenNothing, UndoneSectionsHaveWrittenNothing, TagsNameNoUndoneSection};
ghost use Rattle.written_words.specs.Known.{KnownSectionsAreOthers};

use op_core::ThreadCode;

/// The levels that a thread has open are levels of its section, each opened inside of the next.
pub fn open_levels_are_of_sections<C: ThreadCode>()
    ensures { OpenLevelsAreOfSections C.code }
{}

/// The tag of a word of an object is 0 exactly where no level was open as it was written. Else it has the number of the
/// section that the outermost of these levels opened, and how many they are.
pub fn tags_say_writers<C: ThreadCode>()
    ensures { TagsSayWriters C.code }
{}

/// So has the tag of each old word that a thread has logged; and no section wrote it, or the thread itself opened the one that
/// did, or that is committed, or pinned at least as deep as the word was written.
pub fn old_tags_say_writers<C: ThreadCode>()
    ensures { OldTagsSayWriters C.code }
{}

/// The section that a thread knows as the writer of a word isn't the thread's own, nor undone, and it is known to a level at
/// least.
pub fn known_sections_are_others<C: ThreadCode>()
    ensures { KnownSectionsAreOthers C.code }
{}

/// A level that is open and isn't pinned is in the writers of exactly those words that its thread has logged since the level
/// opened. Of the old words in the log it is in the writers of those whose place has an older entry that was logged since
/// then. So it is while the section is live or revoking.
pub fn levels_write_what_is_logged<C: ThreadCode>()
    ensures { LevelsWriteWhatIsLogged C.code }
{}

/// While a section is live or revoking, and nothing of it is pinned, its thread has logged each word that carries it.
pub fn carried_words_are_logged<C: ThreadCode>()
    ensures { CarriedWordsAreLogged C.code }
{}

/// A level that is in the writer of a word and is revoked, then or later, is open still.
pub fn doomed_writers_are_open<C: ThreadCode>()
    ensures { DoomedWritersAreOpen C.code }
{}

/// Where another thread reads or overwrites a word, no level in which the value there was written is revoked, neither before
/// nor later.
pub fn observed_levels_stay<C: ThreadCode>()
    ensures { ObservedLevelsStay C.code }
{}

/// Once a thread has undone its section to a level, neither that level nor one further inside is in the writer of a word, then
/// or later.
pub fn undone_levels_are_in_no_writer<C: ThreadCode>()
    ensures { UndoneLevelsAreInNoWriter C.code }
{}

/// Where a run ends as a level of a section is marked as undone, no word that carries the section has a value that was written
/// in a level that is revoked.
pub fn undone_levels_have_written_nothing<C: ThreadCode>()
    ensures { UndoneLevelsHaveWrittenNothing C.code }
{}

/// Once the outermost level of a section was undone, no word of an object carries the section.
pub fn undone_sections_have_written_nothing<C: ThreadCode>()
    ensures { UndoneSectionsHaveWrittenNothing C.code }
{}

/// No tag of a word of an object names a section that is undone.
pub fn tags_name_no_undone_section<C: ThreadCode>()
    ensures { TagsNameNoUndoneSection C.code }
{}
