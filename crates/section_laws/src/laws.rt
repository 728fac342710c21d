//! Sections along runs, of every thread code.

ghost use Rattle.section_laws.specs.Runs.{SectionsOpenOnce, ZeroIsNoSection, SectionsAreApart, OthersSectionsStay, RunsBeginWithRuns};
ghost use Rattle.section_laws.specs.InRuns.{RunsHaveActs, RunsReachStates, SectionsOpenOnceInRuns, SectionsAreApartInRuns, OthersSectionsStayInRuns};

use op_core::ThreadCode;

/// What a run has begun with is a run.
pub fn runs_begin_with_runs<C: ThreadCode>()
    ensures { RunsBeginWithRuns C.code }
{}

/// A run as one list has acts: its entries are their steps, and after each act words and threads are those after the
/// entries so far. Needed: the number of the first thread was drawn as the run begins, and each other thread begins as
/// the code says for the one that hands it out.
pub fn runs_have_acts<C: ThreadCode>()
    ensures { RunsHaveActs C.code }
{}

/// It has such acts that end where each thread is right after its last step, in each state in which it can be there.
pub fn runs_reach_states<C: ThreadCode>()
    ensures { RunsReachStates C.code }
{}

/// No number is opened twice.
pub fn sections_open_once<C: ThreadCode>()
    ensures { SectionsOpenOnce C.code }
{}

/// Nor is one in a run as one list.
pub fn sections_open_once_in_runs<C: ThreadCode>()
    ensures { SectionsOpenOnceInRuns C.code }
{}

/// The number 0 is that of no section: its word stays 0.
pub fn zero_is_no_section<C: ThreadCode>()
    ensures { ZeroIsNoSection C.code }
{}

/// No two threads have the same section open.
pub fn sections_are_apart<C: ThreadCode>()
    ensures { SectionsAreApart C.code }
{}

/// Nor have they in a run as one list.
pub fn sections_are_apart_in_runs<C: ThreadCode>()
    ensures { SectionsAreApartInRuns C.code }
{}

/// A thread leaves the word of another thread's section as it is, pins the section deeper, or revokes it to a level that
/// is open and not pinned, and only while it is live.
pub fn others_sections_stay<C: ThreadCode>()
    ensures { OthersSectionsStay C.code }
{}

/// So it is with each entry of a run as one list.
pub fn others_sections_stay_in_runs<C: ThreadCode>()
    ensures { OthersSectionsStayInRuns C.code }
{}
