//! The marks of the levels that threads have open, along a run: which levels have one, and how many words were logged
//! when they were made. Laws alone.
//!
//! Each function does nothing: its contract is the law.

ghost use Rattle.section_laws.specs.Marks.{MarksAreThere, MarksOfThreadsFall, UndoneLevelsHaveMarks};

use op_core::ThreadCode;

/// Each level that a thread hasn't seen pinned has a mark.
pub fn marks_are_there<C: ThreadCode>()
    ensures { MarksAreThere C.code }
{}

/// No mark was made with more words logged than a newer mark, or than are logged now; the oldest was made with none.
pub fn marks_fall<C: ThreadCode>()
    ensures { MarksOfThreadsFall C.code }
{}

/// The level to which a section is undone has a mark, and so a save.
pub fn undone_levels_have_marks<C: ThreadCode>()
    ensures { UndoneLevelsHaveMarks C.code }
{}
