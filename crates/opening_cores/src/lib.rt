//! The core in which a run of a program begins: runs begin there as they have to. Laws alone.
//!
//! Each function does nothing: its contract is the law.
#![tactic(auto)]

pub mod kept_cores;
pub mod opening_law;

ghost use Rattle.opening_cores.specs.Openings.{OpeningsBeginRuns, OpeningsAreOrdinary, OpeningsHaveNoTags};

use op_core::ThreadCode;

/// Acts that lead on from the words of an opening are a run that begins as it has to, if the opening has its places, its numbers
/// are in range, and main's Thread alone has started a thread.
pub fn openings_begin_runs<C: ThreadCode>()
    ensures { OpeningsBeginRuns C.code }
{}

/// The words of an opening, with main's thread at its first local state, stand for the ordinary state of the opening.
pub fn openings_are_ordinary<C: ThreadCode>()
    ensures { OpeningsAreOrdinary C.code }
{}

/// No section has written a word of an object of an opening.
pub fn openings_have_no_tags<C: ThreadCode>()
    ensures { OpeningsHaveNoTags C.State }
{}
