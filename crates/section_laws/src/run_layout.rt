//! How objects lie among the shared words along a run, and on which of their words steps are made. Laws alone.
//!
//! Each function does nothing: its contract is the law.

ghost use Rattle.section_laws.specs.Layout.{RunsKeepLayout, ObjectsStay, NewObjectsAreEmpty, ThreadsNameObjects};
ghost use Rattle.section_laws.specs.Places.{StepsStayInObjects};

use op_core::ThreadCode;

/// The objects lie apart at each place of a run, each with a header that says its class and its length, and after the
/// last one all words are 0.
pub fn runs_keep_layout<C: ThreadCode>()
    ensures { RunsKeepLayout C.code }
{}

/// An object stays, with its class, its length and its words.
pub fn objects_stay<C: ThreadCode>()
    ensures { ObjectsStay C.code }
{}

/// A step of a thread on the words of objects is made on a word of an object that is there, and of its kind: a header, a
/// monitor, a start word, or a word that code reads and writes.
pub fn steps_stay_in_objects<C: ThreadCode>()
    ensures { StepsStayInObjects C.code }
{}

/// An object that a thread makes wasn't there, lies within the heap, and has words of 0.
pub fn new_objects_are_empty<C: ThreadCode>()
    ensures { NewObjectsAreEmpty C.code }
{}

/// What a thread has logged are words of objects that are there, and no start words; and the monitors that it holds, and
/// those that it held as its levels opened, are of objects that are there.
pub fn threads_name_what_is_there<C: ThreadCode>()
    ensures { ThreadsNameObjects C.code }
{}
