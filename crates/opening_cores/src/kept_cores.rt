//! If each step of a thread code keeps a property, then it holds at each place of a run on shared words, with sections that
//! are undone. For any thread code; laws alone.
//!
//! `specs/KeptCores.antt` says what has to be closed and what holds then. That it holds (`CoresKeep`) ranges over all properties
//! of local states, words and objects, so no contract can say it: it is proved as a lemma in `proofs/CoreLemmas.antt`, which
//! the crates above cite.

ghost use Rattle.opening_cores.specs.KeptCores.{ObjectsEndInRange};

use op_core::ThreadCode;

/// In a run of a code that names nothing out of nothing, each object ends within 2^32 places, where those from the beginning
/// do.
pub fn objects_end_in_range<C: ThreadCode>()
    ensures { ObjectsEndInRange C.code }
{}
