//! The words with which a run begins stand for the ordinary state at the start of its program. A law alone.

ghost use Rattle.opening_cores.specs.Laws.{OpeningsStandForTheirStates};

use op_core::ThreadCode;

/// What is read off the words of an opening are the objects, words, started threads, monitors and classes of its
/// ordinary state.
pub fn openings_stand_for_their_states<C: ThreadCode>()
    ensures { OpeningsStandForTheirStates C.State }
{}
