//! The beginning of a program.

ghost use Rattle.java_laws.specs.Laws.{OpeningsHavePlace, OpeningsLieBelowFirst, OpeningsStartMain};

/// The fixed objects of a program lie one after the other below the first free place, so its words can be laid out
/// wherever the heap after them ends below 2^32.
pub fn openings_have_place()
    ensures { OpeningsHavePlace }
{}

/// The first reference of a new object is above those of the fixed objects.
pub fn openings_lie_below_first()
    ensures { OpeningsLieBelowFirst }
{}

/// Main's Thread is a fixed object, and it alone has started a thread as a program begins, number 1.
pub fn openings_start_main()
    ensures { OpeningsStartMain }
{}
