//! Numbers that instructions compute.

ghost use Rattle.row_soundness.specs.Numbers.{NumbersFit};

/// What arithmetic, shifts and conversions give of words are words, of longs longs; and the digits of a number are words.
pub fn numbers_fit()
    ensures { NumbersFit }
{}
