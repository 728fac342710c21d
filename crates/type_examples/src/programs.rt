//! Programs that are verified.

ghost use Rattle.type_rules.specs.VerifyRules.{verify_rules};
ghost use Rattle.type_examples.specs.TinyProgram.{tiny_program};

/// A class with `x == 0 ? 1 : x` and a constructor that calls the one of its superclass is type safe.
pub fn a_program_is_type_safe()
    ensures { (verify_rules tiny_program).Hold }
{}
