//! Laws of what the type checker can answer. Each function does nothing: its contract is the law.

ghost use Rattle.std.specs.Prelude.{◌⊎◌, List};
ghost use Rattle.code_decode.specs.declared.code.ClassUnit.{ClassUnit};
ghost use Rattle.type_rules.specs.Environment.{Environment};
ghost use Rattle.type_rules.specs.TypeSafe.{IsTypeSafe};
ghost use Rattle.type_rules.specs.VerifyRules.{verify_rules};
ghost use Rattle.type_laws.specs.Answers.{AssignmentsAgree, HasFirstTypeFault, HaveOneAnswer};
ghost use Rattle.type_laws.specs.Walks.{WalksDecide};

/// A method is type safe, or a rule fails first in it. That it can't be both is `faults_refute` of `type_rules`.
pub fn methods_are_safe_or_refused()
    ensures { (env : Environment) → IsTypeSafe env ⊎ HasFirstTypeFault env }
{}

/// One walk over the instructions decides: it holds the frame that falls into the next one, and stops at the first rule
/// that fails.
pub fn walks_decide()
    ensures { (env : Environment) → WalksDecide env }
{}

/// A type safe method has one assignment: each instruction has one frame.
pub fn assignments_agree()
    ensures { (env : Environment) → AssignmentsAgree env }
{}

/// Each method of a program is type safe, or the program is refused: never both, and for one cause at one place.
pub fn programs_are_verified_or_refused()
    ensures { (us : List ClassUnit) → HaveOneAnswer (verify_rules us) }
{}
