//! What holds of the rules. A function that does nothing has the law as its contract.

ghost use Rattle.type_rules.specs.Environment.{Environment};
ghost use Rattle.type_rules.specs.TypeSafe.{FaultsRefute};

/// A method in which a rule fails first isn't type safe, and no other rule fails first in it.
pub fn faults_refute()
    ensures { (env : Environment) → FaultsRefute env }
{}
