//! Laws of verified programs. Each function does nothing: its contract is the law.

ghost use Rattle.std.specs.Prelude.{◌≡◌, ◌↔◌, ℕ, true, List};
ghost use Rattle.code_decode.specs.declared.code.ClassUnit.{ClassUnit};
ghost use Rattle.link_rules.specs.Classes.{NamedClass};
ghost use Rattle.type_rules.specs.VerifyRules.{verify_rules};
ghost use Rattle.type_rules.specs.declared.types.VerificationType.{VerificationType};
ghost use Rattle.type_rules.specs.Assignable.{is_same_type};
ghost use Rattle.type_laws.specs.Inside.{MethodsStayInside};
ghost use Rattle.type_laws.specs.Itself.{TypesGoToThemselves};
ghost use Rattle.type_laws.specs.Programs.{AssignableMeansBelow, MethodsAreTypeSafe, MethodsHaveEnvironments};

/// Each method that has code is looked at, and is type safe in a program that is verified.
pub fn verified_methods_are_type_safe()
    ensures looked_at { (us : List ClassUnit) → MethodsHaveEnvironments us }
    ensures safe { (us : List ClassUnit) → (verify_rules us).Hold → MethodsAreTypeSafe us }
{}

/// The code of a decoded class has an instruction in each method, and leads to instructions of the method.
pub fn methods_stay_inside()
    ensures { (us : List ClassUnit) → MethodsStayInside us }
{}

/// What is assignable to a class or an array is below it, as instanceof sees it. Of an interface this isn't so:
/// every class is assignable to it.
pub fn assignable_types_are_below()
    ensures { (cs : List NamedClass) → AssignableMeansBelow cs }
{}

/// Each type is assignable to itself, where the class that it names is one of the program. The test of sameness decides
/// whether types are the same.
pub fn types_go_to_themselves()
    ensures assignable { (us : List ClassUnit) (order : List ℕ) → TypesGoToThemselves us order }
    ensures same { (a b : VerificationType) → (is_same_type a b ≡ true) ↔ (a ≡ b) }
{}
