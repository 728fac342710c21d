//! Look-up and selection.

ghost use Rattle.std.specs.Prelude.{◌≡◌, None, [], ◌∷◌};
ghost use Rattle.link_rules.specs.Supers.{IsAbove, field_order, method_order};
ghost use Rattle.link_rules.specs.Members.{found_field, found_method, selected};
ghost use Rattle.link_examples.specs.Programs.{family, ring, reference, class_of};

/// A method is looked for in the class and its superclasses, then in their interfaces: the private one of the class
/// itself is found, and through an array the one of the first class.
pub fn superclasses_come_before_interfaces()
    ensures order { method_order family 4 ≡ 4 ∷ 3 ∷ 1 ∷ 2 ∷ [] }
    ensures own { class_of (found_method family (reference "Low" "n" "()V")) ≡ 4 }
    ensures inherited { class_of (found_method family (reference "Low" "f" "()V")) ≡ 1 }
    ensures missing { found_method family (reference "Low" "n" "(I)V") ≡ None }
    ensures array { class_of (found_method family (reference "[LLow;" "m" "()V")) ≡ 1 }
{}

/// A field is looked for in the class, in its interfaces, then in its superclass.
pub fn fields_of_interfaces_come_first()
    ensures order { field_order family 4 ≡ 4 ∷ 2 ∷ 3 ∷ 1 ∷ [] }
    ensures interface { class_of (found_field family (reference "Low" "x" "I")) ≡ 2 }
    ensures class { class_of (found_field family (reference "Middle" "x" "I")) ≡ 3 }
{}

/// A constructor is looked for in the named class alone.
pub fn constructors_are_not_inherited()
    ensures own { class_of (found_method family (reference "Middle" "<init>" "()V")) ≡ 3 }
    ensures inherited { found_method family (reference "Low" "<init>" "()V") ≡ None }
    ensures missing { found_method family (reference "Absent" "<init>" "()V") ≡ None }
{}

/// What is selected is neither static nor private: for an object of the last class, the method of its superclass and
/// the method of the root.
pub fn selection_skips_private_and_static()
    ensures private { class_of (selected family 4 (reference "Low" "n" "()V")) ≡ 3 }
    ensures static_method { class_of (selected family 4 (reference "Low" "m" "()V")) ≡ 1 }
{}

/// A class on a ring of superclasses is above itself; a class below the ring isn't.
pub fn only_rings_are_cycles()
    ensures first { IsAbove ring 1 1 }
    ensures second { IsAbove ring 2 2 }
    ensures below { ¬ IsAbove ring 3 3 }
{}
