//! Types and locals.

ghost use Rattle.std.specs.Prelude.{◌≡◌, true, false, [], ◌∷◌};
ghost use Rattle.link_types.specs.declared.types.ElementType.TheVariants as elements;
ghost use Rattle.link_types.specs.declared.types.ObjectType.TheVariants.{Array, Class, Other};
ghost use Rattle.type_rules.specs.declared.types.VerificationType.TheVariants.{Top, Int, Long, Second, Null, Object};
ghost use Rattle.type_rules.specs.Assignable.{are_locals_assignable, is_object_assignable};
ghost use Rattle.type_rules.specs.FrameAfter.{element_of, with_local};
ghost use Rattle.type_examples.specs.TinyMethods.{tiny_hierarchy};

/// Every class of the program is assignable to an interface; an array and a class that the program hasn't got
/// aren't. An interface is assignable only to Object and to other interfaces.
pub fn interfaces_take_every_class()
    ensures object { is_object_assignable tiny_hierarchy (Class 1) (Class 6) ≡ true }
    ensures array { is_object_assignable tiny_hierarchy (Array 1 elements.Int) (Class 6) ≡ false }
    ensures missing { is_object_assignable tiny_hierarchy (Other 3) (Class 6) ≡ false }
    ensures upward { is_object_assignable tiny_hierarchy (Class 6) (Class 1) ≡ true }
    ensures other { is_object_assignable tiny_hierarchy (Class 6) (Class 30) ≡ false }
{}

/// An array whose elements are arrays is assignable to an array of Object; an array of numbers isn't.
pub fn arrays_of_arrays_are_objects()
    ensures numbers { is_object_assignable tiny_hierarchy (Array 1 elements.Int) (Array 1 (elements.Class 1)) ≡ false }
    ensures arrays { is_object_assignable tiny_hierarchy (Array 2 elements.Int) (Array 1 (elements.Class 1)) ≡ true }
    ensures deep { is_object_assignable tiny_hierarchy (Array 2 elements.Int) (Array 2 (elements.Class 1)) ≡ false }
    ensures missing { is_object_assignable tiny_hierarchy (Array 1 (elements.Other 3)) (Array 1 (elements.Class 1)) ≡ true }
    ensures element { element_of (Object (Array 1 (elements.Class 4))) ≡ Object (Class 4) }
{}

/// A store into one half of a long leaves Top in the other; locals that a frame hasn't got are Top.
pub fn stores_leave_no_half_of_a_long()
    ensures second { with_local (Long ∷ Second ∷ Int ∷ []) 1 Null ≡ Top ∷ Null ∷ Int ∷ [] }
    ensures first { with_local (Long ∷ Second ∷ Int ∷ []) 0 Null ≡ Null ∷ Top ∷ Int ∷ [] }
    ensures both { with_local (with_local (Top ∷ Long ∷ Second ∷ []) 0 Long) 1 Second ≡ Long ∷ Second ∷ Top ∷ [] }
    ensures missing { are_locals_assignable tiny_hierarchy (Int ∷ []) (Int ∷ Top ∷ []) ≡ true }
{}
