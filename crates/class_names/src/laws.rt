//! Descriptors and texts are functions of their bytes, and code units have a text.

ghost use Rattle.std.specs.Prelude.{◌≡◌, ◌↔◌, ◌<◌, ◌^◌, ℕ, List, Option, Some, map};
ghost use Rattle.std.specs.List.{AllByRecursion};
ghost use Rattle.class_names.specs.declared.kind.Kind.{Kind};
ghost use Rattle.class_names.specs.declared.kind.Descriptor.{Descriptor};
ghost use Rattle.class_names.specs.Descriptor.{IsFieldDescriptor, IsMethodDescriptor, IsDescriptorOf};
ghost use Rattle.class_names.specs.Kinds.{field_kind, method_kinds};
ghost use Rattle.class_names.specs.ModifiedUtf8.{AreForms, IsTextOf, unit_of};
ghost use Rattle.class_names.specs.ShortestForms.{form_of, encoded};
ghost use Rattle.class_names.specs.Units.{units_of, text_of};

/// Bytes are the descriptor of one thing at most.
pub fn bytes_have_one_descriptor()
    ensures { (bytes : List ℕ) (descriptor other : Descriptor) →
        IsDescriptorOf bytes descriptor → IsDescriptorOf bytes other → descriptor ≡ other }
{}

/// The kinds that bytes give are those of which they are the descriptor (JVMS 4.3.2, 4.3.3).
pub fn kinds_are_described()
    ensures field { (bytes : List ℕ) (kind : Kind) → (field_kind bytes ≡ Some kind) ↔ IsFieldDescriptor bytes kind }
    ensures method { (bytes : List ℕ) (parameters : List Kind) (returned : Option Kind) →
        (method_kinds bytes ≡ Some (parameters, returned)) ↔ IsMethodDescriptor bytes parameters returned }
{}

/// The text that bytes give is the one that they stand for, and so are their code units (JVMS 4.4.7).
pub fn texts_are_spelled()
    ensures text { (bytes text : List ℕ) → (text_of bytes ≡ Some text) ↔ IsTextOf bytes text }
    ensures units { (bytes units : List ℕ) → (units_of bytes ≡ Some units) ↔
        ((forms : List (List ℕ)) × AreForms bytes forms × (units ≡ map unit_of forms)) }
{}

/// Bytes stand for at most one text.
pub fn bytes_have_one_text()
    ensures { (bytes text other : List ℕ) → IsTextOf bytes text → IsTextOf bytes other → text ≡ other }
{}

/// The shortest forms of code units are modified UTF-8, and stand for these units.
pub fn shortest_forms_have_their_units()
    ensures formed { (units : List ℕ) → AllByRecursion (λ u. u < 2 ^ 16) units → AreForms (encoded units) (map form_of units) }
    ensures units { (units : List ℕ) → AllByRecursion (λ u. u < 2 ^ 16) units → map unit_of (map form_of units) ≡ units }
{}
