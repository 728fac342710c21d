//! Descriptors, names and strings.

ghost use Rattle.std.specs.Prelude.{◌≡◌, true, false, Some, [], ◌∷◌, codes};
ghost use Rattle.link_types.specs.declared.types.ObjectType.TheVariants.{Class, Other, Array};
ghost use Rattle.link_types.specs.declared.types.ElementType.TheVariants as elements;
ghost use Rattle.link_rules.specs.Descriptors.{has_float};
ghost use Rattle.link_rules.specs.Names.{program_names, type_named};
ghost use Rattle.link_rules.specs.Strings.{literal_text, each_once};
ghost use Rattle.link_examples.specs.Programs.{mixed};

/// A float or a double is a field, an element, a parameter or a result; letters of class names are none.
#[tactic(auto, unfolding(class_names::specs::Reading::kind_at, class_names::specs::Reading::base_at, class_names::specs::Reading::split_at_semicolon, class_names::specs::Reading::spells_class_name, class_names::specs::Kinds::kinds_within))]
pub fn class_names_are_no_floats()
    ensures class { has_float (codes "LF;") ≡ false }
    ensures array { has_float (codes "[[LDF;") ≡ false }
    ensures parameters { has_float (codes "(LF;[LD;J)LFD;") ≡ false }
    ensures field { has_float (codes "D") ≡ true }
    ensures element { has_float (codes "[[F") ≡ true }
    ensures parameter { has_float (codes "(ILF;D)V") ≡ true }
    ensures result { has_float (codes "()F") ≡ true }
{}

/// A class that the program hasn't got is numbered by the place of its name among all class names of the files.
#[tactic(auto, unfolding(builtin_world::specs::Library::library, class_names::specs::Reading::kind_at, class_names::specs::Reading::base_at, class_names::specs::Reading::split_at_semicolon, class_names::specs::Reading::spells_class_name, class_names::specs::Kinds::kinds_within))]
pub fn other_names_have_their_places()
    ensures class { type_named (program_names mixed) (codes "Mixed") ≡ Class 29 }
    ensures other { type_named (program_names mixed) (codes "Other") ≡ Other 7 }
    ensures array { type_named (program_names mixed) (codes "[[LOther;") ≡ Array 2 (elements.Other 7) }
    ensures primitive { type_named (program_names mixed) (codes "[J") ≡ Array 1 elements.Long }
{}

/// A form that is longer than it need be stands for the same character, and 0 is `C0 80`.
#[tactic(auto, unfolding(class_names::specs::Units::units_within))]
pub fn overlong_forms_are_one_text()
    ensures short { literal_text (65 ∷ []) ≡ codes "A" }
    ensures long { literal_text (193 ∷ 129 ∷ []) ≡ codes "A" }
    ensures zero { literal_text (192 ∷ 128 ∷ []) ≡ 0 ∷ [] }
    ensures surrogates { literal_text (237 ∷ 160 ∷ 189 ∷ 237 ∷ 184 ∷ 128 ∷ []) ≡ 240 ∷ 159 ∷ 152 ∷ 128 ∷ [] }
    ensures lone { literal_text (237 ∷ 160 ∷ 189 ∷ []) ≡ codes "?" }
{}

/// Literals of one text are one, at the place of the first.
pub fn equal_literals_are_one()
    ensures { each_once (codes "b" ∷ codes "a" ∷ codes "b" ∷ codes "c" ∷ []) ≡ codes "b" ∷ codes "a" ∷ codes "c" ∷ [] }
{}
