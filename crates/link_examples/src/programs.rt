//! Programs that are linked, and programs that are refused.

ghost use Rattle.std.specs.Prelude.{ℕ, List, [], ◌∷◌};
ghost use Rattle.link_types.specs.declared.refusal.LinkRefusal.TheVariants.{At};
ghost use Rattle.link_types.specs.declared.refusal.LinkKind.TheVariants.{Twice, Missing};
ghost use Rattle.link_rules.specs.Classes.{classes_of};
ghost use Rattle.link_rules.specs.Supers.{PutsSupersFirst};
ghost use Rattle.link_rules.specs.LinkRules.{link_rules};
ghost use Rattle.link_examples.specs.Programs.{mixed, mixed_unit, orphan};

/// A program of no class, and one of a class that extends a class of the library, keep the rules.
pub fn a_program_is_linked()
    ensures none { (link_rules []).Hold }
    ensures one { (link_rules mixed).Hold }
{}

/// The classes of a program have an order in which each one comes after those above it.
pub fn a_program_has_an_order()
    ensures { (order : List ℕ) × PutsSupersFirst (classes_of mixed) order }
{}

/// A second class of one name is refused before a class whose superclass is missing.
pub fn the_first_broken_rule_is_refused()
    ensures twice { (link_rules (orphan ∷ mixed_unit ∷ mixed_unit ∷ [])).Refuse (At Twice 2 0) }
    ensures missing { (link_rules (orphan ∷ mixed_unit ∷ [])).Refuse (At Missing 0 4) }
{}
