//! Each refusal has its rule.

ghost use Rattle.why_texts.specs.Laws.{EachKindHasARule};

/// Each kind of refusal of each stage has a rule in the table of its stage, at its number.
pub fn each_kind_has_a_rule()
    ensures { EachKindHasARule }
{}
