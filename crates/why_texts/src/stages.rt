//! The rules of each stage.

ghost use Rattle.std.specs.Prelude.{◌≡◌, map};
ghost use Rattle.why_texts.specs.Rules as texts;
ghost use Rattle.why_texts.specs.Telling.{shown_rule};

use crate::rule::Rule;
use crate::table::{CODE_RULES, LINK_RULES, READ_RULES, VERIFY_RULES};

pub(crate) fn read_rules() -> &'static [Rule]
    ensures { map shown_rule result.now ≡ texts.read_rules }
{
    &READ_RULES
}

pub(crate) fn code_rules() -> &'static [Rule]
    ensures { map shown_rule result.now ≡ texts.code_rules }
{
    &CODE_RULES
}

pub(crate) fn link_rules() -> &'static [Rule]
    ensures { map shown_rule result.now ≡ texts.link_rules }
{
    &LINK_RULES
}

pub(crate) fn verify_rules() -> &'static [Rule]
    ensures { map shown_rule result.now ≡ texts.verify_rules }
{
    &VERIFY_RULES
}
