//! The text that is told of a refusal.

ghost use Rattle.std.specs.Prelude.{◌≡◌, IfOk, OnOk, map, option_map, slice_get};
ghost use Rattle.std.specs.Fmt.{decimal};
ghost use Rattle.why_texts.specs.Telling as told;

use crate::rule::Rule;
use crate::stages::{code_rules, link_rules, read_rules, verify_rules};
use program_accept::{Refusal, Stage};
use std::alloc::{AllocError, Global};

fn rules_of(stage: Stage) -> &'static [Rule]
    ensures { map told.shown_rule result.now ≡ told.rules_of stage }
{
    match stage {
        Stage::Read => read_rules(),
        Stage::Code => code_rules(),
        Stage::Link => link_rules(),
        Stage::Verify => verify_rules(),
    }
}

fn rule_at(rules: &[Rule], index: usize) -> Option<Rule>
    ensures { result ≡ slice_get rules.now index }
{
    rules.get(index).copied()
}

/// The rule of a stage's kind of this number, and `None` exactly where the stage has no such kind.
pub fn rule_of(stage: Stage, number: u8) -> Option<Rule>
    ensures { option_map told.shown_rule result ≡ told.rule_of stage number }
{
    let index = number.checked_sub(1)?;
    rule_at(rules_of(stage), usize::from(index))
}

fn stage_word(stage: Stage) -> &'static [u8]
    ensures { result.now ≡ told.stage_word stage }
{
    match stage {
        Stage::Read => b"read",
        Stage::Code => b"code",
        Stage::Link => b"link",
        Stage::Verify => b"verify",
    }
}

fn push_word(text: &mut Vec<u8>, word: &[u8]) -> Result<(), AllocError>
    ensures { OnOk result (text.new.items ≡ told.with_word text.old.items word.now) }
{
    text.push(b' ')?;
    text.extend_from_slice(word)?;
    Ok(())
}

fn push_number(text: &mut Vec<u8>, alloc: Global, number: u32) -> Result<(), AllocError>
    ensures { OnOk result (text.new.items ≡ told.with_word text.old.items (decimal number)) }
{
    let digits = number.to_string(alloc)?;
    push_word(text, digits.as_bytes())
}

fn refusal_line(alloc: Global, file: &[u8], refusal: Refusal) -> Result<Vec<u8>, AllocError>
    ensures { IfOk result (λ text. text.items ≡ told.refusal_line file.now refusal) }
{
    let mut text = Vec::from_slice(alloc, b"refused:")?;
    push_word(&mut text, stage_word(refusal.stage))?;
    push_word(&mut text, file)?;
    push_number(&mut text, alloc, u32::from(refusal.number))?;
    push_number(&mut text, alloc, u32::from(refusal.method))?;
    push_number(&mut text, alloc, refusal.place)?;
    text.push(b'\n')?;
    Ok(text)
}

fn push_label(text: &mut Vec<u8>, label: &[u8], said: &str) -> Result<(), AllocError>
    ensures { OnOk result (text.new.items ≡ told.with_label text.old.items label.now said.now) }
{
    text.extend_from_slice(label)?;
    text.extend_from_slice(said.as_bytes())?;
    Ok(())
}

fn push_rule(text: &mut Vec<u8>, rule: Rule) -> Result<(), AllocError>
    ensures { OnOk result (text.new.items ≡ told.with_rule text.old.items (told.shown_rule rule)) }
{
    push_label(text, b"rule: ", rule.kind)?;
    push_label(text, b", which comes where ", rule.comes_where)?;
    text.push(b'\n')?;
    push_label(text, b"what to do: ", rule.to_do)?;
    text.push(b'\n')?;
    Ok(())
}

/// What is told of a refusal of the file of this name: the line that `jrev load` writes, then the rule and what to do, a
/// line for each.
///
/// # Errors
/// It fails only when memory runs out.
pub fn refusal_text(alloc: Global, file: &[u8], refusal: Refusal) -> Result<Vec<u8>, AllocError>
    ensures { IfOk result (λ text. text.items ≡ told.refusal_text file.now refusal) }
{
    let mut text = refusal_line(alloc, file, refusal)?;
    if let Some(rule) = rule_of(refusal.stage, refusal.number) {
        push_rule(&mut text, rule)?;
    }
    Ok(text)
}
