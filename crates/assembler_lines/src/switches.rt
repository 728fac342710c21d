//! Reading the operands of tableswitch and lookupswitch (JVMS 6.5).

ghost use Rattle.std.specs.Prelude.{◌≡◌, length};
ghost use Rattle.assembler_lines.specs.Switches.{highest_key};
ghost use Rattle.assembler_lines.specs.Front.{Gives, each};
ghost use Rattle.assembler_lines.specs.ReadingSwitches.{int, plain_name, is_int, table_switch_at, case_at, cases_at, lookup_switch_at};

use crate::front::{first_plain, integer};
use crate::operation::{LabelledCase, Operands};
use crate::word::{LineRefusal, Word};
use rows::{Bytes, Rows};
use std::alloc::Global;

fn int(written: &[u8]) -> Result<i32, LineRefusal>
    ensures { Gives (λ int. int) result (int written.now) }
{
    let int = integer(2_147_483_647, written)?;
    Ok(int as i32)
}

fn name(alloc: Global, said: &Word) -> Result<Bytes, LineRefusal>
    ensures { Gives (λ name. name) result (plain_name said.now) }
{
    match said {
        Word::Plain(name) => {
            let name = Bytes::from_slice(alloc, name.as_slice())?;
            Ok(name)
        }
        Word::Quoted(_) => Err(LineRefusal::Malformed),
    }
}

fn labels(alloc: Global, words: &[Word]) -> Result<Rows<Bytes>, LineRefusal>
    ensures { Gives (λ labels. labels) result (each plain_name words.now) }
{
    let mut labels = Rows::new(alloc);
    for said in words {
        let label = name(alloc, said)?;
        labels.push(label)?;
    }
    Ok(labels)
}

/// Whether the highest of `count` consecutive keys from `low` on is an int.
fn is_highest_key_int(low: i32, count: usize) -> bool
    ensures { result ≡ is_int (highest_key low count) }
{
    let highest = i128::from(low) + count as i128 - 1;
    -2_147_483_648 <= highest && highest <= 2_147_483_647
}

/// The operands of tableswitch.
#[tactic(auto, unfolding(crate::specs::ReadingSwitches::table_switch_at))]
pub(crate) fn table_switch(alloc: Global, words: &[Word]) -> Result<Operands, LineRefusal>
    ensures { Gives (λ operands. operands) result (table_switch_at words.now) }
{
    let (low, rest) = first_plain(words)?;
    let (default, rest) = first_plain(rest)?;
    let low = int(low)?;
    let labels = labels(alloc, rest)?;
    if !is_highest_key_int(low, labels.len()) {
        return Err(LineRefusal::Malformed);
    }
    let default = Bytes::from_slice(alloc, default)?;
    Ok(Operands::TableSwitch {
        low,
        default,
        labels,
    })
}

/// The key and the label at the front, and the words after them.
#[tactic(auto, unfolding(crate::specs::ReadingSwitches::case_at))]
fn case(alloc: Global, words: &[Word]) -> Result<(LabelledCase, &[Word]), LineRefusal>
    ensures { Gives (λ x. (x.0, x.1.now)) result (case_at words.now) }
{
    let (key, rest) = first_plain(words)?;
    let (label, rest) = first_plain(rest)?;
    let key = int(key)?;
    let label = Bytes::from_slice(alloc, label)?;
    Ok((LabelledCase { key, label }, rest))
}

fn cases(alloc: Global, words: &[Word]) -> Result<Rows<LabelledCase>, LineRefusal>
    ensures { Gives (λ cases. cases) result (cases_at words.now) }
{
    let mut cases = Rows::new(alloc);
    let mut rest = words;
    while !rest.is_empty() {
        let (case, after) = case(alloc, rest)?;
        cases.push(case)?;
        rest = after;
    }
    Ok(cases)
}

/// The operands of lookupswitch. The keys may be in any order.
#[tactic(auto, unfolding(crate::specs::ReadingSwitches::lookup_switch_at))]
pub(crate) fn lookup_switch(alloc: Global, words: &[Word]) -> Result<Operands, LineRefusal>
    ensures { Gives (λ operands. operands) result (lookup_switch_at words.now) }
{
    let (default, rest) = first_plain(words)?;
    let cases = cases(alloc, rest)?;
    let default = Bytes::from_slice(alloc, default)?;
    Ok(Operands::LookupSwitch { default, cases })
}
