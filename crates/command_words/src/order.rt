//! The order of turns: `T*N` and `T@K`, between commas.

ghost use Rattle.std.specs.Prelude.{◌≡◌, ◌≤◌, ◌<◌, ◌⊎◌, ◌∷◌, ◌++◌, [], None, Some, IfOk, IfSome, OnOk, length};
ghost use Rattle.command_words.specs.Cut.{pieces};
ghost use Rattle.command_words.specs.Options.{kind_in, turns_item, until_item, item_of, order_of, each_of};

use crate::cut::cut;
use crate::values::number_between;
use crate::words::WordsRefusal;
use rows::Rows;
use schedules::OrderItem;
use std::alloc::Global;

const MOST_ITEMS: usize = 1_000;

fn turns_item(text: &[u8]) -> Option<OrderItem>
    ensures { result ≡ turns_item text.now }
{
    let (thread, turns) = cut(b'*', text)?;
    let thread = number_between(1, 255, thread)?;
    let turns = number_between(1, 1_000_000, turns)?;
    Some(OrderItem::Turns(thread as u8, turns as u32))
}

// A kind of steps that turns make.
fn kind_in(text: &[u8]) -> Option<u64>
    ensures value { result ≡ kind_in text.now }
    ensures bound { IfSome result (λ k. k ≤ 33) }
{
    number_between(1, 33, text).filter(|kind| *kind <= 27 || 32 <= *kind)
}

fn until_item(text: &[u8]) -> Option<OrderItem>
    ensures { result ≡ until_item text.now }
{
    let (thread, kind) = cut(b'@', text)?;
    let thread = number_between(1, 255, thread)?;
    let kind = kind_in(kind)?;
    Some(OrderItem::Until(thread as u8, kind as u8))
}

fn item_of(text: &[u8]) -> Option<OrderItem>
    ensures { result ≡ item_of text.now }
{
    turns_item(text).or(until_item(text))
}

// One item more, where there is room for it.
fn push_item(items: &mut Rows<OrderItem>, text: &[u8]) -> Result<(), WordsRefusal>
    ensures pushed { OnOk result ((item : OrderItem) × (item_of text.now ≡ Some item) × (items.new ≡ items.old ++ item ∷ []) × (length items.old < 1000)) }
    ensures usage { result ≡ Err WordsRefusal.Usage → (item_of text.now ≡ None) ⊎ (1000 ≤ length items.old) }
{
    if items.len() >= MOST_ITEMS {
        return Err(WordsRefusal::Usage);
    }
    match item_of(text) {
        Some(item) => Ok(items.push(item)?),
        None => Err(WordsRefusal::Usage),
    }
}

/// The items of an order.
pub(crate) fn order_of(alloc: Global, text: &[u8]) -> Result<Rows<OrderItem>, WordsRefusal>
    ensures found { IfOk result (λ order. order_of text.now ≡ Some order) }
    ensures usage { result ≡ Err WordsRefusal.Usage → order_of text.now ≡ None }
{
    let mut items = Rows::new(alloc);
    let mut rest = text;
    while let Some((item, behind)) = cut(b',', rest) {
        push_item(&mut items, item)?;
        rest = behind;
    }
    push_item(&mut items, rest)?;
    Ok(items)
}
