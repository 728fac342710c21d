//! The items of a frame: verification types (JVMS 4.7.4).

ghost use Rattle.std.specs.Prelude.{◌≡◌, length};
ghost use Rattle.code_frames.specs.Reading.{Gives, GivesExactly, is_new, is_new_at, object_at, uninit_at, tagged_item_at, item_at, items_at, items_table_at};

use crate::cursor::Cursor;
use crate::refusal::Fault;
use crate::types::VType;
use class_pool::is_class_entry_at;
use class_walk::Constant;
use instructions::{ClassUse, Steps, Target, What};
use rows::Rows;
use std::alloc::Global;

/// Whether an instruction makes an object.
fn is_new(what: &What<Target>) -> bool
    ensures { result ≡ is_new what.now }
{
    match what {
        What::Class(ClassUse::New, _) => true,
        _ => false,
    }
}

/// Whether a `new` begins at an offset.
fn is_new_at(steps: &Steps, at: u32) -> bool
    ensures { result ≡ is_new_at steps.now at }
{
    let Some(number) = steps.number_at(at) else {
        return false;
    };
    match steps.get(number) {
        Some(step) => is_new(&step.what),
        None => false,
    }
}

#[tactic(auto, unfolding(crate::specs::Reading::object_at))]
fn object(pool: &[Constant], cursor: &mut Cursor<'_>) -> Result<VType, Fault>
    ensures { GivesExactly result cursor.new (object_at pool.now cursor.old) }
{
    let index = cursor.u16()?;
    if !is_class_entry_at(pool, index) {
        return Err(Fault::Malformed);
    }
    Ok(VType::Object(index))
}

#[tactic(auto, unfolding(crate::specs::Reading::uninit_at))]
fn uninit(steps: &Steps, cursor: &mut Cursor<'_>) -> Result<VType, Fault>
    ensures { GivesExactly result cursor.new (uninit_at steps.now cursor.old) }
{
    let at = u32::from(cursor.u16()?);
    if !is_new_at(steps, at) {
        return Err(Fault::Malformed);
    }
    Ok(VType::Uninit(at))
}

/// What comes after the number of an item.
#[tactic(auto, unfolding(crate::specs::Reading::tagged_item_at))]
fn tagged_item(
    pool: &[Constant],
    steps: &Steps,
    tag: u8,
    cursor: &mut Cursor<'_>,
) -> Result<VType, Fault>
    ensures { GivesExactly result cursor.new (tagged_item_at pool.now steps.now tag cursor.old) }
{
    match tag {
        0 => Ok(VType::Top),
        1 => Ok(VType::Int),
        2 => Ok(VType::Float),
        3 => Ok(VType::Double),
        4 => Ok(VType::Long),
        5 => Ok(VType::Null),
        6 => Ok(VType::UninitThis),
        7 => object(pool, cursor),
        8 => uninit(steps, cursor),
        _ => Err(Fault::Malformed),
    }
}

/// The next item.
#[tactic(auto, unfolding(crate::specs::Reading::item_at))]
pub fn item(pool: &[Constant], steps: &Steps, cursor: &mut Cursor<'_>) -> Result<VType, Fault>
    ensures { GivesExactly result cursor.new (item_at pool.now steps.now cursor.old) }
{
    let tag = cursor.u8()?;
    tagged_item(pool, steps, tag, cursor)
}

/// `count` items.
pub fn items(
    alloc: Global,
    pool: &[Constant],
    steps: &Steps,
    count: u16,
    cursor: &mut Cursor<'_>,
) -> Result<Rows<VType>, Fault>
    ensures { Gives result cursor.new (items_at pool.now steps.now count cursor.old) }
{
    let mut items = Rows::new(alloc);
    for _ in 0..count {
        let item = item(pool, steps, cursor)?;
        items.push(item)?;
    }
    Ok(items)
}

/// A count, and that many items.
#[tactic(auto, unfolding(crate::specs::Reading::items_table_at))]
pub fn items_table(
    alloc: Global,
    pool: &[Constant],
    steps: &Steps,
    cursor: &mut Cursor<'_>,
) -> Result<Rows<VType>, Fault>
    ensures { Gives result cursor.new (items_table_at pool.now steps.now cursor.old) }
{
    let count = cursor.u16()?;
    items(alloc, pool, steps, count, cursor)
}
