//! The constant pool (JVMS 4.4).

ghost use Rattle.std.specs.Prelude.{◌≡◌};
ghost use Rattle.class_walk.specs.Reading.{GivesAndLeaves, GivesExactly, tag_of, tag_at, content_at, entry_at, slot_at, slots_at, count_at, pool_at};

use crate::class::Constant;
use crate::cursor::Cursor;
use crate::refusal::{WalkFault, WalkRefusal};
use rows::Rows;
use std::alloc::Global;

/// The tag of a pool entry (JVMS 4.4, table 4.4-A).
#[derive(Clone, Copy)]
pub enum Tag {
    Utf8,
    Integer,
    Float,
    Long,
    Double,
    Class,
    Str,
    Field,
    Method,
    IfaceMethod,
    Pair,
    Handle,
    MethodType,
    Dynamic,
}

/// The tag of a number.
#[tactic(auto, unfolding(crate::specs::Reading::tag_of))]
fn tag_from(number: u8) -> Option<Tag>
    ensures { result ≡ tag_of number }
{
    match number {
        1 => Some(Tag::Utf8),
        3 => Some(Tag::Integer),
        4 => Some(Tag::Float),
        5 => Some(Tag::Long),
        6 => Some(Tag::Double),
        7 => Some(Tag::Class),
        8 => Some(Tag::Str),
        9 => Some(Tag::Field),
        10 => Some(Tag::Method),
        11 => Some(Tag::IfaceMethod),
        12 => Some(Tag::Pair),
        15 => Some(Tag::Handle),
        16 => Some(Tag::MethodType),
        18 => Some(Tag::Dynamic),
        _ => None,
    }
}

/// What comes after a tag.
#[tactic(auto, unfolding(crate::specs::Reading::content_at))]
fn content(alloc: Global, tag: Tag, cursor: &mut Cursor<'_>) -> Result<Constant, WalkRefusal>
    ensures { GivesAndLeaves result cursor.new (content_at tag cursor.old) }
{
    Ok(match tag {
        Tag::Utf8 => {
            let length = cursor.u16()?;
            Constant::Utf8(cursor.bytes(alloc, u32::from(length))?)
        }
        Tag::Integer => Constant::Integer(cursor.u32()?.cast_signed()),
        Tag::Float => Constant::Float(cursor.u32()?),
        Tag::Long => Constant::Long(cursor.u64()?.cast_signed()),
        Tag::Double => Constant::Double(cursor.u64()?),
        Tag::Class => Constant::Class(cursor.u16()?),
        Tag::Str => Constant::Str(cursor.u16()?),
        Tag::Field => Constant::Field(cursor.u16()?, cursor.u16()?),
        Tag::Method => Constant::Method(cursor.u16()?, cursor.u16()?),
        Tag::IfaceMethod => Constant::IfaceMethod(cursor.u16()?, cursor.u16()?),
        Tag::Pair => Constant::Pair(cursor.u16()?, cursor.u16()?),
        Tag::Handle => Constant::Handle(cursor.u8()?, cursor.u16()?),
        Tag::MethodType => Constant::MethodType(cursor.u16()?),
        Tag::Dynamic => Constant::Dynamic(cursor.u16()?, cursor.u16()?),
    })
}

/// The tag of the entry of an index.
#[tactic(auto, unfolding(crate::specs::Reading::tag_at))]
fn next_tag(index: u16, cursor: &mut Cursor<'_>) -> Result<Tag, WalkRefusal>
    ensures { GivesExactly result cursor.new (tag_at index cursor.old) }
{
    let number = cursor.u8()?;
    match tag_from(number) {
        None => Err(WalkRefusal::Fault(WalkFault::PoolTag(index))),
        Some(tag) => Ok(tag),
    }
}

/// The entry of an index.
#[tactic(auto, unfolding(crate::specs::Reading::entry_at))]
fn entry(alloc: Global, index: u16, cursor: &mut Cursor<'_>) -> Result<Constant, WalkRefusal>
    ensures { GivesAndLeaves result cursor.new (entry_at index cursor.old) }
{
    let tag = next_tag(index, cursor)?;
    content(alloc, tag, cursor)
}

/// What an index holds: nothing where a gap is due.
fn slot(
    alloc: Global,
    due: bool,
    index: u16,
    cursor: &mut Cursor<'_>,
) -> Result<Constant, WalkRefusal>
    ensures { GivesAndLeaves result cursor.new (slot_at due index cursor.old) }
{
    if due {
        Ok(Constant::Gap)
    } else {
        entry(alloc, index, cursor)
    }
}

fn slots(alloc: Global, count: u16, cursor: &mut Cursor<'_>) -> Result<Rows<Constant>, WalkRefusal>
    ensures { GivesAndLeaves result cursor.new (slots_at count cursor.old) }
{
    let mut slots = Rows::new(alloc);
    let mut due = true;
    for index in 0..count {
        let slot = slot(alloc, due, index, cursor)?;
        due = slot.is_wide();
        slots.push(slot)?;
    }
    Ok(slots)
}

/// The count, which isn't 0.
#[tactic(auto, unfolding(crate::specs::Reading::count_at))]
fn count(cursor: &mut Cursor<'_>) -> Result<u16, WalkRefusal>
    ensures { GivesExactly result cursor.new (count_at cursor.old) }
{
    let count = cursor.u16()?;
    if count == 0 {
        return Err(WalkRefusal::Fault(WalkFault::PoolTag(0)));
    }
    Ok(count)
}

/// The count, and what the indices below it hold.
#[tactic(auto, unfolding(crate::specs::Reading::pool_at))]
pub fn pool(alloc: Global, cursor: &mut Cursor<'_>) -> Result<Rows<Constant>, WalkRefusal>
    ensures { GivesAndLeaves result cursor.new (pool_at cursor.old) }
{
    let count = count(cursor)?;
    slots(alloc, count, cursor)
}
