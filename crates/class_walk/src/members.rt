//! Attributes, fields, methods and interfaces (JVMS 4.1, 4.5 to 4.7).

ghost use Rattle.class_walk.specs.Reading.{GivesAndLeaves, number_at, items_at, table_at, attribute_at, member_at};

use crate::class::{RawAttribute, RawMember};
use crate::cursor::Cursor;
use crate::refusal::WalkRefusal;
use rows::Rows;
use std::alloc::Global;

#[tactic(auto, unfolding(crate::specs::Reading::attribute_at))]
fn attribute(alloc: Global, cursor: &mut Cursor<'_>) -> Result<RawAttribute, WalkRefusal>
    ensures { GivesAndLeaves result cursor.new (attribute_at cursor.old) }
{
    let at = cursor.place();
    let name = cursor.u16()?;
    let length = cursor.u32()?;
    let content = cursor.bytes(alloc, length)?;
    Ok(RawAttribute { at, name, content })
}

fn counted_attributes(
    alloc: Global,
    count: u16,
    cursor: &mut Cursor<'_>,
) -> Result<Rows<RawAttribute>, WalkRefusal>
    ensures { GivesAndLeaves result cursor.new (items_at attribute_at count cursor.old) }
{
    let mut attributes = Rows::new(alloc);
    for _ in 0..count {
        let attribute = attribute(alloc, cursor)?;
        attributes.push(attribute)?;
    }
    Ok(attributes)
}

/// A count, and that many attributes.
#[tactic(auto, unfolding(crate::specs::Reading::table_at))]
pub fn attributes(alloc: Global, cursor: &mut Cursor<'_>) -> Result<Rows<RawAttribute>, WalkRefusal>
    ensures { GivesAndLeaves result cursor.new (table_at attribute_at cursor.old) }
{
    let count = cursor.u16()?;
    counted_attributes(alloc, count, cursor)
}

#[tactic(auto, unfolding(crate::specs::Reading::member_at))]
fn member(alloc: Global, cursor: &mut Cursor<'_>) -> Result<RawMember, WalkRefusal>
    ensures { GivesAndLeaves result cursor.new (member_at cursor.old) }
{
    let at = cursor.place();
    let flags = cursor.u16()?;
    let name = cursor.u16()?;
    let descriptor = cursor.u16()?;
    let attributes = attributes(alloc, cursor)?;
    Ok(RawMember {
        at,
        flags,
        name,
        descriptor,
        attributes,
    })
}

fn counted_members(
    alloc: Global,
    count: u16,
    cursor: &mut Cursor<'_>,
) -> Result<Rows<RawMember>, WalkRefusal>
    ensures { GivesAndLeaves result cursor.new (items_at member_at count cursor.old) }
{
    let mut members = Rows::new(alloc);
    for _ in 0..count {
        let member = member(alloc, cursor)?;
        members.push(member)?;
    }
    Ok(members)
}

/// A count, and that many fields or methods.
#[tactic(auto, unfolding(crate::specs::Reading::table_at))]
pub fn members(alloc: Global, cursor: &mut Cursor<'_>) -> Result<Rows<RawMember>, WalkRefusal>
    ensures { GivesAndLeaves result cursor.new (table_at member_at cursor.old) }
{
    let count = cursor.u16()?;
    counted_members(alloc, count, cursor)
}

fn counted_indices(
    alloc: Global,
    count: u16,
    cursor: &mut Cursor<'_>,
) -> Result<Rows<u16>, WalkRefusal>
    ensures { GivesAndLeaves result cursor.new (items_at (number_at 2) count cursor.old) }
{
    let mut indices = Rows::new(alloc);
    for _ in 0..count {
        let index = cursor.u16()?;
        indices.push(index)?;
    }
    Ok(indices)
}

/// A count, and that many indices.
#[tactic(auto, unfolding(crate::specs::Reading::table_at))]
pub fn interfaces(alloc: Global, cursor: &mut Cursor<'_>) -> Result<Rows<u16>, WalkRefusal>
    ensures { GivesAndLeaves result cursor.new (table_at (number_at 2) cursor.old) }
{
    let count = cursor.u16()?;
    counted_indices(alloc, count, cursor)
}
