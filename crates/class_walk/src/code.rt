//! The content of a Code attribute (JVMS 4.7.3).

ghost use Rattle.std.specs.Prelude.{◌≡◌, ◌<◌, ◌≤◌, ◌^◌, length, Some, Ok, Err, IfOk, MatchResult};
ghost use Rattle.class_walk.specs.declared.class.RawCode.{RawCode};
ghost use Rattle.class_walk.specs.declared.refusal.WalkFault.{WalkFault};
ghost use Rattle.class_walk.specs.Layout.{IsCodeContent, IsCut};
ghost use Rattle.class_walk.specs.Reading.{FailsExactly, Gives, GivesAndLeaves, GivesExactly, Reads, items_at, table_at, handler_at, code_head_at, code_rest_at, code_head_of, content_of, code_of, refused};

use crate::class::{RawCode, RawHandler};
use crate::cursor::Cursor;
use crate::members::attributes;
use crate::refusal::{ContentRefusal, WalkRefusal};
use rows::{Bytes, Rows};
use std::alloc::Global;

/// The most bytes that the content of an attribute has.
const MAX_CONTENT: usize = 0xFFFF_FFFF;

#[tactic(auto, unfolding(crate::specs::Reading::handler_at))]
fn handler(cursor: &mut Cursor<'_>) -> Result<RawHandler, WalkRefusal>
    ensures { GivesExactly result cursor.new (handler_at cursor.old) }
{
    let from = cursor.u16()?;
    let to = cursor.u16()?;
    let at = cursor.u16()?;
    let kind = cursor.u16()?;
    Ok(RawHandler { from, to, at, kind })
}

fn counted_handlers(
    alloc: Global,
    count: u16,
    cursor: &mut Cursor<'_>,
) -> Result<Rows<RawHandler>, WalkRefusal>
    ensures { GivesAndLeaves result cursor.new (items_at handler_at count cursor.old) }
{
    let mut handlers = Rows::new(alloc);
    for _ in 0..count {
        let handler = handler(cursor)?;
        handlers.push(handler)?;
    }
    Ok(handlers)
}

#[tactic(auto, unfolding(crate::specs::Reading::table_at))]
fn handlers(alloc: Global, cursor: &mut Cursor<'_>) -> Result<Rows<RawHandler>, WalkRefusal>
    ensures { GivesAndLeaves result cursor.new (table_at handler_at cursor.old) }
{
    let count = cursor.u16()?;
    counted_handlers(alloc, count, cursor)
}

/// The two sizes, and the instructions.
#[tactic(auto, unfolding(crate::specs::Reading::code_head_at))]
fn head<'a>(cursor: &mut Cursor<'a>) -> Result<(u16, u16, &'a [u8]), WalkRefusal>
    ensures { MatchResult result
        (λ x. code_head_at cursor.old ≡ Ok ((x.0, x.1, x.2.now), cursor.new))
        (λ e. FailsExactly e (code_head_at cursor.old)) }
{
    let max_stack = cursor.u16()?;
    let max_locals = cursor.u16()?;
    let length = cursor.u32()?;
    let bytes = cursor.next(length as usize)?;
    Ok((max_stack, max_locals, bytes))
}

/// What comes after the head.
#[tactic(auto, unfolding(crate::specs::Reading::code_rest_at))]
fn rest(
    alloc: Global,
    max_stack: u16,
    max_locals: u16,
    bytes: &[u8],
    cursor: &mut Cursor<'_>,
) -> Result<RawCode, WalkRefusal>
    ensures { GivesAndLeaves result cursor.new (code_rest_at (max_stack, max_locals, bytes.now) cursor.old) }
{
    let bytes = Bytes::from_slice(alloc, bytes)?;
    let handlers = handlers(alloc, cursor)?;
    let attributes = attributes(alloc, cursor)?;
    Ok(RawCode {
        max_stack,
        max_locals,
        bytes,
        handlers,
        attributes,
    })
}

#[tactic(auto, unfolding(crate::specs::Reading::content_of, crate::specs::Reading::code_at, crate::specs::Reading::ended, crate::specs::Reading::code_head_of))]
fn whole(alloc: Global, content: &[u8]) -> Result<RawCode, WalkRefusal>
    requires { length content.now < 2 ^ 32 }
    ensures exact { Gives result (content_of content.now) }
    ensures head { (f : WalkFault) → code_head_of content.now ≡ Err f → result ≡ Err (WalkRefusal.Fault f) }
{
    let mut cursor = Cursor::new(content);
    let (max_stack, max_locals, bytes) = head(&mut cursor)?;
    let code = rest(alloc, max_stack, max_locals, bytes, &mut cursor)?;
    cursor.end()?;
    Ok(code)
}

/// Each fault is that the content is malformed.
fn refused(refusal: WalkRefusal) -> ContentRefusal
    ensures { result ≡ refused refusal }
{
    match refusal {
        WalkRefusal::NoMemory => ContentRefusal::NoMemory,
        WalkRefusal::Fault(_) => ContentRefusal::Malformed,
    }
}

fn whole_or_malformed(alloc: Global, content: &[u8]) -> Result<RawCode, ContentRefusal>
    ensures exact { Reads result (code_of content.now) }
    ensures cut { IsCut content.now → result ≡ Err ContentRefusal.Malformed }
    ensures length { 2 ^ 32 ≤ length content.now → result ≡ Err ContentRefusal.Malformed }
{
    if content.len() > MAX_CONTENT {
        return Err(ContentRefusal::Malformed);
    }
    match whole(alloc, content) {
        Ok(code) => Ok(code),
        Err(refusal) => Err(refused(refusal)),
    }
}

/// Takes the content of a Code attribute apart. The places of its attributes are counted from the content's first byte.
///
/// `Malformed` comes exactly where the bytes, from the first to the last, are not such a content. `NoMemory` may come
/// anywhere after the instructions.
pub fn code_content(alloc: Global, content: &[u8]) -> Result<RawCode, ContentRefusal>
    // What is read is spelled so, each byte of it.
    ensures found { IfOk result (λ c. IsCodeContent content.now c) }
    // What is spelled so is read, unless memory runs out.
    ensures only { (c : RawCode) → IsCodeContent content.now c → Reads result (Some c) }
    // What isn't is malformed.
    ensures exact { Reads result (code_of content.now) }
    // Bytes that end before the instructions do, or more than a content may have, are malformed before
    // memory is taken.
    ensures cut { IsCut content.now → result ≡ Err ContentRefusal.Malformed }
    ensures length { 2 ^ 32 ≤ length content.now → result ≡ Err ContentRefusal.Malformed }
{
    whole_or_malformed(alloc, content)
}
