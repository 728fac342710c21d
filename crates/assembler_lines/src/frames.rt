//! Reading stack map frames (JVMS 4.7.4).

ghost use Rattle.std.specs.Prelude.{◌≡◌, None, Some, MatchOption};
ghost use Rattle.assembler_lines.specs.Front.{Gives, each};
ghost use Rattle.assembler_lines.specs.ReadingFrames.{new_label, named_item, is_slash, item_of, split_at_slash, frame_at};

use crate::frame::FrameItem;
use crate::front::is_text;
use crate::line::Line;
use crate::word::{LineRefusal, Word};
use rows::{Bytes, Rows};
use std::alloc::{AllocError, Global};

/// The label after `new:`.
fn new_label(written: &[u8]) -> Option<&[u8]>
    ensures { MatchOption result (new_label written.now ≡ None) (λ label. new_label written.now ≡ Some label.now) }
{
    if written.len() > 4 && is_text(&written[..4], b"new:") {
        Some(&written[4..])
    } else {
        None
    }
}

/// The item of a word that is no slash.
fn named_item(alloc: Global, written: &[u8]) -> Result<FrameItem, LineRefusal>
    ensures { Gives (λ item. item) result (Some (named_item written.now)) }
{
    if is_text(written, b"top") {
        Ok(FrameItem::Top)
    } else if is_text(written, b"int") {
        Ok(FrameItem::Int)
    } else if is_text(written, b"long") {
        Ok(FrameItem::Long)
    } else if is_text(written, b"null") {
        Ok(FrameItem::Null)
    } else if is_text(written, b"this") {
        Ok(FrameItem::This)
    } else {
        match new_label(written) {
            Some(label) => Ok(FrameItem::New(Bytes::from_slice(alloc, label)?)),
            None => Ok(FrameItem::Class(Bytes::from_slice(alloc, written)?)),
        }
    }
}

/// Whether a word parts the locals from the stack.
fn is_slash(said: &Word) -> bool
    ensures { result ≡ is_slash said.now }
{
    match said {
        Word::Plain(written) => is_text(written.as_slice(), b"/"),
        Word::Quoted(_) => false,
    }
}

fn item(alloc: Global, said: &Word) -> Result<FrameItem, LineRefusal>
    ensures { Gives (λ item. item) result (item_of said.now) }
{
    match said {
        Word::Plain(written) => {
            if is_text(written.as_slice(), b"/") {
                return Err(LineRefusal::Malformed);
            }
            named_item(alloc, written.as_slice())
        }
        Word::Quoted(_) => Err(LineRefusal::Malformed),
    }
}

fn items(alloc: Global, words: &[Word]) -> Result<Rows<FrameItem>, LineRefusal>
    ensures { Gives (λ items. items) result (each item_of words.now) }
{
    let mut items = Rows::new(alloc);
    for said in words {
        let item = item(alloc, said)?;
        items.push(item)?;
    }
    Ok(items)
}

/// What comes before the first slash, and what comes after it.
fn split_at_slash(words: &[Word]) -> Option<(&[Word], &[Word])>
    ensures { MatchOption result (split_at_slash words.now ≡ None) (λ x. split_at_slash words.now ≡ Some (x.0.now, x.1.now)) }
{
    for (end, said) in words.iter().enumerate() {
        if is_slash(said) {
            return Some((&words[..end], &words[end + 1..]));
        }
    }
    None
}

/// The frame of the words after `frame`.
#[tactic(auto, unfolding(crate::specs::ReadingFrames::frame_at))]
pub(crate) fn frame_line(alloc: Global, words: &[Word]) -> Result<Line, LineRefusal>
    ensures { Gives (λ line. line) result (frame_at words.now) }
{
    match split_at_slash(words) {
        Some((before, behind)) => {
            let locals = items(alloc, before)?;
            let stack = items(alloc, behind)?;
            Ok(Line::Frame { locals, stack })
        }
        None => Err(LineRefusal::Malformed),
    }
}
