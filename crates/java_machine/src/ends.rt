//! How a run and its threads ended, in words.

ghost use Rattle.std.specs.Prelude.{◌≡◌, ◌++◌, [], IfOk, OnOk, unwrap_or};
ghost use Rattle.std.specs.Fmt.{decimal};
ghost use Rattle.link_rules.specs.Classes.{classes_of};
ghost use Rattle.linker.specs.Names.{name_of_class};
ghost use Rattle.java_machine.specs.Lines.{line_of};
ghost use Rattle.java_machine.specs.Ends.{class_name, class_text, died_text, died_line, limit_word, limit_line};

use crate::lines::line_of;
use class_names::decode_text;
use linker::World;
use op_core::{Bytes, Limit, NoMemory, Text, ThreadEnd};
use std::alloc::{AllocError, Global};

fn push_number(text: &mut Vec<u8>, alloc: Global, number: u8) -> Result<(), AllocError>
    ensures { OnOk result (text.new.items ≡ text.old.items ++ decimal number) }
{
    let digits = number.to_string(alloc)?;
    text.extend_from_slice(digits.as_bytes())?;
    Ok(())
}

/// The bytes of the internal name of a class, as its class file has them.
fn class_name(world: &World, class: u32) -> &[u8]
    ensures { result.now ≡ class_name world.now class }
{
    match world.class_name(class) {
        Some(name) => name,
        None => &[],
    }
}

/// The internal name of a class, in UTF-8.
fn class_text(alloc: Global, world: &World, class: u32) -> Result<Text, AllocError>
    ensures { IfOk result (λ text. text ≡ class_text world.now class) }
{
    world.is_linked();
    let text = decode_text(alloc, class_name(world, class))?;
    Ok(text)
}

fn died_text(alloc: Global, world: &World, thread: u8, class: u32) -> Result<Vec<u8>, AllocError>
    ensures { IfOk result (λ text. text.items ≡ died_text world.now thread class) }
{
    let mut text = Vec::from_slice(alloc, b"died: thread ")?;
    push_number(&mut text, alloc, thread)?;
    text.push(b' ')?;
    text.extend_from_slice(class_text(alloc, world, class)?.as_bytes())?;
    Ok(text)
}

/// The line `died: thread N CLASS` with byte 10, of a thread that ended by an exception: its number, and the internal
/// name of the exception's class in UTF-8 (JVMS 4.2.1), which is empty where that is no class, or an array class.
/// `None` for a thread that ended normally. It fails only when memory runs out.
pub fn died_line(alloc: Global, world: &World, end: ThreadEnd) -> Result<Option<Bytes>, NoMemory>
    ensures { IfOk result (λ line. line ≡ died_line world.now end) }
{
    let Some(class) = end.class else {
        return Ok(None);
    };
    let text = died_text(alloc, world, end.thread, class)?;
    Ok(Some(line_of(text)?))
}

/// The word of a limit.
pub fn limit_word(limit: Limit) -> &'static str
    ensures { result.now ≡ limit_word limit }
{
    match limit {
        Limit::Turns => "turns",
        Limit::Heap => "heap",
        Limit::Sections => "sections",
        Limit::Threads => "threads",
        Limit::Frames => "frames",
        Limit::Depth => "depth",
        Limit::Trace => "trace",
    }
}

/// The line `limit: WORD thread N` with byte 10, of the thread that met a limit. It fails only when memory runs out.
pub fn limit_line(alloc: Global, limit: Limit, thread: u8) -> Result<Bytes, NoMemory>
    ensures { IfOk result (λ line. line ≡ limit_line limit thread) }
{
    let mut text = Vec::from_slice(alloc, b"limit: ")?;
    text.extend_from_slice(limit_word(limit).as_bytes())?;
    text.extend_from_slice(b" thread ")?;
    push_number(&mut text, alloc, thread)?;
    Ok(line_of(text)?)
}
