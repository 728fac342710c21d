//! Lines of a journal, spelled.

ghost use Rattle.std.specs.Prelude.{◌≡◌, ◌++◌, OnOk, string_bytes};
ghost use Rattle.trace_journal.specs.Spelling.{spelled, event_line, head_line, end_line};

use crate::JournalItem;
use op_core::{Event, Op, Reply};
use std::alloc::AllocError;
use std::fmt::Write;

// The line of an event.
fn push_event(line: &mut String, event: &Event) -> Result<(), AllocError>
    ensures { OnOk result (string_bytes line.new ≡ string_bytes line.old ++ event_line event.now) }
{
    let t = event.thread;
    let n = event.silent;
    match (event.op, event.reply) {
        (Op::ClassOf(r), Reply::Class(c, l)) => write!(line, "{t} {n} class {r} {c} {l}"),
        (Op::Read(r, i), Reply::Value(v)) => write!(line, "{t} {n} read {r} {i} {v}"),
        (Op::Write(r, i, v), Reply::Done) => write!(line, "{t} {n} write {r} {i} {v}"),
        (Op::New(c, l), Reply::Made(r)) => write!(line, "{t} {n} new {c} {l} {r}"),
        (Op::Enter(r), Reply::Done) => write!(line, "{t} {n} enter {r}"),
        (Op::Exit(r), Reply::Done) => write!(line, "{t} {n} exit {r}"),
        (Op::Exit(r), Reply::NotOwner) => write!(line, "{t} {n} exit {r} no"),
        (Op::Wait(r), Reply::Done) => write!(line, "{t} {n} wait {r}"),
        (Op::Wait(r), Reply::NotOwner) => write!(line, "{t} {n} wait {r} no"),
        (Op::Rewake(r), Reply::Done) => write!(line, "{t} {n} rewake {r}"),
        (Op::Notify(r), Reply::Woken(w)) => write!(line, "{t} {n} notify {r} {w}"),
        (Op::Notify(r), Reply::NotOwner) => write!(line, "{t} {n} notify {r} no"),
        (Op::Print(_), Reply::Done) => write!(line, "{t} {n} print"),
        (Op::Start(r, p), Reply::Number(w)) => write!(line, "{t} {n} start {r} {p} {w}"),
        (Op::Start(r, p), Reply::Already) => write!(line, "{t} {n} start {r} {p} no"),
        (Op::Join(r), Reply::Done) => write!(line, "{t} {n} join {r}"),
        (Op::Init(c), Reply::Ready) => write!(line, "{t} {n} init {c} ready"),
        (Op::Init(c), Reply::Bad) => write!(line, "{t} {n} init {c} bad"),
        (Op::Init(c), Reply::Claimed) => write!(line, "{t} {n} init {c} claimed"),
        (Op::InitDone(c, true), Reply::Done) => write!(line, "{t} {n} done {c} ok"),
        (Op::InitDone(c, false), Reply::Done) => write!(line, "{t} {n} done {c} bad"),
        (Op::End(None), Reply::Done) => write!(line, "{t} {n} end"),
        (Op::End(Some(c)), Reply::Done) => write!(line, "{t} {n} died {c}"),
        _ => write!(line, "{t} {n} "),
    }
}

/// Puts what a line says at the end of a text, without the byte 10 that ends it. Of an event whose reply doesn't fit its
/// operation it puts the two numbers alone. After an error part of the line may be there.
pub fn push_item(line: &mut String, item: &JournalItem) -> Result<(), AllocError>
    ensures { OnOk result (string_bytes line.new ≡ string_bytes line.old ++ spelled item.now) }
{
    match item {
        JournalItem::Event(event) => push_event(line, event),
        JournalItem::Undone {
            thread,
            level,
            words,
        } => write!(line, "undone {thread} {level} {words}"),
    }
}

/// The same with the first line of a version.
pub fn push_head(line: &mut String, version: u8) -> Result<(), AllocError>
    ensures { OnOk result (string_bytes line.new ≡ string_bytes line.old ++ head_line version) }
{
    write!(line, "jrev-trace {version}")
}

/// The same with the last line, which says how many events there were.
pub fn push_end(line: &mut String, events: u32) -> Result<(), AllocError>
    ensures { OnOk result (string_bytes line.new ≡ string_bytes line.old ++ end_line events) }
{
    write!(line, "end {events}")
}
