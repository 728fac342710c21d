//! Lines of a journal, read.

ghost use Rattle.std.specs.Prelude.{◌≡◌, MatchOption, Some, None, option_map};
ghost use Rattle.trace_journal.specs.Parsing as spec;
ghost use Rattle.op_core.specs.declared.Op.{Op};
ghost use Rattle.op_core.specs.declared.Reply.{Reply};
ghost use Rattle.decimal_numbers.specs.Numbers.{number_up_to};
ghost use Rattle.trace_journal.specs.Spelling.{Says};
ghost use Rattle.trace_journal.specs.declared.item.JournalItem.{JournalItem};

use crate::cut::cut_word;
use crate::item::{Answered, JournalItem};
use decimal_numbers::number_up_to;
use op_core::{Event, Line, Op, Reply};

fn u32_of(word: &[u8]) -> Option<u32>
    ensures { result ≡ spec.u32_of word.now }
{
    match number_up_to(4_294_967_295, word) {
        Some(number) => Some(number as u32),
        None => None,
    }
}

fn answered(op: Op, reply: Reply) -> Option<Answered>
    ensures { result ≡ spec.answered op reply }
{
    Some(Answered { op, reply })
}

fn of_none(name: &[u8]) -> Option<Answered>
    ensures { result ≡ spec.of_none name.now }
{
    if name == b"print".as_slice() {
        answered(Op::Print(Line::Empty), Reply::Done)
    } else if name == b"end".as_slice() {
        answered(Op::End(None), Reply::Done)
    } else {
        None
    }
}

fn of_one(name: &[u8], a: u32) -> Option<Answered>
    ensures { result ≡ spec.of_one name.now a }
{
    if name == b"enter".as_slice() {
        answered(Op::Enter(a), Reply::Done)
    } else if name == b"exit".as_slice() {
        answered(Op::Exit(a), Reply::Done)
    } else if name == b"wait".as_slice() {
        answered(Op::Wait(a), Reply::Done)
    } else if name == b"rewake".as_slice() {
        answered(Op::Rewake(a), Reply::Done)
    } else if name == b"join".as_slice() {
        answered(Op::Join(a), Reply::Done)
    } else if name == b"died".as_slice() {
        answered(Op::End(Some(a)), Reply::Done)
    } else {
        None
    }
}

fn init_reply(c: u32, word: &[u8]) -> Option<Answered>
    ensures { result ≡ spec.init_reply c word.now }
{
    if word == b"ready".as_slice() {
        answered(Op::Init(c), Reply::Ready)
    } else if word == b"bad".as_slice() {
        answered(Op::Init(c), Reply::Bad)
    } else if word == b"claimed".as_slice() {
        answered(Op::Init(c), Reply::Claimed)
    } else {
        None
    }
}

fn done_reply(c: u32, word: &[u8]) -> Option<Answered>
    ensures { result ≡ spec.done_reply c word.now }
{
    if word == b"ok".as_slice() {
        answered(Op::InitDone(c, true), Reply::Done)
    } else if word == b"bad".as_slice() {
        answered(Op::InitDone(c, false), Reply::Done)
    } else {
        None
    }
}

fn notified(a: u32, word: &[u8]) -> Option<Answered>
    ensures { result ≡ option_map (λ n. record { op = Op.Notify a; reply = Reply.Woken n }) (number_up_to 255 word.now) }
{
    match number_up_to(255, word) {
        Some(number) => answered(Op::Notify(a), Reply::Woken(number as u8)),
        None => None,
    }
}

fn of_word(name: &[u8], a: u32, word: &[u8]) -> Option<Answered>
    ensures { result ≡ spec.of_word name.now a word.now }
{
    if name == b"exit".as_slice() {
        if word == b"no".as_slice() {
            answered(Op::Exit(a), Reply::NotOwner)
        } else {
            None
        }
    } else if name == b"wait".as_slice() {
        if word == b"no".as_slice() {
            answered(Op::Wait(a), Reply::NotOwner)
        } else {
            None
        }
    } else if name == b"notify".as_slice() {
        if word == b"no".as_slice() {
            answered(Op::Notify(a), Reply::NotOwner)
        } else {
            notified(a, word)
        }
    } else if name == b"init".as_slice() {
        init_reply(a, word)
    } else if name == b"done".as_slice() {
        done_reply(a, word)
    } else {
        None
    }
}

fn started(a: u32, b: u8, word: &[u8]) -> Option<Answered>
    ensures { result ≡ option_map (λ n. record { op = Op.Start a b; reply = Reply.Number n }) (number_up_to 255 word.now) }
{
    match number_up_to(255, word) {
        Some(number) => answered(Op::Start(a, b), Reply::Number(number as u8)),
        None => None,
    }
}

fn of_three(name: &[u8], a: u32, b: u32, word: &[u8]) -> Option<Answered>
    ensures { result ≡ spec.of_three name.now a b word.now }
{
    if name == b"class".as_slice() {
        let c = u32_of(word)?;
        answered(Op::ClassOf(a), Reply::Class(b, c))
    } else if name == b"read".as_slice() {
        let c = u32_of(word)?;
        answered(Op::Read(a, b), Reply::Value(c))
    } else if name == b"write".as_slice() {
        let c = u32_of(word)?;
        answered(Op::Write(a, b, c), Reply::Done)
    } else if name == b"new".as_slice() {
        let c = u32_of(word)?;
        answered(Op::New(a, b), Reply::Made(c))
    } else if name == b"start".as_slice() && 1 <= b && b <= 10 {
        if word == b"no".as_slice() {
            answered(Op::Start(a, b as u8), Reply::Already)
        } else {
            started(a, b as u8, word)
        }
    } else {
        None
    }
}

fn with_three(name: &[u8], a: u32, b: u32, rest: &[u8]) -> Option<Answered>
    ensures { result ≡ spec.with_three name.now a b (spec.cut rest.now) }
{
    let next = cut_word(rest);
    match next.rest {
        None => of_three(name, a, b, next.word),
        Some(_) => None,
    }
}

fn with_word(name: &[u8], a: u32, rest: &[u8]) -> Option<Answered>
    ensures { result ≡ spec.with_word name.now a (spec.cut rest.now) }
{
    let next = cut_word(rest);
    match next.rest {
        None => of_word(name, a, next.word),
        Some(rest) => with_three(name, a, u32_of(next.word)?, rest),
    }
}

fn with_one(name: &[u8], rest: &[u8]) -> Option<Answered>
    ensures { result ≡ spec.with_one name.now (spec.cut rest.now) }
{
    let next = cut_word(rest);
    match next.rest {
        None => of_one(name, u32_of(next.word)?),
        Some(rest) => with_word(name, u32_of(next.word)?, rest),
    }
}

// The operation and its reply that words say.
fn answered_in(words: &[u8]) -> Option<Answered>
    ensures { result ≡ spec.answered_of (spec.cut words.now) }
{
    let next = cut_word(words);
    match next.rest {
        None => of_none(next.word),
        Some(rest) => with_one(next.word, rest),
    }
}

// A number from 1 to 255.
fn small_of(word: &[u8]) -> Option<u8>
    ensures { result ≡ spec.small_of word.now }
{
    match number_up_to(255, word)? {
        0 => None,
        number => Some(number as u8),
    }
}

// A thread's event, of the words after the thread's number.
fn event_in(thread: u8, words: &[u8]) -> Option<JournalItem>
    ensures { result ≡ spec.event_of thread (spec.cut words.now) }
{
    let next = cut_word(words);
    let silent = number_up_to(1_000_000_000, next.word)?;
    let answered = answered_in(next.rest?)?;
    Some(JournalItem::Event(Event {
        thread,
        silent,
        op: answered.op,
        reply: answered.reply,
    }))
}

// An undo of levels, of the last of its words.
fn undone_words(thread: u8, words: &[u8]) -> Option<JournalItem>
    ensures { result ≡ spec.undone_words thread (spec.cut words.now) }
{
    let next = cut_word(words);
    let level = small_of(next.word)?;
    let words = u32_of(next.rest?)?;
    Some(JournalItem::Undone {
        thread,
        level,
        words,
    })
}

// An undo of levels, of the words after the first.
fn undone_in(words: &[u8]) -> Option<JournalItem>
    ensures { result ≡ spec.undone_of (spec.cut words.now) }
{
    let next = cut_word(words);
    let thread = small_of(next.word)?;
    undone_words(thread, next.rest?)
}

// What a line says, by its first word and those after it.
fn item_of(version: u8, word: &[u8], words: &[u8]) -> Option<JournalItem>
    ensures { result ≡ spec.item_of version word.now words.now }
{
    if word != b"undone".as_slice() {
        return event_in(small_of(word)?, words);
    }
    if version != 2 {
        return None;
    }
    undone_in(words)
}

// The same of the whole line.
fn item_at(version: u8, line: &[u8]) -> Option<JournalItem>
    ensures { result ≡ spec.item_at version (spec.cut line.now) }
{
    let first = cut_word(line);
    item_of(version, first.word, first.rest?)
}

/// What a line of a journal of this version says, without the byte 10 that ends it; `None` exactly where it says nothing.
#[tactic(auto, using(crate::proofs::SaidLemmas::says, crate::proofs::SaidLemmas::says_nothing))]
pub fn item_in(version: u8, line: &[u8]) -> Option<JournalItem>
    ensures { MatchOption result ((item : JournalItem) → ¬ Says version line.now item) (λ item. Says version line.now item) }
{
    item_at(version, line)
}
