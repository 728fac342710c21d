//! Which threads may be picked: those that don't have to wait for another one.

use heap_words::{Area, ClassWord, HeapWord, Tag, WaitWord};
use monitor_core::{Contend, MonitorWord, decide};
use op_core::{Next, Op, ThreadCode};
use plain_words::PlainWords;
use section_state::{State, section_parts};
use thread_moves::JThread;

/// The word of an area, 0 where there is none.
pub fn word(words: &PlainWords, area: Area) -> u64 {
    if words.areas.contains(area) {
        words.load(area)
    } else {
        0
    }
}

fn object_word(words: &PlainWords, object: u32, place: u32) -> u64 {
    match object.checked_add(place) {
        Some(at) => word(words, Area::Object(at)),
        None => 0,
    }
}

/// To which level the section is revoked and not undone yet, if it is.
pub fn revoked_level(words: &PlainWords, section: u32) -> Option<u8> {
    match section_parts(word(words, Area::Section(section))) {
        Some(parts) if parts.state.number() == State::Revoking.number() => Some(parts.revoke),
        _ => None,
    }
}

fn is_revoking(words: &PlainWords, section: u32) -> bool {
    revoked_level(words, section).is_some()
}

/// Whether this level of the section was revoked, or one further out, and isn't undone yet.
fn is_revoked(words: &PlainWords, section: u32, level: u8) -> bool {
    match revoked_level(words, section) {
        Some(revoke) => revoke <= level,
        None => false,
    }
}

fn is_busy<C: ThreadCode>(words: &PlainWords, thread: &JThread<C>, object: u32) -> bool {
    let monitor = object_word(words, object, 1);
    let holder = MonitorWord::unpack(monitor).section;
    let section = word(words, Area::Section(holder));
    match decide(monitor, section, thread.section(), thread.priority()) {
        Contend::Busy(_) => true,
        Contend::Free | Contend::Own | Contend::Revoke(_) => false,
    }
}

fn is_tagged<C: ThreadCode>(
    words: &PlainWords,
    thread: &JThread<C>,
    object: u32,
    place: u32,
) -> bool {
    let tag = Tag::unpack(
        HeapWord::unpack(object_word(words, object, place.saturating_add(2))).tag,
    );
    tag.section != 0 && tag.section != thread.section() && is_revoked(words, tag.section, tag.level)
}

fn is_in_wait_set<C: ThreadCode>(words: &PlainWords, thread: &JThread<C>) -> bool {
    match WaitWord::unpack(word(words, Area::Wait(thread.number() as u32))) {
        Some(WaitWord::Waiting(_)) => true,
        _ => false,
    }
}

fn is_alive(words: &PlainWords, object: u32) -> bool {
    let started = HeapWord::unpack(object_word(words, object, 3)).value;
    let Ok(number) = u8::try_from(started) else {
        return false;
    };
    number != 0 && word(words, Area::Thread(number as u32)) == 0
}

fn is_at_class<C: ThreadCode>(words: &PlainWords, thread: &JThread<C>, class: u32) -> bool {
    match ClassWord::unpack(word(words, Area::Class(class))) {
        Some(ClassWord::Claimed(owner)) => owner != thread.number(),
        _ => false,
    }
}

fn is_held_up<C: ThreadCode>(words: &PlainWords, thread: &JThread<C>) -> bool {
    match thread.code().next() {
        Next::Want(Op::Enter(object)) => is_busy(words, thread, object),
        Next::Want(Op::Rewake(object)) => {
            is_in_wait_set(words, thread) || is_busy(words, thread, object)
        }
        Next::Want(Op::Read(object, place) | Op::Write(object, place, _)) => {
            is_tagged(words, thread, object, place)
        }
        Next::Want(Op::Join(object)) => is_alive(words, object),
        Next::Want(Op::Init(class)) => is_at_class(words, thread, class),
        _ => false,
    }
}

/// Whether a turn of the thread may be picked: it hasn't ended, and has its section to undo or need not wait.
pub fn is_enabled<C: ThreadCode>(words: &PlainWords, thread: &JThread<C>) -> bool {
    if thread.is_over() {
        return false;
    }
    (thread.section() != 0 && is_revoking(words, thread.section())) || !is_held_up(words, thread)
}
