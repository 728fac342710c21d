//! Which threads can go on (JLS 12.4.2, 17.1, 17.2).

ghost use Rattle.std.specs.Prelude.{◌≡◌, ◌+◌, ℕ};
ghost use Rattle.heap_words.specs.declared.areas.Area.{Area};
ghost use Rattle.plain_words.specs.Table.{words_in};
ghost use Rattle.thread_moves.specs.Thread.{thread_of};
ghost use Rattle.word_runs.specs.Enabled.{is_monitor_busy, is_being_undone, is_waiting, is_alive, is_of_another, has_to_wait_for, has_to_undo, is_enabled};
ghost use Rattle.thread_automaton.specs.NextMove.{word_place};
ghost use Rattle.word_machine.specs.Machine.{threads_in, is_enabled_in};

use crate::WordMachine;
use heap_words::{Area, ClassWord, HeapWord, Tag, WaitWord};
use monitor_core::{Contend, MonitorWord, decide};
use op_core::{Next, Op, ThreadCode};
use plain_words::PlainWords;
use section_state::State;
use thread_moves::{JThread, is_in};

/// The word of an area, 0 where it isn't there.
pub(crate) fn word(words: &PlainWords, area: Area) -> u64
    ensures { result ≡ words_in words.now area }
{
    if words.areas.contains(area) {
        words.load(area)
    } else {
        0
    }
}

/// The word at a place of the objects, 0 where it isn't there.
pub(crate) fn object_word(words: &PlainWords, at: u64) -> u64
    ensures { result ≡ words_in words.now (Area.Object at) }
{
    let _highest = words.areas.objects;
    match u32::try_from(at) {
        Ok(at) => word(words, Area::Object(at)),
        Err(_) => 0,
    }
}

fn is_monitor_busy<C: ThreadCode>(words: &PlainWords, thread: &JThread<C>, object: u32) -> bool
    ensures { result ≡ is_monitor_busy (words_in words.now) (thread_of C.state C.saved thread.now) object }
{
    let monitor = object_word(words, object as u64 + 1);
    let holder = MonitorWord::unpack(monitor).section;
    let section = word(words, Area::Section(holder));
    match decide(monitor, section, thread.section(), thread.priority()) {
        Contend::Busy(_) => true,
        Contend::Free | Contend::Own | Contend::Revoke(_) => false,
    }
}

fn is_being_undone<C: ThreadCode>(
    words: &PlainWords,
    thread: &JThread<C>,
    object: u32,
    place: u32,
) -> bool
    ensures { result ≡ is_being_undone (words_in words.now) (thread_of C.state C.saved thread.now) (word_place object place) }
{
    let found = object_word(words, object as u64 + 2 + place as u64);
    let writer = Tag::unpack(HeapWord::unpack(found).tag).section;
    !thread.is_safe(found) && is_in(State::Revoking, word(words, Area::Section(writer)))
}

fn is_waiting(words: &PlainWords, thread: u8) -> bool
    ensures { result ≡ is_waiting (words_in words.now) thread }
{
    matches!(
        WaitWord::unpack(word(words, Area::Wait(thread as u32))),
        Some(WaitWord::Waiting(_))
    )
}

fn is_alive(words: &PlainWords, object: u32) -> bool
    ensures { result ≡ is_alive (words_in words.now) object }
{
    let started = object_word(words, object as u64 + 3);
    let thread = HeapWord::unpack(started).value;
    started != 0 && word(words, Area::Thread(thread)) == 0
}

fn is_of_another(words: &PlainWords, thread: u8, class: u32) -> bool
    ensures { result ≡ is_of_another thread (words_in words.now (Area.Class class)) }
{
    match ClassWord::unpack(word(words, Area::Class(class))) {
        Some(ClassWord::Claimed(owner)) => owner != thread,
        _ => false,
    }
}

// Whether another thread has to go on before what the thread wants can be done.
fn has_to_wait<C: ThreadCode>(words: &PlainWords, thread: &JThread<C>) -> bool
    ensures { result ≡ has_to_wait_for (words_in words.now) (thread_of C.state C.saved thread.now) (C.code.next (C.state thread.now.code)) }
{
    let number = thread.number();
    match thread.code().next() {
        Next::Want(Op::Enter(object)) => is_monitor_busy(words, thread, object),
        Next::Want(Op::Rewake(object)) => {
            is_waiting(words, number) || is_monitor_busy(words, thread, object)
        }
        Next::Want(Op::Read(object, place) | Op::Write(object, place, _)) => {
            is_being_undone(words, thread, object, place)
        }
        Next::Want(Op::Join(object)) => is_alive(words, object),
        Next::Want(Op::Init(class)) => is_of_another(words, number, class),
        Next::Want(_) | Next::Silent => false,
        Next::Ended => true,
    }
}

fn has_to_undo<C: ThreadCode>(words: &PlainWords, thread: &JThread<C>) -> bool
    ensures { result ≡ has_to_undo (words_in words.now) (thread_of C.state C.saved thread.now) }
{
    let section = thread.section();
    section != 0 && is_in(State::Revoking, word(words, Area::Section(section)))
}

impl<C: ThreadCode + Drop> WordMachine<C> {
    /// Whether the thread of a number can go on: it hasn't ended, and its own section is to be undone, or it has to wait for no
    /// other thread.
    pub fn is_enabled(&self, number: u8) -> bool
        ensures { result ≡ is_enabled_in C.code (words_in self.now.words) (threads_in (thread_of C.state C.saved) self.now.seats.places.items number) }
    {
        let Some(thread) = self.thread(number) else {
            return false;
        };
        !thread.is_over() && (has_to_undo(&self.words, thread) || !has_to_wait(&self.words, thread))
    }
}
