//! The words that threads have to put back.

ghost use Rattle.std.specs.Prelude.{◌≡◌, ℕ, Some, IfOk, OnOk, reverse};
ghost use Rattle.std.specs.Option.{option_or};
ghost use Rattle.plain_words.specs.Table.{words_in};
ghost use Rattle.thread_moves.specs.Thread.{thread_of};
ghost use Rattle.thread_automaton.specs.ThreadState.{noted_since};
ghost use Rattle.word_machine.specs.Machine.{threads_in};
ghost use Rattle.word_texts.specs.OldWords.{old_at, oldest_at, AreOldest};
ghost use Rattle.word_texts.specs.PutBack.{back_in};

use crate::old_words::OldWords;
use heap_words::Area;
use op_core::{NoMemory, ThreadCode};
use section_state::{State, revoke_of};
use std::alloc::Global;
use thread_moves::{JThread, is_in};
use word_machine::WordMachine;
use write_log::Noted;

// How many of its logged words, the oldest ones, a thread need not put back: those from before the level to which it is revoked, or all.
fn staying<C: ThreadCode + Drop>(machine: &WordMachine<C>, thread: &JThread<C>) -> usize
    ensures { back_in (words_in machine.now.words) (Some (thread_of C.state C.saved thread.now))
        ≡ noted_since result (thread_of C.state C.saved thread.now).log }
{
    let section = thread.section();
    let word = machine.word(Area::Section(section));
    let level = revoke_of(word);
    if section != 0 && is_in(State::Revoking, word) && level <= thread.levels() {
        thread.logged_at(level)
    } else {
        thread.log_len()
    }
}

// The words that a thread has to put back, the oldest first.
fn words_back<'a, C: ThreadCode + Drop>(
    machine: &WordMachine<C>,
    thread: &'a JThread<C>,
) -> &'a [Noted]
    ensures { back_in (words_in machine.now.words) (Some (thread_of C.state C.saved thread.now)) ≡ reverse result.now }
{
    let log = thread.log();
    let from = staying(machine, thread).min(log.len());
    &log[from..]
}

// Adds the words that the thread of a number has to put back, where it is there.
fn add_thread<C: ThreadCode + Drop>(
    words: &mut OldWords,
    machine: &WordMachine<C>,
    number: u8,
) -> Result<(), NoMemory>
    ensures { OnOk result ((p : ℕ) → old_at words.new p ≡ option_or (old_at words.old p)
        (oldest_at (back_in (words_in machine.now.words) (threads_in (thread_of C.state C.saved) machine.now.seats.places.items number)) p)) }
{
    match machine.thread(number) {
        Some(thread) => words.add_log(words_back(machine, thread)),
        None => Ok(()),
    }
}

/// The words that threads have to put back: for each place the oldest one that such a thread has logged there.
pub(crate) fn old_words<C: ThreadCode + Drop>(
    alloc: Global,
    machine: &WordMachine<C>,
) -> Result<OldWords, NoMemory>
    ensures { IfOk result (λ words. AreOldest (λ t. back_in (words_in machine.now.words)
        (threads_in (thread_of C.state C.saved) machine.now.seats.places.items t)) (old_at words)) }
{
    let mut words = OldWords::new(alloc);
    for number in 0..machine.count() {
        add_thread(&mut words, machine, number as u8)?;
    }
    Ok(words)
}
