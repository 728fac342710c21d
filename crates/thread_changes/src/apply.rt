//! A change, made in a thread.

ghost use Rattle.std.specs.Prelude.{◌≡◌, ◌<◌, None, IfSome, IsSome, drop};
ghost use Rattle.op_core.specs.declared.Reply.{Reply};
ghost use Rattle.op_core.specs.Replies.{FitsNext};
ghost use Rattle.thread_automaton.specs.ThreadState.{nth_or, no_mark};
ghost use Rattle.thread_automaton.specs.Checks.{noted};
ghost use Rattle.thread_automaton.specs.Monitors.{left_with};
ghost use Rattle.thread_automaton.specs.Changes.{changed, answered, forgotten, with_level, with_levels, without_level, stood_at, without, waits, prints, takes, deepens, opens, opens_level, closes_to, writes, sees_pinned, puts_back, goes_back};
ghost use Rattle.automaton_rows.specs.Laws.{reply_of};
ghost use Rattle.thread_moves.specs.Thread.{thread_of, IsReady, Saves};
ghost use Rattle.thread_moves.specs.Change.{change_meant, HasRoom, OpensNone};

use op_core::{Line, Reply, ThreadCode};
use thread_automaton::{Attempt, Held};
use thread_moves::{JThread, PrintedLine, ThreadChange};
use write_log::Noted;

// The operation of the thread has this reply.
fn answer<C: ThreadCode>(thread: &mut JThread<C>, reply: Reply)
    requires { FitsNext (C.code.next (C.state thread.old.code)) reply }
    ensures thread { thread_of C.state C.saved thread.new ≡ answered C.code (thread_of C.state C.saved thread.old) reply }
    ensures saves { Saves C.saved thread.old → Saves C.saved thread.new }
    ensures opening { thread.new.own.opening ≡ thread.old.own.opening }
    ensures bounds { thread.new.own.bounds ≡ thread.old.own.bounds }
{
    thread.code.reply(reply);
    thread.own.attempt = Attempt::Begin;
}

// Takes the newest save and its mark off, if there is one.
#[tactic(auto, using(crate::proofs::SaveLemmas::less_marks))]
fn drop_one<C: ThreadCode>(thread: &mut JThread<C>)
    requires { Saves C.saved thread.old }
    ensures thread { thread_of C.state C.saved thread.new ≡ record (thread_of C.state C.saved thread.old) {
      saved = drop 1 (thread_of C.state C.saved thread.old).saved;
      marks = drop 1 (thread_of C.state C.saved thread.old).marks;
    } }
    ensures saves { Saves C.saved thread.new }
    ensures bounds { thread.new.own.bounds ≡ thread.old.own.bounds }
{
    if thread.own.marks.pop().is_some() {
        thread.code.drop_save();
    }
}

// Takes this number of them off.
#[tactic(auto, using(crate::proofs::SaveLemmas::drop_next))]
fn drop_saves<C: ThreadCode>(thread: &mut JThread<C>, count: usize)
    requires { Saves C.saved thread.old }
    ensures thread { thread_of C.state C.saved thread.new ≡ record (thread_of C.state C.saved thread.old) {
      saved = drop count (thread_of C.state C.saved thread.old).saved;
      marks = drop count (thread_of C.state C.saved thread.old).marks;
    } }
    ensures saves { Saves C.saved thread.new }
    ensures bounds { thread.new.own.bounds ≡ thread.old.own.bounds }
{
    for _dropped in 0..count {
        drop_one(thread);
    }
}

// Where no level is open that the thread hasn't seen pinned, nothing that was logged or saved is needed any more.
#[tactic(auto, using(crate::proofs::SaveLemmas::all_dropped))]
fn forget_saves<C: ThreadCode>(thread: &mut JThread<C>)
    requires { Saves C.saved thread.old }
    ensures thread { thread_of C.state C.saved thread.new ≡ forgotten (thread_of C.state C.saved thread.old) }
    ensures settled { thread.new.own.opening ≡ None }
    ensures bounds { thread.new.own.bounds ≡ thread.old.own.bounds }
{
    if !thread.is_open() {
        let count = thread.own.marks.len();
        drop_saves(thread, count);
        thread.own.log.clear();
    }
}

// The levels inside of this open depth are no longer open.
fn leave_levels<C: ThreadCode>(thread: &mut JThread<C>, left: u8)
    requires { Saves C.saved thread.old }
    ensures thread { thread_of C.state C.saved thread.new ≡ with_levels (thread_of C.state C.saved thread.old) left }
    ensures saves { Saves C.saved thread.new }
    ensures bounds { thread.new.own.bounds ≡ thread.old.own.bounds }
{
    let inside = thread.own.levels.saturating_sub(left);
    drop_saves(thread, inside as usize);
    thread.own.levels = left;
}

// The thread goes back to the newest save and its mark, and both are taken off.
#[tactic(auto, using(crate::proofs::SaveLemmas::less_marks))]
fn restore_newest<C: ThreadCode>(thread: &mut JThread<C>)
    requires { Saves C.saved thread.old }
    ensures thread { thread_of C.state C.saved thread.new ≡ record (thread_of C.state C.saved thread.old) {
      local = nth_or (C.state thread.old.code) 0 (thread_of C.state C.saved thread.old).saved;
      silents = (nth_or no_mark 0 (thread_of C.state C.saved thread.old).marks).silents;
      saved = drop 1 (thread_of C.state C.saved thread.old).saved;
      marks = drop 1 (thread_of C.state C.saved thread.old).marks;
    } }
    ensures saves { Saves C.saved thread.new }
    ensures bounds { thread.new.own.bounds ≡ thread.old.own.bounds }
{
    match thread.own.marks.pop() {
        Some(mark) => {
            thread.own.silents = mark.silents;
            thread.code.restore();
        }
        None => thread.own.silents = 0,
    }
}

// The thread is as it was when the level opened, which is open no longer.
#[tactic(auto, using(crate::proofs::SaveLemmas::drop_next, crate::proofs::SaveLemmas::newest_left))]
fn stand_before<C: ThreadCode>(thread: &mut JThread<C>, level: u8)
    requires { Saves C.saved thread.old }
    ensures thread { thread_of C.state C.saved thread.new ≡ without_level (stood_at (thread_of C.state C.saved thread.old) level) level }
    ensures saves { Saves C.saved thread.new }
    ensures bounds { thread.new.own.bounds ≡ thread.old.own.bounds }
{
    let inside = thread.own.levels.saturating_sub(level);
    drop_saves(thread, inside as usize);
    restore_newest(thread);
    thread.own.levels = level.saturating_sub(1);
}

fn go_back<C: ThreadCode>(thread: &mut JThread<C>, level: u8)
    requires { Saves C.saved thread.old }
    ensures thread { thread_of C.state C.saved thread.new ≡ changed C.code (thread_of C.state C.saved thread.old) (goes_back level) }
    ensures settled { thread.new.own.opening ≡ None }
    ensures bounds { thread.new.own.bounds ≡ thread.old.own.bounds }
{
    stand_before(thread, level);
    if level <= 1 {
        thread.own.section = 0;
    }
    thread.own.attempt = Attempt::Begin;
    forget_saves(thread);
}

// The level that was about to open doesn't: its save is taken off.
fn abandon<C: ThreadCode>(thread: &mut JThread<C>)
    requires { IsReady C.state C.saved thread.old }
    ensures thread { thread_of C.state C.saved thread.new ≡ thread_of C.state C.saved thread.old }
    ensures room { (thread.new.own.log ≡ thread.old.own.log) × (thread.new.own.held ≡ thread.old.own.held) × (thread.new.own.lines ≡ thread.old.own.lines) }
    ensures saves { Saves C.saved thread.new }
    ensures bounds { thread.new.own.bounds ≡ thread.old.own.bounds }
{
    if thread.own.opening.take().is_some() {
        thread.code.drop_save();
    }
}

// The level that was about to open is open.
#[tactic(auto, using(crate::proofs::SaveLemmas::more_marks))]
fn push_level<C: ThreadCode>(thread: &mut JThread<C>)
    requires ready { IsReady C.state C.saved thread.old }
    requires opening { IsSome thread.old.own.opening }
    requires most { thread.old.own.levels < 255 }
    ensures thread { thread_of C.state C.saved thread.new ≡ with_level (thread_of C.state C.saved thread.old) }
    ensures saves { Saves C.saved thread.new }
    ensures bounds { thread.new.own.bounds ≡ thread.old.own.bounds }
{
    if let Some(mark) = thread.own.opening.take() {
        thread.own.marks.push_reserved(mark);
        thread.own.levels += 1;
    }
}

fn open_section<C: ThreadCode>(thread: &mut JThread<C>, section: u32, attempt: Attempt)
    requires ready { IsReady C.state C.saved thread.old }
    requires opening { IsSome thread.old.own.opening }
    ensures thread { thread_of C.state C.saved thread.new ≡ changed C.code (thread_of C.state C.saved thread.old) (opens section attempt) }
    ensures settled { thread.new.own.opening ≡ None }
    ensures bounds { thread.new.own.bounds ≡ thread.old.own.bounds }
{
    thread.own.section = section;
    thread.own.levels = 0;
    thread.own.pinned = 0;
    thread.own.attempt = attempt;
    push_level(thread);
}

fn open_level<C: ThreadCode>(thread: &mut JThread<C>, attempt: Attempt)
    requires ready { IsReady C.state C.saved thread.old }
    requires opening { IsSome thread.old.own.opening }
    requires most { thread.old.own.levels < 255 }
    ensures thread { thread_of C.state C.saved thread.new ≡ changed C.code (thread_of C.state C.saved thread.old) (opens_level attempt) }
    ensures settled { thread.new.own.opening ≡ None }
    ensures bounds { thread.new.own.bounds ≡ thread.old.own.bounds }
{
    thread.own.attempt = attempt;
    push_level(thread);
    forget_saves(thread);
}

fn see_pinned<C: ThreadCode>(thread: &mut JThread<C>, depth: u8, attempt: Attempt)
    requires { Saves C.saved thread.old }
    ensures thread { thread_of C.state C.saved thread.new ≡ changed C.code (thread_of C.state C.saved thread.old) (sees_pinned depth attempt) }
    ensures settled { thread.new.own.opening ≡ None }
    ensures bounds { thread.new.own.bounds ≡ thread.old.own.bounds }
{
    thread.own.pinned = depth;
    thread.own.attempt = attempt;
    forget_saves(thread);
}

fn close_to<C: ThreadCode>(thread: &mut JThread<C>, left: u8, attempt: Attempt)
    requires { Saves C.saved thread.old }
    ensures thread { thread_of C.state C.saved thread.new ≡ changed C.code (thread_of C.state C.saved thread.old) (closes_to left attempt) }
    ensures settled { thread.new.own.opening ≡ None }
    ensures bounds { thread.new.own.bounds ≡ thread.old.own.bounds }
{
    thread.own.attempt = attempt;
    leave_levels(thread, left);
    forget_saves(thread);
}

// Logs the word, where the thread's own section can still be undone.
fn note_word<C: ThreadCode>(thread: &mut JThread<C>, word: Noted)
    requires { 0 < thread.old.own.log.spare }
    ensures thread { thread_of C.state C.saved thread.new
        ≡ record (thread_of C.state C.saved thread.old) { log = noted (thread_of C.state C.saved thread.old) word.at word.old } }
    ensures opening { thread.new.own.opening ≡ thread.old.own.opening }
    ensures bounds { thread.new.own.bounds ≡ thread.old.own.bounds }
{
    if thread.is_open() {
        thread.own.log.note(word);
    }
}

// The monitor of the object was left: with the last one the section has ended.
fn leave_monitor<C: ThreadCode>(thread: &mut JThread<C>, object: u32)
    requires fits { FitsNext (C.code.next (C.state thread.old.code)) Reply.Done }
    requires saves { Saves C.saved thread.old }
    ensures thread { thread_of C.state C.saved thread.new
        ≡ changed C.code (thread_of C.state C.saved thread.old) (left_with (without object thread.old.own.held.newest_first)) }
    ensures settled { thread.new.own.opening ≡ None }
    ensures bounds { thread.new.own.bounds ≡ thread.old.own.bounds }
{
    thread.own.held.remove(object);
    answer(thread, Reply::Done);
    if thread.own.held.is_empty() {
        thread.own.section = 0;
        leave_levels(thread, 0);
        forget_saves(thread);
    }
}

fn take_monitor<C: ThreadCode>(thread: &mut JThread<C>, held: Held)
    requires fits { FitsNext (C.code.next (C.state thread.old.code)) Reply.Done }
    requires room { 0 < thread.old.own.held.spare }
    ensures thread { thread_of C.state C.saved thread.new ≡ changed C.code (thread_of C.state C.saved thread.old) (takes held) }
    ensures opening { thread.new.own.opening ≡ thread.old.own.opening }
    ensures bounds { thread.new.own.bounds ≡ thread.old.own.bounds }
{
    thread.own.held.push(held);
    thread.own.depth = 0;
    answer(thread, Reply::Done);
}

fn deepen_monitor<C: ThreadCode>(thread: &mut JThread<C>, object: u32, depth: u16)
    requires fits { FitsNext (C.code.next (C.state thread.old.code)) Reply.Done }
    ensures thread { thread_of C.state C.saved thread.new ≡ changed C.code (thread_of C.state C.saved thread.old) (deepens object depth) }
    ensures opening { thread.new.own.opening ≡ thread.old.own.opening }
    ensures bounds { thread.new.own.bounds ≡ thread.old.own.bounds }
{
    thread.own.held.set_depth(object, depth);
    answer(thread, Reply::Done);
}

fn wait_at<C: ThreadCode>(thread: &mut JThread<C>, object: u32)
    requires { FitsNext (C.code.next (C.state thread.old.code)) Reply.Done }
    ensures thread { thread_of C.state C.saved thread.new ≡ changed C.code (thread_of C.state C.saved thread.old) (waits object) }
    ensures opening { thread.new.own.opening ≡ thread.old.own.opening }
    ensures bounds { thread.new.own.bounds ≡ thread.old.own.bounds }
{
    let given = thread.own.held.find(object);
    thread.own.held.remove(object);
    thread.own.depth = given.depth;
    thread.own.level = given.level;
    answer(thread, Reply::Done);
}

fn print_line<C: ThreadCode>(thread: &mut JThread<C>, ticket: u64, line: Line)
    requires fits { FitsNext (C.code.next (C.state thread.old.code)) Reply.Done }
    requires room { 0 < thread.old.own.lines.spare }
    ensures thread { thread_of C.state C.saved thread.new ≡ changed C.code (thread_of C.state C.saved thread.old) (prints ticket line) }
    ensures opening { thread.new.own.opening ≡ thread.old.own.opening }
    ensures bounds { thread.new.own.bounds ≡ thread.old.own.bounds }
{
    thread.own.lines.push(PrintedLine { ticket, line });
    answer(thread, Reply::Done);
}

fn write_word<C: ThreadCode>(thread: &mut JThread<C>, word: Noted)
    requires fits { FitsNext (C.code.next (C.state thread.old.code)) Reply.Done }
    requires room { 0 < thread.old.own.log.spare }
    ensures thread { thread_of C.state C.saved thread.new
        ≡ changed C.code (thread_of C.state C.saved thread.old) (writes (noted (thread_of C.state C.saved thread.old) word.at word.old)) }
    ensures opening { thread.new.own.opening ≡ thread.old.own.opening }
    ensures bounds { thread.new.own.bounds ≡ thread.old.own.bounds }
{
    note_word(thread, word);
    answer(thread, Reply::Done);
}

fn put_back<C: ThreadCode>(thread: &mut JThread<C>)
    ensures thread { thread_of C.state C.saved thread.new ≡ changed C.code (thread_of C.state C.saved thread.old) puts_back }
    ensures opening { thread.new.own.opening ≡ thread.old.own.opening }
    ensures bounds { thread.new.own.bounds ≡ thread.old.own.bounds }
{
    if !thread.own.log.is_empty() {
        thread.own.log.drop_last();
    }
}

// Makes a change that opens no level.
fn apply_settled<C: ThreadCode>(thread: &mut JThread<C>, change: ThreadChange)
    requires fits { IfSome (reply_of (change_meant (thread_of C.state C.saved thread.old) change)) (FitsNext (C.code.next (C.state thread.old.code))) }
    requires saves { Saves C.saved thread.old }
    requires room { HasRoom thread.old change }
    requires shut { OpensNone change }
    ensures thread { thread_of C.state C.saved thread.new
        ≡ changed C.code (thread_of C.state C.saved thread.old) (change_meant (thread_of C.state C.saved thread.old) change) }
    ensures settled { thread.new.own.opening ≡ None }
    ensures bounds { thread.new.own.bounds ≡ thread.old.own.bounds }
{
    match change {
        ThreadChange::Goes(attempt) => thread.own.attempt = attempt,
        ThreadChange::HasToWait(_) => thread.own.attempt = Attempt::Begin,
        ThreadChange::Replies(reply) => answer(thread, reply),
        ThreadChange::SeesPinned(depth, attempt) => see_pinned(thread, depth, attempt),
        ThreadChange::Knows(section, depth) => {
            thread.own.known = section;
            thread.own.known_depth = depth;
            thread.own.attempt = Attempt::Checked;
        }
        ThreadChange::Writes(noted) => write_word(thread, noted),
        ThreadChange::Opens(_, _) | ThreadChange::OpensLevel(_) => {}
        ThreadChange::ClosesTo(left, attempt) => close_to(thread, left, attempt),
        ThreadChange::Takes(held) => take_monitor(thread, held),
        ThreadChange::Deepens(object, depth) => deepen_monitor(thread, object, depth),
        ThreadChange::Leaves(object) => leave_monitor(thread, object),
        ThreadChange::Waits(object) => wait_at(thread, object),
        ThreadChange::Prints(ticket, line) => print_line(thread, ticket, line),
        ThreadChange::PutsBack => put_back(thread),
        ThreadChange::SetsBack(object, depth) => thread.own.held.set_depth(object, depth),
        ThreadChange::GivesBack(object) => thread.own.held.remove(object),
        ThreadChange::GoesBack(level) => go_back(thread, level),
        ThreadChange::Ends => {
            thread.own.over = true;
            thread.own.attempt = Attempt::Begin;
        }
    }
}

// Makes a change. The code must be given a reply that fits, room must have been made, and a level that opens must
// have its save and its mark.
pub(crate) fn apply<C: ThreadCode>(thread: &mut JThread<C>, change: ThreadChange)
    requires fits { IfSome (reply_of (change_meant (thread_of C.state C.saved thread.old) change)) (FitsNext (C.code.next (C.state thread.old.code))) }
    requires ready { IsReady C.state C.saved thread.old }
    requires room { HasRoom thread.old change }
    ensures thread { thread_of C.state C.saved thread.new
        ≡ changed C.code (thread_of C.state C.saved thread.old) (change_meant (thread_of C.state C.saved thread.old) change) }
    ensures settled { thread.new.own.opening ≡ None }
    ensures bounds { thread.new.own.bounds ≡ thread.old.own.bounds }
{
    match change {
        ThreadChange::Opens(section, attempt) => open_section(thread, section, attempt),
        ThreadChange::OpensLevel(attempt) => open_level(thread, attempt),
        _ => {
            abandon(thread);
            apply_settled(thread, change);
        }
    }
}
