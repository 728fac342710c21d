//! A thread that can be given turns, and a turn of it.

ghost use Rattle.std.specs.Prelude.{◌≡◌, ◌+◌, ◌≤◌, ◌^◌, [], None, ℕ, IfOk, IsOk, OnOk, OnErr, nat_eq, if◌then◌else◌};
ghost use Rattle.step_port.specs.declared.answer.StepAnswer.{StepAnswer};
ghost use Rattle.step_port.specs.declared.step.Step.{Step};
ghost use Rattle.thread_automaton.specs.declared.Attempt.{Attempt};
ghost use Rattle.thread_automaton.specs.declared.Move.{Move};
ghost use Rattle.thread_automaton.specs.ThreadState.{first_state};
ghost use Rattle.thread_automaton.specs.NextMove.{next_move};
ghost use Rattle.automaton_rows.specs.Fits.{IsFit};
ghost use Rattle.thread_moves.specs.Thread.{thread_of, CanBeAsked, AreCounted};
ghost use Rattle.thread_moves.specs.Change.{NamesThread};
ghost use Rattle.rollback_core.specs.Turn.{Turned, MoveTakesMemory, kind_made};
ghost use Rattle.rollback_core.specs.Quiet.{QuietTurns};

use crate::Turn;
use crate::silent::run_silent;
use crate::turning::turn_of;
use op_core::{Next, NoMemory, ThreadCode};
use std::alloc::Global;
use std::marker::Model;
use step_port::StepPort;
use thread_automaton::{Bounds, Move};
use thread_moves::JThread;

/// A thread that began by [`ReadyThread::first`] and went on by turns alone: so it is fit, its silent moves are counted, no
/// level of it is half opened, and its heap ends below place 2^32. Contracts see the [`JThread`].
#[derive(Drop)]
pub struct ReadyThread<C: ThreadCode> {
    thread: JThread<C>,
}

impl<C: ThreadCode> Model for ReadyThread<C> {
    ghost use Rattle.std.specs.Prelude.{◌≡◌, None, ◌+◌, ◌≤◌, ◌^◌};
    ghost use Rattle.automaton_rows.specs.Fits.{IsFit};
    ghost use Rattle.thread_moves.specs.declared.thread.JThread.{JThread};
    ghost use Rattle.thread_moves.specs.Thread.{thread_of, AreCounted};

    ghost Value = { JThread C };

    ghost view = { λ ready. ready.thread };

    ghost invariant = { λ ready. IsFit C.code (thread_of C.state C.saved ready.thread) × AreCounted (thread_of C.state C.saved ready.thread)
        × (ready.thread.own.opening ≡ None) × (ready.thread.own.bounds.first + ready.thread.own.bounds.limits.heap ≤ 2 ^ 32) };
}

impl<C: ThreadCode> ReadyThread<C> {
    /// A thread of this number (from 1) and priority (1 to 10 in Java) that begins at the local state of its code, of
    /// which nothing must be saved. Its heap must end below place 2^32. Takes no memory.
    pub fn first(alloc: Global, code: C, number: u8, priority: u8, bounds: Bounds) -> Self
        requires saved { C.saved code ≡ [] }
        requires heap { bounds.first + bounds.limits.heap ≤ 2 ^ 32 }
        ensures thread { thread_of C.state C.saved result ≡ first_state number priority (C.state code) }
        ensures bounds { result.own.bounds ≡ bounds }
        ensures last_kind { result.own.last_kind ≡ 0 }
    {
        ReadyThread {
            thread: JThread::first(alloc, code, number, priority, bounds),
        }
    }

    /// The thread.
    pub fn thread(&self) -> &JThread<C>
        ensures { result.now ≡ self.now }
    {
        &self.thread
    }

    /// What it does next. What its code wants must be in range ([`JThread::can_be_asked`]).
    pub fn next_move(&self) -> Move
        requires { CanBeAsked C.code (C.state self.now.code) (C.code.next (C.state self.now.code)) }
        ensures { result ≡ next_move C.code self.now.own.bounds (thread_of C.state C.saved self.now) }
    {
        self.thread.move_for(self.thread.code.next())
    }

    /// Makes some of the silent turns that come next, at most `most`, and says how many. Where these are fewer, there may be
    /// more to make. Takes no memory but what the thread's code takes.
    pub fn run_silent(&mut self, most: u64) -> u64
        ensures most { result ≤ most }
        ensures turns { QuietTurns C.code self.old.own.bounds result (thread_of C.state C.saved self.old) (thread_of C.state C.saved self.new) }
        ensures bounds { self.new.own.bounds ≡ self.old.own.bounds }
        ensures last_kind { self.new.own.last_kind ≡ (if nat_eq result 0 then self.old.own.last_kind else 0) }
    {
        run_silent(&mut self.thread, most)
    }

    /// Has a maker of turns go on with the thread.
    pub fn give_turns<M: TurnMaker<C>>(&mut self, maker: &mut M)
        requires { M.may maker.old self.old }
        ensures makes { M.makes maker.old self.old maker.new self.new }
        ensures bounds { self.new.own.bounds ≡ self.old.own.bounds }
    {
        maker.make_turns(&mut self.thread)
    }
}

/// What goes on with a thread that can be given turns, and leaves it so that it can be given more.
pub trait TurnMaker<C: ThreadCode>: Sized {
    ghost use Rattle.thread_moves.specs.declared.thread.JThread.{JThread};

    /// It may now go on with this thread.
    ghost may: { Self → JThread C → Type 0 };

    /// It went on with the first thread, and is the second maker afterwards, and the thread the second one.
    ghost makes: { Self → JThread C → Self → JThread C → Type 0 };

    /// Goes on with the thread.
    fn make_turns(&mut self, thread: &mut JThread<C>)
        requires may { may self.old thread.old }
        requires fits { IsFit C.code (thread_of C.state C.saved thread.old) }
        requires counts { AreCounted (thread_of C.state C.saved thread.old) }
        requires settled { thread.old.own.opening ≡ None }
        requires heap { thread.old.own.bounds.first + thread.old.own.bounds.limits.heap ≤ 2 ^ 32 }
        ensures makes { makes self.old thread.old self.new thread.new }
        ensures fits { IsFit C.code (thread_of C.state C.saved thread.new) }
        ensures counts { AreCounted (thread_of C.state C.saved thread.new) }
        ensures settled { thread.new.own.opening ≡ None }
        ensures bounds { thread.new.own.bounds ≡ thread.old.own.bounds };
}

/// One turn of a thread on the words of a port: it makes the move that comes next and no other, at most one step
/// among them, and says what it came to.
///
/// What its code wants must be in range ([`JThread::can_be_asked`]). The port must allow the step, if one comes next, and a
/// start word that it loads must say the number of a thread.
///
/// # Errors
///
/// `NoMemory` where there was no memory: for a silent step, or before a step that opens a section or a level, overwrites
/// a word, takes a monitor, prints a line or hands a thread out. No turn of an undo wants memory. After the error the
/// thread and the words are as before.
pub fn turn<C: ThreadCode + Drop, P: StepPort>(
    ready: &mut ReadyThread<C>,
    port: &mut P,
) -> Result<Turn<C, P::Pass>, NoMemory>
    requires range { CanBeAsked C.code (C.state ready.old.code) (C.code.next (C.state ready.old.code)) }
    requires allows { (step : Step) → next_move C.code ready.old.own.bounds (thread_of C.state C.saved ready.old) ≡ Move.Make step → P.allows port.old step }
    requires names { (step : Step) (a : StepAnswer) (y : P) → next_move C.code ready.old.own.bounds (thread_of C.state C.saved ready.old) ≡ Move.Make step
        → P.stepped port.old step a y → NamesThread step a }
    ensures turned { IfOk result (λ r. Turned (thread_of C.state C.saved) C.code ready.old.own.bounds (thread_of C.state C.saved ready.old)
        (thread_of C.state C.saved ready.new) (λ step a. P.stepped port.old step a port.new) (λ step pass. P.handed port.old step port.new pass)
        (port.new ≡ port.old) r (next_move C.code ready.old.own.bounds (thread_of C.state C.saved ready.old))) }
    ensures bounds { ready.new.own.bounds ≡ ready.old.own.bounds }
    ensures last_kind { OnOk result (ready.new.own.last_kind ≡ kind_made (next_move C.code ready.old.own.bounds (thread_of C.state C.saved ready.old))) }
    ensures err { OnErr result (thread_of C.state C.saved ready.new ≡ thread_of C.state C.saved ready.old) }
    ensures err_port { OnErr result (port.new ≡ port.old) }
    ensures memory { OnErr result (MoveTakesMemory (next_move C.code ready.old.own.bounds (thread_of C.state C.saved ready.old))) }
    ensures undo { (w : ℕ) → ready.old.own.attempt ≡ Attempt.Undoing w → IsOk result }
{
    let next = ready.thread.code.next();
    turn_for(ready, next, port)
}

/// The same turn, where the caller has asked already what the thread's code wants next.
///
/// # Errors
///
/// As [`turn`] says.
pub fn turn_for<C: ThreadCode + Drop, P: StepPort>(
    ready: &mut ReadyThread<C>,
    next: Next,
    port: &mut P,
) -> Result<Turn<C, P::Pass>, NoMemory>
    requires next { next ≡ C.code.next (C.state ready.old.code) }
    requires range { CanBeAsked C.code (C.state ready.old.code) (C.code.next (C.state ready.old.code)) }
    requires allows { (step : Step) → next_move C.code ready.old.own.bounds (thread_of C.state C.saved ready.old) ≡ Move.Make step → P.allows port.old step }
    requires names { (step : Step) (a : StepAnswer) (y : P) → next_move C.code ready.old.own.bounds (thread_of C.state C.saved ready.old) ≡ Move.Make step
        → P.stepped port.old step a y → NamesThread step a }
    ensures turned { IfOk result (λ r. Turned (thread_of C.state C.saved) C.code ready.old.own.bounds (thread_of C.state C.saved ready.old)
        (thread_of C.state C.saved ready.new) (λ step a. P.stepped port.old step a port.new) (λ step pass. P.handed port.old step port.new pass)
        (port.new ≡ port.old) r (next_move C.code ready.old.own.bounds (thread_of C.state C.saved ready.old))) }
    ensures bounds { ready.new.own.bounds ≡ ready.old.own.bounds }
    ensures last_kind { OnOk result (ready.new.own.last_kind ≡ kind_made (next_move C.code ready.old.own.bounds (thread_of C.state C.saved ready.old))) }
    ensures err { OnErr result (thread_of C.state C.saved ready.new ≡ thread_of C.state C.saved ready.old) }
    ensures err_port { OnErr result (port.new ≡ port.old) }
    ensures memory { OnErr result (MoveTakesMemory (next_move C.code ready.old.own.bounds (thread_of C.state C.saved ready.old))) }
    ensures undo { (w : ℕ) → ready.old.own.attempt ≡ Attempt.Undoing w → IsOk result }
{
    turn_of(&mut ready.thread, next, port)
}
