//! What the answer of a step makes of the thread that has made it.

ghost use Rattle.step_port.specs.declared.step.Step.{Step};
ghost use Rattle.step_port.specs.Steps.{place_of};
ghost use Rattle.std.specs.Prelude.{ℕ, ◌≡◌, ◌+◌, ◌≤◌, ◌<◌, ◌^◌};
ghost use Rattle.heap_words.specs.Words.{value_of};
ghost use Rattle.op_core.specs.declared.Next.{Next};
ghost use Rattle.step_port.specs.declared.answer.StepAnswer.{StepAnswer};
ghost use Rattle.step_port.specs.declared.step.Step.{Step};
ghost use Rattle.thread_automaton.specs.Answers.{section_drawn, pin_made, words_taken, ticket_drawn, start_loaded, end_loaded, thread_drawn, thread_started, is_waiting_for, is_notified_for, wait_loaded, class_loaded, undone_at, lost_on, change_of};
ghost use Rattle.thread_moves.specs.Thread.{thread_of, CanBeAsked};
ghost use Rattle.thread_moves.specs.Change.{change_meant, NamesThread, IsPlain, IsMadeBy};

use crate::monitors::monitor_wanted;
use crate::{JThread, ThreadChange};
use heap_words::{Header, HeapWord, WaitWord, class_state, class_thread};
use monitor_core::{MonitorWord, Why};
use op_core::{Limit, Next, Op, Reply, ThreadCode};
use section_state::revoke_of;
use step_port::{Step, StepAnswer, ThreadWord};
use thread_automaton::Attempt;
use write_log::Noted;

impl<C: ThreadCode> JThread<C> {
    fn section_drawn(&self, drawn: u64) -> ThreadChange
        ensures meant { change_meant (thread_of C.state C.saved self.now) result
            ≡ section_drawn self.now.own.bounds (thread_of C.state C.saved self.now) drawn }
        ensures plain { IsPlain result }
    {
        if drawn < self.own.bounds.limits.sections as u64 {
            let section = (drawn + 1) as u32;
            let open = Step::OpenSection(section, self.opening_word());
            ThreadChange::Goes(Attempt::Fixed(open))
        } else {
            ThreadChange::Goes(Attempt::Full(Limit::Sections))
        }
    }

    fn pin_made(&self, next: Next, section: u32, level: u8) -> ThreadChange
        ensures meant { change_meant (thread_of C.state C.saved self.now) result
            ≡ pin_made (thread_of C.state C.saved self.now) next section level }
        ensures plain { IsPlain result }
    {
        if section == self.own.section {
            ThreadChange::SeesPinned(level, self.behind_pin(next))
        } else {
            ThreadChange::Knows(section, level)
        }
    }

    fn words_taken(&self, next: Next, taken: u64) -> ThreadChange
        requires room { self.now.own.bounds.first + self.now.own.bounds.limits.heap ≤ 2 ^ 32 }
        requires asked { CanBeAsked C.code (C.state self.now.code) next }
        ensures meant { change_meant (thread_of C.state C.saved self.now) result
            ≡ words_taken C.code self.now.own.bounds (thread_of C.state C.saved self.now) next taken }
        ensures plain { IsPlain result }
    {
        let Next::Want(Op::New(class, length)) = next else {
            return ThreadChange::never_comes();
        };
        let asked = self.words_asked(class, length);
        match taken.checked_add(asked) {
            Some(end) if end <= self.own.bounds.limits.heap as u64 => {
                let reference = taken as u32 + self.own.bounds.first;
                let header = Header { class, length };
                ThreadChange::Goes(Attempt::Fixed(Step::SetHeader(reference, header.pack())))
            }
            _ => ThreadChange::Goes(Attempt::Full(Limit::Heap)),
        }
    }

    fn ticket_drawn(&self, next: Next, ticket: u64) -> ThreadChange
        ensures meant { change_meant (thread_of C.state C.saved self.now) result ≡ ticket_drawn next ticket }
        ensures made_by { IsMadeBy Step.Ticket result }
    {
        match next {
            Next::Want(Op::Print(line)) => ThreadChange::Prints(ticket, line),
            _ => ThreadChange::never_comes(),
        }
    }

    fn start_loaded(&self, next: Next, word: u64) -> ThreadChange
        requires { value_of word < 2 ^ 8 }
        ensures meant { change_meant (thread_of C.state C.saved self.now) result
            ≡ start_loaded (thread_of C.state C.saved self.now) next word }
        ensures plain { IsPlain result }
    {
        match next {
            Next::Want(Op::Start(_, _)) => {
                if word == 0 {
                    ThreadChange::Goes(self.to_pin(next))
                } else {
                    ThreadChange::Replies(Reply::Already)
                }
            }
            _ => {
                if word == 0 {
                    return ThreadChange::Replies(Reply::Done);
                }
                let thread = HeapWord::unpack(word).value as u8;
                let end = Step::LoadThread(ThreadWord::Ended(thread));
                ThreadChange::Goes(Attempt::Fixed(end))
            }
        }
    }

    fn end_loaded(&self, thread: u8, word: u64) -> ThreadChange
        ensures meant { change_meant (thread_of C.state C.saved self.now) result ≡ end_loaded thread word }
        ensures plain { IsPlain result }
    {
        if word == 0 {
            ThreadChange::HasToWait(Why::Alive(thread))
        } else {
            ThreadChange::Replies(Reply::Done)
        }
    }

    fn thread_drawn(&self, next: Next, drawn: u64) -> ThreadChange
        ensures meant { change_meant (thread_of C.state C.saved self.now) result ≡ thread_drawn next drawn }
        ensures plain { IsPlain result }
    {
        match next {
            Next::Want(Op::Start(object, _)) => {
                if drawn < 255 {
                    let start = Step::StartThread(object, (drawn + 1) as u8);
                    ThreadChange::Goes(Attempt::Fixed(start))
                } else {
                    ThreadChange::Goes(Attempt::Full(Limit::Threads))
                }
            }
            _ => ThreadChange::never_comes(),
        }
    }

    fn thread_started(&self, next: Next, thread: u8) -> ThreadChange
        ensures meant { change_meant (thread_of C.state C.saved self.now) result ≡ thread_started next thread }
        ensures plain { IsPlain result }
    {
        match next {
            Next::Want(Op::Start(object, priority)) => {
                ThreadChange::Goes(Attempt::Fixed(Step::Split(thread, object, priority)))
            }
            _ => ThreadChange::never_comes(),
        }
    }

    fn wait_loaded(&self, next: Next, thread: u8, word: u64) -> ThreadChange
        ensures meant { change_meant (thread_of C.state C.saved self.now) result ≡ wait_loaded next thread word }
        ensures plain { IsPlain result }
    {
        match next {
            Next::Want(Op::Rewake(object)) => {
                if is_notified_for(object, word) {
                    ThreadChange::Goes(Attempt::Fixed(Step::LoadMonitor(object)))
                } else {
                    ThreadChange::HasToWait(Why::NotNotified)
                }
            }
            Next::Want(Op::Notify(object)) => {
                if is_waiting_for(object, word) {
                    ThreadChange::Goes(Attempt::Fixed(Step::Notify(thread, word)))
                } else if thread < 255 {
                    ThreadChange::Goes(Attempt::Fixed(Step::LoadWait(thread + 1)))
                } else {
                    ThreadChange::Replies(Reply::Woken(0))
                }
            }
            _ => ThreadChange::never_comes(),
        }
    }

    fn class_loaded(&self, next: Next, word: u64) -> ThreadChange
        ensures meant { change_meant (thread_of C.state C.saved self.now) result
            ≡ class_loaded (thread_of C.state C.saved self.now) next word }
        ensures plain { IsPlain result }
    {
        let state = class_state(word);
        let thread = class_thread(word);
        if state == 2 {
            ThreadChange::Replies(Reply::Ready)
        } else if state == 3 {
            ThreadChange::Replies(Reply::Bad)
        } else if state == 0 {
            ThreadChange::Goes(self.to_pin(next))
        } else if thread == self.own.number {
            ThreadChange::Replies(Reply::Ready)
        } else {
            ThreadChange::HasToWait(Why::ClassBusy(thread))
        }
    }

    // A load or a fetch-add found this word.
    fn found(&self, next: Next, step: Step, word: u64) -> ThreadChange
        requires room { self.now.own.bounds.first + self.now.own.bounds.limits.heap ≤ 2 ^ 32 }
        requires asked { CanBeAsked C.code (C.state self.now.code) next }
        requires names { NamesThread step (StepAnswer.Found word) }
        ensures meant { change_meant (thread_of C.state C.saved self.now) result
            ≡ change_of C.code self.now.own.bounds (thread_of C.state C.saved self.now) next step (StepAnswer.Found word) }
        ensures made_by { IsMadeBy step result }
    {
        match step {
            Step::LoadWord(at) => self.word_loaded(next, at, word),
            Step::DrawSection => self.section_drawn(word),
            Step::LoadSection(section) => self.section_loaded(next, section, word),
            Step::LoadMonitor(object) => self.monitor_loaded(next, object, word),
            Step::TakeWords(_) => self.words_taken(next, word),
            Step::Ticket => self.ticket_drawn(next, word),
            Step::DrawThread => self.thread_drawn(next, word),
            Step::LoadThread(ThreadWord::Start(_)) => self.start_loaded(next, word),
            Step::LoadThread(ThreadWord::Ended(thread)) => self.end_loaded(thread, word),
            Step::LoadWait(thread) => self.wait_loaded(next, thread, word),
            Step::LoadClass(_) => self.class_loaded(next, word),
            Step::Split(thread, _, _) => ThreadChange::Replies(Reply::Number(thread)),
            _ => ThreadChange::never_comes(),
        }
    }

    // The section is undone to the level to which it was revoked.
    fn undone_at(&self) -> ThreadChange
        ensures meant { change_meant (thread_of C.state C.saved self.now) result ≡ undone_at self.now.own.attempt }
        ensures plain { IsPlain result }
    {
        match self.own.attempt {
            Attempt::Undoing(word) => ThreadChange::GoesBack(revoke_of(word)),
            _ => ThreadChange::never_comes(),
        }
    }

    // A compare-exchange was lost.
    fn lost_on(&self, step: Step) -> ThreadChange
        ensures meant { change_meant (thread_of C.state C.saved self.now) result
            ≡ lost_on (thread_of C.state C.saved self.now) (place_of step) }
        ensures made_by { IsMadeBy step result }
    {
        match step {
            Step::OpenSection(section, _)
            | Step::LoadSection(section)
            | Step::Pin(section, _, _)
            | Step::Revoke(section, _, _)
            | Step::Commit(section, _)
            | Step::MarkUndone(section, _)
            | Step::OpenLevel(section, _)
            | Step::CloseLevel(section, _, _)
            | Step::LookSection(section)
            | Step::BreakLevel(section, _, _) => {
                if self.own.section > 0 && section == self.own.section {
                    ThreadChange::Goes(Attempt::Look)
                } else {
                    ThreadChange::Goes(Attempt::Begin)
                }
            }
            _ => ThreadChange::Goes(Attempt::Begin),
        }
    }

    // A store or a compare-exchange was done.
    fn done(&self, next: Next, step: Step) -> ThreadChange
        requires { (s w : ℕ) → step ≡ Step.OpenLevel s w → self.now.own.levels < 255 }
        ensures meant { change_meant (thread_of C.state C.saved self.now) result
            ≡ change_of C.code self.now.own.bounds (thread_of C.state C.saved self.now) next step StepAnswer.Done }
        ensures made_by { IsMadeBy step result }
    {
        match step {
            Step::SwapWord(at, old, _) => ThreadChange::Writes(Noted { at, old }),
            Step::RestoreWord(_, _) => ThreadChange::PutsBack,
            Step::OpenSection(section, _) => {
                ThreadChange::Opens(section, Attempt::Fixed(self.take_for(next, section, 1)))
            }
            Step::Pin(section, _, level) => self.pin_made(next, section, level),
            Step::Revoke(_, _, _) => ThreadChange::Goes(Attempt::Begin),
            Step::Commit(_, _) | Step::SetWait(_, _) => {
                ThreadChange::Goes(Attempt::Fixed(Step::Release(monitor_wanted(next))))
            }
            Step::MarkUndone(_, _) => self.undone_at(),
            Step::TakeMonitor(_, _) => ThreadChange::Takes(self.entry(next, self.own.levels)),
            Step::SetDepth(object, new) => {
                self.depth_set(object, MonitorWord::unpack(new).depth)
            }
            Step::OpenLevel(section, _) => {
                let levels = if self.own.levels == 255 {
                    255
                } else {
                    self.own.levels + 1
                };
                let take = self.take_for(next, section, levels);
                ThreadChange::OpensLevel(Attempt::Fixed(take))
            }
            Step::CloseLevel(_, _, depth) => {
                let release = Step::Release(monitor_wanted(next));
                ThreadChange::ClosesTo(depth, Attempt::Fixed(release))
            }
            Step::SettleClass(_, _) => ThreadChange::Replies(Reply::Done),
            Step::Release(object) => self.let_go(next, object),
            Step::SetHeader(object, _) => ThreadChange::Replies(Reply::Made(object)),
            Step::StartThread(_, thread) => self.thread_started(next, thread),
            Step::EndThread(_) => ThreadChange::Ends,
            Step::Notify(thread, _) => ThreadChange::Replies(Reply::Woken(thread)),
            Step::ClaimClass(_, _) => ThreadChange::Replies(Reply::Claimed),
            _ => ThreadChange::never_comes(),
        }
    }

    /// What the answer of a step makes of the thread, whose code says `next`. Its heap must end at place 2^32 or before, what its code
    /// wants must be in range ([`JThread::can_be_asked`]), a start word that was loaded must say the number of a thread, and a
    /// level may have opened only where fewer than 255 were open. Nothing is changed yet.
    #[tactic(auto, using(crate::proofs::AnswerLemmas::lost_change))]
    pub fn change_of(&self, next: Next, step: Step, answer: StepAnswer) -> ThreadChange
        requires room { self.now.own.bounds.first + self.now.own.bounds.limits.heap ≤ 2 ^ 32 }
        requires asked { CanBeAsked C.code (C.state self.now.code) next }
        requires names { NamesThread step answer }
        requires levels { (s w : ℕ) → step ≡ Step.OpenLevel s w → self.now.own.levels < 255 }
        ensures meant { change_meant (thread_of C.state C.saved self.now) result
            ≡ change_of C.code self.now.own.bounds (thread_of C.state C.saved self.now) next step answer }
        ensures made_by { IsMadeBy step result }
    {
        match answer {
            StepAnswer::Found(word) => self.found(next, step, word),
            StepAnswer::Done => self.done(next, step),
            StepAnswer::Lost(_) => self.lost_on(step),
        }
    }
}

// The wait word says that its thread waits for the object.
fn is_waiting_for(object: u32, word: u64) -> bool
    ensures { result ≡ is_waiting_for object word }
{
    match WaitWord::unpack(word) {
        Some(WaitWord::Waiting(other)) => other == object,
        _ => false,
    }
}

// The wait word says that its thread was notified.
fn is_notified_for(object: u32, word: u64) -> bool
    ensures { result ≡ is_notified_for object word }
{
    match WaitWord::unpack(word) {
        Some(WaitWord::Notified(other)) => other == object,
        _ => false,
    }
}
