//! A thread's next step of its own accord: the replies that are chosen, and the limits that it meets.

ghost use Rattle.std.specs.Prelude.{ℕ, ◌≡◌, ◌↔◌, ◌<◌, ◌≤◌, ◌+◌, IsTrue, IfOk, IfSome, IfNone, MatchOption, OnErr, OnOk, suc};
ghost use Rattle.op_core.specs.OrdinaryState.{live, IsOwner, count_of};
ghost use Rattle.op_core.specs.OrdinaryStep.{CanStep, MayAnswer, IsFreeNumber};
ghost use Rattle.ordinary_machine.specs.Machine.{machine_of, moved, with_thread_at, HasBegun, Wants};
ghost use Rattle.op_core.specs.declared.Limit.{Limit};
ghost use Rattle.op_core.specs.declared.Limits.{Limits};
ghost use Rattle.op_core.specs.declared.Op.{Op};
ghost use Rattle.ordinary_machine.specs.Advance.{IsOutOfNumbers, IsGiven, OpMeets, IsChosen, Advances, MayAdvance, LacksNumber, LacksReference, answer_of, headway_of, MakesWanted, MakesHeadway};

use crate::Ordinary;
use machine_tables::{ClassProgress, Standing};
use op_core::{
    CodeStop, Event, Limit, Limits, Next, NoMemory, Op, Reply, ThreadCode, after_silent_steps,
};

/// What a thread did, or why it did nothing.
#[derive(Clone, Copy)]
pub enum Advance {
    /// It made a silent step.
    Silent,
    /// It made this step.
    Step(Event),
    /// What it wants has no step now.
    Waits,
    /// Nothing: its code is at its end, and the thread hasn't ended.
    Halts,
    /// It has ended.
    Ended,
    /// What it wants meets this limit.
    Spent(Limit),
}

/// What `advance` answers, with no word of the event.
#[derive(Clone, Copy)]
pub enum Headway {
    /// The thread made a step, silent or not.
    Made,
    /// It has none now: it waits, its code is at its end, or it has ended.
    Blocked,
    /// What it wants meets this limit.
    Spent(Limit),
}

/// What came of the operation that a thread wants.
#[derive(Clone, Copy)]
pub(crate) enum OpOutcome {
    /// Its step was made, with this reply.
    Replied(Reply),
    /// It has no step now.
    Waits,
    /// It meets this limit.
    Spent(Limit),
}

// What `advance` answers where the operation had this outcome after `silent` silent steps.
#[inline(always)]
fn answer_of(thread: u8, silent: u64, op: Op, outcome: OpOutcome) -> Advance
    ensures { result ≡ answer_of thread silent op outcome }
{
    match outcome {
        OpOutcome::Replied(reply) => Advance::Step(Event {
            thread,
            silent,
            op,
            reply,
        }),
        OpOutcome::Waits => Advance::Waits,
        OpOutcome::Spent(limit) => Advance::Spent(limit),
    }
}

// The headway of that answer.
#[inline(always)]
fn headway_of_outcome(outcome: OpOutcome) -> Headway
    ensures { (thread silent : ℕ) → (op : Op) → result ≡ headway_of (answer_of thread silent op outcome) }
{
    match outcome {
        OpOutcome::Replied(_) => Headway::Made,
        OpOutcome::Waits => Headway::Blocked,
        OpOutcome::Spent(limit) => Headway::Spent(limit),
    }
}

fn headway_of(answer: Advance) -> Headway
    ensures { result ≡ headway_of answer }
{
    match answer {
        Advance::Silent | Advance::Step(_) => Headway::Made,
        Advance::Waits | Advance::Halts | Advance::Ended => Headway::Blocked,
        Advance::Spent(limit) => Headway::Spent(limit),
    }
}

impl<C: ThreadCode + Drop> Ordinary<C> {
    fn is_deep(&self, thread: u8, reference: u32) -> bool
        ensures { IsTrue result ↔ (IsOwner thread ((machine_of C.state self.now).now.monitors reference) × (65535 ≤ count_of ((machine_of C.state self.now).now.monitors reference))) }
    {
        self.state.objects.is_owner(thread, reference)
            && self.state.objects.monitor(reference).count() >= 65535
    }

    fn is_out_of_heap(&self, words: u64, limits: &Limits) -> bool
        ensures { IsTrue result ↔ (limits.now.heap < (machine_of C.state self.now).taken + (2 + words)) }
    {
        let room = (limits.heap as u64).saturating_sub(self.state.taken);
        room < 2 || room - 2 < words
    }

    fn is_out_of_numbers(&self, reference: u32) -> bool
        ensures { IsTrue result ↔ IsOutOfNumbers (machine_of C.state self.now) reference }
    {
        self.state.objects.has(reference)
            && self.state.objects.started(reference) == 0
            && !self.state.has_free_number()
    }

    fn lacks_number(&self, op: Op) -> bool
        ensures { IsTrue result ↔ LacksNumber (machine_of C.state self.now) op }
    {
        match op {
            Op::Start(reference, _) => self.is_out_of_numbers(reference),
            _ => false,
        }
    }

    /// Whether the thread has begun, and `advance` answers neither Waits nor Halts nor Ended for it.
    pub fn is_enabled(&self, thread: u8) -> bool
        ensures { IsTrue result ↔ MayAdvance C.code (machine_of C.state self.now) thread }
    {
        let Some(code) = self.state.live(thread) else {
            return false;
        };
        match code.next() {
            Next::Silent => true,
            Next::Want(op) => self.can_step(thread, op) || self.lacks_number(op),
            Next::Ended => false,
        }
    }

    // The limit that an operation meets.
    fn limit_of(&self, thread: u8, op: Op, limits: &Limits) -> Option<Limit>
        ensures { (l : C.State) → (machine_of C.state self.now).now.threads thread ≡ live l → MatchOption result
            ((limit : Limit) → OpMeets C.code (machine_of C.state self.now) thread l limits.now op limit → ⊥)
            (λ limit. OpMeets C.code (machine_of C.state self.now) thread l limits.now op limit) }
    {
        match op {
            Op::New(class, length)
                if self.is_out_of_heap(self.state.words_of(thread, class, length), limits) => Some(
                Limit::Heap,
            ),
            Op::Start(reference, _) if self.is_out_of_numbers(reference) => Some(Limit::Threads),
            Op::Enter(reference) if self.is_deep(thread, reference) => Some(Limit::Depth),
            _ => None,
        }
    }

    fn lowest_number(&self) -> u8
        requires { (n : ℕ) × IsFreeNumber (machine_of C.state self.now).now.threads n }
        ensures free { IsFreeNumber (machine_of C.state self.now).now.threads result }
        ensures lowest { (k : ℕ) → IsFreeNumber (machine_of C.state self.now).now.threads k → result ≤ k }
    {
        self.state.threads.free_number().unwrap_or(0)
    }

    fn choose_class(&self, thread: u8, reference: u32) -> Reply
        requires { CanStep (machine_of C.state self.now).now thread (Op.ClassOf reference) }
        ensures { MayAnswer (machine_of C.state self.now).now thread (Op.ClassOf reference) result }
    {
        match self.state.objects.get(reference) {
            Some(object) => Reply::Class(object.class, object.length),
            None => Reply::Class(0, 0),
        }
    }

    // The first reference and all words taken so far, where a new object can have that one.
    fn choose_object(&self, thread: u8, class: u32, length: u32) -> Option<Reply>
        ensures none { IfNone result (LacksReference (machine_of C.state self.now) (Op.New class length)) }
        ensures may { IfSome result (MayAnswer (machine_of C.state self.now).now thread (Op.New class length)) }
        ensures chosen { IfSome result (IsChosen (machine_of C.state self.now) (Op.New class length)) }
    {
        let reference = (self.state.first as u64).checked_add(self.state.taken)?;
        if reference == 0 || reference >= 0x1_0000_0000 {
            return None;
        }
        let reference = reference as u32;
        if self.state.objects.has(reference) {
            return None;
        }
        Some(Reply::Made(reference))
    }

    fn choose_start(&self, thread: u8, reference: u32, priority: u8) -> Reply
        requires { CanStep (machine_of C.state self.now).now thread (Op.Start reference priority) }
        ensures may { MayAnswer (machine_of C.state self.now).now thread (Op.Start reference priority) result }
        ensures chosen { IsChosen (machine_of C.state self.now) (Op.Start reference priority) result }
    {
        if self.state.objects.started(reference) > 0 {
            Reply::Already
        } else {
            Reply::Number(self.lowest_number())
        }
    }

    fn choose_init(&self, thread: u8, class: u32) -> Reply
        requires { CanStep (machine_of C.state self.now).now thread (Op.Init class) }
        ensures { MayAnswer (machine_of C.state self.now).now thread (Op.Init class) result }
    {
        match self.state.classes.get(class) {
            ClassProgress::Unready => Reply::Claimed,
            ClassProgress::Claimed(_) | ClassProgress::Ready => Reply::Ready,
            ClassProgress::Bad => Reply::Bad,
        }
    }

    fn choose_notified(&self, thread: u8, reference: u32) -> Reply
        ensures { MayAnswer (machine_of C.state self.now).now thread (Op.Notify reference) result }
    {
        if self.state.objects.is_owner(thread, reference) {
            Reply::Woken(self.state.threads.first_waiting(reference))
        } else {
            Reply::NotOwner
        }
    }

    fn done_by_owner(&self, thread: u8, reference: u32) -> Reply
        ensures exit { MayAnswer (machine_of C.state self.now).now thread (Op.Exit reference) result }
        ensures wait { MayAnswer (machine_of C.state self.now).now thread (Op.Wait reference) result }
    {
        if self.state.objects.is_owner(thread, reference) {
            Reply::Done
        } else {
            Reply::NotOwner
        }
    }

    // What the operation answers, a fixed one where there is a choice; `None` where no reference is left.
    fn choose(&self, thread: u8, op: Op) -> Option<Reply>
        requires { CanStep (machine_of C.state self.now).now thread op }
        ensures none { IfNone result (LacksReference (machine_of C.state self.now) op) }
        ensures may { IfSome result (MayAnswer (machine_of C.state self.now).now thread op) }
        ensures chosen { IfSome result (IsChosen (machine_of C.state self.now) op) }
    {
        match op {
            Op::ClassOf(reference) => Some(self.choose_class(thread, reference)),
            Op::Read(reference, place) => Some(Reply::Value(
                self.state.objects.word(reference, place),
            )),
            Op::New(class, length) => self.choose_object(thread, class, length),
            Op::Exit(reference) | Op::Wait(reference) => Some(self.done_by_owner(
                thread, reference,
            )),
            Op::Notify(reference) => Some(self.choose_notified(thread, reference)),
            Op::Start(reference, priority) => Some(self.choose_start(thread, reference, priority)),
            Op::Init(class) => Some(self.choose_init(thread, class)),
            Op::Write(_, _, _)
            | Op::Enter(_)
            | Op::Rewake(_)
            | Op::Print(_)
            | Op::Join(_)
            | Op::InitDone(_, _)
            | Op::End(_) => Some(Reply::Done),
        }
    }

    // Moves the thread to `code`, one silent step later.
    fn move_silently(&mut self, thread: u8, code: C) -> Result<(), NoMemory>
        requires { HasBegun ((machine_of C.state self.old).now.threads thread) }
        ensures ok { OnOk result (machine_of C.state self.new ≡ with_thread_at (machine_of C.state self.old) thread (live (C.state code)) (suc ((machine_of C.state self.old).silents thread))) }
        ensures err { OnErr result (machine_of C.state self.new ≡ machine_of C.state self.old) }
    {
        let silent = self
            .state
            .silent_steps(thread)
            .checked_add(1)
            .ok_or(NoMemory)?;
        self.state.put_thread(thread, Standing::Live(code), silent);
        Ok(())
    }

    // Makes the silent step of a thread on a copy of its code, without the saves: so it may end a frame that was on
    // top at one.
    fn leave_silently(&mut self, thread: u8, limits: &Limits) -> Result<Advance, NoMemory>
        requires begun { HasBegun ((machine_of C.state self.old).now.threads thread) }
        requires silent { (l : C.State) → (machine_of C.state self.old).now.threads thread ≡ live l → C.code.next l ≡ Next.Silent }
        ensures ok { IfOk result (λ advance. Advances C.code (machine_of C.state self.old) thread limits.now advance (machine_of C.state self.new)) }
        ensures err { OnErr result (machine_of C.state self.new ≡ machine_of C.state self.old) }
    {
        let Some(code) = self.state.live(thread) else {
            return Ok(Advance::Ended);
        };
        match after_silent_steps(code, 1)? {
            Some(code) => {
                self.move_silently(thread, code)?;
                Ok(Advance::Silent)
            }
            None => Ok(Advance::Spent(Limit::Frames)),
        }
    }

    // What comes of the silent step of a thread.
    fn try_silent(&mut self, thread: u8, limits: &Limits) -> Result<Advance, NoMemory>
        requires begun { HasBegun ((machine_of C.state self.old).now.threads thread) }
        requires silent { (l : C.State) → (machine_of C.state self.old).now.threads thread ≡ live l → C.code.next l ≡ Next.Silent }
        ensures ok { IfOk result (λ advance. Advances C.code (machine_of C.state self.old) thread limits.now advance (machine_of C.state self.new)) }
        ensures err { OnErr result (machine_of C.state self.new ≡ machine_of C.state self.old) }
    {
        match self.state.make_silent(thread) {
            Ok(true) => Ok(Advance::Silent),
            Ok(false) => self.leave_silently(thread, limits),
            Err(CodeStop::Frames) => Ok(Advance::Spent(Limit::Frames)),
            Err(CodeStop::NoMemory) => Err(NoMemory),
        }
    }

    // Makes the step of a thread that wants the operation, and gives what it is answered.
    fn answer(&mut self, thread: u8, op: Op) -> Result<Reply, NoMemory>
        requires wants { Wants C.code (machine_of C.state self.old) thread op }
        requires can { CanStep (machine_of C.state self.old).now thread op }
        ensures answered { IfOk result (MayAnswer (machine_of C.state self.old).now thread op) }
        ensures chosen { IfOk result (IsChosen (machine_of C.state self.old) op) }
        ensures leads { IfOk result (λ reply. (l : C.State) → (machine_of C.state self.old).now.threads thread ≡ live l
            → machine_of C.state self.new ≡ moved C.code (machine_of C.state self.old) thread l op reply) }
        ensures err { OnErr result (machine_of C.state self.new ≡ machine_of C.state self.old) }
    {
        let Some(reply) = self.choose(thread, op) else {
            return Err(NoMemory);
        };
        self.make(thread, op, reply)?;
        Ok(reply)
    }

    // What a Read answers, or `None` where it has no step: one look at the object decides.
    #[inline(always)]
    fn find_word(&self, thread: u8, reference: u32, place: u32) -> Option<Reply>
        ensures { MatchOption result (CanStep (machine_of C.state self.now).now thread (Op.Read reference place) → ⊥)
            (λ reply. IsGiven (machine_of C.state self.now).now thread (Op.Read reference place) reply) }
    {
        let word = self.state.objects.get(reference)?.words.get(place)?;
        Some(Reply::Value(word))
    }

    // What a ClassOf answers, or `None` where it has no step.
    #[inline(always)]
    fn find_class(&self, thread: u8, reference: u32) -> Option<Reply>
        ensures { MatchOption result (CanStep (machine_of C.state self.now).now thread (Op.ClassOf reference) → ⊥)
            (λ reply. IsGiven (machine_of C.state self.now).now thread (Op.ClassOf reference) reply) }
    {
        let object = self.state.objects.get(reference)?;
        Some(Reply::Class(object.class, object.length))
    }

    // What comes of a Read that a thread wants.
    #[inline(always)]
    fn make_read(&mut self, thread: u8, reference: u32, place: u32) -> OpOutcome
        requires { Wants C.code (machine_of C.state self.old) thread (Op.Read reference place) }
        ensures { MakesWanted C.code (machine_of C.state self.old) thread (Op.Read reference place) result (machine_of C.state self.new) }
    {
        match self.find_word(thread, reference, place) {
            Some(reply) => {
                self.state.reply_to(thread, reply);
                OpOutcome::Replied(reply)
            }
            None => OpOutcome::Waits,
        }
    }

    // What comes of a ClassOf that a thread wants.
    #[inline(always)]
    fn make_class(&mut self, thread: u8, reference: u32) -> OpOutcome
        requires { Wants C.code (machine_of C.state self.old) thread (Op.ClassOf reference) }
        ensures { MakesWanted C.code (machine_of C.state self.old) thread (Op.ClassOf reference) result (machine_of C.state self.new) }
    {
        match self.find_class(thread, reference) {
            Some(reply) => {
                self.state.reply_to(thread, reply);
                OpOutcome::Replied(reply)
            }
            None => OpOutcome::Waits,
        }
    }

    // What comes of a Write that a thread wants.
    #[inline(always)]
    fn make_write(&mut self, thread: u8, reference: u32, place: u32, value: u32) -> OpOutcome
        requires { Wants C.code (machine_of C.state self.old) thread (Op.Write reference place value) }
        ensures { MakesWanted C.code (machine_of C.state self.old) thread (Op.Write reference place value) result (machine_of C.state self.new) }
    {
        if self.state.write_word(reference, place, value) {
            self.state.reply_to(thread, Reply::Done);
            OpOutcome::Replied(Reply::Done)
        } else {
            OpOutcome::Waits
        }
    }

    // What comes of the operation that a thread wants, with one lookup where it reads or writes an object.
    #[inline(always)]
    fn make_wanted(&mut self, thread: u8, op: Op, limits: &Limits) -> Result<OpOutcome, NoMemory>
        requires { Wants C.code (machine_of C.state self.old) thread op }
        ensures ok { IfOk result (λ outcome. Advances C.code (machine_of C.state self.old) thread limits.now (answer_of thread ((machine_of C.state self.old).silents thread) op outcome) (machine_of C.state self.new)) }
        ensures err { OnErr result (machine_of C.state self.new ≡ machine_of C.state self.old) }
    {
        match op {
            Op::ClassOf(reference) => Ok(self.make_class(thread, reference)),
            Op::Read(reference, place) => Ok(self.make_read(thread, reference, place)),
            Op::Write(reference, place, value) => {
                Ok(self.make_write(thread, reference, place, value))
            }
            _ => self.make_other(thread, op, limits),
        }
    }

    // The same for any operation.
    fn make_other(&mut self, thread: u8, op: Op, limits: &Limits) -> Result<OpOutcome, NoMemory>
        requires { Wants C.code (machine_of C.state self.old) thread op }
        ensures ok { IfOk result (λ outcome. Advances C.code (machine_of C.state self.old) thread limits.now (answer_of thread ((machine_of C.state self.old).silents thread) op outcome) (machine_of C.state self.new)) }
        ensures err { OnErr result (machine_of C.state self.new ≡ machine_of C.state self.old) }
    {
        if let Some(limit) = self.limit_of(thread, op, limits) {
            return Ok(OpOutcome::Spent(limit));
        }
        if !self.can_step(thread, op) {
            return Ok(OpOutcome::Waits);
        }
        let reply = self.answer(thread, op)?;
        Ok(OpOutcome::Replied(reply))
    }

    /// Makes the next step of a thread that has begun, where it has one: a silent step, or that of the operation
    /// that it wants. Where there is a choice, a new object's reference is the first one and all words taken
    /// since, and a new thread's number the lowest. The event's silent number counts the Silent answers since
    /// the thread's last step. The machine is as before after any other answer, and after an error, which also
    /// comes where a count has no room for one more, and where no object can have that reference.
    pub fn advance(&mut self, thread: u8, limits: &Limits) -> Result<Advance, NoMemory>
        requires { HasBegun ((machine_of C.state self.old).now.threads thread) }
        ensures ok { IfOk result (λ advance. Advances C.code (machine_of C.state self.old) thread limits.now advance (machine_of C.state self.new)) }
        ensures err { OnErr result (machine_of C.state self.new ≡ machine_of C.state self.old) }
    {
        let Some(code) = self.state.live(thread) else {
            return Ok(Advance::Ended);
        };
        match code.next() {
            Next::Silent => self.try_silent(thread, limits),
            Next::Want(op) => {
                let silent = self.state.silent_steps(thread);
                let outcome = self.make_wanted(thread, op, limits)?;
                Ok(answer_of(thread, silent, op, outcome))
            }
            Next::Ended => Ok(Advance::Halts),
        }
    }

    // What comes of what a thread does next, whatever it is: apart, so that the callers of `make_headway` stay small.
    #[inline(never)]
    fn make_next(&mut self, thread: u8, next: Next, limits: &Limits) -> Result<Headway, NoMemory>
        requires begun { HasBegun ((machine_of C.state self.old).now.threads thread) }
        requires next { (l : C.State) × ((machine_of C.state self.old).now.threads thread ≡ live l) × (C.code.next l ≡ next) }
        ensures ok { IfOk result (λ headway. MakesHeadway C.code (machine_of C.state self.old) thread limits.now headway (machine_of C.state self.new)) }
        ensures err { OnErr result (machine_of C.state self.new ≡ machine_of C.state self.old) }
    {
        match next {
            Next::Silent => {
                let answer = self.try_silent(thread, limits)?;
                Ok(headway_of(answer))
            }
            Next::Want(op) => {
                let outcome = self.make_other(thread, op, limits)?;
                Ok(headway_of_outcome(outcome))
            }
            Next::Ended => Ok(Headway::Blocked),
        }
    }

    /// Makes the same step as `advance`, and returns no event of it: so a Read, a Write or a ClassOf takes less time.
    /// The machine stays as it was where no step was made, and after an error, which comes where `advance` has one.
    #[inline(always)]
    pub fn make_headway(&mut self, thread: u8, limits: &Limits) -> Result<Headway, NoMemory>
        requires { HasBegun ((machine_of C.state self.old).now.threads thread) }
        ensures ok { IfOk result (λ headway. MakesHeadway C.code (machine_of C.state self.old) thread limits.now headway (machine_of C.state self.new)) }
        ensures err { OnErr result (machine_of C.state self.new ≡ machine_of C.state self.old) }
    {
        let Some(code) = self.state.live(thread) else {
            return Ok(Headway::Blocked);
        };
        match code.next() {
            Next::Want(Op::Read(reference, place)) => {
                let outcome = self.make_read(thread, reference, place);
                Ok(headway_of_outcome(outcome))
            }
            Next::Want(Op::Write(reference, place, value)) => {
                let outcome = self.make_write(thread, reference, place, value);
                Ok(headway_of_outcome(outcome))
            }
            Next::Want(Op::ClassOf(reference)) => {
                let outcome = self.make_class(thread, reference);
                Ok(headway_of_outcome(outcome))
            }
            next => self.make_next(thread, next, limits),
        }
    }
}
