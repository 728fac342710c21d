//! Which operations have a step now, and which replies they may have.

ghost use Rattle.std.specs.Prelude.{◌≡◌, ◌↔◌, IsTrue};
ghost use Rattle.op_core.specs.OrdinaryStep.{CanStep, MayAnswer};
ghost use Rattle.machine_state.specs.Machine.{machine_in};

use crate::MachineState;
use machine_tables::ClassProgress;
use op_core::{Op, Reply, ThreadCode};

impl<C: ThreadCode + Drop> MachineState<C> {
    fn can_start(&self, thread: u8, reference: u32, priority: u8) -> bool
        ensures { IsTrue result ↔ CanStep (machine_in C.state self.now).now thread (Op.Start reference priority) }
    {
        self.objects.has(reference)
            && (self.objects.started(reference) > 0 || self.has_free_number())
    }

    fn can_join(&self, thread: u8, reference: u32) -> bool
        ensures { IsTrue result ↔ CanStep (machine_in C.state self.now).now thread (Op.Join reference) }
    {
        match self.objects.get(reference) {
            Some(object) => object.started == 0 || self.has_ended(object.started),
            None => false,
        }
    }

    fn can_rewake(&self, thread: u8, reference: u32) -> bool
        ensures { IsTrue result ↔ CanStep (machine_in C.state self.now).now thread (Op.Rewake reference) }
    {
        self.objects.has(reference)
            && self.threads.is_notified_for(reference, thread)
            && self.objects.is_free(reference)
    }

    fn can_enter(&self, thread: u8, reference: u32) -> bool
        ensures { IsTrue result ↔ CanStep (machine_in C.state self.now).now thread (Op.Enter reference) }
    {
        self.objects.has(reference) && self.objects.is_open_to(thread, reference)
    }

    fn can_init(&self, thread: u8, class: u32) -> bool
        ensures { IsTrue result ↔ CanStep (machine_in C.state self.now).now thread (Op.Init class) }
    {
        match self.classes.get(class) {
            ClassProgress::Claimed(owner) => owner == thread,
            _ => true,
        }
    }

    /// Whether a thread's operation has a step now.
    pub fn can_step(&self, thread: u8, op: Op) -> bool
        ensures { IsTrue result ↔ CanStep (machine_in C.state self.now).now thread op }
    {
        match op {
            Op::ClassOf(reference)
            | Op::Exit(reference)
            | Op::Wait(reference)
            | Op::Notify(reference) => { self.objects.has(reference) }
            Op::Read(reference, place) | Op::Write(reference, place, _) => {
                self.objects.has_word(reference, place)
            }
            Op::New(_, _) | Op::Print(_) | Op::InitDone(_, _) | Op::End(_) => true,
            Op::Enter(reference) => self.can_enter(thread, reference),
            Op::Rewake(reference) => self.can_rewake(thread, reference),
            Op::Start(reference, priority) => self.can_start(thread, reference, priority),
            Op::Join(reference) => self.can_join(thread, reference),
            Op::Init(class) => self.can_init(thread, class),
        }
    }

    fn answers_class(&self, thread: u8, reference: u32, reply: Reply) -> bool
        ensures { IsTrue result ↔ MayAnswer (machine_in C.state self.now).now thread (Op.ClassOf reference) reply }
    {
        match reply {
            Reply::Class(class, length) => self.objects.is_of_class(reference, class, length),
            _ => false,
        }
    }

    fn answers_value(&self, thread: u8, reference: u32, place: u32, reply: Reply) -> bool
        ensures { IsTrue result ↔ MayAnswer (machine_in C.state self.now).now thread (Op.Read reference place) reply }
    {
        match reply {
            Reply::Value(value) => value == self.objects.word(reference, place),
            _ => false,
        }
    }

    fn answers_object(&self, thread: u8, class: u32, length: u32, reply: Reply) -> bool
        ensures { IsTrue result ↔ MayAnswer (machine_in C.state self.now).now thread (Op.New class length) reply }
    {
        match reply {
            Reply::Made(reference) => reference > 0 && !self.objects.has(reference),
            _ => false,
        }
    }

    fn answers_owner(&self, thread: u8, reference: u32, reply: Reply) -> bool
        ensures exit { IsTrue result ↔ MayAnswer (machine_in C.state self.now).now thread (Op.Exit reference) reply }
        ensures wait { IsTrue result ↔ MayAnswer (machine_in C.state self.now).now thread (Op.Wait reference) reply }
    {
        match reply {
            Reply::Done => self.objects.is_owner(thread, reference),
            Reply::NotOwner => !self.objects.is_owner(thread, reference),
            _ => false,
        }
    }

    fn answers_notify(&self, thread: u8, reference: u32, reply: Reply) -> bool
        ensures { IsTrue result ↔ MayAnswer (machine_in C.state self.now).now thread (Op.Notify reference) reply }
    {
        match reply {
            Reply::Woken(woken) => {
                self.objects.is_owner(thread, reference)
                    && self.threads.is_first_waiting(reference, woken)
            }
            Reply::NotOwner => !self.objects.is_owner(thread, reference),
            _ => false,
        }
    }

    fn answers_start(&self, thread: u8, reference: u32, priority: u8, reply: Reply) -> bool
        ensures { IsTrue result ↔ MayAnswer (machine_in C.state self.now).now thread (Op.Start reference priority) reply }
    {
        match reply {
            Reply::Number(number) => self.objects.started(reference) == 0
                && self.is_free_number(number),
            Reply::Already => self.objects.started(reference) > 0,
            _ => false,
        }
    }

    fn answers_init(&self, thread: u8, class: u32, reply: Reply) -> bool
        ensures { IsTrue result ↔ MayAnswer (machine_in C.state self.now).now thread (Op.Init class) reply }
    {
        match self.classes.get(class) {
            ClassProgress::Unready => is_claimed(reply),
            ClassProgress::Claimed(owner) => owner == thread && is_ready(reply),
            ClassProgress::Ready => is_ready(reply),
            ClassProgress::Bad => is_bad(reply),
        }
    }

    /// Whether the step of an operation may answer this.
    pub fn may_answer(&self, thread: u8, op: Op, reply: Reply) -> bool
        ensures { IsTrue result ↔ MayAnswer (machine_in C.state self.now).now thread op reply }
    {
        match op {
            Op::ClassOf(reference) => self.answers_class(thread, reference, reply),
            Op::Read(reference, place) => self.answers_value(thread, reference, place, reply),
            Op::Write(_, _, _)
            | Op::Enter(_)
            | Op::Rewake(_)
            | Op::Print(_)
            | Op::Join(_)
            | Op::InitDone(_, _)
            | Op::End(_) => is_done(reply),
            Op::New(class, length) => self.answers_object(thread, class, length, reply),
            Op::Exit(reference) | Op::Wait(reference) => {
                self.answers_owner(thread, reference, reply)
            }
            Op::Notify(reference) => self.answers_notify(thread, reference, reply),
            Op::Start(reference, priority) => self.answers_start(
                thread, reference, priority, reply,
            ),
            Op::Init(class) => self.answers_init(thread, class, reply),
        }
    }
}

fn is_done(reply: Reply) -> bool
    ensures { IsTrue result ↔ (reply ≡ Reply.Done) }
{
    match reply {
        Reply::Done => true,
        _ => false,
    }
}

fn is_claimed(reply: Reply) -> bool
    ensures { IsTrue result ↔ (reply ≡ Reply.Claimed) }
{
    match reply {
        Reply::Claimed => true,
        _ => false,
    }
}

fn is_ready(reply: Reply) -> bool
    ensures { IsTrue result ↔ (reply ≡ Reply.Ready) }
{
    match reply {
        Reply::Ready => true,
        _ => false,
    }
}

fn is_bad(reply: Reply) -> bool
    ensures { IsTrue result ↔ (reply ≡ Reply.Bad) }
{
    match reply {
        Reply::Bad => true,
        _ => false,
    }
}
