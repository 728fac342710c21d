//! The step of each operation, made with a reply that it may have.

ghost use Rattle.std.specs.Prelude.{◌≡◌, ℕ, Option, OnOk, OnErr};
ghost use Rattle.op_core.specs.OrdinaryState.{live};
ghost use Rattle.op_core.specs.OrdinaryStep.{CanStep, MayAnswer};
ghost use Rattle.ordinary_machine.specs.Machine.{machine_of, shared_after, moved, woken_of, HasBegun, Wants};
ghost use Rattle.ordinary_machine.specs.Step.{IsLive};

use crate::Ordinary;
use machine_tables::{ClassProgress, MonitorState, Standing, WaitState};
use op_core::{Next, NoMemory, Op, Reply, ThreadCode};

// The thread that was notified, or 0.
fn woken_in(reply: Reply) -> u8
    ensures { result ≡ woken_of reply }
{
    match reply {
        Reply::Woken(thread) => thread,
        _ => 0,
    }
}

impl<C: ThreadCode + Drop> Ordinary<C> {
    fn make_object(
        &mut self,
        thread: u8,
        class: u32,
        length: u32,
        reply: Reply,
    ) -> Result<(), NoMemory>
        requires { MayAnswer (machine_of C.state self.old).now thread (Op.New class length) reply }
        ensures ok { OnOk result ((l : C.State) → (machine_of C.state self.old).now.threads thread ≡ live l
            → machine_of C.state self.new ≡ shared_after C.code (machine_of C.state self.old) thread l (Op.New class length) reply) }
        ensures err { OnErr result (machine_of C.state self.new ≡ machine_of C.state self.old) }
    {
        match reply {
            Reply::Made(reference) => {
                let count = self.state.words_of(thread, class, length);
                self.state.put_object(reference, class, length, count)
            }
            _ => Ok(()),
        }
    }

    fn enter(&mut self, thread: u8, reference: u32, reply: Reply) -> Result<(), NoMemory>
        requires can { CanStep (machine_of C.state self.old).now thread (Op.Enter reference) }
        requires answered { MayAnswer (machine_of C.state self.old).now thread (Op.Enter reference) reply }
        ensures ok { OnOk result ((l : C.State) → machine_of C.state self.new ≡ shared_after C.code (machine_of C.state self.old) thread l (Op.Enter reference) reply) }
        ensures err { OnErr result (machine_of C.state self.new ≡ machine_of C.state self.old) }
    {
        match self.state.objects.monitor(reference).entered(thread) {
            Some(monitor) => {
                self.state.put_monitor(reference, monitor);
                Ok(())
            }
            None => Err(NoMemory),
        }
    }

    fn exit(&mut self, thread: u8, reference: u32, reply: Reply)
        requires can { CanStep (machine_of C.state self.old).now thread (Op.Exit reference) }
        requires answered { MayAnswer (machine_of C.state self.old).now thread (Op.Exit reference) reply }
        ensures { (l : C.State) → machine_of C.state self.new ≡ shared_after C.code (machine_of C.state self.old) thread l (Op.Exit reference) reply }
    {
        if self.state.objects.is_owner(thread, reference) {
            let monitor = self.state.objects.monitor(reference).exited();
            self.state.put_monitor(reference, monitor);
        }
    }

    fn wait(&mut self, thread: u8, reference: u32, reply: Reply)
        requires begun { HasBegun ((machine_of C.state self.old).now.threads thread) }
        requires can { CanStep (machine_of C.state self.old).now thread (Op.Wait reference) }
        requires answered { MayAnswer (machine_of C.state self.old).now thread (Op.Wait reference) reply }
        ensures { (l : C.State) → machine_of C.state self.new ≡ shared_after C.code (machine_of C.state self.old) thread l (Op.Wait reference) reply }
    {
        if self.state.objects.is_owner(thread, reference) {
            let count = self.state.objects.monitor(reference).count();
            self.state
                .put_waiting(thread, WaitState::Waits(reference, count));
            self.state.put_monitor(reference, MonitorState::Free);
        }
    }

    fn rewake(&mut self, thread: u8, reference: u32, reply: Reply)
        requires begun { HasBegun ((machine_of C.state self.old).now.threads thread) }
        requires can { CanStep (machine_of C.state self.old).now thread (Op.Rewake reference) }
        requires answered { MayAnswer (machine_of C.state self.old).now thread (Op.Rewake reference) reply }
        ensures { (l : C.State) → machine_of C.state self.new ≡ shared_after C.code (machine_of C.state self.old) thread l (Op.Rewake reference) reply }
    {
        let count = self.state.threads.waiting(thread).saved_count();
        self.state.put_waiting(thread, WaitState::Awake);
        self.state
            .put_monitor(reference, MonitorState::Held(thread, count));
    }

    fn notify(&mut self, thread: u8, reference: u32, reply: Reply)
        requires { MayAnswer (machine_of C.state self.old).now thread (Op.Notify reference) reply }
        ensures { (l : C.State) → machine_of C.state self.new ≡ shared_after C.code (machine_of C.state self.old) thread l (Op.Notify reference) reply }
    {
        let woken = woken_in(reply);
        if woken > 0 {
            let waiting = self.state.threads.waiting(woken).notified();
            self.state.put_waiting(woken, waiting);
        }
    }

    fn init(&mut self, thread: u8, class: u32, reply: Reply) -> Result<(), NoMemory>
        requires { MayAnswer (machine_of C.state self.old).now thread (Op.Init class) reply }
        ensures ok { OnOk result ((l : C.State) → machine_of C.state self.new ≡ shared_after C.code (machine_of C.state self.old) thread l (Op.Init class) reply) }
        ensures err { OnErr result (machine_of C.state self.new ≡ machine_of C.state self.old) }
    {
        if self.state.classes.is_unready(class) {
            self.state.put_class(class, ClassProgress::Claimed(thread))
        } else {
            Ok(())
        }
    }

    fn init_done(
        &mut self,
        thread: u8,
        class: u32,
        well: bool,
        reply: Reply,
    ) -> Result<(), NoMemory>
        requires { MayAnswer (machine_of C.state self.old).now thread (Op.InitDone class well) reply }
        ensures ok { OnOk result ((l : C.State) → machine_of C.state self.new ≡ shared_after C.code (machine_of C.state self.old) thread l (Op.InitDone class well) reply) }
        ensures err { OnErr result (machine_of C.state self.new ≡ machine_of C.state self.old) }
    {
        if well {
            self.state.put_class(class, ClassProgress::Ready)
        } else {
            self.state.put_class(class, ClassProgress::Bad)
        }
    }

    // All that the operation changes, except where threads are.
    fn share(&mut self, thread: u8, op: Op, reply: Reply) -> Result<(), NoMemory>
        requires begun { HasBegun ((machine_of C.state self.old).now.threads thread) }
        requires can { CanStep (machine_of C.state self.old).now thread op }
        requires answered { MayAnswer (machine_of C.state self.old).now thread op reply }
        requires no_number { (r p n : ℕ) → op ≡ Op.Start r p → reply ≡ Reply.Number n → ⊥ }
        ensures ok { OnOk result ((l : C.State) → (machine_of C.state self.old).now.threads thread ≡ live l
            → machine_of C.state self.new ≡ shared_after C.code (machine_of C.state self.old) thread l op reply) }
        ensures err { OnErr result (machine_of C.state self.new ≡ machine_of C.state self.old) }
    {
        match op {
            Op::Write(reference, place, value) => self.state.put_word(reference, place, value),
            Op::New(class, length) => self.make_object(thread, class, length, reply)?,
            Op::Enter(reference) => self.enter(thread, reference, reply)?,
            Op::Exit(reference) => self.exit(thread, reference, reply),
            Op::Wait(reference) => self.wait(thread, reference, reply),
            Op::Rewake(reference) => self.rewake(thread, reference, reply),
            Op::Notify(reference) => self.notify(thread, reference, reply),
            Op::Print(line) => self.state.put_line(line)?,
            Op::Init(class) => self.init(thread, class, reply)?,
            Op::InitDone(class, well) => self.init_done(thread, class, well, reply)?,
            Op::ClassOf(_) | Op::Read(_, _) | Op::Start(_, _) | Op::Join(_) | Op::End(_) => {}
        }
        Ok(())
    }

    fn begin(
        &mut self,
        thread: u8,
        reference: u32,
        priority: u8,
        number: u8,
    ) -> Result<(), NoMemory>
        requires wants { Wants C.code (machine_of C.state self.old) thread (Op.Start reference priority) }
        requires can { CanStep (machine_of C.state self.old).now thread (Op.Start reference priority) }
        requires answered { MayAnswer (machine_of C.state self.old).now thread (Op.Start reference priority) (Reply.Number number) }
        ensures ok { OnOk result ((l : C.State) → (machine_of C.state self.old).now.threads thread ≡ live l
            → machine_of C.state self.new ≡ moved C.code (machine_of C.state self.old) thread l (Op.Start reference priority) (Reply.Number number)) }
        ensures err { OnErr result (machine_of C.state self.new ≡ machine_of C.state self.old) }
    {
        let child = self.state.child_of(thread, reference)?;
        self.state.put_new_thread(number, child)?;
        self.state.put_started(reference, number);
        self.state.reply_to(thread, Reply::Number(number));
        Ok(())
    }

    fn go_on(&mut self, thread: u8, op: Op, reply: Reply) -> Result<(), NoMemory>
        requires wants { Wants C.code (machine_of C.state self.old) thread op }
        requires can { CanStep (machine_of C.state self.old).now thread op }
        requires answered { MayAnswer (machine_of C.state self.old).now thread op reply }
        requires no_number { (r p n : ℕ) → op ≡ Op.Start r p → reply ≡ Reply.Number n → ⊥ }
        requires no_end { (x : Option ℕ) → op ≡ Op.End x → ⊥ }
        ensures ok { OnOk result ((l : C.State) → (machine_of C.state self.old).now.threads thread ≡ live l
            → machine_of C.state self.new ≡ moved C.code (machine_of C.state self.old) thread l op reply) }
        ensures err { OnErr result (machine_of C.state self.new ≡ machine_of C.state self.old) }
    {
        self.share(thread, op, reply)?;
        self.state.reply_to(thread, reply);
        Ok(())
    }

    /// Makes the step of the operation that a thread wants, with a reply that it may have. Without memory nothing
    /// changes.
    pub(crate) fn make(&mut self, thread: u8, op: Op, reply: Reply) -> Result<(), NoMemory>
        requires wants { Wants C.code (machine_of C.state self.old) thread op }
        requires can { CanStep (machine_of C.state self.old).now thread op }
        requires answered { MayAnswer (machine_of C.state self.old).now thread op reply }
        ensures ok { OnOk result ((l : C.State) → (machine_of C.state self.old).now.threads thread ≡ live l
            → machine_of C.state self.new ≡ moved C.code (machine_of C.state self.old) thread l op reply) }
        ensures err { OnErr result (machine_of C.state self.new ≡ machine_of C.state self.old) }
    {
        match op {
            Op::End(class) => {
                self.state.put_thread(thread, Standing::Ended(class), 0);
                Ok(())
            }
            Op::Start(reference, priority) => match reply {
                Reply::Number(number) => self.begin(thread, reference, priority, number),
                _ => self.go_on(thread, op, reply),
            },
            _ => self.go_on(thread, op, reply),
        }
    }

    /// The same for a thread that wants the operation at `code`, where it comes by silent steps.
    pub(crate) fn make_at(
        &mut self,
        thread: u8,
        code: C,
        op: Op,
        reply: Reply,
    ) -> Result<(), NoMemory>
        requires live { IsLive (machine_of C.state self.old).now thread }
        requires wanted { C.code.next (C.state code) ≡ Next.Want op }
        requires can { CanStep (machine_of C.state self.old).now thread op }
        requires answered { MayAnswer (machine_of C.state self.old).now thread op reply }
        ensures ok { OnOk result (machine_of C.state self.new ≡ moved C.code (machine_of C.state self.old) thread (C.state code) op reply) }
        ensures err { OnErr result (machine_of C.state self.new ≡ machine_of C.state self.old) }
    {
        let silent = self.state.silent_steps(thread);
        let Some(before) = self.state.swap_standing(thread, Standing::Live(code)) else {
            return Err(NoMemory);
        };
        match self.make(thread, op, reply) {
            Ok(()) => Ok(()),
            Err(error) => {
                self.state.put_thread(thread, before, silent);
                Err(error)
            }
        }
    }
}
