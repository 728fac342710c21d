//! A thread of a Java program.

ghost use Rattle.std.specs.Prelude.{◌≡◌, true, None, Some, [], IfOk, IfSome, IsSome, IsTrue};
ghost use Rattle.java_rows.specs.Thread.{first_state, java_code};
ghost use Rattle.frame_snapshot.specs.declared.todo.Todo.{Todo};
ghost use Rattle.op_core.specs.declared.Op.{Op};
ghost use Rattle.op_core.specs.declared.Next.{Next as nexts};
ghost use Rattle.op_core.specs.Hosted.{IsLedTo, MayBeAsked};
ghost use Rattle.op_core.specs.Replies.{FitsNext};
ghost use Rattle.interp_plans.specs.Todos.{plan_at, plan_of};
ghost use Rattle.interp_plans.specs.Uses.{frame_of};
ghost use Rattle.interp_texts.specs.Told.{HasRoomNow, has_room-prop};
ghost use Rattle.interp_calls.specs.Hosted.{HostedTo};
ghost use Rattle.interp_calls.specs.Local.{stands_in};

use crate::behind::go_on_behind;
use crate::hosted::run_answered;
use crate::running::run;
use crate::silent::{leaves_outside, next_outside, silent_outside};
use crate::texts::{reply_inside, reply_outside, silent_inside};
use builtin_world::number::THREAD;
use frame_snapshot::{CallSite, Caller, FrameStage, Frames, Then, Todo};
use interp_plans::{Here, JavaProgram};
use interp_texts::TextRun;
use link_types::MethodId;
use op_core::{CodeStop, Next, NoMemory, Op, OpHost, Reply, ThreadCode};
use std::alloc::Global;

/// `run` of Thread.
const THREAD_RUN: MethodId = MethodId {
    class: THREAD,
    method: 3,
};

/// A thread of a Java program: its own object, its frames, and what is saved of them.
#[derive(Drop)]
pub struct JavaCode<'p, P> {
    alloc: Global,
    program: &'p P,
    thread: u32,
    frames: Frames,
    texts: TextRun,
    /// The call that `texts` goes through, where the thread is inside a method that reads or makes texts.
    text: Option<CallSite>,
    ghost stands: { IsTrue (stands_in text frames.here.stage) },
    ghost room: { HasRoomNow texts } by { has_room-prop texts },
}

impl<'p, P: JavaProgram> JavaCode<'p, P> {
    ghost use Rattle.interp_calls.specs.Local.{local_of, saved_locals, state_over};

    /// Thread 1, which initializes the class of a method and then calls it with an empty array of arguments.
    pub fn main(alloc: Global, program: &'p P, main: MethodId) -> Result<Self, NoMemory>
        ensures state { IfOk result (λ code. state_over (P.units code.program.now) code.thread code.frames code.texts code.text ≡ first_state (P.units program.now) main) }
        ensures saved { IfOk result (λ code. saved_locals (P.units code.program.now) code.thread code.frames ≡ []) }
    {
        let thread = program.main_thread();
        let mut frames = Frames::launch(alloc, main, FrameStage::Begun, 1)?;
        frames.push_word(program.arguments());
        let here = Here {
            program,
            thread,
            frames: &frames,
        };
        let todo = here.ask(Caller::Launch, 0);
        frames.set_stage(FrameStage::Inside(todo));
        Ok(JavaCode {
            alloc,
            program,
            thread,
            frames,
            texts: TextRun::new(alloc),
            text: None,
        })
    }

    // What the thread does next, where that has to be found.
    fn find_next(&self) -> Next
        ensures { result ≡ java_code.next (state_over (P.units self.now.program.now) self.now.thread self.now.frames self.now.texts self.now.text) }
    {
        match self.text {
            Some(_) => self.texts.next(),
            None => next_outside(self.program, self.thread, &self.frames),
        }
    }

    // What follows the reply to the operation that is wanted, where that is kept.
    #[inline(always)]
    #[tactic(auto, using(crate::proofs::TextLemmas::inside_none))]
    fn kept_then(&self) -> Option<Then>
        ensures kept { IfSome result (λ then. (op : Op) × (plan_at (P.units self.now.program.now) self.now.thread (frame_of self.now.frames.here) self.now.frames.here.stage
            ≡ plan_of (P.units self.now.program.now) self.now.thread (frame_of self.now.frames.here) (Todo.Wants op then))) }
        ensures outside { IsSome result → self.now.text ≡ None }
    {
        match self.frames.stage_here() {
            FrameStage::Inside(Todo::Wants(_, then)) => Some(*then),
            _ => None,
        }
    }

    // Goes on with the reply to an operation, given what follows it.
    #[inline(always)]
    fn go_on_with(&mut self, then: Then, reply: Reply)
        requires { self.old.text ≡ None }
        ensures program { self.new.program ≡ self.old.program }
        ensures thread { self.new.thread ≡ self.old.thread }
        ensures text { self.new.text ≡ None }
        ensures state { (op : Op) → plan_at (P.units self.old.program.now) self.old.thread (frame_of self.old.frames.here) self.old.frames.here.stage
            ≡ plan_of (P.units self.old.program.now) self.old.thread (frame_of self.old.frames.here) (Todo.Wants op then)
            → local_of (P.units self.old.program.now) self.old.thread self.new.frames ≡ java_code.reply (local_of (P.units self.old.program.now) self.old.thread self.old.frames) reply }
        ensures saves { self.new.frames.saves ≡ self.old.frames.saves }
    {
        go_on_behind(self.program, self.thread, &mut self.frames, then, reply);
    }

    // The same where what follows has to be found.
    fn find_reply(&mut self, reply: Reply)
        requires { FitsNext (java_code.next (state_over (P.units self.old.program.now) self.old.thread self.old.frames self.old.texts self.old.text)) reply }
        ensures program { self.new.program ≡ self.old.program }
        ensures thread { self.new.thread ≡ self.old.thread }
        ensures state { state_over (P.units self.old.program.now) self.old.thread self.new.frames self.new.texts self.new.text
            ≡ java_code.reply (state_over (P.units self.old.program.now) self.old.thread self.old.frames self.old.texts self.old.text) reply }
        ensures saves { self.new.frames.saves ≡ self.old.frames.saves }
    {
        let (program, thread) = (self.program, self.thread);
        match self.text {
            Some(site) => {
                self.text = reply_inside(
                    program,
                    thread,
                    &mut self.frames,
                    &mut self.texts,
                    site,
                    reply,
                );
            }
            None => {
                self.text = reply_outside(
                    program,
                    thread,
                    &mut self.frames,
                    &mut self.texts,
                    reply,
                );
            }
        }
    }

    // Goes on by many steps at once, where the thread is at the beginning of an instruction, and does nothing elsewhere. `false`
    // where the host may have declined what the thread wants.
    #[inline(always)]
    #[tactic(auto, using(crate::proofs::TextLemmas::begun_none, crate::proofs::TextLemmas::outside_is))]
    fn go_on_answered<H: OpHost>(&mut self, host: &mut H, most: u64) -> bool
        requires may { MayBeAsked java_code (saved_locals (P.units self.old.program.now) self.old.thread self.old.frames) H.passes H.answers H.may
            (state_over (P.units self.old.program.now) self.old.thread self.old.frames self.old.texts self.old.text) host.old }
        ensures led { IsLedTo java_code (saved_locals (P.units self.old.program.now) self.old.thread self.old.frames) H.passes H.answers H.declines
            (state_over (P.units self.old.program.now) self.old.thread self.old.frames self.old.texts self.old.text) host.old
            (state_over (P.units self.new.program.now) self.new.thread self.new.frames self.new.texts self.new.text) host.new }
        ensures on { result ≡ true → HostedTo (saved_locals (P.units self.old.program.now) self.old.thread self.old.frames) H.passes H.answers
            (state_over (P.units self.old.program.now) self.old.thread self.old.frames self.old.texts self.old.text) host.old
            (state_over (P.units self.new.program.now) self.new.thread self.new.frames self.new.texts self.new.text) host.new }
        ensures saved { saved_locals (P.units self.new.program.now) self.new.thread self.new.frames
            ≡ saved_locals (P.units self.old.program.now) self.old.thread self.old.frames }
    {
        match self.frames.stage_here() {
            FrameStage::Begun => run_answered(
                self.program,
                self.thread,
                &mut self.frames,
                host,
                most,
            ),
            _ => true,
        }
    }

    // Makes the silent step that comes next, unless the host has no room for it, it would end a frame that was on top at a save,
    // or it fails. Says whether it made it.
    fn pass_silent<H: OpHost>(&mut self, host: &mut H) -> bool
        requires { java_code.next (state_over (P.units self.old.program.now) self.old.thread self.old.frames self.old.texts self.old.text) ≡ nexts.Silent }
        ensures led { HostedTo (saved_locals (P.units self.old.program.now) self.old.thread self.old.frames) H.passes H.answers
            (state_over (P.units self.old.program.now) self.old.thread self.old.frames self.old.texts self.old.text) host.old
            (state_over (P.units self.new.program.now) self.new.thread self.new.frames self.new.texts self.new.text) host.new }
        ensures saved { saved_locals (P.units self.new.program.now) self.new.thread self.new.frames
            ≡ saved_locals (P.units self.old.program.now) self.old.thread self.old.frames }
    {
        if host.room() == 0 || self.leaves() {
            return false;
        }
        match self.silent() {
            Ok(()) => {
                host.pass(1);
                true
            }
            Err(_) => false,
        }
    }

    // Makes silent steps, and then asks the host the operation that comes next, or makes one more silent step. After an answer it
    // goes on by many steps at once. `false` also where the host may have declined what the thread wants.
    #[inline(always)]
    fn ask_next<H: OpHost>(&mut self, host: &mut H, most: u64) -> bool
        requires may { MayBeAsked java_code (saved_locals (P.units self.old.program.now) self.old.thread self.old.frames) H.passes H.answers H.may
            (state_over (P.units self.old.program.now) self.old.thread self.old.frames self.old.texts self.old.text) host.old }
        ensures led { IsLedTo java_code (saved_locals (P.units self.old.program.now) self.old.thread self.old.frames) H.passes H.answers H.declines
            (state_over (P.units self.old.program.now) self.old.thread self.old.frames self.old.texts self.old.text) host.old
            (state_over (P.units self.new.program.now) self.new.thread self.new.frames self.new.texts self.new.text) host.new }
        ensures on { result ≡ true → HostedTo (saved_locals (P.units self.old.program.now) self.old.thread self.old.frames) H.passes H.answers
            (state_over (P.units self.old.program.now) self.old.thread self.old.frames self.old.texts self.old.text) host.old
            (state_over (P.units self.new.program.now) self.new.thread self.new.frames self.new.texts self.new.text) host.new }
        ensures saved { saved_locals (P.units self.new.program.now) self.new.thread self.new.frames
            ≡ saved_locals (P.units self.old.program.now) self.old.thread self.old.frames }
    {
        let made = self.run_silent(host.room());
        host.pass(made);
        match self.next() {
            Next::Want(op) => match host.ask(op) {
                Some(reply) => {
                    self.reply(reply);
                    self.go_on_answered(host, most)
                }
                None => false,
            },
            Next::Silent => self.pass_silent(host),
            Next::Ended => false,
        }
    }
}

impl<'p, P: JavaProgram> ThreadCode for JavaCode<'p, P> {
    ghost use Rattle.java_rows.specs.Thread.{Local, java_code};
    ghost use Rattle.interp_calls.specs.Local.{saved_locals, state_over};

    ghost State = { Local };

    ghost code = { java_code };

    ghost state = { λ c. state_over (P.units c.program.now) c.thread c.frames c.texts c.text };

    ghost saved = { λ c. saved_locals (P.units c.program.now) c.thread c.frames };

    #[inline(always)]
    #[tactic(auto, using(crate::proofs::TextLemmas::wants_next))]
    fn next(&self) -> Next {
        // Frequent operations are read part by part: as a whole they would wait for the parts that were just written.
        match self.frames.stage_here() {
            FrameStage::Inside(Todo::Wants(Op::Read(object, place), _)) => {
                Next::Want(Op::Read(*object, *place))
            }
            FrameStage::Inside(Todo::Wants(Op::Write(object, place, word), _)) => {
                Next::Want(Op::Write(*object, *place, *word))
            }
            FrameStage::Inside(Todo::Wants(Op::ClassOf(object), _)) => Next::Want(Op::ClassOf(
                *object,
            )),
            FrameStage::Inside(Todo::Wants(op, _)) => Next::Want(*op),
            _ => self.find_next(),
        }
    }

    fn silent(&mut self) -> Result<(), CodeStop> {
        let (program, thread) = (self.program, self.thread);
        match self.text {
            Some(site) => {
                self.text = silent_inside(
                    self.alloc,
                    program,
                    thread,
                    &mut self.frames,
                    &mut self.texts,
                    site,
                )?;
                self.frames.has_few();
            }
            None => silent_outside(program, thread, &mut self.frames)?,
        }
        Ok(())
    }

    #[tactic(auto, using(crate::proofs::TextLemmas::begun_none, crate::proofs::TextLemmas::outside_is))]
    fn run_silent(&mut self, most: u64) -> u64 {
        match self.frames.stage_here() {
            FrameStage::Begun => run(self.program, self.thread, &mut self.frames, most),
            _ => 0,
        }
    }

    fn run_with<H: OpHost>(&mut self, host: &mut H, most: u64) {
        for _asked in 0..most {
            if !self.ask_next(host, most) {
                return;
            }
        }
    }

    #[tactic(auto, using(crate::proofs::TextLemmas::outside_is))]
    fn reply(&mut self, reply: Reply) {
        match self.kept_then() {
            Some(then) => self.go_on_with(then, reply),
            None => self.find_reply(reply),
        }
    }

    #[tactic(auto, using(crate::proofs::TextLemmas::enters_outside, crate::proofs::TextLemmas::outside_is))]
    fn save(&mut self) -> Result<(), NoMemory> {
        self.frames.save()?;
        Ok(())
    }

    fn restore(&mut self) {
        if self.frames.has_saves() {
            self.text = None;
            self.frames.restore();
        }
    }

    fn drop_save(&mut self) {
        if self.frames.has_saves() {
            self.frames.drop_save();
        }
    }

    #[tactic(auto, using(crate::proofs::TextLemmas::text_stays, crate::proofs::TextLemmas::outside_is))]
    fn leaves(&self) -> bool {
        match self.text {
            Some(_) => false,
            None => leaves_outside(self.program, self.thread, &self.frames),
        }
    }

    fn child(&self, object: u32) -> Result<Self, NoMemory> {
        let site = CallSite {
            caller: Caller::Launch,
            operands: 1,
        };
        let then = Then::Selects {
            method: THREAD_RUN,
            site,
        };
        let stage = FrameStage::Inside(Todo::Wants(Op::ClassOf(object), then));
        let mut frames = Frames::launch(self.alloc, THREAD_RUN, stage, 1)?;
        frames.push_word(object);
        Ok(JavaCode {
            alloc: self.alloc,
            program: self.program,
            thread: object,
            frames,
            texts: TextRun::new(self.alloc),
            text: None,
        })
    }

    #[tactic(auto, using(crate::proofs::TextLemmas::copies_same, crate::proofs::TextLemmas::outside_is))]
    fn copy(&self) -> Result<Self, NoMemory> {
        let frames = self.frames.copy(self.alloc)?;
        let texts = match self.text {
            Some(_) => self.texts.copy(self.alloc)?,
            None => TextRun::new(self.alloc),
        };
        Ok(JavaCode {
            alloc: self.alloc,
            program: self.program,
            thread: self.thread,
            frames,
            texts,
            text: self.text,
        })
    }

    fn words(&self, class: u32, length: u32) -> u64 {
        self.program.words(class, length)
    }
}
