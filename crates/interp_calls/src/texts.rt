//! Methods that read or make texts.

ghost use Rattle.std.specs.Prelude.{◌≡◌, ◌≢◌, Some, IsTrue, OnOk, OnErr, IfOk};
ghost use Rattle.op_core.specs.declared.Next.{Next as nexts};
ghost use Rattle.op_core.specs.Replies.{FitsNext};
ghost use Rattle.java_rows.specs.Thread.{java_code, settled};
ghost use Rattle.text_stages.specs.Stages.{reached_plan};
ghost use Rattle.interp_plans.specs.Jobs.{job_of};
ghost use Rattle.interp_plans.specs.Todos.{plan_reached};
ghost use Rattle.interp_plans.specs.Uses.{frame_of, use_at};
ghost use Rattle.interp_texts.specs.declared.run.TextReached.{TextReached};
ghost use Rattle.interp_texts.specs.declared.run.TextRun.{TextRun};
ghost use Rattle.interp_texts.specs.Told.{told, HasRoomNow};
ghost use Rattle.text_stages.specs.Stages as stages;
ghost use Rattle.interp_calls.specs.Local.{local_of, stands_in, state_over, waiting_below};

use crate::apply::{apply, todo_of};
use crate::behind::go_on_behind_any;
use frame_snapshot::{CallSite, FrameStage, Frames, Todo, Value};
use interp_plans::{Here, JavaProgram, Reached};
use interp_texts::{TextReached, TextRun};
use op_core::{NoMemory, Reply};
use std::alloc::Global;

// What the end of a method leads to.
fn ended<P: JavaProgram>(here: &Here<'_, P>, site: CallSite, reached: TextReached) -> Reached
    ensures { (job : stages.TextJob) (run : TextRun) → reached ≢ TextReached.Stands
        → reached_plan (P.units here.now.program.now) (use_at (frame_of here.now.frames.now.here) site) job (told (P.units here.now.program.now) reached run)
        ≡ plan_reached (P.units here.now.program.now) here.now.thread (frame_of here.now.frames.now.here) result }
{
    match reached {
        TextReached::Answers => here.value(site, Value::None),
        TextReached::AnswersWord(word) => here.value(site, Value::Word(word)),
        TextReached::Breaks(class) => Reached::Goes(here.raise(site, class)),
        TextReached::Stands | TextReached::Lost => Reached::Goes(Todo::Stuck),
    }
}

// Goes on with what a reply or a silent step led to, and answers the call if the thread is still inside the method.
#[tactic(auto, using(text_stages::proofs::StandLaws::stages_stand))]
fn go_on_inside<P: JavaProgram>(
    program: &P,
    thread: u32,
    frames: &mut Frames,
    texts: &TextRun,
    site: CallSite,
    reached: TextReached,
) -> Option<CallSite>
    ensures state { state_over (P.units program.now) thread frames.new texts.now result
        ≡ settled (P.units program.now) thread (reached_plan (P.units program.now) (use_at (frame_of frames.old.here) site) (job_of texts.now.job) (told (P.units program.now) reached texts.now)) (waiting_below (P.units program.now) thread frames.old.below) }
    ensures saves { frames.new.saves ≡ frames.old.saves }
    ensures stands { IsTrue (stands_in result frames.new.here.stage) }
{
    if let TextReached::Stands = reached {
        frames.set_stage(FrameStage::Text);
        return Some(site);
    }
    let here = Here {
        program,
        thread,
        frames,
    };
    let reached = ended(&here, site, reached);
    apply(program, thread, frames, reached);
    None
}

/// A thread that is inside a method, the call at a site, goes on with a reply. Answers the call if it is still inside
/// afterwards. Takes no memory.
#[tactic(auto, using(crate::proofs::TextLemmas::reply_leads))]
pub fn reply_inside<P: JavaProgram>(
    program: &P,
    thread: u32,
    frames: &mut Frames,
    texts: &mut TextRun,
    site: CallSite,
    reply: Reply,
) -> Option<CallSite>
    requires fits { FitsNext (java_code.next (state_over (P.units program.now) thread frames.old texts.old (Some site))) reply }
    requires room { HasRoomNow texts.old }
    ensures state { state_over (P.units program.now) thread frames.new texts.new result
        ≡ java_code.reply (state_over (P.units program.now) thread frames.old texts.old (Some site)) reply }
    ensures saves { frames.new.saves ≡ frames.old.saves }
    ensures stands { IsTrue (stands_in result frames.new.here.stage) }
    ensures room { HasRoomNow texts.new }
{
    let reached = texts.reply(program, reply);
    go_on_inside(program, thread, frames, texts, site, reached)
}

/// A thread that is outside of them goes on with a reply, which may lead inside: then the answer is the call. Takes no
/// memory.
#[tactic(auto, using(crate::proofs::TextLemmas::begun_is))]
pub fn reply_outside<P: JavaProgram>(
    program: &P,
    thread: u32,
    frames: &mut Frames,
    texts: &mut TextRun,
    reply: Reply,
) -> Option<CallSite>
    requires fits { FitsNext (java_code.next (local_of (P.units program.now) thread frames.old)) reply }
    requires room { HasRoomNow texts.old }
    ensures state { state_over (P.units program.now) thread frames.new texts.new result
        ≡ java_code.reply (local_of (P.units program.now) thread frames.old) reply }
    ensures saves { frames.new.saves ≡ frames.old.saves }
    ensures stands { IsTrue (stands_in result frames.new.here.stage) }
    ensures room { HasRoomNow texts.new }
{
    match todo_of(program, thread, frames) {
        Some(Todo::Wants(_, then)) => {
            go_on_behind_any(program, thread, frames, then, reply);
            None
        }
        Some(Todo::Texts(site, job)) => {
            texts.begin(job);
            reply_inside(program, thread, frames, texts, site, reply)
        }
        _ => None,
    }
}

/// A thread that is inside a method makes a silent step, which takes the room for a text. Answers the call if it is still
/// inside afterwards. After an error all is as before.
#[tactic(auto, using(crate::proofs::TextLemmas::silent_leads))]
pub fn silent_inside<P: JavaProgram>(
    alloc: Global,
    program: &P,
    thread: u32,
    frames: &mut Frames,
    texts: &mut TextRun,
    site: CallSite,
) -> Result<Option<CallSite>, NoMemory>
    requires silent { java_code.next (state_over (P.units program.now) thread frames.old texts.old (Some site)) ≡ nexts.Silent }
    requires room { HasRoomNow texts.old }
    ensures state { IfOk result (λ inside. state_over (P.units program.now) thread frames.new texts.new inside
        ≡ java_code.silent (state_over (P.units program.now) thread frames.old texts.old (Some site))) }
    ensures saves { OnOk result (frames.new.saves ≡ frames.old.saves) }
    ensures stands { IfOk result (λ inside. IsTrue (stands_in inside frames.new.here.stage)) }
    ensures room { OnOk result (HasRoomNow texts.new) }
    ensures frames { OnErr result (frames.new ≡ frames.old) }
    ensures texts { OnErr result (texts.new ≡ texts.old) }
{
    let reached = texts.silent(alloc, program)?;
    Ok(go_on_inside(program, thread, frames, texts, site, reached))
}
