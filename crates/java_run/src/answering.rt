//! The answer of a run.

ghost use Rattle.std.specs.Prelude.{◌≡◌, ◌≤◌, ◌∷◌, [], ◌++◌, IfOk, OnOk, IfSome, Some, List, length, map, filter_map};
ghost use Rattle.java_machine.specs.Ends as ends;
ghost use Rattle.java_machine.specs.Lines as lines;
ghost use Rattle.java_run.specs.Run as spec;
ghost use Rattle.op_core.specs.declared.Event.{Event};
ghost use Rattle.op_core.specs.declared.Undo.{Undo};

use java_machine::{MadeLines, World, died_line, limit_line, line_bytes};
use op_core::{How, Line, MadeText, NoMemory, Outcome, ThreadEnd};
use program_answers::{Answer, Output, Status};
use rows::{Bytes, Rows};
use std::alloc::{AllocError, Global};

fn status_of(how: How) -> Status
    ensures { result ≡ spec.status_of how }
{
    match how {
        How::Done => Status::Done,
        How::Died => Status::Died,
        How::Stuck => Status::Stuck,
        How::Limit(..) => Status::Limit,
    }
}

// The bytes of the printed lines, of which the program made these texts.
pub(crate) fn printed(
    alloc: Global,
    world: &World,
    made: &[MadeText],
    printed: &[Line],
) -> Result<Rows<Bytes>, NoMemory>
    ensures { IfOk result (λ out. out ≡ map (lines.line_bytes world.now made.now) printed.now) }
{
    let texts = MadeLines::new(alloc, made)?;
    let mut out = Rows::new(alloc);
    for line in printed {
        out.push(line_bytes(alloc, world, &texts, *line)?)?;
    }
    Ok(out)
}

// The line of a thread, if it died.
fn push_died(
    alloc: Global,
    world: &World,
    err: &mut Rows<Bytes>,
    end: ThreadEnd,
) -> Result<(), NoMemory>
    ensures { OnOk result (err.new ≡ err.old ++ filter_map (ends.died_line world.now) (end ∷ [])) }
{
    match died_line(alloc, world, end)? {
        Some(line) => {
            err.push(line)?;
            Ok(())
        }
        None => Ok(()),
    }
}

// The lines of the threads that died.
#[tactic(auto, using(crate::proofs::AnswerLemmas::item_more))]
fn died(alloc: Global, world: &World, ended: &[ThreadEnd]) -> Result<Rows<Bytes>, NoMemory>
    ensures { IfOk result (λ err. err ≡ filter_map (ends.died_line world.now) ended.now) }
{
    let mut err = Rows::new(alloc);
    for end in ended {
        push_died(alloc, world, &mut err, *end)?;
    }
    Ok(err)
}

// Why the run didn't end of itself.
fn push_how(alloc: Global, err: &mut Rows<Bytes>, how: How) -> Result<(), NoMemory>
    ensures { OnOk result (err.new ≡ err.old ++ spec.how_lines how) }
{
    match how {
        How::Stuck => err.push(Bytes::from_slice(alloc, b"stuck\n")?)?,
        How::Limit(thread, limit) => err.push(limit_line(alloc, limit, thread)?)?,
        How::Done | How::Died => {}
    }
    Ok(())
}

// How many sections were opened, and how often a thread undid levels.
fn count_line(alloc: Global, outcome: &Outcome) -> Result<Bytes, AllocError>
    ensures { IfOk result (λ line. line ≡ spec.count_line outcome.now) }
{
    let opened = outcome.opened.to_string(alloc)?;
    let undone = outcome.undone.to_string(alloc)?;
    let mut text = Vec::from_slice(alloc, b"counts: opened ")?;
    text.extend_from_slice(opened.as_bytes())?;
    text.extend_from_slice(b" undone ")?;
    text.extend_from_slice(undone.as_bytes())?;
    text.push(b'\n')?;
    Ok(Bytes::from_vec(text))
}

// What goes to the standard error.
fn err_lines(alloc: Global, world: &World, outcome: &Outcome) -> Result<Rows<Bytes>, NoMemory>
    ensures { IfOk result (λ err. err ≡ spec.err_lines world.now outcome.now) }
{
    let mut err = died(alloc, world, outcome.ends.as_slice())?;
    push_how(alloc, &mut err, outcome.how)?;
    Ok(err)
}

// What goes to the standard error, with the counts where they are asked for.
fn counted_err_lines(
    alloc: Global,
    world: &World,
    counts: bool,
    outcome: &Outcome,
) -> Result<Rows<Bytes>, NoMemory>
    ensures { IfOk result (λ err. err ≡ spec.counted_err_lines world.now counts outcome.now) }
{
    let mut err = err_lines(alloc, world, outcome)?;
    if counts {
        err.push(count_line(alloc, outcome)?)?;
    }
    Ok(err)
}

/// The status of a run, the lines that it printed, and what goes to the standard error.
#[derive(Drop)]
pub struct PrintedRun {
    pub status: Status,
    pub lines: Rows<Bytes>,
    pub err: Rows<Bytes>,
}

/// The lines of a run that came to this, with its counts where they are asked for.
pub(crate) fn printed_run(
    alloc: Global,
    world: &World,
    counts: bool,
    outcome: &Outcome,
) -> Result<PrintedRun, NoMemory>
    ensures { IfOk result (λ run. spec.shown run ≡ spec.answer_of world.now counts outcome.now) }
{
    let lines = printed(
        alloc,
        world,
        outcome.made.as_slice(),
        outcome.lines.as_slice(),
    )?;
    Ok(PrintedRun {
        status: status_of(outcome.how),
        lines,
        err: counted_err_lines(alloc, world, counts, outcome)?,
    })
}

/// The answer of a run that came to this and kept its events and undoings: their journal.
pub(crate) fn journal_answer(
    alloc: Global,
    world: &World,
    outcome: Outcome,
) -> Result<Answer, NoMemory>
    requires { IfSome outcome.events (λ events. length events ≤ 4194304) }
    ensures { (events : List Event) (undos : List Undo) → outcome.events ≡ Some events → outcome.undos ≡ Some undos
        → IfOk result (λ answer. answer ≡ spec.journal_answer world.now events undos outcome) }
{
    let err = err_lines(alloc, world, &outcome)?;
    let Outcome {
        how,
        events,
        undos,
        ..
    } = outcome;
    let out = match (events, undos) {
        (Some(events), Some(undos)) => Output::from_journal(alloc, events, undos),
        _ => Output::from_pieces(Rows::new(alloc)),
    };
    Ok(Answer {
        status: status_of(how),
        out,
        err,
    })
}
