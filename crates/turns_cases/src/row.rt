//! Scripts, orders of turns, and what they come to.

use crate::run::Run;
use monitor_core::Why;
use op_core::{How, Limit, Limits, Line, Rows};
use schedules::{OrderItem, Schedule};
use std::alloc::{AllocError, Global};
use std::test::Fail;
use toy_code::ToyScript;

/// How a run ends.
#[derive(Clone, Copy, PartialEq, Eq)]
pub enum End {
    Done,
    Stuck,
    Turns,
    Heap,
    Sections,
    Other,
}

fn end_of(how: How) -> End {
    match how {
        How::Done => End::Done,
        How::Stuck => End::Stuck,
        How::Limit(1, Limit::Turns) => End::Turns,
        How::Limit(1, Limit::Heap) => End::Heap,
        How::Limit(1, Limit::Sections) => End::Sections,
        _ => End::Other,
    }
}

/// Scripts, the order of their turns, and what they come to. After the order the lowest thread that may be picked has
/// the turn.
#[derive(Clone, Copy)]
pub struct Row {
    /// The script of main, with the number 0, and those of the threads that it starts, by their objects.
    pub scripts: &'static [ToyScript<'static>],
    pub limits: Limits,
    pub order: &'static [OrderItem],
    /// Why threads had to wait.
    pub waits: &'static [(&'static str, u32)],
    pub end: End,
    /// What was printed.
    pub lines: &'static [i32],
    /// How many sections were opened and undone.
    pub sections: (u32, u32),
    /// The turns of threads 1, 2, .. that count; none where they aren't looked at.
    pub counted: &'static [u64],
}

/// The limits of a run that meets none.
pub const AMPLE: Limits = Limits {
    turns: 1000,
    heap: 10,
    sections: 30,
};

fn shown(why: Why) -> (&'static str, u32) {
    match why {
        Why::NotHigher(priority) => ("not higher", priority as u32),
        Why::Pinned => ("pinned", 0),
        Why::Revoking => ("revoking", 0),
        Why::Leaving => ("leaving", 0),
        Why::WordRevoking(section) => ("word revoking", section),
        Why::Alive(thread) => ("alive", thread as u32),
        Why::NotNotified => ("not notified", 0),
        Why::ClassBusy(thread) => ("class busy", thread as u32),
    }
}

fn schedule_of(alloc: Global, order: &[OrderItem]) -> Result<Schedule, AllocError> {
    Ok(Schedule {
        order: Rows::from_vec(Vec::from_slice(alloc, order)?),
        seed: None,
    })
}

fn has_waited(run: &Run<'_>, waits: &[(&'static str, u32)]) -> bool {
    if run.waits().len() != waits.len() {
        return false;
    }
    for (why, wait) in run.waits().iter().zip(waits) {
        if shown(*why) != *wait {
            return false;
        }
    }
    true
}

fn has_printed(run: &Run<'_>, numbers: &[i32]) -> Result<bool, AllocError> {
    let lines = run.lines()?;
    if lines.len() != numbers.len() {
        return Ok(false);
    }
    for (line, number) in lines.iter().zip(numbers) {
        if *line != Line::Int(*number) {
            return Ok(false);
        }
    }
    Ok(true)
}

/// The run of a row, where it comes to what the row says.
pub fn run_of(alloc: Global, row: Row) -> Result<Option<Run<'static>>, Fail> {
    let schedule = schedule_of(alloc, row.order)?;
    let mut run = Run::begin(alloc, row.scripts, row.limits)?;
    let how = run.follow(&schedule)?;
    let comes_so = end_of(how) == row.end
        && has_waited(&run, row.waits)
        && has_printed(&run, row.lines)?
        && run.sections() == row.sections
        && (row.counted.is_empty() || run.counted()?.as_slice() == row.counted);
    Ok(if comes_so { Some(run) } else { None })
}
