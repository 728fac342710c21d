//! Tests of the steps on shared words: their answers, those that are refused, and the words at first.

ghost use Rattle.step_port.specs.declared.step.Step.{Step};
ghost use Rattle.step_port.specs.Steps.{IsOwnStep};

use crate::setting::opened;
use heap_words::Area;
use plain_words::PlainWords;
use std::test::Fail;
use step_port::{Step, StepAnswer, StepPort, ThreadWord, make_step};

const FOUND: &str = "found";

const DONE: &str = "done";

const LOST: &str = "lost";

/// A live section with one open level, and the same with two.
const ONE: u64 = 0x01_00_01_02_01;

const TWO: u64 = 0x02_00_01_02_01;

/// The one with two, revoked to the second.
const REVOKED: u64 = 0x02_02_00_01_02_03;

/// Steps on one table, one after another: the number of the step's kind, the step, and what it answers.
const STEPS: [(u8, Step, (&str, u64)); 62] = [
    (1, Step::LoadWord(8), (FOUND, 30)),
    (1, Step::LoadWord(10), (FOUND, 1)),
    (4, Step::DrawSection, (FOUND, 0)),
    (5, Step::OpenSection(1, ONE), (DONE, 0)),
    (6, Step::LoadSection(1), (FOUND, ONE)),
    (12, Step::TakeMonitor(6, 0x01_0001_0000_0001), (DONE, 0)),
    (11, Step::LoadMonitor(6), (FOUND, 0x01_0001_0000_0001)),
    (
        12,
        Step::TakeMonitor(6, 0x01_0001_0000_0002),
        (LOST, 0x01_0001_0000_0001),
    ),
    (13, Step::SetDepth(6, 0x01_0002_0000_0001), (DONE, 0)),
    (11, Step::LoadMonitor(6), (FOUND, 0x01_0002_0000_0001)),
    (2, Step::SwapWord(10, 1, 0x0100_0001_0000_000B), (DONE, 0)),
    (2, Step::SwapWord(10, 1, 5), (LOST, 0x0100_0001_0000_000B)),
    (1, Step::LoadWord(10), (FOUND, 0x0100_0001_0000_000B)),
    (32, Step::OpenLevel(1, ONE), (DONE, 0)),
    (32, Step::OpenLevel(1, ONE), (LOST, TWO)),
    (6, Step::LoadSection(1), (FOUND, TWO)),
    (33, Step::CloseLevel(1, TWO, 1), (DONE, 0)),
    (33, Step::CloseLevel(1, TWO, 1), (LOST, ONE)),
    (32, Step::OpenLevel(1, ONE), (DONE, 0)),
    (8, Step::Revoke(1, TWO, 2), (DONE, 0)),
    (7, Step::Pin(1, TWO, 1), (LOST, REVOKED)),
    (9, Step::Commit(1, TWO), (LOST, REVOKED)),
    (32, Step::OpenLevel(1, TWO), (LOST, REVOKED)),
    (3, Step::RestoreWord(10, 1), (DONE, 0)),
    (1, Step::LoadWord(10), (FOUND, 1)),
    (14, Step::Release(6), (DONE, 0)),
    (11, Step::LoadMonitor(6), (FOUND, 0)),
    (10, Step::MarkUndone(1, ONE), (DONE, 0)),
    (6, Step::LoadSection(1), (FOUND, ONE)),
    (4, Step::DrawSection, (FOUND, 1)),
    (5, Step::OpenSection(2, 0x01_00_05_01_01), (DONE, 0)),
    (7, Step::Pin(2, 0x01_00_05_01_01, 1), (DONE, 0)),
    (
        8,
        Step::Revoke(2, 0x01_00_05_01_01, 1),
        (LOST, 0x01_01_05_01_01),
    ),
    (9, Step::Commit(2, 0x01_01_05_01_01), (DONE, 0)),
    (6, Step::LoadSection(2), (FOUND, 0x01_01_05_01_05)),
    (15, Step::TakeWords(4), (FOUND, 0)),
    (15, Step::TakeWords(2), (FOUND, 4)),
    (16, Step::SetHeader(17, 0x2_0000_001E), (DONE, 0)),
    (1, Step::LoadWord(17), (FOUND, 0x2_0000_001E)),
    (17, Step::Ticket, (FOUND, 0)),
    (17, Step::Ticket, (FOUND, 1)),
    (18, Step::DrawThread, (FOUND, 1)),
    (21, Step::LoadThread(ThreadWord::Start(1)), (FOUND, 1)),
    (21, Step::LoadThread(ThreadWord::Start(12)), (FOUND, 0)),
    (19, Step::StartThread(12, 2), (DONE, 0)),
    (19, Step::StartThread(12, 3), (LOST, 2)),
    (21, Step::LoadThread(ThreadWord::Start(12)), (FOUND, 2)),
    (21, Step::LoadThread(ThreadWord::Ended(2)), (FOUND, 0)),
    (20, Step::EndThread(2), (DONE, 0)),
    (21, Step::LoadThread(ThreadWord::Ended(2)), (FOUND, 1)),
    (24, Step::LoadWait(1), (FOUND, 0)),
    (22, Step::SetWait(1, 0x1_0000_0006), (DONE, 0)),
    (23, Step::Notify(1, 0x1_0000_0006), (DONE, 0)),
    (23, Step::Notify(1, 0x1_0000_0006), (LOST, 0x2_0000_0006)),
    (24, Step::LoadWait(1), (FOUND, 0x2_0000_0006)),
    (25, Step::LoadClass(7), (FOUND, 2)),
    (25, Step::LoadClass(30), (FOUND, 0)),
    (26, Step::ClaimClass(30, 2), (DONE, 0)),
    (26, Step::ClaimClass(30, 1), (LOST, 0x02_01)),
    (25, Step::LoadClass(30), (FOUND, 0x02_01)),
    (27, Step::SettleClass(30, 2), (DONE, 0)),
    (25, Step::LoadClass(30), (FOUND, 2)),
];

fn own_made(words: &mut PlainWords, step: Step) -> Option<(&'static str, u64)>
    requires { IsOwnStep step }
{
    if !words.may_step(step) {
        return None;
    }
    Some(match make_step(words, step) {
        StepAnswer::Found(word) => (FOUND, word),
        StepAnswer::Done => (DONE, 0),
        StepAnswer::Lost(word) => (LOST, word),
    })
}

/// What a step of a thread answers, where it can be made.
fn made(words: &mut PlainWords, step: Step) -> Option<(&'static str, u64)> {
    match step {
        Step::LoadStop
        | Step::SetStop
        | Step::Split(_, _, _)
        | Step::LookMonitor(_)
        | Step::LookSection(_)
        | Step::BreakLevel(_, _, _) => None,
        _ => own_made(words, step),
    }
}

#[test]
fn each_kind_of_step_is_made_on_its_word(rt: HostRuntime) -> Result<(), Fail> {
    let mut words = opened(rt.alloc())?;
    for (kind, step, answer) in STEPS {
        assert!(rt; step.kind() == kind);
        assert!(rt; made(&mut words, step) == Some(answer));
    }
    Ok(())
}

/// Whether the host threads are to stop, before and after the stop word is set.
fn stops(words: &mut PlainWords) -> Option<(bool, bool)> {
    if !words.may_step(Step::LoadStop) || !words.may_step(Step::SetStop) {
        return None;
    }
    let before = words.load_stop();
    words.set_stop();
    Some((before, words.load_stop()))
}

#[test]
fn host_threads_stop_and_threads_are_handed_out(rt: HostRuntime) -> Result<(), Fail> {
    let mut words = opened(rt.alloc())?;
    assert!(rt; stops(&mut words) == Some((false, true)));
    assert!(rt; Step::LoadStop.kind() == 28 && Step::SetStop.kind() == 29);
    let split = Step::Split(2, 12, 5);
    assert!(rt; split.kind() == 30);
    assert!(rt; words.may_step(split) && words.split(2, 12, 5).is_ok());
    Ok(())
}

/// The steps that no turn makes: loads of a monitor and of a section, and the revocation of a level.
fn beside(words: &mut PlainWords) -> Option<(u64, u64, Result<(), u64>, u64)> {
    let open = Step::OpenSection(1, TWO);
    let look_monitor = Step::LookMonitor(6);
    let look_section = Step::LookSection(1);
    let revoke = Step::BreakLevel(1, TWO, 2);
    if !words.may_step(open)
        || !words.may_step(look_monitor)
        || !words.may_step(look_section)
        || !words.may_step(revoke)
    {
        return None;
    }
    words.open_section(1, TWO);
    let monitor = words.look_monitor(6);
    let section = words.look_section(1);
    let revoked = words.break_level(1, TWO, 2);
    Some((monitor, section, revoked, words.look_section(1)))
}

#[test]
fn steps_beside_turns_read_and_revoke(rt: HostRuntime) -> Result<(), Fail> {
    let mut words = opened(rt.alloc())?;
    assert!(rt; beside(&mut words) == Some((0, TWO, Ok(()), REVOKED)));
    assert!(rt; Step::LookMonitor(6).kind() == 34 && Step::LookSection(1).kind() == 35);
    assert!(rt; Step::BreakLevel(1, TWO, 2).kind() == 36);
    Ok(())
}

/// Steps that can't be made: their word isn't there, or the sum is too large.
const REFUSED: [Step; 8] = [
    Step::LoadSection(4),
    Step::LoadClass(31),
    Step::LoadWord(27),
    Step::LoadMonitor(26),
    Step::LoadMonitor(u32::MAX),
    Step::StartThread(24, 2),
    Step::StartThread(u32::MAX - 2, 2),
    Step::TakeWords(u64::MAX),
];

#[test]
fn steps_past_the_end_of_an_area_are_refused(rt: HostRuntime) -> Result<(), Fail> {
    let mut words = opened(rt.alloc())?;
    assert!(rt; made(&mut words, Step::TakeWords(1)) == Some((FOUND, 0)));
    for step in REFUSED {
        assert!(rt; made(&mut words, step).is_none());
    }
    assert!(rt; made(&mut words, Step::LoadWord(26)) == Some((FOUND, 0)));
    Ok(())
}

/// Each word that isn't 0 as a run begins.
const OPENING: [(Area, u64); 12] = [
    (Area::Control(4), 1),
    (Area::Class(1), 2),
    (Area::Class(7), 2),
    (Area::Object(1), 7),
    (Area::Object(3), 5),
    (Area::Object(4), 1),
    (Area::Object(6), 1),
    (Area::Object(8), 30),
    (Area::Object(10), 1),
    (Area::Object(11), 2),
    (Area::Object(12), 7),
    (Area::Object(14), 5),
];

fn raw(words: &PlainWords, area: Area) -> Option<u64> {
    let areas = words.areas;
    if areas.contains(area) {
        Some(words.raw(areas.place(area)))
    } else {
        None
    }
}

/// How many words aren't 0.
fn count(words: &PlainWords) -> usize {
    (0..words.areas.size())
        .filter(|place| words.raw(*place) != 0)
        .count()
}

#[test]
fn a_run_begins_with_fixed_objects_and_ready_classes(rt: HostRuntime) -> Result<(), Fail> {
    let words = opened(rt.alloc())?;
    for (area, word) in OPENING {
        assert!(rt; raw(&words, area) == Some(word));
    }
    assert!(rt; count(&words) == OPENING.len());
    Ok(())
}
