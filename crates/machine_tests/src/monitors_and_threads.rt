//! Tests of monitors and of the table of threads.

use crate::tables::object;
use machine_cases::ample;
use machine_tables::{MonitorState, Objects, Seat, Standing, Threads, WaitState};
use std::test::Fail;

fn seat(code: u32, waiting: WaitState) -> Seat<u32> {
    Seat {
        standing: Standing::Live(code),
        waiting,
        silent: 0,
    }
}

#[test]
fn a_monitor_is_left_as_often_as_entered(rt: HostRuntime) -> Result<(), Fail> {
    let once = MonitorState::Free.entered(3);
    assert!(rt; matches!(once, Some(MonitorState::Held(3, 1))));
    let twice = MonitorState::Held(3, 1).entered(3);
    assert!(rt; matches!(twice, Some(MonitorState::Held(3, 2))));
    assert!(rt; MonitorState::Held(3, u64::MAX).entered(3).is_none());
    assert!(rt; matches!(MonitorState::Held(3, 2).exited(), MonitorState::Held(3, 1)));
    assert!(rt; matches!(MonitorState::Held(3, 1).exited(), MonitorState::Free));
    assert!(rt; MonitorState::Held(3, 2).count() == 2);
    assert!(rt; MonitorState::Free.count() == 0);
    Ok(())
}

#[test]
fn an_object_has_its_monitor(rt: HostRuntime) -> Result<(), Fail> {
    let mut objects = Objects::new(rt.alloc());
    ample(objects.insert(20, ample(object(rt.alloc()))?))?;
    assert!(rt; objects.is_free(20));
    objects.set_monitor(20, MonitorState::Held(2, 1));
    assert!(rt; matches!(objects.monitor(20), MonitorState::Held(2, 1)));
    assert!(rt; !objects.is_free(20));
    assert!(rt; objects.is_owner(2, 20) && !objects.is_owner(1, 20));
    assert!(rt; objects.is_open_to(2, 20) && !objects.is_open_to(1, 20));
    Ok(())
}

#[test]
fn threads_are_found_by_number(rt: HostRuntime) -> Result<(), Fail> {
    let mut threads = Threads::new(rt.alloc());
    assert!(rt; threads.free_number() == Some(2));
    ample(threads.insert(1, seat(10, WaitState::Awake)))?;
    ample(threads.insert(2, seat(20, WaitState::Awake)))?;
    assert!(rt; threads.free_number() == Some(3));
    assert!(rt; threads.is_free_number(3) && !threads.is_free_number(2));
    assert!(rt; threads.highest() == 2);
    threads.set_standing(2, Standing::Ended(None), 6);
    let before = threads.replace_standing(1, Standing::Ended(Some(4)));
    assert!(rt; matches!(before, Some(Standing::Live(10))));
    assert!(rt; threads.has_ended(1));
    assert!(rt; threads.get(2).map(|found| found.silent) == Some(6));
    assert!(rt; threads.has_ended(2) && !threads.has_ended(3));
    Ok(())
}

#[test]
fn the_lowest_waiting_thread_comes_first(rt: HostRuntime) -> Result<(), Fail> {
    let mut threads = Threads::new(rt.alloc());
    ample(threads.insert(5, seat(10, WaitState::Waits(9, 2))))?;
    ample(threads.insert(3, seat(20, WaitState::Waits(9, 1))))?;
    assert!(rt; threads.first_waiting(9) == 3);
    assert!(rt; threads.is_first_waiting(9, 3) && !threads.is_first_waiting(9, 5));
    let notified = threads.waiting(3).notified();
    assert!(rt; notified.saved_count() == 1);
    threads.set_waiting(3, notified);
    assert!(rt; threads.is_notified_for(9, 3) && !threads.is_notified_for(8, 3));
    assert!(rt; threads.first_waiting(9) == 5);
    assert!(rt; threads.first_waiting(8) == 0);
    Ok(())
}
