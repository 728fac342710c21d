//! Tests of the undo log: what is logged last comes off first.

ghost use Rattle.std.specs.Prelude.{◌≡◌, ◌∷◌, OnOk};

use crate::setting::ample;
use op_core::NoMemory;
use std::test::Fail;
use write_log::{Noted, WriteLog};

fn noted(log: &mut WriteLog, at: u32, old: u64) -> Result<(), NoMemory>
    ensures { OnOk result (log.new.noted ≡ record { at = at; old = old } ∷ log.old.noted) }
{
    log.reserve()?;
    log.note(Noted { at, old });
    Ok(())
}

fn last(log: &WriteLog) -> Option<(u32, u64)> {
    log.last().map(|noted| (noted.at, noted.old))
}

/// More than room is made for at first, so that the log grows.
const MANY: u32 = 50;

#[test]
fn what_is_noted_last_comes_off_first(rt: HostRuntime) -> Result<(), Fail> {
    let mut log = WriteLog::empty(rt.alloc());
    assert!(rt; log.is_empty() && last(&log).is_none());
    for at in 0..MANY {
        ample(noted(&mut log, at, at as u64 + 7))?;
        assert!(rt; log.len() == at as usize + 1);
        assert!(rt; last(&log) == Some((at, at as u64 + 7)));
    }
    for at in 1..MANY {
        assert!(rt; last(&log) == Some((MANY - at, (MANY - at) as u64 + 7)));
        if log.last().is_some() {
            log.drop_last();
        }
    }
    assert!(rt; log.len() == 1 && last(&log) == Some((0, 7)));
    log.clear();
    assert!(rt; log.is_empty() && log.len() == 0);
    Ok(())
}
