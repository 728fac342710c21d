//! Tests of what a thread meets at a monitor that it wants: free, its own, to be revoked, or busy.

use monitor_core::{Contend, Why, contend_with, decide, is_own};

/// An answer as a word and its number.
fn shown(contend: Contend) -> (&'static str, u8) {
    match contend {
        Contend::Free => ("free", 0),
        Contend::Own => ("own", 0),
        Contend::Revoke(level) => ("revoke", level),
        Contend::Busy(Why::NotHigher(priority)) => ("not higher", priority),
        Contend::Busy(Why::Pinned) => ("pinned", 0),
        Contend::Busy(Why::Revoking) => ("revoking", 0),
        Contend::Busy(Why::Leaving) => ("leaving", 0),
        Contend::Busy(_) => ("other", 0),
    }
}

/// The monitor, the section that holds it, the thread's own section and its priority, and what becomes of it.
const ROWS: [(u64, u64, u32, u8, (&str, u8)); 17] = [
    (0, 0, 0, 5, ("free", 0)),
    (0, 0, 3, 1, ("free", 0)),
    (0x01_0001_0000_0003, 0x01_00_05_01_01, 3, 5, ("own", 0)),
    (0x02_0002_0000_0003, 0x02_02_05_01_01, 3, 5, ("own", 0)),
    (0x01_0001_0000_0003, 0x01_00_01_02_01, 0, 10, ("revoke", 1)),
    (0x01_0001_0000_0003, 0x01_00_01_02_01, 4, 2, ("revoke", 1)),
    (0x02_0001_0000_0003, 0x03_01_01_02_01, 4, 2, ("revoke", 2)),
    (
        0x01_0001_0000_0003,
        0x01_00_05_02_01,
        0,
        5,
        ("not higher", 5),
    ),
    (
        0x01_0001_0000_0003,
        0x01_00_0A_02_01,
        4,
        5,
        ("not higher", 10),
    ),
    (0x01_0001_0000_0003, 0x02_01_01_02_01, 0, 10, ("pinned", 0)),
    (0x02_0001_0000_0003, 0x02_03_0A_02_01, 0, 10, ("pinned", 0)),
    (0x02_0001_0000_0003, 0x01_00_01_02_01, 0, 10, ("leaving", 0)),
    (0x03_0001_0000_0003, 0x02_03_01_02_01, 0, 10, ("leaving", 0)),
    (
        0x02_0001_0000_0003,
        0x01_02_00_01_02_03,
        0,
        10,
        ("revoking", 0),
    ),
    (0x01_0001_0000_0003, 0x01_00_01_02_04, 0, 10, ("leaving", 0)),
    (0x01_0001_0000_0003, 0x01_00_01_02_05, 0, 10, ("leaving", 0)),
    (0x01_0001_0000_0003, 0x01_00_01_02_02, 0, 10, ("leaving", 0)),
];

#[test]
fn a_wanted_monitor_is_free_own_revoked_or_busy(rt: HostRuntime) {
    for (monitor, section, own, priority, contend) in ROWS {
        assert!(rt; shown(decide(monitor, section, own, priority)) == contend);
        assert!(rt; is_own(monitor, own) == (contend.0 == "own"));
    }
    assert!(rt; shown(contend_with(0x01_00_01_02_01, 1, 1)) == ("not higher", 1));
}
