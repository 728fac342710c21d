//! Tests of a row that is changed apart from the one with which it shares pages.

use shared_rows::SharedRow;
use std::test::Fail;

const NUMBERS: [(u32, u32); 4] = [(0, 5), (63, 6), (64, 7), (200, 8)];

/// Places, with the numbers there of the row and of the one that began as it.
const READ: [(u32, u32, u32); 7] = [
    (0, 5, 5),
    (1, 0, 0),
    (63, 6, 6),
    (64, 7, 9),
    (200, 8, 8),
    (201, 0, 0),
    (4294967295, 0, 0),
];

#[test]
fn a_row_is_changed_apart_from_the_one_that_it_began_as(rt: HostRuntime) -> Result<(), Fail> {
    let mut row = SharedRow::new(rt.alloc());
    for (place, number) in NUMBERS {
        row.set(place, number)?;
    }
    let mut copy = row.copy()?;
    copy.set(64, 9)?;
    for (place, number, other) in READ {
        assert!(rt; row.get(place) == number);
        assert!(rt; copy.get(place) == other);
    }
    Ok(())
}
