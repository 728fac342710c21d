//! Tests of schedules: which thread a seed picks, and whose turns an order gives.

use op_core::Rows;
use schedules::{LiveThreads, OrderItem, Remaining, Schedule, TurnEnd, next_number, pick};
use std::alloc::Global;
use std::test::Fail;

const ENABLED: [u8; 3] = [2, 5, 9];

/// A number, the one that is drawn after it, and the thread of those above that it picks.
const DRAWS: [(u64, u64, u8); 4] = [
    (1, 7806831264735756412, 9),
    (7806831264735756412, 9396908728118811419, 2),
    (18446744073709551615, 13525302890751722018, 5),
    (0, 1442695040888963407, 9),
];

#[test]
fn a_seed_draws_numbers_that_pick_threads(rt: HostRuntime) -> Result<(), Fail> {
    for (before, drawn, thread) in DRAWS {
        assert!(rt; next_number(before) == drawn);
        assert!(rt; pick(&ENABLED, Some(drawn)) == Some(thread));
    }
    assert!(rt; pick(&ENABLED, None) == Some(2));
    assert!(rt; pick(&[], Some(1)).is_none());
    Ok(())
}

const ORDER: [OrderItem; 6] = [
    OrderItem::Turns(2, 2),
    OrderItem::Turns(3, 0),
    OrderItem::Turns(6, 4),
    OrderItem::Until(4, 7),
    OrderItem::Until(5, 7),
    OrderItem::Turns(1, 1),
];

/// Whose turns the order gives where thread 6 isn't live, and what each comes to.
const TURNS: [(u8, TurnEnd); 7] = [
    (2, TurnEnd::Other),
    (2, TurnEnd::Blocked),
    (4, TurnEnd::Made(6)),
    (4, TurnEnd::Other),
    (4, TurnEnd::Made(7)),
    (5, TurnEnd::Blocked),
    (1, TurnEnd::Made(7)),
];

fn schedule(alloc: Global) -> Result<Schedule, Fail> {
    Ok(Schedule {
        order: Rows::from_vec(Vec::from_slice(alloc, &ORDER)?),
        seed: Some(1),
    })
}

/// The threads of these numbers are live.
#[derive(Drop)]
pub(crate) struct Live<'a> {
    pub(crate) threads: &'a [u8],
}

impl<'a> LiveThreads for Live<'a> {
    ghost use Rattle.std.specs.Prelude.{◌==◌};
    ghost use Rattle.std.specs.List.{list_any};

    ghost live = { λ those thread. list_any (λ number. thread == number) those.threads.now };

    fn is_live(&self, thread: u8) -> bool {
        self.threads.iter().any(|number| thread == *number)
    }
}

#[test]
fn an_order_gives_turns_item_by_item(rt: HostRuntime) -> Result<(), Fail> {
    let schedule = schedule(rt.alloc())?;
    let mut left = Remaining::new(&schedule);
    let live = Live {
        threads: &[1, 2, 3, 4, 5],
    };
    for (thread, end) in TURNS {
        assert!(rt; left.due(&live) == Some(thread));
        left.end_turn(end);
    }
    assert!(rt; left.due(&live).is_none());
    assert!(rt; left.draw() == Some(7806831264735756412));
    assert!(rt; left.draw() == Some(9396908728118811419));
    Ok(())
}
