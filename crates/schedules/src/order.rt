//! The items of a schedule's order, the schedule itself, and what a turn can come to.

ghost use Rattle.std.specs.Prelude.{◌≡◌};
ghost use Rattle.schedules.specs.Schedule.{thread_of, has_turns, items_of, item_after};

use op_core::{Limit, Rows};

/// An item of an order: turns for one thread. It ends at once where the thread hasn't begun or has ended.
#[derive(Clone, Copy)]
pub enum OrderItem {
    /// `T*N`: N turns for the thread, from 1 to 1,000,000, whatever they come to.
    Turns(u8, u32),
    /// `T@K`: turns for the thread until one makes a step of this kind that isn't lost, or is blocked.
    /// Which steps have which kind, by numbers from 1, what gives the turns defines.
    Until(u8, u8),
}

impl OrderItem {
    /// The number of the thread that gets the item's turns, from 1 to 255.
    pub fn thread(self) -> u8
        ensures { result ≡ thread_of self }
    {
        match self {
            OrderItem::Turns(thread, _) | OrderItem::Until(thread, _) => thread,
        }
    }

    /// Whether the item has turns to give: `T*N` not where N is 0.
    pub fn has_turns(self) -> bool
        ensures { result ≡ has_turns self }
    {
        match self {
            OrderItem::Turns(_, count) => count > 0,
            OrderItem::Until(_, _) => true,
        }
    }

    /// What is left of the item after a turn that it gave and that came to `end`: `T*N` has one turn less,
    /// and may have none then; `T@K` stays, or is through.
    pub fn after(self, end: TurnEnd) -> Option<OrderItem>
        ensures { items_of result ≡ item_after self end }
    {
        match (self, end) {
            (OrderItem::Until(_, _), TurnEnd::Blocked) => None,
            (OrderItem::Turns(thread, count), _) => {
                Some(OrderItem::Turns(thread, count.saturating_sub(1)))
            }
            (OrderItem::Until(_, kind), TurnEnd::Made(made)) if made == kind => None,
            _ => Some(self),
        }
    }
}

/// Who gets the turns of a run.
#[derive(Drop)]
pub struct Schedule {
    /// The items that give the first turns, one after another.
    pub order: Rows<OrderItem>,
    /// What draws the thread of each later turn. Without a seed it is the lowest one that is enabled.
    pub seed: Option<u64>,
}

/// What a turn came to, as far as a schedule asks.
#[derive(Clone, Copy)]
pub enum TurnEnd {
    /// It made a step of this kind, which wasn't lost.
    Made(u8),
    /// It made no such step and isn't blocked: it made a silent step, say, or one that was lost.
    Other,
    /// The thread has to wait for another one.
    Blocked,
    /// It met this limit, and wasn't made: the run ends.
    Spent(Limit),
}
