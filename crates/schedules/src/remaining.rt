//! What is left of a schedule while a run follows it.

ghost use Rattle.std.specs.Prelude.{◌≡◌, slice_get, drop};
ghost use Rattle.std.specs.Option.{option_map};
ghost use Rattle.schedules.specs.Schedule.{order_of, order_after, drawn, thread_of, rest_due};

use crate::{OrderItem, Schedule, TurnEnd, next_number};
use std::marker::Model;

/// Says which threads are live: they have begun and have not ended.
pub trait LiveThreads {
    ghost use Rattle.std.specs.Prelude.{ℕ, Bool};

    /// The thread of a number is live.
    ghost live: { Self → ℕ → Bool };

    /// Whether the thread is live.
    fn is_live(&self, thread: u8) -> bool
        ensures { result ≡ live self.now thread };
}

/// What is left of a schedule while a run follows it. Contracts see it as the items that are left, the
/// first one with the turns that it has still to give, and the last number that was drawn.
#[derive(Drop)]
pub struct Remaining<'a> {
    item: Option<OrderItem>,
    others: &'a [OrderItem],
    number: Option<u64>,
}

impl<'a> Model for Remaining<'a> {
    ghost use Rattle.schedules.specs.Schedule.{Rest, order_of};

    ghost Value = { Rest };

    ghost view = { λ left. record { order = order_of left.item left.others.now; number = left.number } };
}

impl<'a> Remaining<'a> {
    /// The whole schedule.
    pub fn new(schedule: &'a Schedule) -> Self
        ensures { result ≡ record { order = schedule.now.order; number = schedule.now.seed } }
    {
        Remaining {
            item: None,
            others: schedule.order.as_slice(),
            number: schedule.seed,
        }
    }

    /// The first item that is left, or `None` where the order is through.
    pub fn first(&self) -> Option<OrderItem>
        ensures { result ≡ slice_get self.now.order 0 }
    {
        match self.item {
            Some(item) => Some(item),
            None => self.others.first().copied(),
        }
    }

    // Puts this in the first item's place.
    fn replace_first(&mut self, item: Option<OrderItem>)
        ensures { self.new ≡ record self.old { order = order_of item (drop 1 self.old.order) } }
    {
        if let (None, [_, others @ ..]) = (self.item, self.others) {
            self.others = others;
        }
        self.item = item;
    }

    /// Drops the first item that is left, if there is one.
    pub fn drop_first(&mut self)
        ensures { self.new ≡ record self.old { order = drop 1 self.old.order } }
    {
        self.replace_first(None);
    }

    /// Drops the items that end without a turn of theirs, those without turns and those of threads that aren't live.
    /// Returns the thread of the first item after them, which gets the next turn, or `None` where the order is
    /// through.
    pub fn due<T: LiveThreads>(&mut self, threads: &T) -> Option<u8>
        ensures rest { self.new ≡ rest_due (T.live threads.now) self.old }
        ensures thread { result ≡ option_map thread_of (slice_get self.new.order 0) }
    {
        while let Some(item) = self.first() {
            if item.has_turns() && threads.is_live(item.thread()) {
                return Some(item.thread());
            }
            self.drop_first();
        }
        None
    }

    /// Takes off what a turn of the first item uses up, given what the turn came to. Nothing changes where
    /// the order is through.
    #[tactic(auto, using(crate::proofs::OrderLemmas::order_after_first, crate::proofs::OrderLemmas::order_after_none))]
    pub fn end_turn(&mut self, end: TurnEnd)
        ensures { self.new ≡ record self.old { order = order_after self.old.order end } }
    {
        if let Some(item) = self.first() {
            self.replace_first(item.after(end));
        }
    }

    /// Draws the next number, if there is a seed.
    pub fn draw(&mut self) -> Option<u64>
        ensures result { result ≡ drawn self.old.number }
        ensures rest { self.new ≡ record self.old { number = drawn self.old.number } }
    {
        let drawn = self.number.map(next_number);
        self.number = drawn;
        drawn
    }
}
