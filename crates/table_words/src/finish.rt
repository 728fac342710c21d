//! The end of a table: its seats are joined, and it hands out its words.

ghost use Rattle.std.specs.Prelude.{◌≡◌, ◌≤◌, [], vec_capacity};
ghost use Rattle.std.specs.Mem.Slots.{slots_items, slots_len, IsFull};

use crate::rule::SeatParts;
use crate::seat::TableSeat;
use crate::table::{TableWords, Unfinished};
use atomic_table::Closed;
use op_core::ThreadCode;
use plain_words::PlainWords;
use std::alloc::Global;

// Copies the words of a closed table to the end of an empty list, which has room for them.
fn copy_words(closed: &Closed<(), Global>, count: usize, words: &mut Vec<u64>)
    requires full { IsFull closed.now.words }
    requires count { count ≡ slots_len closed.now.words }
    requires empty { words.old.items ≡ [] }
    requires room { count ≤ vec_capacity words.old }
    ensures { words.new.items ≡ slots_items closed.now.words }
{
    for i in 0..count {
        words.push_reserved(closed.word(i));
    }
}

impl<C: ThreadCode> TableWords<C> {
    ghost use Rattle.std.specs.Prelude.{◌≡◌, ◌++◌, IfOk, IfErr, All};
    ghost use Rattle.plain_words.specs.Table.{words_in};
    ghost use Rattle.table_words.specs.Ends.{HaveAllThreads, IsWholeRun};
    ghost use Rattle.table_words.specs.Setups.{setup_areas};
    ghost use Rattle.table_words.specs.Tables.{setup_in, parts_of_seat, parts_of_seats, IsSeatOf};

    // The seat takes in the parts of another.
    fn join(&self, seat: &mut TableSeat<C>, other: TableSeat<C>)
        requires seat { IsSeatOf self.now seat.old }
        requires other { IsSeatOf self.now other }
        ensures seat { IsSeatOf self.now seat.new }
        ensures both { parts_of_seat seat.new ≡ parts_of_seat seat.old ++ parts_of_seat other }
    {
        self.table
            .shared
            .join_seat::<SeatParts<C>>(&mut seat.seat, other.seat);
    }

    // One seat with the parts of all.
    fn join_all(&self, first: TableSeat<C>, rest: Vec<TableSeat<C>>) -> TableSeat<C>
        requires first { IsSeatOf self.now first }
        requires rest { All (IsSeatOf self.now) rest.items }
        ensures seat { IsSeatOf self.now result }
        ensures all { parts_of_seat result ≡ parts_of_seat first ++ parts_of_seats rest.items }
    {
        let mut seat = first;
        for other in rest {
            self.join(&mut seat, other);
        }
        seat
    }

    /// Hands out the words. They are those after a run in which the parts of the given seats are all that its threads did, and
    /// each thread has exactly one part. The seats must be those of this table, with a part of each thread that one of these
    /// threads handed out.
    ///
    /// # Errors
    ///
    /// [`Unfinished`] where there was no memory. The table and the seats in it are as they were.
    pub fn finish(
        self,
        alloc: Global,
        first: TableSeat<C>,
        rest: Vec<TableSeat<C>>,
    ) -> Result<PlainWords, Unfinished<C>>
        requires first { IsSeatOf self first }
        requires rest { All (IsSeatOf self) rest.items }
        requires all { HaveAllThreads (parts_of_seat first ++ parts_of_seats rest.items) }
        ensures areas { IfOk result (λ x. x.areas ≡ setup_areas (setup_in self)) }
        ensures words { IfOk result (λ x. IsWholeRun C.state C.code (setup_in self) (words_in x) (parts_of_seat first ++ parts_of_seats rest.items)) }
        ensures err { IfErr result (λ u. (u.table ≡ self) × (u.first ≡ first) × (u.rest ≡ rest)) }
    {
        let count = self.table.word_count();
        let Ok(mut words) = Vec::with_capacity(alloc, count) else {
            return Err(Unfinished {
                table: self,
                first,
                rest,
            });
        };
        let seat = self.join_all(first, rest);
        let TableWords {
            table,
            areas,
            objects_from: _,
        } = self;
        let TableSeat { seat } = seat;
        let closed = table.close_with(seat);
        copy_words(&closed, count, &mut words);
        closed.free();
        Ok(PlainWords::of_block(areas, words))
    }
}
